//! The runs' uses of blocks, in the order in which they are swept.
ghost use Rattle.std.specs.Prelude.{◌≡◌, ◌<◌, All, length, IfOk};
ghost use Rattle.conflict_finder.specs.Runs.{run_uses_in_turn};
ghost use Rattle.conflict_finder.specs.ByBlock.{AreSorted, AreUsesFrom};

use crate::by_block::run_uses_by_block;
use crate::in_order::put_in_order;
use crate::run_starts::RunStart;
use rail_model::{OutOfMemory, Stair};
use std::alloc::Global;

// A run's use of a block: its blocking of the block, from when until when.
#[derive(Clone, Copy)]
pub(crate) struct RunUse {
    pub(crate) start: i64,
    pub(crate) end: i64,
    // The block's number, and the run's number in the order of names.
    pub(crate) block: u32,
    pub(crate) run: u32,
}

// Those of the runs' uses that go to the lists from the place `first` on, in a list for each of
// these places, and each list in the order of starts and runs. Numbers that no block of a line's
// tables has go to the last list of all, in the order of blocks first.
pub(crate) fn run_uses_in_order(
    alloc: Global,
    stairs: &[Stair],
    starts: &[RunStart],
    room: &[u32],
    first: usize,
    last: usize,
) -> Result<Vec<Vec<RunUse>>, OutOfMemory>
    requires { All (λ e. e.stair < length stairs.now) starts.now }
    ensures count { IfOk result (λ by_block. length by_block.items ≡ length room.now) }
    ensures uses { IfOk result (λ by_block.
        AreUsesFrom last first (run_uses_in_turn stairs.now starts.now) by_block.items) }
    ensures order { IfOk result (λ by_block. AreSorted by_block.items) }
{
    let mut by_block = run_uses_by_block(alloc, stairs, starts, room, first, last)?;
    put_in_order(&mut by_block);
    Ok(by_block)
}
