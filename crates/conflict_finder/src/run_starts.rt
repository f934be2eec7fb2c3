//! Runs in the order in which they enter the line.
ghost use Rattle.std.specs.Prelude.{◌<◌, All, length, IfOk};
ghost use Rattle.std.specs.List.Sorted.{IsPermutation};
ghost use Rattle.conflict_finder.specs.Runs.{all_run_uses, run_uses_in_turn};

use crate::ranked::Ranked;
use rail_model::{OutOfMemory, Stair, Use};
use std::alloc::Global;

// A run's number, the place of its stairway, and the start of its use of the first block of its
// path.
#[derive(Clone, Copy)]
pub(crate) struct RunStart {
    pub(crate) start: i64,
    pub(crate) run: u32,
    pub(crate) stair: usize,
}

// The runs by the starts of their uses of the first block of each path. Their uses are laid in
// this order, which is nearly that of the uses' starts where trains overtake few others.
pub(crate) fn by_start(
    alloc: Global,
    stairs: &[Stair],
    runs: &[Ranked],
) -> Result<Vec<RunStart>, OutOfMemory>
    requires few { length runs.now < 4_294_967_296 }
    requires there { All (λ r. r.stair < length stairs.now) runs.now }
    ensures same { IfOk result (λ starts. IsPermutation
        (all_run_uses stairs.now runs.now) (run_uses_in_turn stairs.now starts.items)) }
    ensures there { IfOk result (λ starts. All (λ e. e.stair < length stairs.now) starts.items) }
{
    let mut starts = Vec::with_capacity(alloc, runs.len())?;
    for (i, run) in runs.iter().enumerate() {
        starts.push(RunStart {
            start: first_start(stairs[run.stair].uses.slice()),
            run: i as u32,
            stair: run.stair,
        })?;
    }
    starts.sort_unstable_by_key(|one| (one.start, one.run));
    Ok(starts)
}

// When a run's use of the first block of its path starts. No clause says so: by it uses are
// laid nearly in order, and put in order later.
fn first_start(uses: &[Use]) -> i64 {
    if uses.is_empty() {
        return 0;
    }
    uses[0].start
}
