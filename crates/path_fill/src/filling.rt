//! How many copies of a train a section can take.
ghost use Rattle.std.specs.Prelude.{◌≡◌, ◌<◌, ◌≤◌, IfOk, []};
ghost use Rattle.plan_model.specs.declared.limits.TheConstants.{MEMBERS};
ghost use Rattle.plan_model.specs.Cut.{IsSoundCut};
ghost use Rattle.plan_model.specs.Members.{member_count};
ghost use Rattle.plan_model.specs.Disorder.{remaining};
ghost use Rattle.train_order.specs.Ordering.{IsOrder};
ghost use Rattle.compression.specs.Promise.{IsTaken};
ghost use Rattle.path_fill.specs.Filling.{IsFill, IsFilling};

use crate::blocks::{first_copy, own_headway, times_kept};
use crate::copies::fill_up;
use crate::found::Fill;
use plan_model::{Answer, Cut, FitCut, Rows, is_crowded};
use rail_model::OutOfMemory;
use std::alloc::Global;
use train_order::order;
use train_placing::place_in_window;

/// The greatest number of copies of a train that can follow all trains of a reading's cut with a
/// capacity consumption of at most 1. `row` is the train's position.
///
/// Copies keep the train's running and dwell times, come after all trains on the blocks that they
/// use, and each after the one before; all enter as early as that allows, and none before the
/// window. A connection binds no copy. The error is the answer of the cut, exactly where the cut
/// isn't compressed. Nothing is taken of a crowded cut, and of another the whole cut, once.
///
/// For a caller that has a reading, as a worker of a session has. The command `fill` has the cut,
/// and calls `fill_of_cut`.
pub fn fill<R: Rows>(
    alloc: Global,
    reading: &mut R,
    row: u32,
) -> Result<Result<Fill, Answer>, OutOfMemory>
    requires { row < member_count (R.shown reading.old).cut }
    ensures fill { IfOk result (IsFilling (R.shown reading.old).cut row) }
    ensures reading { IsTaken (R.shown reading.old) (R.shown reading.new) }
{
    let count = reading.count();
    if is_crowded(count) {
        return Ok(Err(Answer::Crowded { count }));
    }
    fill_of_cut(alloc, reading.whole(), row)
}

/// The greatest number of copies of a train that can follow all trains of a cut, which has at most
/// `MEMBERS` members: as `fill` says of a reading's cut. `row` is the train's position.
pub fn fill_of_cut(alloc: Global, cut: &Cut, row: u32) -> Result<Result<Fill, Answer>, OutOfMemory>
    requires sound { IsSoundCut cut.now }
    requires few { member_count cut.now ≤ MEMBERS }
    requires there { row < member_count cut.now }
    ensures { IfOk result (IsFilling cut.now row) }
{
    match order(alloc, cut)? {
        Ok(found) => {
            let fit = FitCut::of(cut);
            Ok(Ok(fill_in(alloc, &fit, found.positions.slice(), row)?))
        }
        Err(disorder) => Ok(Err(disorder.into_answer())),
    }
}

// How many copies of a train a cut can take whose trains have this order.
fn fill_in(alloc: Global, cut: &FitCut, order: &[u32], row: u32) -> Result<Fill, OutOfMemory>
    requires none { remaining cut.now ≡ [] }
    requires order { IsOrder cut.now order.now }
    requires there { row < member_count cut.now }
    ensures { IfOk result (IsFill cut.now row) }
{
    let placing = place_in_window(alloc, cut, order)?;
    let sound = cut.sound();
    let entry = first_copy(sound, row, &placing.last);
    let (alone, first) = times_kept(sound, row, &placing.entries, entry);
    let headway = own_headway(sound, row);
    let section = &sound.cut().section;
    Ok(fill_up(section, alone, first as u64, headway as u64))
}
