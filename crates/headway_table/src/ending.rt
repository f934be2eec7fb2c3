//! A place that a train ends, beside the starts of all trains there.
ghost use Rattle.std.specs.Prelude.{◌≡◌, ℕ, ℤ, ◌<◌, ◌-ℤ◌, [], length, slice_index_or, All};
ghost use Rattle.plan_model.specs.Cut.{IsUsable};
ghost use Rattle.plan_model.specs.Members.{no_use};
ghost use Rattle.headway_table.specs.Numbers as numbers;

use crate::pair::after_entry;
use crate::starts::short;
use plan_model::CutRow;
use rail_model::{List, Use};

// What one use of a train asks of all others at its place: how long after its entry the train ends
// it, and by the trains' positions how long after their entries they start there.
#[derive(Clone, Copy)]
pub(crate) struct Ending<'a> {
    pub(crate) end: i32,
    pub(crate) starts: &'a [i32],
}

// The ending of a train's use, by the use's position among the train's.
pub(crate) fn ending_at<'a>(starts: &'a [List<i32>], row: &CutRow, k: usize) -> Ending<'a>
    requires usable { IsUsable (length starts.now) row.now }
    requires there { k < length row.now.uses }
    ensures { numbers.IsEndingOf starts.now row.now (slice_index_or row.now.uses k no_use) result }
{
    let one = row.uses.slice()[k];
    Ending {
        end: short(after_entry(one.end, row.entry)),
        starts: starts[one.block as usize].slice(),
    }
}
