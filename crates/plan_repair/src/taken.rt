//! A row that is taken of a reading.
ghost use Rattle.std.specs.Prelude.{◌≡◌, ◌<◌, IfOk, length};
ghost use Rattle.plan_model.specs.Members.{member, member_count};
ghost use Rattle.plan_model.specs.Reading.{uses_of};
ghost use Rattle.plan_repair.specs.Kept.{TakesAtMost};

use plan_model::{CutRow, Rows};
use rail_model::OutOfMemory;

// Takes the row at a position. It shares the uses of the cut's row where those can be shared, and
// else copies them.
pub(crate) fn take_row<R: Rows>(reading: &mut R, i: u32) -> Result<CutRow, OutOfMemory>
    requires { i < member_count (R.shown reading.old).cut }
    ensures row { IfOk result (λ row. row ≡ member (R.shown reading.old).cut i) }
    ensures reading { TakesAtMost (length (uses_of (R.shown reading.old) i))
        (R.shown reading.old) (R.shown reading.new) }
{
    // The count is a number of 64 bits: it doesn't fall where it can't rise.
    let _taken = reading.taken();
    reading.row(i).copy()
}
