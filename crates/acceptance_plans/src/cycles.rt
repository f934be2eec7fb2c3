//! Cycle times as text.
ghost use Rattle.std.specs.Prelude.{◌≤◌};
ghost use Rattle.plan_model.specs.declared.limits.TheConstants.{MEMBERS};
ghost use Rattle.plan_model.specs.Cut.{IsSoundCut};
ghost use Rattle.plan_model.specs.Members.{member_count};

use cycle_time::{cycle, cycle_rows};
use plan_model::Cut;
use rail_model::OutOfMemory;
use row_text::Sheet;
use small_lines::Text;
use std::alloc::Global;

// The rows of the cycle of a section; nothing where its trains have no order.
pub(crate) fn write_cycle(alloc: Global, text: &mut Text, cut: &Cut)
    requires sound { IsSoundCut cut.now }
    requires few { member_count cut.now ≤ MEMBERS }
{
    let mut sheet = Sheet::new(alloc);
    if push_rows(alloc, &mut sheet, cut).is_err() {
        text.lose();
    }
    text.put(sheet.text());
}

fn push_rows(alloc: Global, sheet: &mut Sheet, cut: &Cut) -> Result<(), OutOfMemory>
    requires sound { IsSoundCut cut.now }
    requires few { member_count cut.now ≤ MEMBERS }
{
    match cycle(alloc, cut)? {
        Ok(cycle) => cycle_rows(sheet, cut, &cycle),
        Err(_) => Ok(()),
    }
}
