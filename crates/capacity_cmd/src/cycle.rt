//! The command `cycle`.
ghost use Rattle.std.specs.Prelude.{IfOk};
ghost use Rattle.plan_model.specs.Cut.{IsSoundCut};
ghost use Rattle.path_fill.specs.Filling.{IsOrdered};
ghost use Rattle.cycle_time.specs.Cycle.{IsCycle};
ghost use Rattle.capacity_cmd.specs.Ends.{cut_named, EndsOnNamed, IsCycleText};
ghost use Rattle.capacity_cmd.specs.Stopped.{Makes};

use crate::named::cut_named;
use crate::no_plan::{crowded_text, head_text, is_crowded};
use crate::stopped::Stopped;
use crate::{Cause, Told};
use cycle_time::{Cycle, cycle, cycle_rows};
use line_tables::LineTables;
use plan_model::Cut;
use rail_model::{Name, OutOfMemory};
use row_text::{Sheet, Text};
use std::alloc::Global;

// The rows of the least cycle time of the section that is named, or why there are none.
pub(crate) fn cycle_text(
    alloc: Global,
    tables: &LineTables,
    section: Option<Name>,
    told: &mut Told,
) -> Result<Text, Stopped<Cause>>
    ensures { Makes (EndsOnNamed IsCycleText (cut_named tables.now section)) result }
{
    let cut = cut_named(alloc, tables, section, told)?;
    Ok(text_of_cut(alloc, &cut)?)
}

// The cycle of a cut whose trains have an order; of any other the head of its answer.
fn text_of_cut(alloc: Global, cut: &Cut) -> Result<Text, OutOfMemory>
    requires { IsSoundCut cut.now }
    ensures { IfOk result (IsCycleText cut.now) }
{
    if is_crowded(cut) {
        return crowded_text(alloc, cut);
    }
    match cycle(alloc, cut)? {
        Ok(cycle) => period_text(alloc, cut, &cycle),
        Err(disorder) => head_text(alloc, cut, &disorder.into_answer()),
    }
}

fn period_text(alloc: Global, cut: &Cut, cycle: &Cycle) -> Result<Text, OutOfMemory>
    requires sound { IsSoundCut cut.now }
    requires ordered { IsOrdered cut.now }
    requires cycle { IsCycle cut.now cycle.now }
    ensures { IfOk result (IsCycleText cut.now) }
{
    let mut sheet = Sheet::new(alloc);
    cycle_rows(&mut sheet, cut, cycle)?;
    Text::of(sheet.into_text())
}
