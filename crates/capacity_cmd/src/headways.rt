//! The command `headways`.
ghost use Rattle.std.specs.Prelude.{IfOk};
ghost use Rattle.plan_model.specs.Cut.{IsSoundCut};
ghost use Rattle.capacity_cmd.specs.Ends.{cut_named, EndsOnNamed, IsHeadwaysText};
ghost use Rattle.capacity_cmd.specs.Stopped.{Makes};

use crate::named::cut_named;
use crate::no_plan::{crowded_text, is_crowded};
use crate::stopped::Stopped;
use crate::{Cause, Told};
use headway_table::matrix;
use line_tables::LineTables;
use plan_model::Cut;
use rail_model::{Name, OutOfMemory};
use row_text::Text;
use std::alloc::Global;
use std::thread::Threads;

// The rows of the headways of the section that is named, or why there are none.
pub(crate) fn headways_text(
    rt: &(impl Threads + Sync),
    alloc: Global,
    tables: &LineTables,
    section: Option<Name>,
    told: &mut Told,
) -> Result<Text, Stopped<Cause>>
    ensures { Makes (EndsOnNamed IsHeadwaysText (cut_named tables.now section)) result }
{
    let cut = cut_named(alloc, tables, section, told)?;
    Ok(text_of_cut(rt, alloc, &cut)?)
}

// The rows of the headways; of a crowded cut only how many members it has.
fn text_of_cut(rt: &(impl Threads + Sync), alloc: Global, cut: &Cut) -> Result<Text, OutOfMemory>
    requires { IsSoundCut cut.now }
    ensures { IfOk result (IsHeadwaysText cut.now) }
{
    if is_crowded(cut) {
        return crowded_text(alloc, cut);
    }
    let table = matrix(rt, alloc, cut)?;
    capacity_report::headways_text(rt, alloc, cut, &table)
}
