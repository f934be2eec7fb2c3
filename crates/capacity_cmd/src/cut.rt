//! The command `cut`.
ghost use Rattle.std.specs.Prelude.{IfOk};
ghost use Rattle.plan_model.specs.Cut.{IsSoundCut};
ghost use Rattle.capacity_cmd.specs.Ends.{cut_named, EndsOnNamed, IsCutText};
ghost use Rattle.capacity_cmd.specs.Stopped.{Makes};

use crate::named::cut_named;
use crate::no_plan::{crowded_text, is_crowded};
use crate::stopped::Stopped;
use crate::{Cause, Told};
use line_cutter::{cut_line, cutting_rows};
use line_tables::LineTables;
use plan_model::Cut;
use rail_model::{Name, OutOfMemory};
use row_text::{Sheet, Text};
use std::alloc::Global;

// The rows of the fewest orderly pieces of the section that is named, or why there are none.
pub(crate) fn cut_text(
    alloc: Global,
    tables: &LineTables,
    section: Option<Name>,
    told: &mut Told,
) -> Result<Text, Stopped<Cause>>
    ensures { Makes (EndsOnNamed IsCutText (cut_named tables.now section)) result }
{
    let cut = cut_named(alloc, tables, section, told)?;
    Ok(text_of_cut(alloc, &cut)?)
}

// The rows of the pieces; of a crowded cut only how many members it has.
fn text_of_cut(alloc: Global, cut: &Cut) -> Result<Text, OutOfMemory>
    requires { IsSoundCut cut.now }
    ensures { IfOk result (IsCutText cut.now) }
{
    if is_crowded(cut) {
        return crowded_text(alloc, cut);
    }
    let cutting = cut_line(alloc, cut)?;
    let mut sheet = Sheet::new(alloc);
    cutting_rows(&mut sheet, cut, &cutting)?;
    Text::of(sheet.into_text())
}
