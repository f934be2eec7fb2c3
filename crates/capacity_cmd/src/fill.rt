//! The command `fill`.
ghost use Rattle.std.specs.Prelude.{◌<◌, IfOk};
ghost use Rattle.plan_model.specs.Cut.{IsSoundCut};
ghost use Rattle.plan_model.specs.Members.{member_count};
ghost use Rattle.path_fill.specs.Filling.{IsOrdered, IsFill};
ghost use Rattle.capacity_cmd.specs.Ends.{EndsOnNamed, member_named, with_member, IsFillText, IsFilledText};
ghost use Rattle.capacity_cmd.specs.Stopped.{Makes};

use crate::named::{cut_named, row_named};
use crate::no_plan::{crowded_text, head_text, is_crowded};
use crate::stopped::Stopped;
use crate::{Cause, Told};
use line_tables::LineTables;
use path_fill::{Fill, fill_of_cut, fill_rows};
use plan_model::Cut;
use rail_model::{Name, OutOfMemory};
use row_text::{Sheet, Text};
use sentences::told_of_run;
use std::alloc::Global;

// The rows of the section that is named, filled with copies of the run that is named, or why there
// are none.
pub(crate) fn fill_text(
    alloc: Global,
    tables: &LineTables,
    section: Option<Name>,
    run: Option<Name>,
    told: &mut Told,
) -> Result<Text, Stopped<Cause>>
    ensures { Makes (EndsOnNamed IsFillText (member_named tables.now section run)) result }
{
    let cut = cut_named(alloc, tables, section, told)?;
    text_on_cut(alloc, &cut, run, told)
}

// The rows for the cut of the section, or the refusal of a run that is no member.
fn text_on_cut(
    alloc: Global,
    cut: &Cut,
    run: Option<Name>,
    told: &mut Told,
) -> Result<Text, Stopped<Cause>>
    requires { IsSoundCut cut.now }
    ensures { Makes (EndsOnNamed IsFillText (with_member run cut.now)) result }
{
    match row_named(cut, run) {
        Some(row) => Ok(member_text(alloc, cut, row)?),
        None => {
            *told = told_of_run(alloc, cut, run);
            Err(Stopped::Refused(Cause::NoMember))
        }
    }
}

// The head of the answer where the cut has no compressed timetable, and else the rows of the section
// that is filled with copies of the member.
fn member_text(alloc: Global, cut: &Cut, row: usize) -> Result<Text, OutOfMemory>
    requires sound { IsSoundCut cut.now }
    requires there { row < member_count cut.now }
    ensures { IfOk result (IsFillText (cut.now, row)) }
{
    if is_crowded(cut) {
        return crowded_text(alloc, cut);
    }
    match fill_of_cut(alloc, cut, row as u32)? {
        Ok(fill) => filled_text(alloc, cut, row, &fill),
        Err(answer) => head_text(alloc, cut, &answer),
    }
}

fn filled_text(alloc: Global, cut: &Cut, row: usize, fill: &Fill) -> Result<Text, OutOfMemory>
    requires sound { IsSoundCut cut.now }
    requires there { row < member_count cut.now }
    requires ordered { IsOrdered cut.now }
    requires fill { IsFill cut.now row fill.now }
    ensures { IfOk result (IsFilledText cut.now row) }
{
    let run = &cut.rows.slice()[row].name;
    let mut sheet = Sheet::new(alloc);
    fill_rows(alloc, &mut sheet, &cut.section, run, fill)?;
    Text::of(sheet.into_text())
}
