//! The answer of a section that has no compressed timetable, as it is written where one is asked
//! for.
ghost use Rattle.std.specs.Prelude.{◌<◌, ◌≡◌, ◌∷◌, [], IfOk, nat_lt};
ghost use Rattle.row_text.specs.SheetRows.{text_of_rows};
ghost use Rattle.plan_model.specs.declared.limits.TheConstants.{MEMBERS};
ghost use Rattle.plan_model.specs.Cut.{IsSoundCut};
ghost use Rattle.plan_model.specs.Members.{member_count};
ghost use Rattle.plan_model.specs.Answer.{IsAnswer};
ghost use Rattle.capacity_report.specs.Answers.{crowded_row};
ghost use Rattle.path_fill.specs.Filling.{IsNoPlan};
ghost use Rattle.capacity_cmd.specs.Ends.{IsHeadText};

use capacity_report::{Detail, answer_rows, crowded_row};
use plan_model::{Answer, Cut, MEMBERS};
use rail_model::OutOfMemory;
use row_text::{Sheet, Text};
use std::alloc::Global;

// Whether a cut has more members than are compressed.
pub(crate) fn is_crowded(cut: &Cut) -> bool
    ensures { result ≡ nat_lt MEMBERS (member_count cut.now) }
{
    cut.rows.len() > MEMBERS
}

// The text of a crowded cut: how many members it has.
pub(crate) fn crowded_text(alloc: Global, cut: &Cut) -> Result<Text, OutOfMemory>
    requires sound { IsSoundCut cut.now }
    requires many { MEMBERS < member_count cut.now }
    ensures row { IfOk result (λ text. text
        ≡ text_of_rows (crowded_row cut.now.section.name (member_count cut.now) ∷ [])) }
    ensures head { IfOk result (IsHeadText cut.now) }
{
    let mut sheet = Sheet::new(alloc);
    crowded_row(&mut sheet, &cut.section.name, cut.rows.len() as u32)?;
    Text::of(sheet.into_text())
}

// The text of a cut's answer that is no compressed timetable.
pub(crate) fn head_text(alloc: Global, cut: &Cut, answer: &Answer) -> Result<Text, OutOfMemory>
    requires sound { IsSoundCut cut.now }
    requires answer { IsAnswer cut.now answer.now }
    requires no_plan { IsNoPlan answer.now }
    ensures { IfOk result (IsHeadText cut.now) }
{
    let mut sheet = Sheet::new(alloc);
    answer_rows(alloc, &mut sheet, &cut.section.name, answer, Detail::Head)?;
    Text::of(sheet.into_text())
}
