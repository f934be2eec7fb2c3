//! The rows of a section's answer.
ghost use Rattle.std.specs.Prelude.{◌≡◌, ◌++◌, ◌∷◌, [], OnOk, OnErr};
ghost use Rattle.row_text.specs.Adds.{Adds, AddsFirst};
ghost use Rattle.capacity_report.specs.Answers as rows;
ghost use Rattle.capacity_report.specs.Answers.{IsAnswerOfSome};

use crate::compressed::plan_rows;
use answer_parts::{crowded_row, opposite_row, ring_rows};
use plan_model::Answer;
use rail_model::{Name, OutOfMemory};
use row_text::Sheet;
use std::alloc::Global;

/// How much of a compressed timetable is written. Other answers have the same rows in each detail.
#[derive(Clone, Copy)]
pub enum Detail {
    /// The rows `ordered` and `rate`: how long the section is occupied, and the rates.
    Head,
    /// The head, and each train with its entries and its tie.
    Trains,
    /// The head, each train, and the chain of the critical train.
    Full,
}

/// Adds the rows of a section's answer. A row that is open is dropped first. It takes memory; where
/// that runs out, only a prefix of the rows is added, and the next row may be open.
pub fn answer_rows(
    alloc: Global,
    sheet: &mut Sheet,
    section: &Name,
    answer: &Answer,
    detail: Detail,
) -> Result<(), OutOfMemory>
    requires { IsAnswerOfSome answer.now }
    ensures ok { OnOk result (sheet.new.rows
        ≡ sheet.old.rows ++ rows.answer_rows section.now answer.now detail) }
    ensures closed { OnOk result (sheet.new.row ≡ []) }
    ensures err { OnErr result (AddsFirst sheet.old sheet.new
        (rows.answer_rows section.now answer.now detail)) }
{
    rows_of(alloc, sheet, section, answer, detail)
}

// Adds the rows of a section's answer, by its kind.
fn rows_of(
    alloc: Global,
    sheet: &mut Sheet,
    section: &Name,
    answer: &Answer,
    detail: Detail,
) -> Result<(), OutOfMemory>
    requires { IsAnswerOfSome answer.now }
    ensures { Adds result sheet.old sheet.new (rows.answer_rows section.now answer.now detail) }
{
    match answer {
        Answer::Ordered(plan) => plan_rows(alloc, sheet, section, plan, detail),
        Answer::Opposite {
            first,
            second,
            block1,
            block2,
        } => opposite_row(sheet, section, first, second, block1, block2),
        Answer::Ring(links) => ring_rows(sheet, section, links.slice()),
        Answer::Crowded { count } => crowded_row(sheet, section, *count),
    }
}
