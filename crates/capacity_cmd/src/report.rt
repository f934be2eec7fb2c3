//! The command `report`.
ghost use Rattle.std.specs.Prelude.{◌≡◌, ◌<◌, [], length, map, option_copied, IfOk, OnOk};
ghost use Rattle.rail_model.specs.Tables.{section_at};
ghost use Rattle.rail_model.specs.Conflict.{timetable};
ghost use Rattle.plan_model.specs.Cut.{section_cut};
ghost use Rattle.plan_model.specs.Answer.{IsAnswer};
ghost use Rattle.capacity_report.specs.Answers.{total_of, IsAnswerOfSome};
ghost use Rattle.capacity_cmd.specs.Ends.{IsReportText};
ghost use Rattle.capacity_cmd.specs.Heads.{AddsReport, HasHeads, AddsHead, AreHeads};
ghost use Rattle.capacity_cmd.specs.Published.{HaveAnswers};

use crate::compress::answer_of;
use crate::section_heads::{Head, heads_of, take_heads};
use capacity_report::{Detail, Tally, answer_rows, total_row};
use line_tables::LineTables;
use plan_model::Answer;
use rail_model::OutOfMemory;
use row_text::{Sheet, Text};
use section_cut::{AllStairways, cut_among, stairways_in_parts};
use std::alloc::Global;
use std::thread::Threads;

// The heads of the answers of all sections, and their total. Several threads make them.
pub(crate) fn report_text(
    rt: &(impl Threads + Sync),
    alloc: Global,
    tables: &LineTables,
) -> Result<Text, OutOfMemory>
    ensures { IfOk result (IsReportText tables.now) }
{
    let stairs = AllStairways::of(alloc, stairways_in_parts(rt, alloc, tables)?)?;
    let heads = heads_of(rt, alloc, tables, &stairs)?;
    text_of_heads(alloc, tables, heads)
}

// The text of the heads and their total.
fn text_of_heads(alloc: Global, tables: &LineTables, heads: Vec<Head>) -> Result<Text, OutOfMemory>
    requires { AreHeads tables.now 0 heads.items }
    ensures { IfOk result (IsReportText tables.now) }
{
    let mut text = Text::new(alloc);
    let mut tally = Tally::new();
    take_heads(alloc, &mut text, &mut tally, tables, heads)?;
    let mut last = Sheet::new(alloc);
    total_row(&mut last, &tally)?;
    text.push(last.into_text())?;
    Ok(text)
}

// Adds the heads of the answers of all sections, which are there, and their total to a sheet.
pub(crate) fn add_report(
    alloc: Global,
    sheet: &mut Sheet,
    tables: &LineTables,
    answers: &[Option<&Answer>],
) -> Result<(), OutOfMemory>
    requires { HaveAnswers tables.now (map option_copied answers.now) }
    ensures { OnOk result (AddsReport tables.now sheet.old.rows sheet.new.rows) }
{
    let mut tally = Tally::new();
    add_heads(alloc, sheet, &mut tally, tables, answers)?;
    total_row(sheet, &tally)
}

// Adds the head of each section's answer, in the order of the sections' names.
fn add_heads(
    alloc: Global,
    sheet: &mut Sheet,
    tally: &mut Tally,
    tables: &LineTables,
    answers: &[Option<&Answer>],
) -> Result<(), OutOfMemory>
    requires answers { HaveAnswers tables.now (map option_copied answers.now) }
    requires tally { tally.old ≡ total_of [] }
    ensures { OnOk result (HasHeads
        tables.now (length tables.now.sections) sheet.old.rows sheet.new.rows tally.new) }
{
    for number in 0..tables.sections() {
        let Some(answer) = answers[number as usize] else {
            unreachable!();
        };
        add_head(alloc, sheet, tally, tables, number, answer)?;
    }
    Ok(())
}

// Adds the head of the answer of the section of a number.
pub(crate) fn add_head(
    alloc: Global,
    sheet: &mut Sheet,
    tally: &mut Tally,
    tables: &LineTables,
    number: u32,
    answer: &Answer,
) -> Result<(), OutOfMemory>
    requires there { number < length tables.now.sections }
    requires answer { IsAnswer (section_cut tables.now (section_at tables.now number)) answer.now }
    requires of_some { IsAnswerOfSome answer.now }
    requires room { tally.old.sections < 4_294_967_295 }
    ensures { OnOk result (AddsHead
        tables.now
        (section_at tables.now number)
        sheet.old.rows
        sheet.new.rows
        tally.old
        tally.new) }
{
    let section = tables.section(number).name;
    answer_rows(alloc, sheet, &section, answer, Detail::Head)?;
    tally.add(answer);
    Ok(())
}

// The answer of the section of a number.
pub(crate) fn answer_among(
    alloc: Global,
    tables: &LineTables,
    stairs: &AllStairways,
    number: u32,
) -> Result<Answer, OutOfMemory>
    requires stairs { stairs.now ≡ timetable tables.now }
    requires there { number < length tables.now.sections }
    ensures answer { IfOk result
        (IsAnswer (section_cut tables.now (section_at tables.now number))) }
    ensures of_some { IfOk result IsAnswerOfSome }
{
    let cut = cut_among(alloc, tables, stairs, number, 0)?;
    answer_of(alloc, &cut)
}
