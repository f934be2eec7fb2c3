//! The rows of a journal.
ghost use Rattle.std.specs.Prelude.{◌≡◌, ◌++◌, ◌∷◌, [], length, map, All, codes, decimal};
ghost use Rattle.std.specs.Prelude.{OnOk, OnErr};
ghost use Rattle.plan_model.specs.Legal.{IsLegal};
ghost use Rattle.row_text.specs.Adds.{Adds, AddsFirst};
ghost use Rattle.row_text.specs.Lines.{edit_row};
ghost use Rattle.answer_parts.specs.Adding.{AddsFields, AddsRow};
ghost use Rattle.capacity_report.specs.Rows as rows;
ghost use Rattle.capacity_report.specs.Published.{PublishesAnswer};
ghost use Rattle.capacity_report.specs.Answers.{IsAnswerOfSome};

use crate::answers::{Detail, answer_rows};
use crate::rule::rule_text;
use plan_model::{Act, Answer, Entry, Reply};
use rail_model::{Edit, List, Name, OutOfMemory, Rule};
use row_text::{Field, Fields, Line, Sheet, spell};
use std::alloc::Global;

/// Adds the rows of a legal journal, one entry after the other: `opened`, `entered`, `edited`,
/// `rejected`, `asked`, and `published` with the rows of the answer and its trains. A row that is
/// open is dropped first. It takes memory; where that runs out, only a prefix of the rows is added,
/// and the next row may be open.
pub fn journal_rows(
    alloc: Global,
    sheet: &mut Sheet,
    journal: &List<Entry>,
) -> Result<(), OutOfMemory>
    requires { IsLegal journal.now }
    ensures ok { OnOk result (sheet.new.rows
        ≡ sheet.old.rows ++ rows.rows_of_journal journal.now) }
    ensures closed { OnOk result (sheet.new.row ≡ []) }
    ensures err { OnErr result (AddsFirst sheet.old sheet.new (rows.rows_of_journal journal.now)) }
{
    rows_of_entries(alloc, sheet, journal.slice())
}

// Adds the rows of entries.
fn rows_of_entries(alloc: Global, sheet: &mut Sheet, entries: &[Entry]) -> Result<(), OutOfMemory>
    requires { All (λ e. PublishesAnswer e.act) entries.now }
    ensures { Adds result sheet.old sheet.new (rows.rows_of_journal entries.now) }
{
    sheet.drop_row();
    for entry in entries {
        act_rows(alloc, sheet, &entry.act)?;
    }
    Ok(())
}

// Adds the rows of what an entry says.
pub(crate) fn act_rows(alloc: Global, sheet: &mut Sheet, act: &Act) -> Result<(), OutOfMemory>
    requires { PublishesAnswer act.now }
    ensures { Adds result sheet.old sheet.new (rows.act_rows act.now) }
{
    match act {
        Act::Opened {
            tables,
            at,
            scripts,
        } => opened_row(
            sheet,
            *at,
            scripts.len() as u64,
            tables.sections.len() as u64,
        ),
        Act::Entered { number } => entered_row(sheet, *number),
        Act::Edited { planner, at, edit } => edited_row(alloc, sheet, *planner, *at, edit),
        Act::Refused {
            planner,
            rule,
            edit,
        } => rejected_row(alloc, sheet, *planner, *rule, edit),
        Act::Asked {
            planner,
            section,
            reply,
        } => asked_row(sheet, *planner, section, *reply),
        Act::Published {
            section,
            at,
            answer,
        } => published_rows(alloc, sheet, section, *at, answer),
    }
}

// Adds the row `opened,AT,PLANNERS,SECTIONS`.
fn opened_row(sheet: &mut Sheet, at: u64, planners: u64, sections: u64) -> Result<(), OutOfMemory>
    ensures { Adds result sheet.old sheet.new (rows.opened_row at planners sections ∷ []) }
{
    sheet.write(&[
        Field::Text(b"opened"),
        Field::Count(at),
        Field::Count(planners),
        Field::Count(sections),
    ])
}

// Adds the row `entered,NUMBER` of a pass that was issued.
fn entered_row(sheet: &mut Sheet, number: u32) -> Result<(), OutOfMemory>
    ensures { Adds result sheet.old sheet.new (rows.entered_row number ∷ []) }
{
    sheet.write(&[Field::Text(b"entered"), Field::Count(u64::from(number))])
}

// Adds the row `edited,PLANNER,AT` with the fields that spell the edit.
fn edited_row(
    alloc: Global,
    sheet: &mut Sheet,
    planner: u32,
    at: u64,
    edit: &Edit,
) -> Result<(), OutOfMemory>
    ensures { AddsRow result sheet.old sheet.new (rows.edited_row planner at edit.now) }
{
    sheet.drop_row();
    sheet.push_field(b"edited")?;
    sheet.push_count(u64::from(planner))?;
    sheet.push_count(at)?;
    push_edit(alloc, sheet, edit)?;
    sheet.end_row()
}

// Adds the row `rejected,PLANNER,RULE` with the fields that spell the edit that was refused.
fn rejected_row(
    alloc: Global,
    sheet: &mut Sheet,
    planner: u32,
    rule: Rule,
    edit: &Edit,
) -> Result<(), OutOfMemory>
    ensures { AddsRow result sheet.old sheet.new (rows.rejected_row planner rule edit.now) }
{
    sheet.drop_row();
    sheet.push_field(b"rejected")?;
    sheet.push_count(u64::from(planner))?;
    push_rule(sheet, rule)?;
    push_edit(alloc, sheet, edit)?;
    sheet.end_row()
}

// Adds the field that names a rule.
fn push_rule(sheet: &mut Sheet, rule: Rule) -> Result<(), OutOfMemory>
    ensures { AddsFields result sheet.old sheet.new (rows.rule_text rule ∷ []) }
{
    sheet.push_field(rule_text(rule))
}

// Adds the fields that spell an edit.
fn push_edit(alloc: Global, sheet: &mut Sheet, edit: &Edit) -> Result<(), OutOfMemory>
    ensures { AddsFields result sheet.old sheet.new (edit_row 1 edit.now) }
{
    let row = spell(alloc, &Line::Edit(edit.copy(alloc)?))?;
    push_fields(sheet, &row)
}

// Adds fields to a row.
fn push_fields(sheet: &mut Sheet, fields: &Fields) -> Result<(), OutOfMemory>
    ensures { AddsFields result sheet.old sheet.new fields.now }
{
    for i in 0..fields.len() {
        sheet.push_field(fields.get(i))?;
    }
    Ok(())
}

// Adds the row `asked,PLANNER,SECTION` with the fields of the reply.
fn asked_row(
    sheet: &mut Sheet,
    planner: u32,
    section: &Name,
    reply: Reply,
) -> Result<(), OutOfMemory>
    ensures { AddsRow result sheet.old sheet.new (rows.asked_row planner section.now reply) }
{
    sheet.drop_row();
    sheet.push_field(b"asked")?;
    sheet.push_count(u64::from(planner))?;
    sheet.push_field(section.bytes())?;
    push_reply(sheet, reply)?;
    sheet.end_row()
}

// Adds the fields of a reply to a row: `ready,AT`, `stale,AT,BY`, `not-yet` or `unknown`.
fn push_reply(sheet: &mut Sheet, reply: Reply) -> Result<(), OutOfMemory>
    ensures { AddsFields result sheet.old sheet.new (rows.reply_fields reply) }
{
    match reply {
        Reply::Ready { at } => {
            sheet.push_field(b"ready")?;
            sheet.push_count(at)
        }
        Reply::Stale { at, by } => {
            sheet.push_field(b"stale")?;
            sheet.push_count(at)?;
            sheet.push_count(by)
        }
        Reply::NotYet => sheet.push_field(b"not-yet"),
        Reply::Unknown => sheet.push_field(b"unknown"),
    }
}

// Adds the row `published`, and then the rows of the answer with its trains.
pub(crate) fn published_rows(
    alloc: Global,
    sheet: &mut Sheet,
    section: &Name,
    at: u64,
    answer: &Answer,
) -> Result<(), OutOfMemory>
    requires { IsAnswerOfSome answer.now }
    ensures { Adds result sheet.old sheet.new (rows.published_rows section.now at answer.now) }
{
    published_row(sheet, section, at)?;
    answer_rows(alloc, sheet, section, answer, Detail::Trains)
}

// Adds the row `published,SECTION,AT`.
pub(crate) fn published_row(sheet: &mut Sheet, section: &Name, at: u64) -> Result<(), OutOfMemory>
    ensures { AddsRow result sheet.old sheet.new (rows.published_row section.now at) }
{
    sheet.write(&[
        Field::Text(b"published"),
        Field::Name(section),
        Field::Count(at),
    ])
}
