//! Why a row is refused, in a sentence for people.
ghost use Rattle.std.specs.Prelude.{◌≡◌, Some, None, IfOk};
ghost use Rattle.std.specs.String.{string_bytes};
ghost use Rattle.sentences.specs.Told.{IsOfRow, of_row};

use crate::Told;
use crate::form_sentence::form_sentence;
use crate::piece::Added;
use crate::row_at::RowAt;
use crate::row_place::{RowPlace, line_at, place_of_row};
use crate::rule_sentence::rule_sentence;
use crate::said::said_by;
use crate::script_sentence::script_sentence;
use crate::standing::tables_above;
use rail_model::{Form, OutOfMemory, Rule};
use row_text::{RowList, rows};
use std::alloc::Global;

/// Why a row is refused: for its form, by a rule, or since it may not stand at its place in an
/// input whose scripts are of so many planners and have so many tasks at most.
#[derive(Clone, Copy)]
pub enum Fault {
    Form(Form),
    Rule(Rule),
    Script { planners: usize, tasks: usize },
}

/// The sentence about the row of a number, counted from 1, at which an input is refused. No clause
/// says what follows the number, nor that anything is told: without memory nothing is.
pub fn told_of_row(alloc: Global, input: &[u8], number: u64, fault: Fault) -> Told
    ensures { IsOfRow number result }
{
    Told::of(row_text(alloc, input, number, fault))
}

fn row_text(alloc: Global, input: &[u8], number: u64, fault: Fault) -> Result<String, OutOfMemory>
    ensures { IfOk result (λ text. IsOfRow number (string_bytes text)) }
{
    let place = if input.contains(&b'"') {
        None
    } else {
        place_of_row(input, number)
    };
    let why = why_text(alloc, input, number, place, fault)?;
    match place {
        Some(at) if at.line != number => in_line(alloc, number, at.line, &why),
        _ => in_row(alloc, number, &why),
    }
}

fn in_line(alloc: Global, number: u64, line: u64, why: &String) -> Result<String, OutOfMemory>
    ensures { IfOk result (λ text. string_bytes text
        ≡ of_row number (Some line) (string_bytes why.now)) }
{
    Ok(format!(in alloc; "row {number}, in line {line}: {why}")?)
}

fn in_row(alloc: Global, number: u64, why: &String) -> Result<String, OutOfMemory>
    ensures { IfOk result (λ text. string_bytes text ≡ of_row number None (string_bytes why.now)) }
{
    Ok(format!(in alloc; "row {number}: {why}")?)
}

// Reads all that a sentence on a row's fault may need, and writes it. Where it speaks of this row
// alone, and this row can be cut alone, no other is cut but the first, which may say the version.
fn why_text(
    alloc: Global,
    input: &[u8],
    number: u64,
    place: Option<RowPlace>,
    fault: Fault,
) -> Result<String, OutOfMemory> {
    if speaks_of_others(fault) {
        return why_among_all(alloc, input, number, fault);
    }
    match place {
        Some(at) if can_be_cut_alone(line_at(input, at.start)) => {
            let row = rows(alloc, line_at(input, at.start))?;
            row_sentence(
                alloc,
                &row,
                version_of(alloc, input)?,
                0,
                number == 1,
                fault,
            )
        }
        _ => why_among_all(alloc, input, number, fault),
    }
}

// Whether the sentence on a fault may speak of other rows than the one that is refused. No sentence
// on a form may: it gets the row alone.
fn speaks_of_others(fault: Fault) -> bool {
    match fault {
        Fault::Form(_) => false,
        Fault::Rule(rule) => names_others(rule),
        Fault::Script { .. } => true,
    }
}

// Whether the sentence on a rule may name what stands above the row: the rows there are then read
// once more.
fn names_others(rule: Rule) -> bool {
    rule != Rule::Range && rule != Rule::Limit
}

// Whether a line is surely the same row where it is cut alone: it doesn't start as a byte order mark
// does, which would be left out at the start of a text.
fn can_be_cut_alone(line: &[u8]) -> bool {
    !line.starts_with(b"\xef".as_slice())
}

// The version in which the rows of a text without double quotes are read.
fn version_of(alloc: Global, input: &[u8]) -> Result<u32, OutOfMemory> {
    match place_of_row(input, 1) {
        Some(first) if can_be_cut_alone(line_at(input, first.start)) => {
            Ok(
                rows(alloc, line_at(input, first.start))?
                    .version()
                    .unwrap_or(1),
            )
        }
        _ => Ok(1),
    }
}

// The sentence on a fault of the row of a number, with all rows of the input.
fn why_among_all(
    alloc: Global,
    input: &[u8],
    number: u64,
    fault: Fault,
) -> Result<String, OutOfMemory> {
    let all = rows(alloc, input)?;
    let version = all.version().unwrap_or(1);
    let place = number.saturating_sub(1) as usize;
    row_sentence(alloc, &all, version, place, number == 1, fault)
}

// The sentence on a fault of the row at a place among some rows, which are read in a version.
fn row_sentence(
    alloc: Global,
    rows: &RowList<'_>,
    version: u32,
    place: usize,
    is_first: bool,
    fault: Fault,
) -> Result<String, OutOfMemory> {
    let said = said_by(alloc, rows, place)?;
    let above = match fault {
        Fault::Rule(rule) if names_others(rule) => place,
        _ => 0,
    };
    let tables = tables_above(alloc, rows, version, above)?;
    let row = RowAt {
        rows,
        version,
        place,
        is_first,
        said: &said,
        tables: &tables,
    };
    let mut text = String::new(alloc);
    fault_sentence(&mut text, &row, fault)?;
    Ok(text)
}

fn fault_sentence(text: &mut String, row: &RowAt<'_>, fault: Fault) -> Added {
    match fault {
        Fault::Form(form) => form_sentence(text, row, form),
        Fault::Rule(rule) => rule_sentence(text, row, rule),
        Fault::Script { planners, tasks } => script_sentence(text, row, planners, tasks),
    }
}
