//! The cases, by their first word and by what they are of: nothing, rows, tables, a reading of a
//! cut, or a cut.
ghost use Rattle.std.specs.Prelude.{◌≤◌};
ghost use Rattle.plan_model.specs.declared.limits.TheConstants.{MEMBERS};
ghost use Rattle.plan_model.specs.Cut.{IsSoundCut};
ghost use Rattle.plan_model.specs.Members.{member_count};

use crate::{
    answers, blockings, changes, cuts, cycles, faults, fillings, line_edits, look_ups, names,
    orders, reaching, readings, sheets, shown, spelling, texts,
};
use line_tables::LineTables;
use plan_model::{Cut, MEMBERS, Reading};
use row_text::{RowList, rows};
use small_lines::{
    Text, halves, line_at, number_of, rows_of_case, small_number, starts_line, tables_of, word,
};
use std::alloc::Global;

// What a case tries.
#[derive(Clone, Copy)]
enum Case {
    Again,
    AllCuts,
    Blockings,
    Changes,
    Copies,
    Cut,
    CutAmong,
    Cycle,
    Edits,
    Fault,
    Fill,
    IsAnswer,
    Line,
    List,
    Long,
    LookUps,
    Many,
    Name,
    Names,
    Occupancy,
    Order,
    Rate,
    Reach,
    Reading,
    Rows,
    Sheet,
    Shows,
    Spell,
    Trains,
    Version,
}

// Each case, by the first word of its line.
const CASES: &[(&str, Case)] = &[
    ("?again", Case::Again),
    ("?all-cuts", Case::AllCuts),
    ("?blockings", Case::Blockings),
    ("?changes", Case::Changes),
    ("?copies", Case::Copies),
    ("?cut", Case::Cut),
    ("?cut-among", Case::CutAmong),
    ("?cycle", Case::Cycle),
    ("?edits", Case::Edits),
    ("?fault", Case::Fault),
    ("?fill", Case::Fill),
    ("?is-answer", Case::IsAnswer),
    ("?line", Case::Line),
    ("?list", Case::List),
    ("?long", Case::Long),
    ("?look-ups", Case::LookUps),
    ("?many", Case::Many),
    ("?name", Case::Name),
    ("?names", Case::Names),
    ("?occupancy", Case::Occupancy),
    ("?order", Case::Order),
    ("?rate", Case::Rate),
    ("?reach", Case::Reach),
    ("?reading", Case::Reading),
    ("?rows", Case::Rows),
    ("?sheet", Case::Sheet),
    ("?shows", Case::Shows),
    ("?spell", Case::Spell),
    ("?trains", Case::Trains),
    ("?version", Case::Version),
];

fn case_of(line: &[u8]) -> Option<Case> {
    let first = word(line, 0);
    for i in 0..CASES.len() {
        let (name, case) = CASES[i];
        if name.as_bytes() == first {
            return Some(case);
        }
    }
    None
}

// Repeats each remark and the line of each case, and writes what comes of it.
pub(crate) fn write_cases(alloc: Global, text: &mut Text, script: &[u8]) {
    for at in 0..script.len() {
        if starts_line(script, at, b'#') {
            text.put_line(line_at(script, at));
        } else if starts_line(script, at, b'?') {
            write_case(alloc, text, script, at);
        }
    }
}

fn write_case(alloc: Global, text: &mut Text, script: &[u8], at: usize) {
    let line = line_at(script, at);
    text.put_line(line);
    match case_of(line) {
        Some(case) => write_of_words(alloc, text, case, script, at, line),
        None => text.put_line(b"no such case"),
    }
}

fn write_of_words(
    alloc: Global,
    text: &mut Text,
    case: Case,
    script: &[u8],
    at: usize,
    line: &[u8],
) {
    match case {
        Case::List => names::write_list(alloc, text),
        Case::Name => names::write_name(alloc, text, line),
        Case::Names => names::write_names(alloc, text, line),
        Case::Again => spelling::write_again(alloc, text, line),
        Case::Sheet => sheets::write_sheet(alloc, text),
        Case::Reach => reaching::write_reach(alloc, text, line),
        Case::Rate => orders::write_rate(text, line),
        Case::Fault | Case::Long | Case::Spell | Case::Version | Case::Line | Case::Rows => {
            write_of_bytes(alloc, text, case, line);
        }
        _ => write_of_line(alloc, text, case, script, at, line),
    }
}

// What comes of the bytes that a case's line has.
fn write_of_bytes(alloc: Global, text: &mut Text, case: Case, line: &[u8]) {
    let bytes = texts::bytes_of(alloc, line);
    match rows(alloc, bytes.bytes()) {
        Ok(rows) => write_of_rows(alloc, text, case, line, &rows),
        Err(_) => text.lose(),
    }
}

fn write_of_rows(alloc: Global, text: &mut Text, case: Case, line: &[u8], rows: &RowList<'_>) {
    match case {
        Case::Fault => faults::write_first(alloc, text, small_number(word(line, 1)), rows),
        Case::Long => faults::write_first(alloc, text, 1, rows),
        Case::Line => faults::write_at(alloc, text, number_of(word(line, 1)) as usize, rows),
        Case::Spell => spelling::write_spelled(alloc, text, small_number(word(line, 1)), rows),
        Case::Version => texts::write_version(text, rows),
        _ => texts::write_rows(text, rows),
    }
}

// What comes of the line that a case's rows make, and of the edits after them.
fn write_of_line(
    alloc: Global,
    text: &mut Text,
    case: Case,
    script: &[u8],
    at: usize,
    line: &[u8],
) {
    let mut rows = rows_of_case(alloc, script, at);
    if matches!(case, Case::Many | Case::Fill) {
        answers::put_runs(&mut rows, number_of(word(line, 1)));
    }
    let (before, edits) = halves(rows.bytes());
    match tables_of(alloc, text, before) {
        Some(mut tables) => write_of_tables(alloc, text, case, line, &mut tables, edits),
        None => text.put_line(b"no tables"),
    }
}

fn write_of_tables(
    alloc: Global,
    text: &mut Text,
    case: Case,
    line: &[u8],
    tables: &mut LineTables,
    edits: &[u8],
) {
    match case {
        Case::Edits => line_edits::write_edits(alloc, text, tables, edits),
        Case::LookUps => look_ups::write_look_ups(alloc, text, tables, line),
        Case::Blockings => blockings::write_blockings(alloc, text, tables),
        Case::CutAmong => cuts::write_cut_among(alloc, text, tables),
        Case::AllCuts => cuts::write_all_cuts(alloc, text, tables),
        Case::Changes => changes::write_changes(alloc, text, tables, edits),
        _ => write_of_section(alloc, text, case, line, tables),
    }
}

// What comes of the cut of a section: of that which the line names, or else of S with stamp 7.
fn write_of_section(alloc: Global, text: &mut Text, case: Case, line: &[u8], tables: &LineTables) {
    let found = match case {
        Case::Cut => cuts::cut_in(alloc, text, tables, word(line, 1), number_of(word(line, 2))),
        _ => cuts::cut_in(alloc, text, tables, b"S", 7),
    };
    match found {
        Some(cut) => write_of_either(alloc, text, case, line, cut),
        None => text.put_line(b"none"),
    }
}

fn write_of_either(alloc: Global, text: &mut Text, case: Case, line: &[u8], cut: Cut)
    requires { IsSoundCut cut }
{
    match case {
        Case::Reading | Case::Copies | Case::Many | Case::Fill | Case::IsAnswer | Case::Trains => {
            let mut reading = Reading::new(cut, number_of(word(line, 1)));
            write_of_reading(alloc, text, case, line, &mut reading);
        }
        _ => write_of_cut(alloc, text, case, line, &cut),
    }
}

fn write_of_reading(
    alloc: Global,
    text: &mut Text,
    case: Case,
    line: &[u8],
    reading: &mut Reading,
) {
    match case {
        Case::Reading => readings::write_reading(text, reading, word(line, 2)),
        Case::Copies => readings::write_copies(alloc, text, reading),
        Case::Many => answers::write_answer(alloc, text, reading),
        Case::Trains => answers::write_trains(alloc, text, line, reading),
        Case::Fill => fillings::write_fill(alloc, text, reading, small_number(word(line, 2))),
        _ => answers::write_is_answer(alloc, text, line, reading),
    }
}

fn write_of_cut(alloc: Global, text: &mut Text, case: Case, line: &[u8], cut: &Cut)
    requires { IsSoundCut cut.now }
{
    if cut.rows.len() > MEMBERS {
        return text.put_line(b"too many trains");
    }
    write_of_few(alloc, text, case, line, cut);
}

// What comes of a cut of few trains.
fn write_of_few(alloc: Global, text: &mut Text, case: Case, line: &[u8], cut: &Cut)
    requires sound { IsSoundCut cut.now }
    requires few { member_count cut.now ≤ MEMBERS }
{
    match case {
        Case::Order => orders::write_order(alloc, text, cut),
        Case::Occupancy => orders::write_occupancy(text, line, cut),
        Case::Cycle => cycles::write_cycle(alloc, text, cut),
        Case::Shows => shown::write_shown(alloc, text, line, cut),
        _ => cuts::put_cut(text, cut),
    }
}
