//! Which rule a row breaks and by what, in a sentence.
use crate::column::{Column, START, column_at};
use crate::piece::Piece::{Field, Limit, Many, Number, Text};
use crate::piece::{Added, place, tell};
use crate::row_at::{RowAt, noun, row_below, row_of};
use crate::standing::{route_of, run_off, stands, user};
use crate::twice_sentence::twice_sentence;
use rail_model::{BLOCKS, CONNECTIONS, Kind, ROUTES, RUNS, Rule, SECTIONS, SIGNALS};
use row_text::Word;

pub(crate) fn rule_sentence(text: &mut String, row: &RowAt<'_>, rule: Rule) -> Added {
    let (is_put, kind) = match row.word() {
        Some(Word::Put(kind)) => (true, kind),
        Some(Word::Change(kind) | Word::Drop(kind)) => (false, kind),
        _ => return tell(text, "a rule refuses this row", &[]),
    };
    match rule {
        Rule::Range => range_sentence(text, row, kind),
        Rule::Limit => limit_sentence(text, kind),
        Rule::Twice => twice_sentence(text, row, is_put, kind),
        Rule::Unknown => unknown_sentence(text, row, is_put, kind),
        Rule::Count if kind == Kind::Route => changed_count(text, row),
        Rule::Count => count_sentence(text, row),
        Rule::InUse => in_use_sentence(text, row, kind),
    }
}

// Which number is outside its limits: the first.
fn range_sentence(text: &mut String, row: &RowAt<'_>, kind: Kind) -> Added {
    for at in 2..row.len() {
        let is_step = kind == Kind::Run && at > START && row.version == 2;
        let limits = limits_at(kind, at);
        if let Some(value) = value_at(row, at, is_step) {
            if value < limits.1 || value > limits.2 {
                let step = if is_step { Some(value) } else { None };
                return outside_sentence(text, row, at, step, limits);
            }
        }
    }
    let why = "field 4, @, is TO and not greater than field 3, @, which is FROM";
    tell(text, why, &[Field(row.field(3)), Field(row.field(2))])
}

// What a number is called, and its limits: any number is within those of a name.
fn limits_at(kind: Kind, at: usize) -> (&'static str, u32, u32) {
    match column_at(kind, at) {
        Column::Name | Column::NameOf(_) => ("", 0, u32::MAX),
        Column::Number(what, least, most)
        | Column::Rate(what, least, most)
        | Column::Time(what, least, most) => (what, least, most),
    }
}

// The number in a field, or how much greater it is than the one before it.
fn value_at(row: &RowAt<'_>, at: usize, is_step: bool) -> Option<u32> {
    let value = row.number_in(row.version, at)?;
    if !is_step {
        return Some(value);
    }
    let before = row
        .number_in(row.version, at.saturating_sub(1))
        .unwrap_or(0);
    Some(value.saturating_sub(before))
}

// Says that a field is outside these limits, or the step to it from the field before.
fn outside_sentence(
    text: &mut String,
    row: &RowAt<'_>,
    at: usize,
    step: Option<u32>,
    limits: (&'static str, u32, u32),
) -> Added {
    let (what, least, most) = (Text(limits.0), Limit(limits.1), Limit(limits.2));
    let (to, field) = (place(at), Field(row.field(at)));
    let Some(step) = step else {
        let why = "field @, @, is out of range: @ is @ to @";
        return tell(text, why, &[to, field, what, least, most]);
    };
    let first = at.saturating_sub(1);
    let (from, before, step) = (place(first), Field(row.field(first)), Number(step as u64));
    let why = "from field @, @, to field @, @, it is @ s: @ is @ to @";
    tell(
        text,
        why,
        &[from, before, to, field, step, what, least, most],
    )
}

// How many items of a kind there may be.
fn limit_sentence(text: &mut String, kind: Kind) -> Added {
    let most = match kind {
        Kind::Block => BLOCKS,
        Kind::Signal => SIGNALS,
        Kind::Route => ROUTES,
        Kind::Run => RUNS,
        Kind::Section => SECTIONS,
        Kind::Connection => CONNECTIONS,
    };
    let why = "there are @ @s above, and there may be no more";
    tell(text, why, &[Limit(most as u32), Text(noun(kind))])
}

// Which name isn't there: the first.
fn unknown_sentence(text: &mut String, row: &RowAt<'_>, is_put: bool, kind: Kind) -> Added {
    if !is_put && !stands(row.tables, kind, row.field(1)) {
        return no_item(text, row, kind, 1);
    }
    for at in 2..row.len() {
        if let Column::NameOf(kind) = column_at(kind, at) {
            if !stands(row.tables, kind, row.field(at)) {
                return no_item(text, row, kind, at);
            }
        }
    }
    tell(text, "this row names an item that no row above puts", &[])
}

// Says that there is no item of the name in a field.
fn no_item(text: &mut String, row: &RowAt<'_>, kind: Kind, at: usize) -> Added {
    let name = row.field(at);
    let (why, below) = match row_below(row, kind, name) {
        0 => (NO_ITEM, Text("")),
        below => (ITEM_BELOW, Number(below)),
    };
    let is_bare = name.trim_ascii().len() == name.len();
    let blank = Text(if is_bare { "" } else { BLANK });
    tell(
        text,
        why,
        &[place(at), Field(name), Text(noun(kind)), below, blank],
    )
}

const NO_ITEM: &str = "field @, @, is no @ of the rows above@@";

const ITEM_BELOW: &str = "field @, @, is no @ of the rows above; it stands below, in row @@";

const BLANK: &str = "; the blank beside it belongs to the name";

// How many legs a run has, and how many signals its route.
fn count_sentence(text: &mut String, row: &RowAt<'_>) -> Added {
    // The start and the last leg have a field each, and each other leg has two.
    let legs = Many(row.len().saturating_sub(START).div_ceil(2), "leg");
    let route = row.field(2);
    match route_of(row.tables, route) {
        Some(found) => {
            let pieces = [legs, Field(route), Many(found.signals.len(), "signal")];
            tell(text, "this run has @, and its route @ @", &pieces)
        }
        None => tell(
            text,
            "this run has @, and its route another number of signals",
            &[legs],
        ),
    }
}

// How many signals a changed route gets, and how many legs a run over it has.
fn changed_count(text: &mut String, row: &RowAt<'_>) -> Added {
    let count = row.len().saturating_sub(2);
    let signals = Many(count, "signal");
    match run_off(row.tables, row.field(1), count) {
        Some(run) => {
            let name = run.name.bytes();
            let above = Number(row_of(row, Kind::Run, name));
            let pieces = [signals, Field(name), above, Many(run.legs.len(), "leg")];
            tell(
                text,
                "the route gets @, and run @ over it, in row @, has @",
                &pieces,
            )
        }
        None => tell(
            text,
            "the route gets @, and a run over it other legs",
            &[signals],
        ),
    }
}

// Who uses the item that is dropped.
fn in_use_sentence(text: &mut String, row: &RowAt<'_>, kind: Kind) -> Added {
    let name = row.field(1);
    let used = [Text(noun(kind)), Field(name)];
    match user(row.tables, kind, name) {
        Some((by, user)) => {
            let above = Number(row_of(row, by, user.bytes()));
            let [noun_of_name, field] = used;
            tell(
                text,
                IN_USE,
                &[
                    noun_of_name,
                    field,
                    Text(noun(by)),
                    Field(user.bytes()),
                    above,
                ],
            )
        }
        None => tell(text, "@ @ is used by another item", &used),
    }
}

const IN_USE: &str = "@ @ is used by @ @, in row @, which is to be changed or dropped first";
