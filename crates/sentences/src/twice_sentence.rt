//! What stands twice, in a sentence.
use crate::column::FIRST_BLOCK;
use crate::piece::Piece::{Field, Number, Text};
use crate::piece::{Added, place, tell};
use crate::row_at::{RowAt, noun, row_of};
use crate::standing::{block_of, lists, stands};
use rail_model::{Kind, Route, Tables};

pub(crate) fn twice_sentence(
    text: &mut String,
    row: &RowAt<'_>,
    is_put: bool,
    kind: Kind,
) -> Added {
    if is_put {
        if let Some(holder) = holder(row, kind) {
            return taken_sentence(text, row, kind, holder);
        }
    }
    match kind {
        Kind::Signal => changed_signal_sentence(text, row),
        Kind::Connection => tell(
            text,
            "fields 3 and 4 are one run, @",
            &[Field(row.field(2))],
        ),
        Kind::Route => repeat_sentence(text, row, 2),
        Kind::Block | Kind::Run | Kind::Section => repeat_sentence(text, row, FIRST_BLOCK),
    }
}

// The kind in which the name is taken that an item of a kind is to have.
fn holder(row: &RowAt<'_>, kind: Kind) -> Option<Kind> {
    let sharing = match kind {
        Kind::Block => Kind::Connection,
        Kind::Connection => Kind::Block,
        Kind::Signal | Kind::Route | Kind::Run | Kind::Section => kind,
    };
    if stands(row.tables, kind, row.field(1)) {
        Some(kind)
    } else if stands(row.tables, sharing, row.field(1)) {
        Some(sharing)
    } else {
        None
    }
}

fn taken_sentence(text: &mut String, row: &RowAt<'_>, kind: Kind, holder: Kind) -> Added {
    let name = row.field(1);
    let why = if kind == holder { TAKEN } else { SHARED };
    let above = Number(row_of(row, holder, name));
    tell(text, why, &[Field(name), Text(noun(holder)), above])
}

const TAKEN: &str = "field 2, @, is a @ already, in row @";

const SHARED: &str =
    "field 2, @, is a @ already, in row @; blocks and connections share their names";

// The block that two fields from one on name, or that the signals of a route have: those are its
// fields from the third on.
fn repeat_sentence(text: &mut String, row: &RowAt<'_>, from: usize) -> Added {
    for second in from..row.len() {
        let block = block_at(row, from, second);
        for first in from..second {
            if block_at(row, from, first) == block {
                let why = if from == 2 { TWO_SIGNALS } else { ONE_BLOCK };
                return tell(text, why, &[place(first), place(second), Field(block)]);
            }
        }
    }
    tell(text, "this row names a block twice", &[])
}

const TWO_SIGNALS: &str = "the signals in fields @ and @ are both of block @";

const ONE_BLOCK: &str = "fields @ and @ are one block, @";

fn block_at<'a>(row: &RowAt<'a>, from: usize, at: usize) -> &'a [u8] {
    if from == 2 {
        block_of(row.tables, row.field(at))
    } else {
        row.field(at)
    }
}

// The route that would pass the changed signal's block twice.
fn changed_signal_sentence(text: &mut String, row: &RowAt<'_>) -> Added {
    let (signal, block) = (row.field(1), row.field(2));
    for route in row.tables.routes.slice() {
        if let Some(other) = other_signal(row.tables, route, signal, block) {
            let name = route.name.bytes();
            let above = Number(row_of(row, Kind::Route, name));
            let (other, block, signal) = (Field(other), Field(block), Field(signal));
            return tell(
                text,
                SECOND_SIGNAL,
                &[Field(name), above, other, block, signal],
            );
        }
    }
    tell(text, "a route would have two signals of one block", &[])
}

const SECOND_SIGNAL: &str =
    "route @, in row @, has signal @ of block @, and would have a second, @";

// The signal of a route with one of a name that is another and has this block.
fn other_signal<'a>(
    tables: &'a Tables,
    route: &'a Route,
    signal: &[u8],
    block: &[u8],
) -> Option<&'a [u8]> {
    if !lists(route.signals.slice(), signal) {
        return None;
    }
    for name in route.signals.slice() {
        if name.bytes() != signal && block_of(tables, name.bytes()) == block {
            return Some(name.bytes());
        }
    }
    None
}
