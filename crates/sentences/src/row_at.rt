//! A row among the rows of its input.
use crate::column::Column;
use crate::said::Said;
use rail_model::{Kind, Name, Tables};
use row_text::{RowList, Word, number, word_of};

// A refused row, with what was read of it for the sentence. It stands among the rows of its input,
// or may stand alone where the sentence speaks of no other.
#[derive(Clone, Copy)]
pub(crate) struct RowAt<'a> {
    pub(crate) rows: &'a RowList<'a>,
    // In which the rows are read: 1 or 2.
    pub(crate) version: u32,
    // From 0, among these rows.
    pub(crate) place: usize,
    // Whether it is the first row of the input.
    pub(crate) is_first: bool,
    // What its first fields say.
    pub(crate) said: &'a [Said],
    // What the rows above it make, where the sentence may name what stands there.
    pub(crate) tables: &'a Tables,
}

impl<'a> RowAt<'a> {
    // How many fields the row has.
    pub(crate) fn len(&self) -> usize {
        len_of(self.rows, self.place)
    }

    // A field of the row, from 0: empty where there is none.
    pub(crate) fn field(&self, at: usize) -> &'a [u8] {
        field_at(self.rows, self.place, at)
    }

    // The number or the seconds that a field says in a version of the rows, if it says any.
    pub(crate) fn number_in(&self, version: u32, at: usize) -> Option<u32> {
        if version != 2 {
            return number(self.field(at));
        }
        match self.said.get(at) {
            Some(said) => said.time,
            None => None,
        }
    }

    // Whether a field is what it is to be in a version of the rows.
    pub(crate) fn fits_in(&self, version: u32, at: usize, column: Column) -> bool {
        match column {
            Column::Name | Column::NameOf(_) => Name::read(self.field(at)).is_ok(),
            Column::Number(..) => number(self.field(at)).is_some(),
            Column::Rate(..) => match self.said.get(at) {
                Some(said) => said.is_rate,
                None => false,
            },
            Column::Time(..) => self.number_in(version, at).is_some(),
        }
    }

    // What the row's first field says, if it is a word: `version` is none.
    pub(crate) fn word(&self) -> Option<Word> {
        word_of(self.field(0))
    }
}

// How many fields the row at a place has.
pub(crate) fn len_of(rows: &RowList<'_>, place: usize) -> usize {
    if place < rows.len() {
        rows.get(place).len()
    } else {
        0
    }
}

// The field of a row: empty where there is none.
pub(crate) fn field_at<'a>(rows: &'a RowList<'_>, place: usize, at: usize) -> &'a [u8] {
    if place >= rows.len() {
        return b"";
    }
    let row = rows.get(place);
    if at < row.len() { row.get(at) } else { b"" }
}

// Whether the row at a place begins a planner's script.
pub(crate) fn is_planner_row(rows: &RowList<'_>, place: usize) -> bool {
    field_at(rows, place, 0) == b"planner".as_slice()
}

// The word of a kind in sentences.
pub(crate) fn noun(kind: Kind) -> &'static str {
    match kind {
        Kind::Block => "block",
        Kind::Signal => "signal",
        Kind::Route => "route",
        Kind::Run => "run",
        Kind::Section => "section",
        Kind::Connection => "connection",
    }
}

// The number of the last row above a place that puts or changes the item of a kind and a name.
pub(crate) fn row_of(row: &RowAt<'_>, kind: Kind, name: &[u8]) -> u64 {
    let mut found = 0;
    for i in 0..row.place {
        if is_row_of(row.rows, i, kind, name) {
            found = i as u64 + 1;
        }
    }
    found
}

// The number of the first row below a row, and above the first script, that puts the item of a
// kind and a name, or 0.
pub(crate) fn row_below(row: &RowAt<'_>, kind: Kind, name: &[u8]) -> u64 {
    for i in row.place..row.rows.len() {
        if is_planner_row(row.rows, i) {
            return 0;
        }
        if i > row.place && is_row_of(row.rows, i, kind, name) {
            return i as u64 + 1;
        }
    }
    0
}

fn is_row_of(rows: &RowList<'_>, i: usize, kind: Kind, name: &[u8]) -> bool {
    match word_of(field_at(rows, i, 0)) {
        Some(Word::Put(of) | Word::Change(of)) => of == kind && field_at(rows, i, 1) == name,
        _ => false,
    }
}
