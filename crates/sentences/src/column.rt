//! The fields of each kind of row: what stands where, and within which limits.
use crate::column::Column::{Name, NameOf, Number, Rate, Time};
use rail_model::{
    GREATEST_LENGTH_M, GREATEST_RATE, GREATEST_START_S, GREATEST_TIME_S, GREATEST_WINDOW_END_S,
    Kind,
};
use row_text::Word;

// What a field is to be. A number, a rate and a time are called so, and have these limits.
#[derive(Clone, Copy)]
pub(crate) enum Column {
    Name,
    // The name of another item: of this kind.
    NameOf(Kind),
    Number(&'static str, u32, u32),
    Rate(&'static str, u32, u32),
    Time(&'static str, u32, u32),
}

static BLOCK: [Column; 3] = [Name, Name, Number("LENGTH", 1, GREATEST_LENGTH_M)];

static SIGNAL: [Column; 8] = [
    Name,
    Name,
    NameOf(Kind::Block),
    Number("APPROACH", 0, GREATEST_LENGTH_M),
    Number("WATCH", 0, GREATEST_TIME_S),
    Number("FORM", 0, GREATEST_TIME_S),
    Number("OVERLAP", 0, GREATEST_LENGTH_M),
    Number("RELEASE", 0, GREATEST_TIME_S),
];

static ROUTE: [Column; 3] = [Name, Name, NameOf(Kind::Signal)];

// In version 2 the limits of a time past the start are those of the time since the one before it.
static RUN: [Column; 8] = [
    Name,
    Name,
    NameOf(Kind::Route),
    Number("LENGTH", 1, GREATEST_LENGTH_M),
    Number("TAIL", 0, GREATEST_TIME_S),
    Time("the start", 0, GREATEST_START_S),
    Time("a running time", 1, GREATEST_TIME_S),
    Time("a dwell time", 0, GREATEST_TIME_S),
];

// The place of a run's start.
pub(crate) const START: usize = 5;

static SECTION: [Column; 6] = [
    Name,
    Name,
    Time("FROM", 0, GREATEST_START_S),
    Time("TO", 1, GREATEST_WINDOW_END_S),
    Rate("RATE", 0, GREATEST_RATE),
    NameOf(Kind::Block),
];

// The place of a section's first block.
pub(crate) const FIRST_BLOCK: usize = 5;

static CONNECTION: [Column; 5] = [
    Name,
    Name,
    NameOf(Kind::Run),
    NameOf(Kind::Run),
    Number("MINIMUM", 0, GREATEST_TIME_S),
];

// What the field at a place of a row of a kind is to be. Its word stands at 0.
pub(crate) fn column_at(kind: Kind, at: usize) -> Column {
    let columns = columns_of(kind);
    let at = if kind == Kind::Run && at > START {
        START + 1 + at % 2
    } else {
        at
    };
    match columns.get(at).or(columns.last()) {
        Some(column) => *column,
        None => Name,
    }
}

fn columns_of(kind: Kind) -> &'static [Column] {
    match kind {
        Kind::Block => &BLOCK,
        Kind::Signal => &SIGNAL,
        Kind::Route => &ROUTE,
        Kind::Run => &RUN,
        Kind::Section => &SECTION,
        Kind::Connection => &CONNECTION,
    }
}

// What the field at a position of a row of a word is to be. A row of no word says the version.
pub(crate) fn column_of(word: Option<Word>, at: usize) -> Column {
    match word {
        Some(Word::Put(kind) | Word::Change(kind) | Word::Drop(kind)) => column_at(kind, at),
        Some(Word::Ask) => Name,
        Some(Word::Planner) | None => Number("", 0, u32::MAX),
    }
}

// What the fields of such a row are, with a gap for its first, and one for the greatest n.
pub(crate) fn fields_of(word: Option<Word>, version: u32) -> &'static str {
    match word {
        None => "the first row's fields are version,1 or version,2; ",
        Some(Word::Ask) => "the fields are ask,SECTION; ",
        Some(Word::Planner) => "the fields are planner,N; ",
        Some(Word::Drop(_)) => "the fields are @,NAME; ",
        Some(Word::Put(kind) | Word::Change(kind)) => item_fields(kind, version),
    }
}

fn item_fields(kind: Kind, version: u32) -> &'static str {
    match kind {
        Kind::Block => "the fields are @,NAME,LENGTH; ",
        Kind::Signal => "the fields are @,NAME,BLOCK,APPROACH,WATCH,FORM,OVERLAP,RELEASE; ",
        Kind::Route => "the fields are @,NAME,SIGNAL_1,..,SIGNAL_n with n from 1 to @; ",
        Kind::Run if version == 2 =>
            "the fields are @,NAME,ROUTE,LENGTH,TAIL,DEPARTURE_0,ARRIVAL_1,DEPARTURE_1,..,ARRIVAL_n \
            with n from 1 to @; ",
        Kind::Run =>
            "the fields are @,NAME,ROUTE,LENGTH,TAIL,START,RUNNING_1,DWELL_1,..,RUNNING_n with n \
            from 1 to @; ",
        Kind::Section =>
            "the fields are @,NAME,FROM,TO,RATE,BLOCK_1,..,BLOCK_n with n from 1 to @; ",
        Kind::Connection => "the fields are @,NAME,FIRST,SECOND,MINIMUM; ",
    }
}
