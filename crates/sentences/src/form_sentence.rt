//! Why a row's form is wrong, in a sentence.
use crate::column::{Column, START, column_of, fields_of};
use crate::piece::Piece::{Clock, Field, Number, Text};
use crate::piece::{Added, place, tell};
use crate::row_at::RowAt;
use rail_model::{Form, PATH_HOPS};
use row_text::{Word, word_of};
use std::str;

pub(crate) fn form_sentence(text: &mut String, row: &RowAt<'_>, form: Form) -> Added {
    match form {
        Form::Kind => kind_sentence(text, row),
        Form::Fields => fields_sentence(text, row),
        Form::Number | Form::BadName => sort_sentence(text, row),
        Form::Order => order_sentence(text, row),
    }
}

// Why the first field is no word of a row.
fn kind_sentence(text: &mut String, row: &RowAt<'_>) -> Added {
    let header = if row.is_first { HEADER } else { "" };
    let word = row.field(0);
    tell(text, word_fault(word), &[Field(word), Text(header)])
}

const HEADER: &str = "; there is no header row";

// What is wrong with a field that is to be a word, with a gap for it, and one for a header.
fn word_fault(field: &[u8]) -> &'static str {
    if field == b"version".as_slice() {
        return "field 1, @, stands in the first row alone";
    }
    for (mark, fault) in &MARKS {
        let word = before(field, *mark);
        if word.len() < field.len() && is_word_in_any_case(word.trim_ascii()) {
            return *fault;
        }
    }
    near_word(field, field.trim_ascii())
}

const MARKS: [(u8, &str); 3] = [
    (
        b';',
        "field 1, @: fields have commas between them, no semicolons",
    ),
    (
        b'\t',
        "field 1, @: fields have commas between them, no tabs",
    ),
    (b'|', "field 1, @: fields have commas between them, no bars"),
];

// The part of a field before a byte: all of it where the byte isn't there.
fn before(field: &[u8], mark: u8) -> &[u8] {
    for i in 0..field.len() {
        if field[i] == mark {
            return &field[..i];
        }
    }
    field
}

// What is wrong with a field, without the blanks beside it: a word it may be otherwise.
fn near_word(field: &[u8], bare: &[u8]) -> &'static str {
    if is_word(bare) {
        return "field 1, @, is no word of a row: a blank beside a word belongs to the field@";
    }
    if is_word_in_any_case(bare) {
        return if bare.len() == field.len() {
            CAPITALS
        } else {
            CAPITALS_AND_BLANK
        };
    }
    if bare.starts_with(b"#") {
        NO_COMMENTS
    } else {
        NO_WORD
    }
}

const CAPITALS: &str = "field 1, @, is no word of a row: words are in small letters@";

const CAPITALS_AND_BLANK: &str =
    "field 1, @, is no word of a row: words are in small letters, and a blank beside a word \
    belongs to the field@";

const NO_COMMENTS: &str = "field 1, @, is no word of a row: there are no comments@";

const NO_WORD: &str =
    "field 1, @, is no word of a row: those are block, signal, route, run, section and connect, \
    and each of them after change- or drop-@";

// Whether a field is the first of a row that every command takes.
fn is_word(field: &[u8]) -> bool {
    match word_of(field) {
        Some(Word::Put(_) | Word::Change(_) | Word::Drop(_)) => true,
        Some(Word::Ask | Word::Planner) => false,
        None => field == b"version".as_slice(),
    }
}

fn is_word_in_any_case(field: &[u8]) -> bool {
    // No word is longer.
    let mut small = [0u8; 16];
    if field.len() > small.len() {
        return false;
    }
    for i in 0..field.len() {
        small[i] = field[i].to_ascii_lowercase();
    }
    is_word(&small[..field.len()])
}

// Why the number of fields is wrong.
fn fields_sentence(text: &mut String, row: &RowAt<'_>) -> Added {
    let word = str::from_utf8(row.field(0)).unwrap_or("");
    let fields = fields_of(row.word(), row.version);
    tell(text, fields, &[Text(word), Number(PATH_HOPS as u64)])?;
    let empty = empty_at_end(row);
    let count = match empty {
        0 => "this row has @",
        1 => "this row has @, the last of them empty",
        _ => "this row has @, the last @ of them empty",
    };
    tell(text, count, &[Number(row.len() as u64), Number(empty)])
}

// How many empty fields a row has at its end.
fn empty_at_end(row: &RowAt<'_>) -> u64 {
    let mut empty: u64 = 0;
    for at in 0..row.len() {
        empty = if row.field(at).is_empty() {
            empty.saturating_add(1)
        } else {
            0
        };
    }
    empty
}

// Which field isn't what it is to be: the first.
fn sort_sentence(text: &mut String, row: &RowAt<'_>) -> Added {
    for at in 1..row.len() {
        let column = column_of(row.word(), at);
        if !row.fits_in(row.version, at, column) {
            let pieces = [
                place(at),
                Field(row.field(at)),
                Text(wanted(row, at, column)),
            ];
            return tell(text, "field @, @, is no @", &pieces);
        }
    }
    // A first row alone has a number that is none of its numbers.
    let why = "field 2, @, is no version of the rows: those are 1 and 2";
    tell(text, why, &[Field(row.field(1))])
}

// What a field is to be and is not.
fn wanted(row: &RowAt<'_>, at: usize, column: Column) -> &'static str {
    match column {
        Column::Name | Column::NameOf(_) => A_NAME,
        Column::Rate(..) => A_RATE,
        Column::Time(..) if row.version == 2 => A_TIME,
        Column::Time(..) if row.fits_in(2, at, column) => NO_TIME,
        Column::Time(..) | Column::Number(..) => "number of one to nine digits",
    }
}

const A_NAME: &str = "name: 1 to 64 bytes of UTF-8 without a control character";

const A_RATE: &str =
    "number and no class of rates: those are suburban-peak, suburban-day, highspeed-peak, \
    highspeed-day, mixed-peak and mixed-day";

const A_TIME: &str = "time: HOURS:MM:SS, or seconds of one to nine digits";

const NO_TIME: &str =
    "number of one to nine digits: times of day are read below a first row version,2";

// Which time of a run is less than the one before it: the first.
fn order_sentence(text: &mut String, row: &RowAt<'_>) -> Added {
    for at in START + 1..row.len() {
        let (time, before) = (time_at(row, at), time_at(row, at - 1));
        if time < before {
            let next_day = time.saturating_add(DAY_S);
            let is_past_midnight = before - time > DAY_S / 2 && before <= next_day;
            let why = if is_past_midnight { NEXT_DAY } else { FALLING };
            let (first, second) = (Field(row.field(at - 1)), Field(row.field(at)));
            return tell(
                text,
                why,
                &[place(at), second, place(at - 1), first, Clock(next_day)],
            );
        }
    }
    tell(
        text,
        "a time of this row is less than the one before it",
        &[],
    )
}

fn time_at(row: &RowAt<'_>, at: usize) -> u32 {
    row.number_in(row.version, at).unwrap_or(0)
}

const FALLING: &str = "field @, @, is less than field @, @, the time before it";

const NEXT_DAY: &str =
    "field @, @, is less than field @, @, the time before it; past midnight it is @";

// Seconds of a day.
const DAY_S: u32 = 86_400;
