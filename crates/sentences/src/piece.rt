//! Sentences with gaps, and the pieces that fill them.
use rail_model::OutOfMemory;
use std::alloc::AllocError;
use std::fmt::Write;
use std::str;

// Whether there was memory for all of a text.
pub(crate) type Added = Result<(), OutOfMemory>;

// What fills a gap of a sentence.
#[derive(Clone, Copy)]
pub(crate) enum Piece<'a> {
    Text(&'a str),
    // A field in quotes: its first characters. What can't be shown stands as \xNN.
    Field(&'a [u8]),
    Number(u64),
    // With commas between its thousands.
    Limit(u32),
    // Seconds from the timetable's origin.
    Moment(i64),
    // Seconds as a time of day.
    Clock(u32),
    // So many of a thing: its word gets an s unless it is one.
    Many(usize, &'a str),
}

// The number of the field at a place: fields are counted from 1, places from 0.
pub(crate) fn place(at: usize) -> Piece<'static> {
    Piece::Number((at as u64).saturating_add(1))
}

// Adds a sentence, in which each @ is a gap for the next piece.
pub(crate) fn tell(text: &mut String, sentence: &str, pieces: &[Piece<'_>]) -> Added {
    let mut gap: usize = 0;
    for character in sentence.chars() {
        if character != '@' {
            text.push(character)?;
            continue;
        }
        if let Some(piece) = pieces.get(gap) {
            push_piece(text, *piece)?;
        }
        gap = gap.saturating_add(1);
    }
    Ok(())
}

fn push_piece(text: &mut String, piece: Piece<'_>) -> Result<(), AllocError> {
    match piece {
        Piece::Text(words) => text.push_str(words),
        Piece::Field(field) => push_field(text, field),
        Piece::Number(number) => write!(text, "{number}"),
        Piece::Limit(number) => push_limit(text, number),
        Piece::Moment(seconds) => write!(text, "{seconds}"),
        Piece::Clock(seconds) => push_clock(text, seconds),
        Piece::Many(count, thing) => push_many(text, count, thing),
    }
}

fn push_many(text: &mut String, count: usize, thing: &str) -> Result<(), AllocError> {
    let ending = if count == 1 { "" } else { "s" };
    write!(text, "{count} {thing}{ending}")
}

fn push_limit(text: &mut String, limit: u32) -> Result<(), AllocError> {
    if limit < 1_000 {
        return write!(text, "{limit}");
    }
    let (millions, thousands, ones) = (limit / 1_000_000, limit / 1_000 % 1_000, limit % 1_000);
    if millions == 0 {
        return write!(text, "{thousands},{ones:03}");
    }
    write!(text, "{millions},{thousands:03},{ones:03}")
}

fn push_clock(text: &mut String, seconds: u32) -> Result<(), AllocError> {
    let (hours, minutes, seconds) = (seconds / 3_600, seconds / 60 % 60, seconds % 60);
    write!(text, "{hours}:{minutes:02}:{seconds:02}")
}

fn push_field(text: &mut String, field: &[u8]) -> Result<(), AllocError> {
    text.push('"')?;
    match str::from_utf8(field) {
        Ok(field) => push_characters(text, field)?,
        Err(_) => push_bytes(text, field)?,
    }
    text.push('"')
}

// The most characters of a field that are shown.
const SHOWN: usize = 40;

fn push_characters(text: &mut String, field: &str) -> Result<(), AllocError> {
    let mut shown: usize = 0;
    for character in field.chars() {
        if shown == SHOWN {
            return text.push_str("..");
        }
        push_character(text, character, !character.is_control())?;
        shown = shown.saturating_add(1);
    }
    Ok(())
}

fn push_bytes(text: &mut String, field: &[u8]) -> Result<(), AllocError> {
    let mut shown: usize = 0;
    for byte in field {
        if shown == SHOWN {
            return text.push_str("..");
        }
        push_character(text, *byte as char, *byte >= 32 && *byte < 127)?;
        shown = shown.saturating_add(1);
    }
    Ok(())
}

fn push_character(text: &mut String, character: char, is_shown: bool) -> Result<(), AllocError> {
    if is_shown {
        text.push(character)
    } else {
        write!(text, "\\x{:02x}", character as u32)
    }
}
