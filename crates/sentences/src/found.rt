//! Lists of what is found in a timetable: how many things, and the names of the first.
use crate::piece::Piece::{Field, Moment, Number};
use crate::piece::{Added, tell};
use rail_model::Section;

// How many things are found, and the first of them: a name, and a moment in seconds from the
// timetable's origin, if it has one.
#[derive(Clone, Copy)]
pub(crate) struct Found<'a> {
    pub(crate) count: usize,
    first: [(&'a [u8], Option<i64>); NAMED],
}

// The most things of one kind that are named.
pub(crate) const NAMED: usize = 3;

impl<'a> Found<'a> {
    pub(crate) fn nothing() -> Found<'a> {
        Found {
            count: 0,
            first: [(b"", None); NAMED],
        }
    }

    pub(crate) fn add(&mut self, name: &'a [u8], moment: Option<i64>) {
        if self.count < NAMED {
            self.first[self.count] = (name, moment);
        }
        self.count = self.count.saturating_add(1);
    }
}

// Adds a line for what is found, if something is: a sentence about a section's window, and the list.
pub(crate) fn tell_found(
    text: &mut String,
    sentence: &str,
    section: &Section,
    found: &Found<'_>,
) -> Added {
    if found.count == 0 {
        return Ok(());
    }
    if !text.is_empty() {
        text.push('\n')?;
    }
    let (from, to) = (Number(section.from_s as u64), Number(section.to_s as u64));
    tell(text, sentence, &[from, to])?;
    tell(text, ": @ (", &[Number(found.count as u64)])?;
    tell_first(text, found)
}

fn tell_first(text: &mut String, found: &Found<'_>) -> Added {
    for i in 0..found.count.min(NAMED) {
        let (name, moment) = found.first[i];
        let thing = match moment {
            None if i == 0 => "@",
            None => ", @",
            Some(_) if i == 0 => "@ at @",
            Some(_) => ", @ at @",
        };
        tell(text, thing, &[Field(name), Moment(moment.unwrap_or(0))])?;
    }
    tell(text, if found.count > NAMED { ", ..)" } else { ")" }, &[])
}
