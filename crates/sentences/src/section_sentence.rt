//! Which section isn't there, and which are, in a sentence for people.
ghost use Rattle.std.specs.Prelude.{◌≡◌, [], IfOk, IfSome, IsTrue};
ghost use Rattle.std.specs.String.{string_bytes};
ghost use Rattle.rail_model.specs.Rules.{has_section};
ghost use Rattle.sentences.specs.Told.{IsOfSection};

use crate::Told;
use crate::piece::Piece::{Field, Number};
use crate::piece::{Added, tell};
use line_tables::LineTables;
use rail_model::{Name, OutOfMemory};
use std::alloc::Global;

/// The sentence about a section that isn't there, or about a word that is no name of one, with some
/// that are. Of a section that is there nothing is told.
pub fn told_of_section(alloc: Global, tables: &LineTables, section: Option<Name>) -> Told
    ensures about { IsOfSection section result }
    ensures there { IfSome section (λ name. IsTrue (has_section tables.now name) → result ≡ []) }
{
    match section {
        Some(name) if tables.section_number(&name).is_some() => Told::nothing(),
        _ => Told::of(section_text(alloc, tables, section)),
    }
}

fn section_text(
    alloc: Global,
    tables: &LineTables,
    section: Option<Name>,
) -> Result<String, OutOfMemory>
    ensures { IfOk result (λ text. IsOfSection section (string_bytes text)) }
{
    let mut rest = String::new(alloc);
    match &section {
        Some(name) => {
            tell(&mut rest, "@", &[Field(name.bytes())])?;
            tell_sections(&mut rest, tables)?;
            Ok(format!(in alloc; "no section is named {rest}")?)
        }
        None => {
            tell_sections(&mut rest, tables)?;
            Ok(format!(in alloc; "the word of a section is no name{rest}")?)
        }
    }
}

// The most sections that are named.
const NAMED: u32 = 5;

// The first sections of a line, and how many more there are.
fn tell_sections(text: &mut String, tables: &LineTables) -> Added {
    let count = tables.sections();
    if count == 0 {
        return tell(text, "; the line has no section", &[]);
    }
    for n in 0..count.min(NAMED) {
        let gap = if n == 0 { "; the line has @" } else { ", @" };
        tell(text, gap, &[Field(tables.section(n).name.bytes())])?;
    }
    if count > NAMED {
        tell(text, " and @ more", &[Number(u64::from(count - NAMED))])?;
    }
    Ok(())
}
