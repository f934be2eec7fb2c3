//! Which run is no train of a section, in a sentence for people.
ghost use Rattle.std.specs.Prelude.{IfOk};
ghost use Rattle.std.specs.String.{string_bytes};
ghost use Rattle.sentences.specs.Told.{IsOfRun};

use crate::Told;
use crate::piece::Piece::{Field, Number};
use crate::piece::{Added, tell};
use plan_model::Cut;
use rail_model::{Name, OutOfMemory};
use std::alloc::Global;

/// The sentence about a run that is no train of a cut, or about a word that is no name of one. No
/// clause says which run is named, nor that anything is told: without memory nothing is.
pub fn told_of_run(alloc: Global, cut: &Cut, run: Option<Name>) -> Told
    ensures { IsOfRun run result }
{
    Told::of(run_text(alloc, cut, run))
}

fn run_text(alloc: Global, cut: &Cut, run: Option<Name>) -> Result<String, OutOfMemory>
    ensures { IfOk result (λ text. IsOfRun run (string_bytes text)) }
{
    let mut rest = String::new(alloc);
    match &run {
        Some(run) => {
            tell_of_run(&mut rest, cut, run)?;
            Ok(format!(in alloc; "run {rest}")?)
        }
        None => {
            tell(&mut rest, NO_NAME, &[Field(cut.section.name.bytes())])?;
            Ok(format!(in alloc; "the word of a run is no name{rest}")?)
        }
    }
}

fn tell_of_run<'a>(text: &mut String, cut: &'a Cut, run: &'a Name) -> Added {
    let section = &cut.section;
    let (run, name) = (Field(run.bytes()), Field(section.name.bytes()));
    let (from, to) = (Number(section.from_s as u64), Number(section.to_s as u64));
    tell(text, NO_TRAIN, &[run, name, from, to])
}

const NO_NAME: &str = ", so it names no train of section @";

const NO_TRAIN: &str =
    "@ is no train of section @: those use a block of it and enter within the window from @ to @";
