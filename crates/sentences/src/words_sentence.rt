//! The usage, and what is wrong with words that spell no command, in a sentence for people.
ghost use Rattle.std.specs.Prelude.{◌≡◌, ◌∷◌, [], true, false, map, is_some, IfOk};
ghost use Rattle.std.specs.String.{string_bytes};
ghost use Rattle.sentences.specs.Told.{is_command, IsOfWords};

use crate::Told;
use crate::piece::Piece::Field;
use crate::piece::tell;
use rail_model::OutOfMemory;
use std::alloc::Global;

/// The commands, one in each line, and what each answers.
pub const USAGE: &str = "\
usage: capacity COMMAND < LINE.csv, or capacity made N

  stairs                         the blocking times of each run
  check                          the conflicts of the timetable
  report                         each section in short, and a total
  compress SECTION               the compressed timetable and the capacity consumption
  headways SECTION               the least headways between the section's trains
  cut SECTION                    the fewest orderly pieces
  cycle SECTION                  the least time after which its trains can come again
  delays SECTION RUN SECONDS ..  what delays of 1 to 64 trains do to the others
  fill SECTION RUN               how many copies of a train there is room for
  session W                      planners' edits, with W workers beside them, 0 to 16
  made N                         a line made from N, of one to nine digits; reads no line";

/// The sentence about words that spell no command: that there is none, that the first is the word
/// of none, or what the command of that word wants.
pub fn told_of_words(alloc: Global, words: &[String]) -> Told
    ensures { IsOfWords (map string_bytes words.now) result }
{
    Told::of(words_text(alloc, words))
}

fn words_text(alloc: Global, words: &[String]) -> Result<String, OutOfMemory>
    ensures { IfOk result (λ text. IsOfWords (map string_bytes words.now) (string_bytes text)) }
{
    match words {
        [] => Ok(format!(in alloc; "no command is given")?),
        [word, ..] => match wanted_by(word) {
            Some(wanted) => wants(alloc, word, wanted),
            None => unknown(alloc, word),
        },
    }
}

fn wants(alloc: Global, word: &String, wanted: &str) -> Result<String, OutOfMemory>
    requires { is_command (string_bytes word.now) ≡ true }
    ensures { IfOk result (λ text. IsOfWords (string_bytes word.now ∷ []) (string_bytes text)) }
{
    Ok(format!(in alloc; "{word} wants {wanted}")?)
}

fn unknown(alloc: Global, word: &String) -> Result<String, OutOfMemory>
    requires { is_command (string_bytes word.now) ≡ false }
    ensures { IfOk result (λ text. IsOfWords (string_bytes word.now ∷ []) (string_bytes text)) }
{
    let mut shown = String::new(alloc);
    tell(&mut shown, "@", &[Field(word.as_bytes())])?;
    Ok(format!(in alloc; "no such command: {shown}")?)
}

// What the command of a word wants, if it is the word of one.
fn wanted_by(word: &str) -> Option<&'static str>
    ensures { is_some result ≡ is_command word.now }
{
    match word {
        "stairs" | "check" | "report" => Some("no further word"),
        "compress" | "headways" | "cut" | "cycle" => Some("the name of one section"),
        "delays" => Some(DELAYS),
        "fill" => Some("the name of a section and the name of a run"),
        "session" => Some("a number of workers, 0 to 16"),
        "made" => Some("a number of one to nine digits"),
        _ => None,
    }
}

const DELAYS: &str =
    "the name of a section, then 1 to 64 runs, each once, and behind each its delay, 0 to 86400";
