//! The process's words.
ghost use Rattle.std.specs.Prelude.{◌≡◌, ◌≢◌, map, drop, IfOk, IfErr, IsErrOf};
ghost use Rattle.std.specs.String.{string_bytes};
ghost use Rattle.std.specs.Vec.Iter.{into_iter_items, into_iter_len};
ghost use Rattle.std.specs.IoError.{error_kind};
ghost use Rattle.std.specs.declared.io.ErrorKind.TheVariants as kind;
ghost use Rattle.rail_outside.specs.StdWords.{AreAllOf};
ghost use Rattle.rail_outside.specs.declared.words.NoWords.TheVariants as no_words;

use crate::{NoWords, Words};
use rail_model::OutOfMemory;
use std::alloc::Global;
use std::env::Args;
use std::io;
use std::io::{Error, ErrorKind};

/// The words that the process had when this was made. They are told, unless one of them isn't UTF-8
/// or there was no memory for them.
#[derive(Drop)]
pub struct StdWords {
    // The program's name is the first.
    words: Result<Vec<String>, NoWords>,
}

impl StdWords {
    /// The words that the process was given, `env::args(&rt)`, of which the first names the program.
    pub fn of(alloc: Global, given: io::Result<Args>) -> Self
        ensures all { IfOk given (λ args. IfOk result.words (λ words.
            AreAllOf into_iter_items into_iter_len args words.items)) }
        ensures some { IfOk given (λ _. ¬ (IsErrOf result.words no_words.NotText)) }
        ensures not_text { IfErr given (λ error.
            error_kind error ≢ kind.OutOfMemory → IsErrOf result.words no_words.NotText) }
        ensures no_memory { IfErr given (λ error.
            error_kind error ≡ kind.OutOfMemory → IsErrOf result.words no_words.OutOfMemory) }
    {
        let words = match given {
            Ok(args) => match all_of(alloc, args) {
                Ok(words) => Ok(words),
                Err(OutOfMemory) => Err(NoWords::OutOfMemory),
            },
            Err(error) => Err(why_not(&error)),
        };
        StdWords { words }
    }
}

impl Words for StdWords {
    ghost use Rattle.rail_outside.specs.StdWords.{std_words, AreRefused};

    ghost told = { λ w. std_words w };

    ghost not_text = { λ w. AreRefused w };

    fn take(&self, alloc: Global) -> Result<Vec<String>, NoWords> {
        match &self.words {
            Ok(words) => Ok(after_name(alloc, words)?),
            Err(why) => Err(*why),
        }
    }
}

// All words that are still to come.
fn all_of(alloc: Global, args: Args) -> Result<Vec<String>, OutOfMemory>
    ensures { IfOk result (λ words. AreAllOf into_iter_items into_iter_len args words.items) }
{
    let mut rest = args;
    let mut words = Vec::new(alloc);
    while let Some(word) = rest.next() {
        words.push(word)?;
    }
    Ok(words)
}

// Why there are no words.
fn why_not(error: &Error) -> NoWords
    ensures no_memory { error_kind error.now ≡ kind.OutOfMemory → result ≡ no_words.OutOfMemory }
    ensures not_text { error_kind error.now ≢ kind.OutOfMemory → result ≡ no_words.NotText }
{
    if error.kind() == ErrorKind::OutOfMemory {
        NoWords::OutOfMemory
    } else {
        NoWords::NotText
    }
}

// A copy of the words after the first.
fn after_name(alloc: Global, words: &[String]) -> Result<Vec<String>, OutOfMemory>
    ensures { IfOk result (λ copied.
        map string_bytes copied.items ≡ map string_bytes (drop 1 words.now)) }
{
    let Some((_, rest)) = words.split_first() else {
        return Ok(Vec::new(alloc));
    };
    copy_of(alloc, rest)
}

// A copy of words.
fn copy_of(alloc: Global, words: &[String]) -> Result<Vec<String>, OutOfMemory>
    ensures { IfOk result (λ copied. map string_bytes copied.items ≡ map string_bytes words.now) }
{
    let mut copied = Vec::new(alloc);
    for word in words {
        copied.push(String::from_str(alloc, word)?)?;
    }
    Ok(copied)
}
