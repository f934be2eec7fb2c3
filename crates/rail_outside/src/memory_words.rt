//! Words in memory.
ghost use Rattle.std.specs.Prelude.{◌≡◌, ◌↔◌, Some, map, IfOk, IsTrue, IsFalse, All};
ghost use Rattle.std.specs.String.{string_bytes};
ghost use Rattle.std.specs.Str.{IsUtf8};
ghost use Rattle.rail_outside.specs.InCall.{HasNoText};

use crate::{NoWords, Words};
use rail_model::{List, OutOfMemory};
use std::alloc::Global;

/// Words in memory, of any bytes: for a call of the program without a process, as in a test. The
/// words of the process are `StdWords`.
#[derive(Drop)]
pub struct MemoryWords {
    words: List<List<u8>>,
}

impl MemoryWords {
    ghost use Rattle.rail_outside.specs.MemoryWords.{memory_words};

    /// Words with these bytes, one for each list.
    pub fn new(words: List<List<u8>>) -> Self
        ensures { memory_words result ≡ words }
    {
        MemoryWords { words }
    }
}

impl Words for MemoryWords {
    ghost use Rattle.rail_outside.specs.MemoryWords.{memory_words};

    ghost told = { λ w. Some (memory_words w) };

    ghost not_text = { λ w. HasNoText (memory_words w) };

    fn take(&self, alloc: Global) -> Result<Vec<String>, NoWords> {
        let words = self.words.slice();
        if has_no_text(words) {
            return Err(NoWords::NotText);
        }
        Ok(texts_of(alloc, words)?)
    }
}

// Whether one of the words isn't UTF-8.
fn has_no_text(words: &[List<u8>]) -> bool
    ensures no_text { IsTrue result ↔ HasNoText words.now }
    ensures texts { IsFalse result → All IsUtf8 words.now }
{
    for word in words {
        if str::from_utf8(word.slice()).is_err() {
            return true;
        }
    }
    false
}

// The texts that words are.
fn texts_of(alloc: Global, words: &[List<u8>]) -> Result<Vec<String>, OutOfMemory>
    requires { All IsUtf8 words.now }
    ensures { IfOk result (λ texts. map string_bytes texts.items ≡ words.now) }
{
    let mut texts = Vec::new(alloc);
    for word in words {
        let text = str::from_utf8(word.slice()).unwrap();
        texts.push(String::from_str(alloc, text)?)?;
    }
    Ok(texts)
}
