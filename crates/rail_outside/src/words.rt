//! The words of a call.
ghost use Rattle.std.specs.Prelude.{◌≡◌, ◌↔◌, ℕ, List, Option, map, IsSome, IfOk, OnOk, IsErrOf};
ghost use Rattle.std.specs.String.{string_bytes};
ghost use Rattle.rail_outside.specs.InCall.{AreWords, AreNotText};
ghost use Rattle.rail_outside.specs.declared.words.NoWords.TheVariants as no_words;

use rail_model::OutOfMemory;
use std::alloc::Global;

/// Why there are no words.
#[derive(Clone, Copy, Debug, PartialEq, Eq)]
pub enum NoWords {
    /// One of them isn't UTF-8.
    NotText,
    /// There was no memory for them.
    OutOfMemory,
}

impl From<OutOfMemory> for NoWords {
    ghost from_gives = { λ _ result. result ≡ no_words.OutOfMemory };

    fn from(_: OutOfMemory) -> Self {
        NoWords::OutOfMemory
    }
}

/// The words of a call, without the program's name.
pub trait Words {
    /// The bytes of each word, where the words are told.
    ghost told: { Self → Option (List (List ℕ)) };

    /// One of the words isn't UTF-8.
    ghost not_text: { Self → Type 0 };

    /// All words, in their order, where they are told. `NotText`: one of them isn't UTF-8. That is
    /// told also where memory is short.
    fn take(&self, alloc: Global) -> Result<Vec<String>, NoWords>
        ensures all { IfOk result (λ words.
            AreWords (told self.now) (map string_bytes words.items)) }
        ensures known { OnOk result (IsSome (told self.now)) }
        ensures not_text { IsErrOf result no_words.NotText → AreNotText (told self.now) }
        ensures refused { IsErrOf result no_words.NotText ↔ not_text self.now };
}
