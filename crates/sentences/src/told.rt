//! What is told of a call for people, beside its status.
ghost use Rattle.std.specs.Prelude.{◌≡◌, ◌⊎◌, [], IsOkAnd};
ghost use Rattle.std.specs.List.{list_all};
ghost use Rattle.std.specs.String.{string_bytes};
ghost use Rattle.sentences.specs.Told.{is_plain};

use rail_model::OutOfMemory;
use std::marker::Model;

/// Lines for people about a call, or nothing. Contracts see their bytes, of which none is a control
/// character of ASCII but the line feeds between the lines.
#[derive(Drop)]
pub struct Told {
    text: Option<String>,
}

impl Model for Told {
    ghost use Rattle.std.specs.Prelude.{◌≡◌, List, ℕ, true};
    ghost use Rattle.std.specs.String.{string_bytes};
    ghost use Rattle.sentences.specs.Told.{bytes_of, is_plain};

    ghost Value = { List ℕ };

    ghost view = { λ t. bytes_of string_bytes t.text };

    ghost invariant = { λ t. is_plain (bytes_of string_bytes t.text) ≡ true };
}

impl Told {
    /// Nothing.
    pub fn nothing() -> Told
        ensures { result ≡ [] }
    {
        Told { text: None }
    }

    // A text, if there was memory for all of it. One that no person should be shown is left out.
    pub(crate) fn of(written: Result<String, OutOfMemory>) -> Told
        ensures { (result ≡ []) ⊎ IsOkAnd written (λ text. result ≡ string_bytes text) }
    {
        match written {
            Ok(text) if is_plain(text.as_bytes()) => Told { text: Some(text) },
            _ => Told::nothing(),
        }
    }

    /// The lines, without the end of the last: empty where nothing is told.
    pub fn text(&self) -> &str
        ensures { result.now ≡ self.now }
    {
        match &self.text {
            Some(text) => text.as_str(),
            None => "",
        }
    }
}

fn is_plain(text: &[u8]) -> bool
    ensures { result ≡ is_plain text.now }
{
    text.iter().all(|b| *b == b'\n' || (*b >= 32 && *b != 127))
}
