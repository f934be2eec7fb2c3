//! A text that is kept in pieces.
ghost use Rattle.std.specs.Prelude.{◌≡◌, [], ◌++◌, IfOk, OnOk, OnErr};
ghost use Rattle.std.specs.List.{flat_map};

use rail_model::OutOfMemory;
use std::alloc::Global;
use std::marker::Model;

/// A text in pieces, one after the other. Contracts see its bytes.
#[derive(Drop)]
pub struct Text {
    pieces: Vec<Vec<u8>>,
}

impl Model for Text {
    ghost use Rattle.std.specs.Prelude.{List, ℕ};
    ghost use Rattle.std.specs.List.{flat_map};

    ghost Value = { List ℕ };

    ghost view = { λ text. flat_map (λ piece. piece.items) text.pieces.items };
}

impl Text {
    /// A text without bytes, which asks for no memory.
    pub fn new(alloc: Global) -> Text
        ensures { result ≡ [] }
    {
        Text {
            pieces: Vec::new(alloc),
        }
    }

    /// A text of one piece.
    pub fn of(piece: Vec<u8>) -> Result<Text, OutOfMemory>
        ensures { IfOk result (λ text. text ≡ piece.items) }
    {
        let mut text = Text::new(*piece.allocator());
        text.push(piece)?;
        Ok(text)
    }

    /// Adds a piece. Where memory runs out, the text stays as it was.
    pub fn push(&mut self, piece: Vec<u8>) -> Result<(), OutOfMemory>
        ensures ok { OnOk result (self.new ≡ self.old ++ piece.items) }
        ensures err { OnErr result (self.new ≡ self.old) }
    {
        self.pieces.push(piece)?;
        Ok(())
    }

    /// Its pieces, one after the other.
    pub fn pieces(&self) -> &[Vec<u8>]
        ensures { flat_map (λ piece. piece.items) result.now ≡ self.now }
    {
        &self.pieces
    }
}
