//! Texts that are written piece by piece.
use rail_outside::{Sink, send_all};
use std::alloc::Global;
use std::fmt::{Debug, Display};
use std::process::ExitCode;

/// A text that is written piece by piece. Where memory runs out, it notes that, so that its writers
/// need no `?`; who ends with it asks once.
#[derive(Drop)]
pub struct Text {
    bytes: Vec<u8>,
    is_whole: bool,
}

impl Text {
    /// A text of no byte.
    pub fn new(alloc: Global) -> Text {
        Text {
            bytes: Vec::new(alloc),
            is_whole: true,
        }
    }

    /// Its bytes so far.
    pub fn bytes(&self) -> &[u8] {
        &self.bytes
    }

    /// Whether memory never ran out.
    pub fn is_whole(&self) -> bool {
        self.is_whole
    }

    /// Notes that memory ran out, here or in what is written of.
    pub fn lose(&mut self) {
        self.is_whole = false;
    }

    /// Adds bytes.
    pub fn put(&mut self, bytes: &[u8]) {
        if self.bytes.extend_from_slice(bytes).is_err() {
            self.lose();
        }
    }

    /// Adds a line.
    pub fn put_line(&mut self, line: &[u8]) {
        self.put(line);
        self.put(b"\n");
    }

    /// Adds bytes, and what `{}` writes of a value.
    pub fn show<T: Display + Drop>(&mut self, before: &[u8], value: T) {
        self.put(before);
        match format!(in *self.bytes.allocator(); "{value}") {
            Ok(shown) => self.put(shown.as_bytes()),
            Err(_) => self.lose(),
        }
    }

    /// Adds bytes, and what `{:?}` writes of a value.
    pub fn show_all<T: Debug>(&mut self, before: &[u8], value: &T) {
        self.put(before);
        match format!(in *self.bytes.allocator(); "{value:?}") {
            Ok(shown) => self.put(shown.as_bytes()),
            Err(_) => self.lose(),
        }
    }
}

/// Sends a text, and gives the status that the program ends with: 5 where memory ran out, and 4
/// where a write failed.
pub fn end_of<K: Sink>(sink: &mut K, text: &Text) -> ExitCode {
    if !text.is_whole() {
        return ExitCode::from(5);
    }
    match send_all(sink, text.bytes()) {
        Ok(()) => ExitCode::from(0),
        Err(_) => ExitCode::from(4),
    }
}
