//! A source of bytes in memory.
ghost use Rattle.std.specs.Prelude.{◌≡◌, ◌≤◌, [], length, Some, Contains, IsTrue, IsFalse};

use crate::faults::{is_listed, one_more};
use crate::source::found_end;
use crate::{Failed, Source};
use rail_model::List;

/// A source of bytes in memory. It gives at most a piece at each read, and fails at the reads whose
/// numbers, from 1, it is given.
#[derive(Drop)]
pub struct MemorySource {
    bytes: List<u8>,
    // How many of the bytes are given.
    place: usize,
    piece: usize,
    fails: List<u64>,
    reads: u64,
    ended: bool,
    faults: u64,
    ghost within: { place ≤ length bytes },
    ghost some: { 1 ≤ piece },
}

impl MemorySource {
    ghost use Rattle.rail_outside.specs.MemorySource.{source_given, source_left, source_piece, source_fails, source_reads, source_ended, source_faults};

    /// A source of these bytes that no read has begun.
    pub fn new(bytes: List<u8>, piece: usize, fails: List<u64>) -> Self
        requires { 1 ≤ piece }
        ensures given { source_given result ≡ [] }
        ensures left { source_left result ≡ bytes }
        ensures piece { source_piece result ≡ piece }
        ensures fails { source_fails result ≡ fails }
        ensures reads { source_reads result ≡ 0 }
        ensures ended { IsFalse (source_ended result) }
        ensures faults { source_faults result ≡ 0 }
    {
        MemorySource {
            bytes,
            place: 0,
            piece,
            fails,
            reads: 0,
            ended: false,
            faults: 0,
        }
    }
}

impl Source for MemorySource {
    ghost use Rattle.rail_outside.specs.MemorySource.{source_given, source_left, source_fails, source_reads, source_ended, source_faults, IsRead};

    ghost given = { λ s. source_given s };

    ghost left = { λ s. Some (source_left s) };

    ghost ended = { λ s. IsTrue (source_ended s) };

    ghost faults = { λ s. source_faults s };

    ghost at_fault = { λ s. Contains (source_fails s) (source_reads s) };

    fn read(&mut self, into: &mut [u8]) -> Result<usize, Failed>
        ensures { IsRead self.old self.new into.old into.new result }
    {
        self.reads = one_more(self.reads);
        if is_listed(&self.fails, self.reads) {
            self.ended = false;
            self.faults = one_more(self.faults);
            return Err(Failed);
        }
        let rest = &self.bytes.slice()[self.place..];
        let count = self.piece.min(into.len()).min(rest.len());
        self.ended = found_end(count, into.len());
        into[..count].copy_from_slice(&rest[..count]);
        self.place += count;
        Ok(count)
    }
}
