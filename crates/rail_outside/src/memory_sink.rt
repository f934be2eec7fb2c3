//! A sink of bytes in memory.
ghost use Rattle.std.specs.Prelude.{◌≡◌, ◌+◌, ◌^◌, ◌≤◌, [], length, max, Some, IsOk, IsErr, OnOk, OnErr, vec_len, vec_capacity};

use crate::faults::{is_listed, one_more};
use crate::{Failed, Sink};
use rail_model::{List, OutOfMemory};
use std::alloc::Global;

/// A sink of bytes in memory. It takes at most a piece at each write. It fails at the calls whose
/// numbers, from 1, it is given, and at a write for which there is no room. Writes and flushes are
/// counted together.
#[derive(Drop)]
pub struct MemorySink {
    bytes: Vec<u8>,
    room: usize,
    piece: usize,
    fails: List<u64>,
    calls: u64,
    faults: u64,
    flushed: usize,
    ghost some: { 1 ≤ piece },
    ghost filled: { vec_len bytes ≤ room },
    ghost reserved: { room ≤ vec_capacity bytes },
}

impl MemorySink {
    ghost use Rattle.rail_outside.specs.MemorySink.{sink_bytes, sink_room, sink_piece, sink_fails, sink_calls, sink_faults, sink_flushed};

    /// A sink with no bytes and no room, which asks for no memory.
    pub fn new(alloc: Global, piece: usize, fails: List<u64>) -> Self
        requires { 1 ≤ piece }
        ensures bytes { sink_bytes result ≡ [] }
        ensures room { sink_room result ≡ 0 }
        ensures piece { sink_piece result ≡ piece }
        ensures fails { sink_fails result ≡ fails }
        ensures calls { sink_calls result ≡ 0 }
        ensures faults { sink_faults result ≡ 0 }
        ensures flushed { sink_flushed result ≡ 0 }
    {
        MemorySink {
            bytes: Vec::new(alloc),
            room: 0,
            piece,
            fails,
            calls: 0,
            faults: 0,
            flushed: 0,
        }
    }

    /// Makes room for `n` more bytes than are written. Where there is no memory for them, or their
    /// number doesn't fit, the room stays as it was.
    pub fn reserve(&mut self, n: usize) -> Result<(), OutOfMemory>
        ensures room { OnOk result (
            sink_room self.new ≡ max (sink_room self.old) (length (sink_bytes self.old) + n)) }
        ensures same_room { OnErr result (sink_room self.new ≡ sink_room self.old) }
        ensures has_room { length (sink_bytes self.old) + n ≤ sink_room self.old → IsOk result }
        ensures too_much { 2 ^ 64 ≤ length (sink_bytes self.old) + n → IsErr result }
        ensures bytes { sink_bytes self.new ≡ sink_bytes self.old }
        ensures same_piece { sink_piece self.new ≡ sink_piece self.old }
        ensures same_fails { sink_fails self.new ≡ sink_fails self.old }
        ensures calls { sink_calls self.new ≡ sink_calls self.old }
        ensures faults { sink_faults self.new ≡ sink_faults self.old }
        ensures flushed { sink_flushed self.new ≡ sink_flushed self.old }
    {
        self.bytes.reserve(n)?;
        self.room = self.room.max(self.bytes.len() + n);
        Ok(())
    }

    /// The bytes written.
    pub fn bytes(&self) -> &[u8]
        ensures { result.now ≡ sink_bytes self.now }
    {
        &self.bytes
    }
}

impl Sink for MemorySink {
    ghost use Rattle.rail_outside.specs.MemorySink.{sink_bytes, sink_faults, sink_flushed, IsWrite, IsFlush};

    ghost taken = { λ s. sink_bytes s };

    ghost written = { λ s. Some (sink_bytes s) };

    ghost flushed = { λ s. sink_flushed s };

    ghost faults = { λ s. sink_faults s };

    fn write(&mut self, from: &[u8]) -> Result<usize, Failed>
        ensures { IsWrite self.old self.new from.now result }
    {
        self.calls = one_more(self.calls);
        let count = self.piece.min(from.len());
        let is_full = self.room - self.bytes.len() < count;
        if is_full || is_listed(&self.fails, self.calls) {
            self.faults = one_more(self.faults);
            return Err(Failed);
        }
        self.bytes.extend_from_slice(&from[..count]).unwrap();
        Ok(count)
    }

    fn flush(&mut self) -> Result<(), Failed>
        ensures { IsFlush self.old self.new result }
    {
        self.calls = one_more(self.calls);
        if is_listed(&self.fails, self.calls) {
            self.faults = one_more(self.faults);
            return Err(Failed);
        }
        self.flushed = self.bytes.len();
        Ok(())
    }
}
