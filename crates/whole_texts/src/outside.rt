//! How the outside of a call behaves.
use crate::words::two_of;
use rail_model::{List, OutOfMemory};
use rail_outside::{MemorySink, MemorySource};
use small_lines::{parts_of, small_number, word};
use std::alloc::Global;

// The room for the text of one call.
const ROOM: usize = 65_536;

// How the outside of a call behaves.
#[derive(Clone, Copy)]
pub(crate) struct Outside {
    // Whether a line says something of it.
    pub(crate) is_set: bool,
    // The most bytes of one read and of one write.
    pub(crate) source_piece: usize,
    pub(crate) sink_piece: usize,
    // The bytes that the sink has room for.
    pub(crate) room: usize,
    // The numbers of the reads that fail, from 1. 0 for none.
    pub(crate) failing_reads: (u32, u32),
    // The number of the write or flush that fails. 0 for none.
    pub(crate) failing_write: u32,
    // Of how many last lines of its text, after the first, a call tells alone. 0 for all.
    pub(crate) last_lines: usize,
    // How often the call is made.
    pub(crate) times: u32,
    // How often worker 1 reads before planner 1 makes its first task, and how often planner 1
    // comes to a task before the worker goes on.
    pub(crate) race: Option<(u32, u32)>,
}

// An outside that works, in small pieces.
pub(crate) const WORKING: Outside = Outside {
    is_set: false,
    source_piece: 16,
    sink_piece: 10,
    room: 4_096,
    failing_reads: (0, 0),
    failing_write: 0,
    last_lines: 0,
    times: 1,
    race: None,
};

// An outside that works, in one piece.
pub(crate) const WHOLE: Outside = Outside {
    source_piece: ROOM,
    sink_piece: ROOM,
    room: ROOM,
    ..WORKING
};

impl Outside {
    // The outside of which a line says more: a word for what, and numbers.
    pub(crate) fn and(self, line: &[u8]) -> Outside {
        let (what, numbers) = parts_of(line, b' ');
        let number = small_number(word(numbers, 0));
        let mut outside = self;
        outside.is_set = true;
        match what {
            b"reads" => outside.source_piece = number as usize,
            b"writes" => outside.sink_piece = number as usize,
            b"room" => outside.room = number as usize,
            b"failing-reads" => outside.failing_reads = two_of(numbers),
            b"failing-write" => outside.failing_write = number,
            b"last" => outside.last_lines = number as usize,
            b"times" => outside.times = number,
            b"race" => outside.race = Some(two_of(numbers)),
            _ => outside.is_set = false,
        }
        outside
    }

    // A source of these bytes.
    pub(crate) fn source(self, alloc: Global, bytes: &[u8]) -> Result<MemorySource, OutOfMemory> {
        let fails = numbers(alloc, self.failing_reads)?;
        let bytes = List::from_vec(Vec::from_slice(alloc, bytes)?);
        Ok(MemorySource::new(bytes, self.source_piece.max(1), fails))
    }

    // A sink without bytes.
    pub(crate) fn sink(self, alloc: Global) -> Result<MemorySink, OutOfMemory> {
        let fails = numbers(alloc, (self.failing_write, 0))?;
        let mut sink = MemorySink::new(alloc, self.sink_piece.max(1), fails);
        sink.reserve(self.room)?;
        Ok(sink)
    }
}

fn numbers(alloc: Global, (first, second): (u32, u32)) -> Result<List<u64>, OutOfMemory> {
    let numbers = [u64::from(first), u64::from(second)];
    Ok(List::from_vec(Vec::from_slice(alloc, &numbers)?))
}
