//! What the program touches outside: its words, where bytes come from, where they go, and a gate
//! that threads pass.
//!
//! Each of the traits `Words`, `Source` and `Sink` has one form in memory and one for the process.
//! A source or a sink raises its count of faults by one where it answers a fault, and nowhere
//! else. At 2^64 - 1 the count stands still.
//!
//! - A source in memory fails at exactly the reads that it is told to.
//! - A sink in memory fails at the writes and flushes that it is told to, and at a write for which
//!   it has no room.
//! - Words tell what they are: those in memory always, those of the process where there are some.
//! - A source over any reader and a sink over any writer have left and hold what these do, where
//!   these tell it. Standard input and output are such streams, and don't tell it.
//! - Each source tells the bytes that its reads gave, and each sink those that its writes took.
//!
//! ```text
//! match take_all(alloc, &mut source, 16_777_216)? {
//!     Ok(bytes) => send_all(&mut sink, bytes.slice())?,
//!     Err(Taken::TooLong) => ..,
//!     Err(Taken::Failed) => ..,
//! }
//! ```
#![tactic(auto)]

mod faults;
mod from_reader;
mod gate;
mod history;
mod memory_sink;
mod memory_source;
mod memory_words;
mod send;
mod sink;
mod source;
mod std_streams;
mod std_words;
mod take;
mod to_writer;
mod words;

pub use faults::Failed;
pub use from_reader::FromReader;
pub use gate::{Gate, OpenGate, Point};
pub use memory_sink::MemorySink;
pub use memory_source::MemorySource;
pub use memory_words::MemoryWords;
pub use send::{send_all, send_each};
pub use sink::Sink;
pub use source::Source;
pub use std_streams::{StdSink, StdSource};
pub use std_words::StdWords;
pub use take::{Taken, take_all};
pub use to_writer::ToWriter;
pub use words::{NoWords, Words};
