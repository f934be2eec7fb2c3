//! A sink over any writer.
ghost use Rattle.std.specs.Prelude.{◌≡◌, ◌≤◌, ◌<◌, ◌++◌, ◌↔◌, [], length, take, Ok, IsOk, IfOk, IsOkAnd, OnErr};

use crate::faults::{Failed, one_more};
use crate::history::History;
use crate::sink::Sink;
use std::io;
use std::io::Write;

/// A sink over any writer of the standard library. What it holds is what the writer holds, where
/// the writer tells it.
#[derive(Drop)]
pub struct ToWriter<W> {
    writer: W,
    taken: History,
    faults: u64,
}

impl<W: Write> ToWriter<W> {
    ghost use Rattle.rail_outside.specs.ToWriter.{writer_of, writer_taken, writer_flushed, writer_faults};

    /// A sink over a writer, with no write made.
    pub fn of(writer: W) -> Self
        ensures writer { writer_of result ≡ writer }
        ensures taken { writer_taken result ≡ [] }
        ensures flushed { writer_flushed result ≡ 0 }
        ensures faults { writer_faults result ≡ 0 }
    {
        ToWriter {
            writer,
            taken: History::new(),
            faults: 0,
        }
    }
}

impl<W> ToWriter<W> {
    ghost use Rattle.rail_outside.specs.InCall.{CountsFaults, IsFlushed};
    ghost use Rattle.rail_outside.specs.ToWriter.{writer_of, writer_taken, writer_flushed, writer_faults};

    // Notes what the writer answered to a write. One that takes none of some bytes would be tried
    // again forever, so it fails.
    fn noted(&mut self, from: &[u8], answer: io::Result<usize>) -> Result<usize, Failed>
        requires { IfOk answer (λ n. n ≤ length from.now) }
        ensures writer { writer_of self.new ≡ writer_of self.old }
        ensures some { IsOk result ↔ IsOkAnd answer (λ n. 0 < length from.now → 0 < n) }
        ensures count { IfOk result (λ n. answer ≡ Ok n) }
        ensures more { IfOk result (λ n.
            writer_taken self.new ≡ writer_taken self.old ++ take n from.now) }
        ensures none_taken { OnErr result (writer_taken self.new ≡ writer_taken self.old) }
        ensures flushed { writer_flushed self.new ≡ writer_flushed self.old }
        ensures faults { CountsFaults result (writer_faults self.old) (writer_faults self.new) }
        ensures later { writer_faults self.old ≤ writer_faults self.new }
    {
        match answer {
            Ok(count) if count > 0 || from.is_empty() => {
                self.taken.add(&from[..count]);
                Ok(count)
            }
            _ => {
                self.faults = one_more(self.faults);
                Err(Failed)
            }
        }
    }

    // Notes what the writer answered to a flush.
    fn settled(&mut self, answer: io::Result<()>) -> Result<(), Failed>
        ensures writer { writer_of self.new ≡ writer_of self.old }
        ensures same { IsOk result ↔ IsOk answer }
        ensures none_taken { writer_taken self.new ≡ writer_taken self.old }
        ensures all { IsOk result → IsFlushed (writer_taken self.new) (writer_flushed self.new) }
        ensures faults { CountsFaults result (writer_faults self.old) (writer_faults self.new) }
        ensures later { writer_faults self.old ≤ writer_faults self.new }
    {
        match answer {
            Ok(()) => {
                self.taken.settle();
                Ok(())
            }
            Err(_) => {
                self.faults = one_more(self.faults);
                Err(Failed)
            }
        }
    }
}

impl<W: Write> Sink for ToWriter<W> {
    ghost use Rattle.rail_outside.specs.ToWriter.{writer_of, writer_taken, writer_flushed, writer_faults};

    ghost taken = { λ s. writer_taken s };

    ghost written = { λ s. W.contents (writer_of s) };

    ghost flushed = { λ s. writer_flushed s };

    ghost faults = { λ s. writer_faults s };

    fn write(&mut self, from: &[u8]) -> Result<usize, Failed> {
        let answer = self.writer.write(from);
        self.noted(from, answer)
    }

    fn flush(&mut self) -> Result<(), Failed> {
        let answer = self.writer.flush();
        self.settled(answer)
    }
}
