//! A source over any reader.
ghost use Rattle.std.specs.Prelude.{◌≡◌, ◌≤◌, ◌<◌, ◌++◌, ◌↔◌, [], length, take, Ok, IsOk, IsErr, IfOk, OnErr, IsTrue, IsFalse};

use crate::faults::{Failed, one_more};
use crate::history::History;
use crate::source::{Source, found_end};
use std::io;
use std::io::Read;

/// A source over any reader of the standard library. What it has left is what the reader has left,
/// where the reader tells it.
#[derive(Drop)]
pub struct FromReader<R> {
    reader: R,
    given: History,
    ended: bool,
    at_fault: bool,
    faults: u64,
}

impl<R: Read> FromReader<R> {
    ghost use Rattle.rail_outside.specs.FromReader.{reader_of, reader_given, reader_ended, reader_at_fault, reader_faults};

    /// A source over a reader, with no read made.
    pub fn of(reader: R) -> Self
        ensures reader { reader_of result ≡ reader }
        ensures given { reader_given result ≡ [] }
        ensures ended { IsFalse (reader_ended result) }
        ensures at_fault { IsFalse (reader_at_fault result) }
        ensures faults { reader_faults result ≡ 0 }
    {
        FromReader {
            reader,
            given: History::new(),
            ended: false,
            at_fault: false,
            faults: 0,
        }
    }
}

impl<R> FromReader<R> {
    ghost use Rattle.rail_outside.specs.InCall.{CountsFaults};
    ghost use Rattle.rail_outside.specs.FromReader.{reader_of, reader_given, reader_ended, reader_at_fault, reader_faults};

    // Notes what the reader answered to a read.
    fn noted(&mut self, into: &[u8], answer: io::Result<usize>) -> Result<usize, Failed>
        requires { IfOk answer (λ n. n ≤ length into.now) }
        ensures reader { reader_of self.new ≡ reader_of self.old }
        ensures same { IsOk result ↔ IsOk answer }
        ensures count { IfOk result (λ n. answer ≡ Ok n) }
        ensures more { IfOk result (λ n.
            reader_given self.new ≡ reader_given self.old ++ take n into.now) }
        ensures none_given { OnErr result (reader_given self.new ≡ reader_given self.old) }
        ensures ended { IsTrue (reader_ended self.new) ↔ ((result ≡ Ok 0) × (0 < length into.now)) }
        ensures at_fault { IsTrue (reader_at_fault self.new) ↔ IsErr result }
        ensures faults { CountsFaults result (reader_faults self.old) (reader_faults self.new) }
        ensures later { reader_faults self.old ≤ reader_faults self.new }
    {
        match answer {
            Ok(count) => {
                self.given.add(&into[..count]);
                self.ended = found_end(count, into.len());
                self.at_fault = false;
                Ok(count)
            }
            Err(_) => {
                self.ended = false;
                self.at_fault = true;
                self.faults = one_more(self.faults);
                Err(Failed)
            }
        }
    }
}

impl<R: Read> Source for FromReader<R> {
    ghost use Rattle.rail_outside.specs.FromReader.{reader_of, reader_given, reader_ended, reader_at_fault, reader_faults};

    ghost given = { λ s. reader_given s };

    ghost left = { λ s. R.remaining (reader_of s) };

    ghost ended = { λ s. IsTrue (reader_ended s) };

    ghost faults = { λ s. reader_faults s };

    ghost at_fault = { λ s. IsTrue (reader_at_fault s) };

    fn read(&mut self, into: &mut [u8]) -> Result<usize, Failed> {
        let answer = self.reader.read(into);
        self.noted(into, answer)
    }
}
