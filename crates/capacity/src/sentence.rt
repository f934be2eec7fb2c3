//! The lines on standard error: why a call isn't done, or what is to be known of one that is.
use capacity_cmd::{Cause, Status, USAGE};
use std::io;

// Writes what there is to say, to standard error. No clause says what that is.
pub(crate) fn explain(rt: &impl Eprint, status: Status, told: &str) -> io::Result<()> {
    match status {
        Status::Done if told.is_empty() => Ok(()),
        Status::Done => eprintln!(rt; "{told}"),
        Status::Refused { row, cause } => explain_refusal(rt, row, cause, told),
        Status::BadWords if told.is_empty() => eprintln!(rt; "{USAGE}"),
        Status::BadWords => eprintln!(rt; "{told}\n{USAGE}"),
        Status::ReadFault => eprintln!(rt; "the input could not be read"),
        Status::WriteFault => eprintln!(rt; "the output could not be written"),
        Status::OutOfMemory => eprintln!(rt; "memory ran out"),
    }
}

// A row without a sentence is one for which there was no memory.
fn explain_refusal(rt: &impl Eprint, row: u64, cause: Cause, told: &str) -> io::Result<()> {
    if !told.is_empty() {
        return eprintln!(rt; "{told}");
    }
    if row == 0 {
        return eprintln!(rt; "{cause}");
    }
    eprintln!(rt; "row {row}: {cause}")
}
