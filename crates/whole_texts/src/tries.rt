//! Calls of another kind: of sources and sinks, each call once, and of what statuses and words say.
//!
//! ```text
//! :read 3 2         four reads of the source `abcde` in pieces of 3, the second of which fails
//! :take 1 0 5       all bytes of the source `abcde`, in pieces of 1, with no read failing, up to 5
//! :send 2           the text `0123456789abcdefghij`, in pieces of 10, with the second call failing
//! :full             two writes and a flush of a sink with room for three bytes
//! :by-bytes         the source `abcde` is taken and sent again, by a reader and a writer of bytes
//! :words a \ff      these two words, taken of words in memory
//! :made 1 3         the first three rows of the line made from 1, and how many rows it has
//! :alone session 1  whether a call with these words waits for nobody
//! :statuses         the numbers of all statuses
//! ```
use crate::by_bytes::{ByteReader, ByteWriter};
use crate::outside::{Outside, WORKING};
use crate::printing::{first_lines, lines_of, put_answer};
use crate::rows::put_spelled;
use crate::words::{two_of, words_of};
use capacity_cmd::{Cause, Status, alone};
use made_line::made_input;
use rail_model::{List, OutOfMemory};
use rail_outside::{
    Failed, FromReader, MemorySource, MemoryWords, NoWords, Sink, Source, Taken, ToWriter, Words,
    send_all, take_all,
};
use small_lines::{Text, parts_of, small_number, word};
use std::alloc::Global;

// The bytes of a source, and a text to send.
const BYTES: &[u8] = b"abcde";

const TEXT: &[u8] = b"0123456789abcdefghij";

// Makes such a call. Adds its line, and what it answers.
pub(crate) fn write_try(alloc: Global, text: &mut Text, line: &[u8]) {
    text.put(b":");
    text.put_line(line);
    let (word, rest) = parts_of(line, b' ');
    let answer = match word {
        b"read" => write_reads(alloc, text, rest),
        b"take" => write_taken(alloc, text, rest),
        b"send" => write_sent(alloc, text, rest),
        b"full" => write_full(alloc, text),
        b"by-bytes" => write_by_bytes(alloc, text),
        b"words" => write_words(alloc, text, rest),
        b"made" => write_made(alloc, text, rest),
        b"alone" => Ok(write_alone(alloc, text, rest)),
        b"statuses" => Ok(write_statuses(text)),
        _ => Ok(text.put(b"unknown")),
    };
    if answer.is_err() {
        text.lose();
    }
    text.put(b"\n");
}

// The source of these pieces, of which one read fails.
fn source_of(alloc: Global, (piece, failing): (u32, u32)) -> Result<MemorySource, OutOfMemory> {
    let outside = Outside {
        source_piece: piece as usize,
        failing_reads: (failing, 0),
        ..WORKING
    };
    outside.source(alloc, BYTES)
}

fn write_reads(alloc: Global, text: &mut Text, line: &[u8]) -> Result<(), OutOfMemory> {
    let mut source = source_of(alloc, two_of(line))?;
    let mut piece = *b"........";
    for _ in 0..4 {
        put_answer(text, source.read(&mut piece));
        text.put(b" ");
    }
    text.put(&piece);
    Ok(())
}

fn write_taken(alloc: Global, text: &mut Text, line: &[u8]) -> Result<(), OutOfMemory> {
    let mut source = source_of(alloc, two_of(line))?;
    match take_all(alloc, &mut source, small_number(word(line, 2)) as usize)? {
        Ok(bytes) => text.put(bytes.slice()),
        Err(Taken::TooLong) => text.put(b"too long"),
        Err(Taken::Failed) => text.put(b"failed"),
    }
    Ok(())
}

fn write_sent(alloc: Global, text: &mut Text, line: &[u8]) -> Result<(), OutOfMemory> {
    let outside = Outside {
        failing_write: small_number(line),
        room: TEXT.len(),
        ..WORKING
    };
    let mut sink = outside.sink(alloc)?;
    put_unit(text, send_all(&mut sink, TEXT));
    text.put(b" ");
    text.put(sink.bytes());
    Ok(())
}

fn write_full(alloc: Global, text: &mut Text) -> Result<(), OutOfMemory> {
    let mut sink = Outside { room: 3, ..WORKING }.sink(alloc)?;
    put_answer(text, sink.write(b"abc"));
    text.put(b" ");
    put_answer(text, sink.write(b"d"));
    text.put(b" ");
    put_unit(text, sink.flush());
    Ok(())
}

fn write_by_bytes(alloc: Global, text: &mut Text) -> Result<(), OutOfMemory> {
    let mut source = FromReader::of(ByteReader { rest: BYTES });
    match take_all(alloc, &mut source, BYTES.len())? {
        Ok(bytes) => send_by_bytes(text, bytes.slice()),
        Err(_) => text.put(b"failed"),
    }
    Ok(())
}

fn send_by_bytes(text: &mut Text, bytes: &[u8]) {
    let answer = send_all(&mut ToWriter::of(ByteWriter { text: &mut *text }), bytes);
    put_unit(text, answer);
}

fn put_unit(text: &mut Text, answer: Result<(), Failed>) {
    match answer {
        Ok(()) => text.put(b"0"),
        Err(Failed) => text.put(b"failed"),
    }
}

fn write_alone(alloc: Global, text: &mut Text, line: &[u8]) {
    let words = words_of(alloc, text, line);
    text.put(if alone(&words) { b"yes" } else { b"no" });
}

fn write_words(alloc: Global, text: &mut Text, line: &[u8]) -> Result<(), OutOfMemory> {
    match two_words(alloc, line)?.take(alloc) {
        Ok(words) => put_words(text, &words),
        Err(NoWords::NotText) => text.put(b"not text"),
        Err(NoWords::OutOfMemory) => return Err(OutOfMemory),
    }
    Ok(())
}

fn two_words(alloc: Global, line: &[u8]) -> Result<MemoryWords, OutOfMemory> {
    let mut words = List::new(alloc);
    words.push(bytes_of(alloc, word(line, 0))?)?;
    words.push(bytes_of(alloc, word(line, 1))?)?;
    Ok(MemoryWords::new(words))
}

fn bytes_of(alloc: Global, spelled: &[u8]) -> Result<List<u8>, OutOfMemory> {
    let mut bytes = Text::new(alloc);
    put_spelled(&mut bytes, spelled);
    Ok(List::from_vec(Vec::from_slice(alloc, bytes.bytes())?))
}

fn put_words(text: &mut Text, words: &[String]) {
    for word in words {
        text.put(word.as_bytes());
        text.put(b"|");
    }
}

fn write_made(alloc: Global, text: &mut Text, line: &[u8]) -> Result<(), OutOfMemory> {
    let (number, count) = two_of(line);
    let rows = made_input(alloc, number)?;
    text.put(first_lines(rows.slice(), count as usize));
    text.show(b"rows ", lines_of(rows.slice()));
    Ok(())
}

fn write_statuses(text: &mut Text) {
    put_status(text, Status::Done);
    let cause = Cause::TooLong;
    put_status(text, Status::Refused { row: 7, cause });
    put_status(text, Status::BadWords);
    put_status(text, Status::ReadFault);
    put_status(text, Status::WriteFault);
    put_status(text, Status::OutOfMemory);
}

fn put_status(text: &mut Text, status: Status) {
    text.show_all(b"", &status);
    text.show(b" ", status.number());
    text.put(b"\n");
}
