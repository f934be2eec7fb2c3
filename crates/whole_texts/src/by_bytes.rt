//! A reader and a writer of the standard library that take one byte at a time.
use small_lines::Text;
use std::io;
use std::io::{Read, Write};

// Gives the bytes of a text one by one.
#[derive(Drop)]
pub(crate) struct ByteReader<'a> {
    pub(crate) rest: &'a [u8],
}

impl Read for ByteReader<'_> {
    fn read(&mut self, into: &mut [u8]) -> io::Result<usize> {
        let count = self.rest.len().min(into.len()).min(1);
        into[..count].copy_from_slice(&self.rest[..count]);
        self.rest = &self.rest[count..];
        Ok(count)
    }
}

// Adds one byte of each piece to a text, and a bar after it; at a flush, a line's end.
#[derive(Drop)]
pub(crate) struct ByteWriter<'a> {
    pub(crate) text: &'a mut Text,
}

impl Write for ByteWriter<'_> {
    fn write(&mut self, from: &[u8]) -> io::Result<usize> {
        let count = from.len().min(1);
        self.text.put(&from[..count]);
        self.text.put(b"|");
        Ok(count)
    }

    fn flush(&mut self) -> io::Result<()> {
        self.text.put(b"\n");
        Ok(())
    }
}
