//! The text of rows that are written.
ghost use Rattle.std.specs.Prelude.{◌≡◌, ◌<◌, ◌++◌, List, [], length, map, decimal, false, OnOk, OnErr};
ghost use Rattle.std.specs.Fmt.{signed_decimal};
ghost use Rattle.csv.specs.Writing.{default_writer, needs_quotes};
ghost use Rattle.row_text.specs.FieldText.{text_of};
ghost use Rattle.row_text.specs.SheetRows.{Row, with_field, with_fields, with_row, text_of_rows, IsBeginningOf, IsTextOf};

use crate::fields::Fields;
use crate::put::{make_room, put_bytes, put_end, put_numbers, put_signed, put_text, put_unsigned};
use crate::write_field::Field;
use crate::written::{Written, needs_quotes};
use rail_model::OutOfMemory;
use std::alloc::Global;
use std::marker::Model;

/// Rows as CSV writes them: commas, quotes only where needed, and a line feed after each row.
/// Contracts see the rows that were ended, and the fields of the row that is being written. Where
/// memory runs out, a push or an end of a row leaves both as they were.
#[derive(Drop)]
pub struct Sheet {
    // The text, and room after it.
    text: Vec<u8>,
    // How many bytes the ended rows have, and all that is written.
    ended: usize,
    used: usize,
    has_field: bool,
}

impl Model for Sheet {
    ghost use Rattle.row_text.specs.SheetRows.{SheetRows};

    ghost Value = { SheetRows };

    ghost use Rattle.row_text.specs.Sheet.{sheet_rows};
    ghost use Rattle.row_text.specs.SheetText.{IsSheet};

    ghost view = { sheet_rows };

    ghost invariant = { IsSheet };
}

impl Sheet {
    /// A sheet without rows, which asks for no memory.
    pub fn new(alloc: Global) -> Sheet
        ensures rows { result.rows ≡ [] }
        ensures row { result.row ≡ [] }
    {
        Sheet::with_room(Vec::new(alloc))
    }

    /// A sheet without rows, in the room of these bytes, which are written over.
    pub fn with_room(room: Vec<u8>) -> Sheet
        ensures rows { result.rows ≡ [] }
        ensures row { result.row ≡ [] }
    {
        Sheet {
            text: room,
            ended: 0,
            used: 0,
            has_field: false,
        }
    }

    /// Asks for room for so many bytes more, so that the text needn't be moved while it grows. The
    /// sheet stays as it is, also where memory runs out. No clause says that the room is there.
    pub fn reserve(&mut self, more: usize) -> Result<(), OutOfMemory>
        ensures { self.new ≡ self.old }
    {
        self.text
            .reserve_exact(more.saturating_sub(self.text.len() - self.used))?;
        Ok(())
    }

    /// How many bytes the rows have that were ended.
    pub fn bytes(&self) -> usize
        ensures { result ≡ length (text_of_rows self.now.rows) }
    {
        self.ended
    }

    /// Adds the rows that have this text: rows that were written before, as to another sheet. A row
    /// that is open is dropped first; where memory runs out, the rows stay as they were.
    pub fn append_text(&mut self, text: &[u8]) -> Result<(), OutOfMemory>
        requires { (rows : List Row) × IsTextOf text.now rows }
        ensures ok { (rows : List Row) → IsTextOf text.now rows
            → OnOk result (self.new.rows ≡ self.old.rows ++ rows) }
        ensures closed { self.new.row ≡ [] }
        ensures err { OnErr result (self.new.rows ≡ self.old.rows) }
    {
        self.drop_row();
        make_room(&mut self.text, self.ended, text.len())?;
        self.ended = put_bytes(&mut self.text, self.ended, text);
        self.used = self.ended;
        Ok(())
    }

    /// Adds a number in plain decimal to the row that is being written.
    #[inline]
    pub fn push_number(&mut self, number: i64) -> Result<(), OutOfMemory>
        ensures ok { OnOk result (self.new ≡ with_field self.old (signed_decimal number)) }
        ensures err { OnErr result (self.new ≡ self.old) }
    {
        make_room(&mut self.text, self.used, NUMBER_ROOM)?;
        self.used = put_signed(&mut self.text, self.used, self.has_field, number);
        self.has_field = true;
        Ok(())
    }

    /// Adds numbers in plain decimal, each a field.
    #[inline]
    pub fn push_numbers(&mut self, numbers: &[i64]) -> Result<(), OutOfMemory>
        ensures ok { OnOk result (self.new
            ≡ with_fields self.old (map signed_decimal numbers.now)) }
        ensures err { OnErr result (self.new ≡ self.old) }
    {
        make_room(
            &mut self.text,
            self.used,
            numbers.len().saturating_mul(NUMBER_ROOM),
        )?;
        self.used = put_numbers(&mut self.text, self.used, self.has_field, numbers);
        self.has_field |= !numbers.is_empty();
        Ok(())
    }

    /// Adds a number that is not negative, in plain decimal.
    #[inline]
    pub fn push_count(&mut self, number: u64) -> Result<(), OutOfMemory>
        ensures ok { OnOk result (self.new ≡ with_field self.old (decimal number)) }
        ensures err { OnErr result (self.new ≡ self.old) }
    {
        make_room(&mut self.text, self.used, NUMBER_ROOM)?;
        self.used = put_unsigned(&mut self.text, self.used, self.has_field, number);
        self.has_field = true;
        Ok(())
    }

    /// Adds fields whose text was made before.
    #[inline]
    pub fn push_written(&mut self, fields: &Written) -> Result<(), OutOfMemory>
        ensures ok { OnOk result (self.new ≡ with_fields self.old fields.now) }
        ensures some { OnOk result (0 < length self.new.row) }
        ensures err { OnErr result (self.new ≡ self.old) }
    {
        let text = fields.text();
        make_room(&mut self.text, self.used, text.len() + 1)?;
        self.used = put_text(&mut self.text, self.used, self.has_field, text);
        self.has_field = true;
        Ok(())
    }

    /// Adds a field.
    pub fn push_field(&mut self, field: &[u8]) -> Result<(), OutOfMemory>
        ensures ok { OnOk result (self.new ≡ with_field self.old field.now) }
        ensures err { OnErr result (self.new ≡ self.old) }
    {
        if needs_quotes(field) {
            return self.push_quoted(field);
        }
        self.push_plain(field)
    }

    // Adds a field that needs quotes, by way of a text of its own.
    #[inline(never)]
    fn push_quoted(&mut self, field: &[u8]) -> Result<(), OutOfMemory>
        ensures ok { OnOk result (self.new ≡ with_field self.old field.now) }
        ensures err { OnErr result (self.new ≡ self.old) }
    {
        let alloc = *self.text.allocator();
        let written = Written::new(alloc, field)?;
        self.push_written(&written)
    }

    // Adds a field that needs no quotes, straight into the room.
    fn push_plain(&mut self, field: &[u8]) -> Result<(), OutOfMemory>
        requires { needs_quotes default_writer field.now ≡ false }
        ensures ok { OnOk result (self.new ≡ with_field self.old field.now) }
        ensures err { OnErr result (self.new ≡ self.old) }
    {
        make_room(&mut self.text, self.used, field.len() + 1)?;
        self.used = put_text(&mut self.text, self.used, self.has_field, field);
        self.has_field = true;
        Ok(())
    }

    // Adds a field of a row that is written at once.
    fn push(&mut self, field: &Field<'_>) -> Result<(), OutOfMemory>
        ensures ok { OnOk result (self.new ≡ with_field self.old (text_of field.now)) }
        ensures err { OnErr result (self.new ≡ self.old) }
    {
        match field {
            Field::Text(text) => self.push_field(text),
            Field::Name(name) => self.push_field(name.bytes()),
            Field::Count(number) => self.push_count(*number),
            Field::Number(number) => self.push_number(*number),
        }
    }

    /// Ends the row that is being written.
    pub fn end_row(&mut self) -> Result<(), OutOfMemory>
        requires { 0 < length self.old.row }
        ensures ok { OnOk result (self.new ≡ with_row self.old self.old.row) }
        ensures err { OnErr result (self.new ≡ self.old) }
    {
        make_room(&mut self.text, self.used, END_ROOM)?;
        let is_blank = self.used == self.ended;
        self.used = put_end(&mut self.text, self.used, is_blank);
        self.ended = self.used;
        self.has_field = false;
        Ok(())
    }

    /// Takes back the fields of the row that is being written.
    pub fn drop_row(&mut self)
        ensures rows { self.new.rows ≡ self.old.rows }
        ensures row { self.new.row ≡ [] }
    {
        self.used = self.ended;
        self.has_field = false;
    }

    /// Writes a whole row of these fields. A row that is being written is dropped first; where
    /// memory runs out, the rows stay as they were, and the row that is being written is a
    /// beginning of this one.
    pub fn write(&mut self, fields: &[Field<'_>]) -> Result<(), OutOfMemory>
        requires { 0 < length fields.now }
        ensures ok { OnOk result (self.new ≡ with_row self.old (map text_of fields.now)) }
        ensures err { OnErr result (self.new.rows ≡ self.old.rows) }
        ensures begun { OnErr result (IsBeginningOf (map text_of fields.now) self.new.row) }
    {
        self.drop_row();
        for field in fields {
            self.push(field)?;
        }
        self.end_row()
    }

    /// Writes a whole row of fields that are kept. A row that is being written is dropped first;
    /// where memory runs out, the rows stay as they were, and the row that is being written is a
    /// beginning of this one.
    pub fn write_row(&mut self, fields: &Fields) -> Result<(), OutOfMemory>
        requires { 0 < length fields.now }
        ensures ok { OnOk result (self.new ≡ with_row self.old fields.now) }
        ensures err { OnErr result (self.new.rows ≡ self.old.rows) }
        ensures begun { OnErr result (IsBeginningOf fields.now self.new.row) }
    {
        self.drop_row();
        for i in 0..fields.len() {
            self.push_field(fields.get(i))?;
        }
        self.end_row()
    }

    /// The text of the rows that were ended.
    pub fn text(&self) -> &[u8]
        ensures { result.now ≡ text_of_rows self.now.rows }
    {
        &self.text[..self.ended]
    }

    /// The text of the rows that were ended, without a copy of it.
    pub fn into_text(self) -> Vec<u8>
        ensures { result.items ≡ text_of_rows self.rows }
    {
        let mut text = self.text;
        text.truncate(self.ended);
        text
    }
}

// The most that a number takes, with its sign and the comma before it.
const NUMBER_ROOM: usize = 22;

// The most that the end of a row takes.
const END_ROOM: usize = 3;
