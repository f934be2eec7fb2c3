//! The rows of a text.
ghost use Rattle.std.specs.Prelude.{◌≡◌, ◌<◌, ◌≤◌, ◌^◌, [], length, slice_index_or, IfOk, OnOk, IsTrue, ◌↔◌};
ghost use Rattle.csv.specs.Records.{fields_of, IsRecord};
ghost use Rattle.row_text.specs.Cuts.{rows_cut_at, RowsIn};
ghost use Rattle.row_text.specs.SheetRows.{field};
ghost use Rattle.row_text.specs.Lines.{read_in, has_version_row, version_of, version_in, first_line};

use crate::fields::{Fields, Row, end_after, put_reserved, span};
use crate::line::{Line, read_line};
use crate::places::{places_for, push_place};
use crate::plain_rows::plain_rows;
use crate::put::make_room;
use crate::read_field::number_at;
use crate::word::is_word;
use csv::{ByteRecord, Reader, ReaderBuilder};
use rail_model::{Form, OutOfMemory};
use std::alloc::Global;
use std::borrow::CowSlice;
use std::marker::Model;

/// The rows of a text. Contracts see the list of the rows, each the list of its fields.
///
/// A text without double quotes and without a byte order mark isn't copied: its rows lie in it.
#[derive(Drop)]
pub struct RowList<'a> {
    // The bytes in which the fields stand.
    bytes: CowSlice<'a, u8, Global>,
    // Where the fields of all rows are cut, one row after the other.
    cuts: Vec<u32>,
    // Where the places of each row end.
    ends: Vec<u32>,
}

impl<'a> Model for RowList<'a> {
    ghost use Rattle.std.specs.Prelude.{List, ℕ};
    ghost use Rattle.std.specs.Cow.{cow_slice_items};
    ghost use Rattle.row_text.specs.Cuts.{rows_cut_at, RowsIn};

    ghost Value = { List (List (List ℕ)) };

    ghost view = { λ r. rows_cut_at (cow_slice_items r.bytes) r.cuts.items r.ends.items };

    ghost invariant = { λ r. RowsIn (cow_slice_items r.bytes) r.cuts.items r.ends.items };
}

impl<'a> RowList<'a> {
    // Rows that lie in a text, where their fields are cut at these places, and the places of each
    // row end at those.
    pub(crate) fn of_cuts(text: &'a [u8], cuts: Vec<u32>, ends: Vec<u32>) -> RowList<'a>
        requires { RowsIn text.now cuts.items ends.items }
        ensures { result ≡ rows_cut_at text.now cuts.items ends.items }
    {
        RowList {
            bytes: CowSlice::Borrowed(text),
            cuts,
            ends,
        }
    }

    /// How many rows there are.
    pub fn len(&self) -> usize
        ensures { result ≡ length self.now }
    {
        self.ends.len()
    }

    /// Whether there is no row.
    pub fn is_empty(&self) -> bool
        ensures { IsTrue result ↔ (self.now ≡ []) }
    {
        self.len() == 0
    }

    /// The row at `i`, where it lies.
    pub fn get(&self, i: usize) -> Row<'_>
        requires { i < length self.now }
        ensures { result ≡ slice_index_or self.now i [] }
    {
        row_at(self.bytes.as_slice(), &self.cuts, &self.ends, i)
    }

    /// A copy of the row at `i`.
    pub fn row(&self, alloc: Global, i: usize) -> Result<Fields, OutOfMemory>
        requires { i < length self.now }
        ensures { IfOk result (λ row. row ≡ slice_index_or self.now i []) }
    {
        self.get(i).to_fields(alloc)
    }

    /// The line that the row at `i` spells in a version of the rows, or its first form fault.
    pub fn line(
        &self,
        alloc: Global,
        version: u32,
        i: usize,
    ) -> Result<Result<Line, Form>, OutOfMemory>
        requires { i < length self.now }
        ensures { IfOk result (λ found. found ≡ read_in version (slice_index_or self.now i [])) }
    {
        read_line(alloc, version, &self.get(i))
    }

    /// The version in which the rows are read, 1 or 2. A first row with the word `version` says it,
    /// and an error is the fault of that row; without one it is 1.
    pub fn version(&self) -> Result<u32, Form>
        ensures { result ≡ version_of self.now }
    {
        if self.has_version_row() {
            version_in(&self.get(0))
        } else {
            Ok(1)
        }
    }

    /// The place of the first row that is to spell a line: the rows before it say the version.
    pub fn first_line(&self) -> usize
        ensures { result ≡ first_line self.now }
    {
        if self.has_version_row() { 1 } else { 0 }
    }

    // Whether the first row says the version of the others.
    fn has_version_row(&self) -> bool
        ensures value { result ≡ has_version_row self.now }
        ensures there { IsTrue result → 0 < length self.now }
    {
        !self.is_empty() && is_word(self.get(0).word(), b"version")
    }
}

// The row at `i`, of those that are cut from bytes at these places, which end at those.
#[inline]
fn row_at<'a>(bytes: &'a [u8], cuts: &'a [u32], ends: &[u32], i: usize) -> Row<'a>
    requires there { i < length ends.now }
    requires rows { RowsIn bytes.now cuts.now ends.now }
    ensures { result ≡ slice_index_or (rows_cut_at bytes.now cuts.now ends.now) i [] }
{
    let (from, to) = span(ends, i);
    Row::of_cuts(bytes, &cuts[from..to])
}

// The version that a row with the word `version` says, or its fault.
fn version_in(row: &Row<'_>) -> Result<u32, Form>
    ensures { result ≡ version_in row.now }
{
    if row.len() != 2 {
        return Err(Form::Fields);
    }
    let version = number_at(row, 1)?;
    if version != 1 && version != 2 {
        return Err(Form::Number);
    }
    Ok(version)
}

// The rows that were read so far, as a list of rows keeps them.
#[derive(Drop)]
struct TakenRows {
    // The bytes of the fields, with one more after each, and spare room after them.
    bytes: Vec<u8>,
    // How many of the bytes are used.
    used: usize,
    cuts: Vec<u32>,
    ends: Vec<u32>,
}

ghost use Rattle.row_text.specs.Rows.{rows_of, HasRoom, HasSame, HasTaken, IsReading, PutsRow, Takes};

/// The rows of a text as CSV reads them: commas, double quotes, no header row, rows of any lengths.
/// A byte order mark at the start is left out. Any error of the reader is that memory ran out.
pub fn rows(alloc: Global, text: &[u8]) -> Result<RowList<'_>, OutOfMemory>
    ensures { IfOk result (λ rows. rows ≡ rows_of text.now) }
{
    match plain_rows(alloc, text)? {
        Some(rows) => Ok(rows),
        None => rows_read(alloc, text),
    }
}

// The rows of any text, by a reader of CSV.
fn rows_read(alloc: Global, text: &[u8]) -> Result<RowList<'_>, OutOfMemory>
    ensures { IfOk result (λ rows. rows ≡ rows_of text.now) }
{
    let mut taken = nothing_taken(alloc, text)?;
    take_text(&mut taken, alloc, text)?;
    Ok(RowList {
        bytes: CowSlice::Owned(taken.bytes),
        cuts: taken.cuts,
        ends: taken.ends,
    })
}

// No row of a text, and room for all.
fn nothing_taken(alloc: Global, text: &[u8]) -> Result<TakenRows, OutOfMemory>
    ensures { IfOk result (λ taken. HasTaken taken []) }
{
    let places = places_for(alloc, text)?;
    Ok(TakenRows {
        bytes: Vec::new(alloc),
        used: 0,
        cuts: places.cuts,
        ends: places.ends,
    })
}

// Takes the rows of a text.
fn take_text(taken: &mut TakenRows, alloc: Global, text: &[u8]) -> Result<(), OutOfMemory>
    requires { HasTaken taken.old [] }
    ensures { OnOk result (HasTaken taken.new (rows_of text.now)) }
{
    let mut reader = ReaderBuilder::new()
        .has_headers(false)
        .flexible(true)
        .from_reader(alloc, text);
    take_rows(taken, &mut reader, alloc, text)
}

// Takes the rows that a reader of a text gives. Any error of the reader is that memory ran out.
fn take_rows(
    taken: &mut TakenRows,
    reader: &mut Reader<&[u8]>,
    alloc: Global,
    text: &[u8],
) -> Result<(), OutOfMemory>
    requires { IsReading taken.old reader.old text.now }
    ensures { OnOk result (HasTaken taken.new (rows_of text.now)) }
{
    let mut row = ByteRecord::new(alloc);
    // A text has no more rows than bytes.
    for _ in 0..text.len() + 1 {
        match reader.read_byte_record(&mut row) {
            Ok(true) => take(taken, &row)?,
            Ok(false) => return Ok(()),
            Err(_) => return Err(OutOfMemory),
        }
    }
    Err(OutOfMemory)
}

// Takes one row more.
fn take(taken: &mut TakenRows, row: &ByteRecord) -> Result<(), OutOfMemory>
    requires record { IsRecord row.now }
    requires room { taken.old.used ≤ length taken.old.bytes.items }
    requires small { taken.old.used < 2 ^ 32 }
    ensures { OnOk result (Takes taken.old taken.new (fields_of row.now)) }
{
    put_fields(taken, row)?;
    push_place(&mut taken.ends, taken.cuts.len())?;
    Ok(())
}

// Puts the fields of a row, and their places.
fn put_fields(taken: &mut TakenRows, row: &ByteRecord) -> Result<(), OutOfMemory>
    requires record { IsRecord row.now }
    requires room { taken.old.used ≤ length taken.old.bytes.items }
    requires small { taken.old.used < 2 ^ 32 }
    ensures { OnOk result (PutsRow taken.old taken.new (fields_of row.now)) }
{
    make_row_room(taken, row)?;
    taken.cuts.push_reserved(taken.used as u32);
    let text = row.as_slice();
    let mut start = 0;
    for i in 0..row.len() {
        let len = field_of(row, i).len();
        taken.used = put_reserved(
            &mut taken.bytes,
            &mut taken.cuts,
            taken.used,
            text,
            start,
            len,
        );
        start += len;
    }
    Ok(())
}

// Sees that there is room for the fields of a row, and for their places.
fn make_row_room(taken: &mut TakenRows, row: &ByteRecord) -> Result<(), OutOfMemory>
    requires { taken.old.used ≤ length taken.old.bytes.items }
    ensures ok { OnOk result (HasRoom taken.new row.now) }
    ensures kept { OnOk result (HasSame taken.old taken.new) }
{
    let fields = row.len();
    let more = row.as_slice().len().saturating_add(fields);
    let Some(_) = end_after(taken.used, more) else {
        return Err(OutOfMemory);
    };
    taken.cuts.reserve(fields + 1)?;
    make_room(&mut taken.bytes, taken.used, more)?;
    Ok(())
}

// The field at `i` of a row.
fn field_of(row: &ByteRecord, i: usize) -> &[u8]
    requires { i < length (fields_of row.now) }
    ensures { result.now ≡ field (fields_of row.now) i }
{
    match row.get(i) {
        Some(field) => field,
        None => unreachable!(),
    }
}
