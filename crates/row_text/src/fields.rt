//! The fields of a row, kept as bytes and the places at which they are cut.
ghost use Rattle.std.specs.Prelude.{◌≡◌, ◌+◌, ◌<◌, ◌≤◌, ◌^◌, ◌↔◌, [], ◌∷◌, ◌++◌, length, slice_index, take, drop, vec_len, vec_capacity, IsTrue, IfSome, IfOk, OnOk, OnErr};
ghost use Rattle.csv.specs.Records.{prev};
ghost use Rattle.row_text.specs.Cuts.{CutsIn, fields_cut_at, PutsField, with_first};
ghost use Rattle.row_text.specs.SheetRows.{field};

use crate::put::{make_room, put_piece};
use rail_model::OutOfMemory;
use std::alloc::Global;
use std::marker::Model;

/// The fields of a row, of any bytes. Contracts see the list of the fields, each a list of bytes.
///
/// The fields have fewer than 4,294,967,296 bytes together, where each counts for one more than it
/// has: a push past that finds no memory.
#[derive(Drop)]
pub struct Fields {
    // The bytes of the fields, with one more after each, and spare room after them.
    bytes: Vec<u8>,
    // How many of the bytes are used.
    used: usize,
    // Where each field starts, and the place past the last.
    cuts: Vec<u32>,
}

impl Model for Fields {
    ghost use Rattle.std.specs.Prelude.{List, ℕ};
    ghost use Rattle.row_text.specs.Cuts.{fields_cut_at, EndsAt};

    ghost Value = { List (List ℕ) };

    ghost view = { λ f. fields_cut_at f.bytes.items f.cuts.items };

    ghost invariant = { λ f. EndsAt f.bytes.items f.cuts.items f.used };
}

impl Fields {
    /// No fields, which ask for no memory.
    pub fn new(alloc: Global) -> Fields
        ensures { result ≡ [] }
    {
        Fields {
            bytes: Vec::new(alloc),
            used: 0,
            cuts: Vec::new(alloc),
        }
    }

    /// Puts a field at the end. Without memory the fields stay as they were.
    pub fn push(&mut self, field: &[u8]) -> Result<(), OutOfMemory>
        ensures ok { OnOk result (self.new ≡ self.old ++ field.now ∷ []) }
        ensures err { OnErr result (self.new ≡ self.old) }
    {
        put_first(&mut self.cuts)?;
        self.used = put_field(&mut self.bytes, &mut self.cuts, self.used, field)?;
        Ok(())
    }

    /// How many fields there are.
    pub fn len(&self) -> usize
        ensures { result ≡ length self.now }
    {
        self.cuts.len().saturating_sub(1)
    }

    /// Whether there is no field.
    pub fn is_empty(&self) -> bool
        ensures { IsTrue result ↔ (self.now ≡ []) }
    {
        self.len() == 0
    }

    /// The field at `i`.
    #[inline]
    pub fn get(&self, i: usize) -> &[u8]
        requires { i < length self.now }
        ensures { result.now ≡ field self.now i }
    {
        field_at(&self.bytes, &self.cuts, i)
    }

    /// The fields as a row that only lends them.
    pub fn row(&self) -> Row<'_>
        ensures { result ≡ self.now }
    {
        Row {
            bytes: &self.bytes,
            cuts: &self.cuts,
        }
    }
}

/// A row that lies somewhere else: contracts see the list of its fields.
#[derive(Drop)]
pub struct Row<'a> {
    bytes: &'a [u8],
    // Where each field starts, and the place past the last.
    cuts: &'a [u32],
}

impl<'a> Model for Row<'a> {
    ghost use Rattle.std.specs.Prelude.{◌+◌, List, ℕ, length};
    ghost use Rattle.row_text.specs.Cuts.{fields_cut_at, CutsIn};

    ghost Value = { List (List ℕ) };

    ghost view = { λ r. fields_cut_at r.bytes.now r.cuts.now };

    ghost invariant = { λ r. CutsIn (length r.bytes.now + 1) r.cuts.now };
}

impl<'a> Row<'a> {
    // The row whose fields are cut at these places.
    #[inline]
    pub(crate) fn of_cuts(bytes: &'a [u8], cuts: &'a [u32]) -> Row<'a>
        requires { CutsIn (length bytes.now + 1) cuts.now }
        ensures { result ≡ fields_cut_at bytes.now cuts.now }
    {
        Row { bytes, cuts }
    }

    /// How many fields there are.
    #[inline]
    pub fn len(&self) -> usize
        ensures { result ≡ length self.now }
    {
        self.cuts.len().saturating_sub(1)
    }

    /// Whether there is no field.
    pub fn is_empty(&self) -> bool
        ensures { IsTrue result ↔ (self.now ≡ []) }
    {
        self.len() == 0
    }

    // The field that the row begins with, without bytes where there is none.
    pub(crate) fn word(&self) -> &'a [u8]
        ensures { result.now ≡ field self.now 0 }
    {
        if self.is_empty() {
            return b"";
        }
        self.get(0)
    }

    /// A copy of the fields.
    pub fn to_fields(&self, alloc: Global) -> Result<Fields, OutOfMemory>
        ensures { IfOk result (λ fields. fields ≡ self.now) }
    {
        let mut fields = Fields::new(alloc);
        for i in 0..self.len() {
            fields.push(self.get(i))?;
        }
        Ok(fields)
    }

    /// The field at `i`.
    #[inline]
    pub fn get(&self, i: usize) -> &'a [u8]
        requires { i < length self.now }
        ensures { result.now ≡ field self.now i }
    {
        field_at(self.bytes, self.cuts, i)
    }
}

// The field at `i`, of those that are cut from the bytes at these places.
#[inline]
fn field_at<'a>(bytes: &'a [u8], cuts: &[u32], i: usize) -> &'a [u8]
    requires at { i + 1 < length cuts.now }
    requires within { CutsIn (length bytes.now + 1) cuts.now }
    ensures { result.now ≡ field (fields_cut_at bytes.now cuts.now) i }
{
    let start = cuts[i] as usize;
    let next = cuts[i + 1] as usize;
    &bytes[start..next - 1]
}

// Where the piece at `i` starts and ends, of pieces that end at these places.
#[inline]
pub(crate) fn span(ends: &[u32], i: usize) -> (usize, usize)
    requires { i < length ends.now }
    ensures start { result.0 ≡ prev 0 ends.now i }
    ensures end { result.1 ≡ slice_index ends.now i }
{
    let end = ends[i] as usize;
    if i == 0 {
        return (0, end);
    }
    (ends[i - 1] as usize, end)
}

// Puts the place of the first field, where none is there.
fn put_first(cuts: &mut Vec<u32>) -> Result<(), OutOfMemory>
    ensures ok { OnOk result (cuts.new.items ≡ with_first cuts.old.items) }
    ensures err { OnErr result (cuts.new.items ≡ cuts.old.items) }
{
    if cuts.is_empty() {
        cuts.push(0)?;
    }
    Ok(())
}

// Puts a field after the bytes that are used, and the place past it after the others. One more byte
// stands after it. Gives how many bytes are used then.
pub(crate) fn put_field(
    bytes: &mut Vec<u8>,
    cuts: &mut Vec<u32>,
    used: usize,
    field: &[u8],
) -> Result<usize, OutOfMemory>
    requires { used ≤ length bytes.old.items }
    ensures ok { IfOk result (λ end. PutsField bytes.old.items bytes.new.items
        cuts.old.items cuts.new.items used end field.now) }
    ensures bytes { OnErr result (bytes.new.items ≡ bytes.old.items) }
    ensures cuts { OnErr result (cuts.new.items ≡ cuts.old.items) }
{
    if end_after(used, field.len()).is_none() {
        return Err(OutOfMemory);
    }
    cuts.reserve(1)?;
    make_room(bytes, used, field.len() + 1)?;
    Ok(put_reserved(bytes, cuts, used, field, 0, field.len()))
}

// Puts a field that is a part of a text, where there is room for it and its place.
#[inline]
pub(crate) fn put_reserved(
    bytes: &mut Vec<u8>,
    cuts: &mut Vec<u32>,
    used: usize,
    text: &[u8],
    start: usize,
    len: usize,
) -> usize
    requires within { start + len ≤ length text.now }
    requires bytes { used + len + 1 ≤ length bytes.old.items }
    requires cuts { vec_len cuts.old < vec_capacity cuts.old }
    requires small { used + len + 1 < 2 ^ 32 }
    ensures put { PutsField bytes.old.items bytes.new.items
        cuts.old.items cuts.new.items used result (take len (drop start text.now)) }
    ensures room { length bytes.new.items ≡ length bytes.old.items }
    ensures len { vec_len cuts.new ≡ vec_len cuts.old + 1 }
    ensures capacity { vec_capacity cuts.new ≡ vec_capacity cuts.old }
{
    let end = put_piece(bytes, used, text, start, len) + 1;
    cuts.push_reserved(end as u32);
    end
}

// The place past fields of a length after so many bytes, if 32 bits have it. `None` says nothing:
// it becomes want of memory.
pub(crate) fn end_after(used: usize, field: usize) -> Option<usize>
    ensures { IfSome result (λ end. (end ≡ used + field + 1) × (end < 2 ^ 32)) }
{
    match used.checked_add(field) {
        Some(end) if end < GREATEST_PLACE => Some(end + 1),
        _ => None,
    }
}

// No place is past this.
pub(crate) const GREATEST_PLACE: usize = 4_294_967_295;
