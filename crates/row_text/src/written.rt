//! Fields as the text of a row has them.
ghost use Rattle.std.specs.Prelude.{◌≡◌, ℕ, ◌+◌, ◌<◌, ◌≤◌, ◌++◌, ◌∷◌, [], All, length, slice_index_or, IsTrue, IfOk};
ghost use Rattle.csv.specs.Writing as writing;

use crate::fields::Fields;
use csv::WriterBuilder;
use rail_model::OutOfMemory;
use std::alloc::Global;
use std::marker::Model;
use std::simd::prelude::*;

/// Fields with their text in a row, made once for many rows. Contracts see the fields, of which
/// there is one at least.
#[derive(Drop)]
pub struct Written {
    fields: Fields,
    text: Vec<u8>,
}

impl Model for Written {
    ghost use Rattle.std.specs.Prelude.{◌≡◌, ◌<◌, List, ℕ, length};
    ghost use Rattle.csv.specs.Writing.{default_writer, row_body};

    ghost Value = { List (List ℕ) };

    ghost view = { λ w. w.fields };

    ghost invariant = { λ w. (w.text.items ≡ row_body default_writer w.fields)
        × (0 < length w.fields) };
}

impl Written {
    /// A field with its text.
    pub fn new(alloc: Global, field: &[u8]) -> Result<Written, OutOfMemory>
        ensures { IfOk result (λ written. written ≡ field.now ∷ []) }
    {
        let mut fields = Fields::new(alloc);
        fields.push(field)?;
        let text = field_text(alloc, field)?;
        Ok(Written { fields, text })
    }

    /// These fields and one more after them.
    pub fn with(self, alloc: Global, field: &[u8]) -> Result<Written, OutOfMemory>
        ensures { IfOk result (λ written. written ≡ self ++ field.now ∷ []) }
    {
        let mut fields = self.fields;
        let mut text = self.text;
        fields.push(field)?;
        text.push(b',')?;
        text.extend_from_slice(&field_text(alloc, field)?)?;
        Ok(Written { fields, text })
    }

    // The text.
    pub(crate) fn text(&self) -> &[u8]
        ensures text { result.now ≡ writing.row_body writing.default_writer self.now }
        ensures some { 0 < length self.now }
    {
        &self.text
    }
}

// The text of a field in a row.
pub(crate) fn field_text(alloc: Global, field: &[u8]) -> Result<Vec<u8>, OutOfMemory>
    ensures { IfOk result (λ text. text.items
        ≡ writing.field_text writing.default_writer field.now) }
{
    if needs_quotes(field) {
        return quoted_text(alloc, field);
    }
    Ok(Vec::from_slice(alloc, field)?)
}

// Whether a field has a byte for which CSV writes quotes round it.
pub(crate) fn needs_quotes(field: &[u8]) -> bool
    ensures { result ≡ writing.needs_quotes writing.default_writer field.now }
{
    if are_high(field) {
        return false;
    }
    field
        .iter()
        .any(|b| *b == b',' || *b == b'"' || *b == b'\r' || *b == b'\n')
}

// Whether all bytes of a field of a few bytes are above the comma in ASCII, as in most names: none
// of those is one for which CSV writes quotes. `false` says nothing.
#[inline]
fn are_high(field: &[u8]) -> bool
    ensures { IsTrue result → All (λ b. 44 < b) field.now }
{
    let len = field.len();
    if len < FOUR || 2 * FOUR < len {
        return false;
    }
    are_four_high(field, 0) && are_four_high(field, len - FOUR)
}

// So many bytes are looked at together.
const FOUR: usize = 4;

// Whether the bytes from a place on that are looked at together are above the comma.
#[inline]
fn are_four_high(field: &[u8], at: usize) -> bool
    requires { at + FOUR ≤ length field.now }
    ensures { IsTrue result → (k : ℕ) → at ≤ k → k < at + FOUR → 44 < slice_index_or field.now k 0 }
{
    let lanes = u8x4::from_slice(&field[at..]);
    lanes.simd_lt(u8x4::splat(b',' + 1)).to_bitmask() == 0
}

// The text that CSV writes for a field. Any error of its writer over memory is that memory ran out.
#[inline(never)]
fn quoted_text(alloc: Global, field: &[u8]) -> Result<Vec<u8>, OutOfMemory>
    ensures { IfOk result (λ text. text.items
        ≡ writing.field_text writing.default_writer field.now) }
{
    let mut writer = WriterBuilder::new().from_writer(Vec::new(alloc));
    if writer.write_field(field).is_err() {
        return Err(OutOfMemory);
    }
    match writer.into_inner() {
        Ok(text) => Ok(text),
        Err(_) => Err(OutOfMemory),
    }
}
