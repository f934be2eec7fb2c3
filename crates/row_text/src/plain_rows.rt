//! The rows of a text without double quotes, which is cut at its commas and at the ends of its
//! lines.
ghost use Rattle.std.specs.Prelude.{◌≡◌, ◌↔◌, ◌==◌, ◌&&◌, ◌∷◌, [], ◌+◌, ◌<◌, ◌≤◌, ◌^◌, length, IsTrue, IfOk, IfSome, OnOk, take};
ghost use Rattle.row_text.specs.PlainRows.{ends_line, EndsField, EndsLine, HasCut, HasCutAll, so_far, TakesByte, OthersAreAboveComma, OnesAreCommas};
ghost use Rattle.row_text.specs.Rows.{rows_of};

use crate::fields::GREATEST_PLACE;
use crate::places::{places_for, push_place};
use crate::row_list::RowList;
use rail_model::OutOfMemory;
use std::alloc::Global;
use std::simd::prelude::*;

// The fields and rows that were cut from a text so far.
#[derive(Drop)]
struct CutFields {
    // Where the fields are cut. The place at which the field at hand starts isn't put yet.
    cuts: Vec<u32>,
    // How many places there are up to the end of each row.
    ends: Vec<u32>,
    // Where the field at hand starts.
    start: usize,
    // How many places there are before the line at hand.
    first: usize,
}

// The rows of a text, as CSV reads them. `None` says nothing: a reader of CSV follows, as for a
// text with a double quote, one that may start with a byte order mark, or one that is too long.
pub(crate) fn plain_rows(alloc: Global, text: &[u8]) -> Result<Option<RowList<'_>>, OutOfMemory>
    ensures { IfOk result (λ found. IfSome found (λ rows. rows ≡ rows_of text.now)) }
{
    if text.len() >= GREATEST_PLACE || starts_with_mark(text) {
        return Ok(None);
    }
    match cut_whole(alloc, text)? {
        Some(cut) => Ok(Some(RowList::of_cuts(text, cut.cuts, cut.ends))),
        None => Ok(None),
    }
}

// What is cut from a text. `None`, as where there is a double quote, says nothing: a reader of CSV
// follows.
fn cut_whole(alloc: Global, text: &[u8]) -> Result<Option<CutFields>, OutOfMemory>
    requires { length text.now + 1 < 2 ^ 32 }
    ensures { IfOk result (λ found. IfSome found (λ cut. HasCutAll text.now (so_far cut))) }
{
    let places = places_for(alloc, text)?;
    let mut cut = CutFields {
        cuts: places.cuts,
        ends: places.ends,
        start: 0,
        first: 0,
    };
    if !cut_text(&mut cut, text)? {
        return Ok(None);
    }
    Ok(Some(cut))
}

// Whether a text starts with the first byte of a byte order mark.
pub(crate) fn starts_with_mark(text: &[u8]) -> bool
    ensures { IsTrue result ↔ (take 1 text.now ≡ 0xEF ∷ []) }
{
    !text.is_empty() && text[0] == 0xEF
}

// So many bytes are looked at together.
const LANES: usize = 64;

// Cuts a text. `false`, as where there is a double quote, says nothing.
fn cut_text(cut: &mut CutFields, text: &[u8]) -> Result<bool, OutOfMemory>
    requires small { length text.now + 1 < 2 ^ 32 }
    requires fresh { HasCut text.now (so_far cut.old) 0 }
    ensures { IfOk result (λ whole. IsTrue whole → HasCutAll text.now (so_far cut.new)) }
{
    let mut at = 0;
    while text.len() - at >= LANES {
        if !cut_lanes(cut, text, at)? {
            return Ok(false);
        }
        at += LANES;
    }
    for i in at..text.len() {
        if !take_byte(cut, i, text[i])? {
            return Ok(false);
        }
    }
    end_line(cut, text.len())?;
    Ok(true)
}

// Cuts the bytes of a text from a place on that are looked at together. `false`, as where there is
// a double quote, says nothing.
fn cut_lanes(cut: &mut CutFields, text: &[u8], at: usize) -> Result<bool, OutOfMemory>
    requires small { length text.now + 1 < 2 ^ 32 }
    requires there { at + LANES ≤ length text.now }
    requires before { HasCut text.now (so_far cut.old) at }
    ensures { IfOk result (λ whole. IsTrue whole → HasCut text.now (so_far cut.new) (at + LANES)) }
{
    let ends = possible_ends(text, at);
    if ends == commas(text, at) {
        end_at_commas(cut, text, at, ends)?;
        return Ok(true);
    }
    take_ends(cut, text, at, ends)
}

// Ends a field at each comma among the bytes from a place on. What it needs of the text stands in
// the bits.
fn end_at_commas(
    cut: &mut CutFields,
    text: &[u8],
    at: usize,
    commas: u64,
) -> Result<(), OutOfMemory>
    requires small { length text.now + 1 < 2 ^ 32 }
    requires there { at + LANES ≤ length text.now }
    requires others { OthersAreAboveComma text.now at commas }
    requires ones { OnesAreCommas text.now at commas }
    requires before { HasCut text.now (so_far cut.old) at }
    ensures { OnOk result (HasCut text.now (so_far cut.new) (at + LANES)) }
{
    let mut starts = [0; LANES];
    let mut count = 0;
    let mut start = cut.start;
    let mut rest = commas;
    // How many of the bytes are done: by it the loop is known to end.
    let mut done = 0;
    while rest != 0 {
        starts[count] = start as u32;
        count += 1;
        done = rest.trailing_zeros() as usize + 1;
        start = at + done;
        rest &= rest - 1;
    }
    cut.cuts.extend_from_slice(&starts[..count])?;
    cut.start = start;
    Ok(())
}

// Takes each byte that may end a field, of those from a place on. `false`, as where there is a
// double quote, says nothing.
fn take_ends(cut: &mut CutFields, text: &[u8], at: usize, ends: u64) -> Result<bool, OutOfMemory>
    requires small { length text.now + 1 < 2 ^ 32 }
    requires there { at + LANES ≤ length text.now }
    requires others { OthersAreAboveComma text.now at ends }
    requires before { HasCut text.now (so_far cut.old) at }
    ensures { IfOk result (λ whole. IsTrue whole → HasCut text.now (so_far cut.new) (at + LANES)) }
{
    let mut rest = ends;
    // How many of the bytes are done: by it the loop is known to end.
    let mut done = 0;
    while rest != 0 {
        let place = rest.trailing_zeros() as usize;
        if !take_byte(cut, at + place, text[at + place])? {
            return Ok(false);
        }
        rest &= rest - 1;
        done = place + 1;
    }
    Ok(true)
}

// Which of the bytes from a place on may end a field, by a bit for each: those without are above
// the comma in ASCII.
fn possible_ends(text: &[u8], at: usize) -> u64
    requires { at + LANES ≤ length text.now }
    ensures { OthersAreAboveComma text.now at result }
{
    let lanes = u8x64::from_slice(&text[at..]);
    lanes.simd_lt(u8x64::splat(b',' + 1)).to_bitmask()
}

// Which of the bytes from a place on are commas, by a bit for each.
fn commas(text: &[u8], at: usize) -> u64
    requires { at + LANES ≤ length text.now }
    ensures { OnesAreCommas text.now at result }
{
    u8x64::from_slice(&text[at..])
        .simd_eq(u8x64::splat(b','))
        .to_bitmask()
}

// Takes a byte. `false`, as for a double quote, says nothing.
#[inline]
fn take_byte(cut: &mut CutFields, i: usize, byte: u8) -> Result<bool, OutOfMemory>
    requires order { cut.old.start ≤ i }
    requires small { i + 1 < 2 ^ 32 }
    ensures { IfOk result (λ plain. IsTrue plain → TakesByte (so_far cut.old) (so_far cut.new) i byte) }
{
    // Each byte that ends a field is a comma, or below it in ASCII.
    if byte > b',' {
        return Ok(true);
    }
    if byte == b',' {
        end_field(cut, i)?;
        return Ok(true);
    }
    take_below_comma(cut, i, byte)
}

// Takes a byte that is below the comma in ASCII. `false`, as for a double quote, says nothing.
#[inline(never)]
fn take_below_comma(cut: &mut CutFields, i: usize, byte: u8) -> Result<bool, OutOfMemory>
    requires order { cut.old.start ≤ i }
    requires small { i + 1 < 2 ^ 32 }
    requires other { byte < 44 }
    ensures { IfOk result (λ plain. IsTrue plain → TakesByte (so_far cut.old) (so_far cut.new) i byte) }
{
    if ends_line(byte) {
        end_line(cut, i)?;
        return Ok(true);
    }
    Ok(byte != b'"')
}

// Whether a byte ends a line.
#[inline]
pub(crate) fn ends_line(byte: u8) -> bool
    ensures { result ≡ ends_line byte }
{
    byte == b'\r' || byte == b'\n'
}

// Ends the field at hand at a place.
#[inline]
fn end_field(cut: &mut CutFields, i: usize) -> Result<(), OutOfMemory>
    requires order { cut.old.start ≤ i }
    requires small { i + 1 < 2 ^ 32 }
    ensures { OnOk result (EndsField (so_far cut.old) (so_far cut.new) i) }
{
    cut.cuts.push(cut.start as u32)?;
    cut.start = i + 1;
    Ok(())
}

// Ends the line at hand at a place. One in which nothing stands is no row.
#[inline]
fn end_line(cut: &mut CutFields, i: usize) -> Result<(), OutOfMemory>
    requires order { cut.old.start ≤ i }
    requires small { i + 1 < 2 ^ 32 }
    ensures { OnOk result (EndsLine (so_far cut.old) (so_far cut.new) i) }
{
    if is_blank(cut, i) {
        cut.start = i + 1;
        return Ok(());
    }
    end_field(cut, i)?;
    cut.cuts.push(cut.start as u32)?;
    cut.first = cut.cuts.len();
    push_place(&mut cut.ends, cut.first)?;
    Ok(())
}

// Whether nothing stands in the line at hand up to a place.
#[inline]
fn is_blank(cut: &CutFields, i: usize) -> bool
    ensures { result ≡ (cut.now.start == i) && (cut.now.first == length cut.now.cuts.items) }
{
    cut.start == i && cut.first == cut.cuts.len()
}
