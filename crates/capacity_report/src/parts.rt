//! Texts that are made in parts, by as many threads as there are processors.
ghost use Rattle.std.specs.Prelude.{◌≡◌, ℕ, ◌<◌, ◌≤◌, List, [], IfOk, map, Ok};
ghost use Rattle.std.specs.List.{flat_map, range_with_len};
ghost use Rattle.row_text.specs.SheetRows.{Row, text_of_rows};
ghost use Rattle.capacity_report.specs.Parts.{start_of, AreParts, AcceptsParts, GivesTexts};

use rail_model::OutOfMemory;
use rayon::current_num_threads;
use row_text::{Sheet, Text};
use std::alloc::Global;
use std::thread::{Threads, map_vec};

// Bytes of room with which a sheet begins.
const FIRST_BYTES: usize = 64;

// The items of a part, from `first` to before `end`, and a room in which the sheet of their text
// begins.
#[derive(Drop)]
pub(crate) struct Part {
    pub(crate) first: usize,
    pub(crate) end: usize,
    pub(crate) room: Vec<u8>,
}

// The text of the rows of so many items, in their order, where `text_of` makes the text of a part.
// There are as many parts as processors, each made by a thread of its own, but no part has fewer
// than `least` items where there are several. The calling thread asks for the rooms.
pub(crate) fn text_in_parts<R: Threads + Sync, F: Fn(Part) -> Result<Vec<u8>, OutOfMemory> + Sync>(
    rt: &R,
    alloc: Global,
    count: usize,
    least: usize,
    text_of: &F,
) -> Result<Text, OutOfMemory>
    requires least { 0 < least }
    requires accepts { AcceptsParts (F.pre text_of.now) count }
    ensures { (rows : ℕ → List Row) → GivesTexts (F.post text_of.now) rows count
        → IfOk result (λ text. text ≡ text_of_rows (flat_map rows (range_with_len 0 count))) }
{
    let parts = parts_from(alloc, count, parts_of(rt, count, least))?;
    one_after_another(alloc, map_vec(rt, parts, text_of)?)
}

// So many parts of so many items.
fn parts_from(alloc: Global, count: usize, parts: usize) -> Result<Vec<Part>, OutOfMemory>
    requires { 0 < parts }
    ensures { IfOk result (λ all. AreParts count parts parts all.items) }
{
    let mut all = Vec::with_capacity(alloc, parts)?;
    for i in 0..parts {
        all.push(Part {
            first: start_of(count, parts, i),
            end: start_of(count, parts, i + 1),
            room: first_room(alloc)?,
        })?;
    }
    Ok(all)
}

// An empty list in which a sheet begins. A block of memory that grows stays with the thread that
// asked for it first. So the calling thread asks: it has given back what reading took.
pub(crate) fn first_room(alloc: Global) -> Result<Vec<u8>, OutOfMemory>
    ensures { IfOk result (λ room. room.items ≡ []) }
{
    Ok(Vec::with_capacity(alloc, FIRST_BYTES)?)
}

// Into how many parts so many items are split.
fn parts_of(rt: &impl Threads, count: usize, least: usize) -> usize
    requires { 0 < least }
    ensures { 0 < result }
{
    let most = count / least;
    if most < 2 {
        return 1;
    }
    current_num_threads(rt).min(most)
}

// The number of a part's first item.
fn start_of(count: usize, parts: usize, i: usize) -> usize
    requires some { 0 < parts }
    requires most { i ≤ parts }
    ensures { result ≡ start_of count parts i }
{
    (i as u128 * count as u128 / parts as u128) as usize
}

// The text of these pieces in their order, if each could be made.
fn one_after_another(
    alloc: Global,
    pieces: Vec<Result<Vec<u8>, OutOfMemory>>,
) -> Result<Text, OutOfMemory>
    ensures { IfOk result (λ text. (made : List _) × (pieces.items ≡ map Ok made)
        × (text ≡ flat_map (λ piece. piece.items) made)) }
{
    let mut text = Text::new(alloc);
    for piece in pieces {
        text.push(piece?)?;
    }
    Ok(text)
}

// After the first item of a part, asks for the room that the others would take if they were like
// it, and a quarter more: a text that outgrows it must be moved.
pub(crate) fn ask_for_rest(sheet: &mut Sheet, done: usize, left: usize)
    ensures { sheet.new ≡ sheet.old }
{
    if done == 1 {
        let rest = sheet.bytes().saturating_mul(left);
        let _ = sheet.reserve(rest.saturating_add(rest / 4));
    }
}
