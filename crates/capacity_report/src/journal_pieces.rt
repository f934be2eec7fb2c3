//! The text of a journal.
ghost use Rattle.std.specs.Prelude.{◌≡◌, ◌<◌, ◌++◌, List, map, All, IfOk, OnOk, Ok};
ghost use Rattle.std.specs.List.{flat_map};
ghost use Rattle.plan_model.specs.Legal.{IsLegal};
ghost use Rattle.row_text.specs.SheetRows.{text_of_rows};
ghost use Rattle.capacity_report.specs.Rows as rows;
ghost use Rattle.capacity_report.specs.Pieces.{IsFilled, AreFilled};
ghost use Rattle.capacity_report.specs.Published.{PublishesAnswer};

use crate::text_so_far::{TextSoFar, rooms_for, with_entry};
use plan_model::{Act, Answer, Entry};
use rail_model::{List, OutOfMemory};
use rayon::current_num_threads;
use row_text::Text;
use std::alloc::Global;
use std::mem;
use std::thread::{Threads, for_each_mut};

// A journal with fewer rows is one piece.
const LEAST_ROWS: usize = 4_096;

// Entries side by side, rooms in which the sheets of their text begin, and the texts, one after the
// other: an error where memory ran out, and before they are made.
#[derive(Drop)]
pub(crate) struct Piece {
    pub(crate) entries: Vec<Entry>,
    pub(crate) rooms: Vec<Vec<u8>>,
    pub(crate) texts: Result<Vec<Vec<u8>>, OutOfMemory>,
}

/// The text of the rows of a legal journal, one entry after the other, as `journal_rows` adds them.
/// It is made in as many pieces as there are processors, each by a thread of its own; that of a
/// short journal in one.
///
/// Most trains of an answer have the same row as in the answer that was published of the section
/// before. In each piece such rows are written once, and then copied, many at once. Each entry is let
/// go of when its rows are written, but for the last answer with many trains of each section.
///
/// The rooms of all sheets are begun by the calling thread: the system's allocator then lets them
/// grow in memory that this thread has let go of. A room begun by another would take new memory.
pub fn journal_text(
    rt: &(impl Threads + Sync),
    alloc: Global,
    journal: List<Entry>,
) -> Result<Text, OutOfMemory>
    requires { IsLegal journal }
    ensures { IfOk result (λ text. text ≡ text_of_rows (rows.rows_of_journal journal)) }
{
    let mut pieces = pieces_for(rt, alloc, journal)?;
    let threads = threads_for(rt, pieces.len());
    fill_all(rt, alloc, threads, &mut pieces);
    joined(alloc, texts_of(alloc, pieces)?)
}

// The entries of a journal in as many pieces as threads make their texts, each with about as many
// rows. A short journal is one piece.
fn pieces_for(
    rt: &impl Threads,
    alloc: Global,
    journal: List<Entry>,
) -> Result<Vec<Piece>, OutOfMemory>
    ensures { IfOk result (λ pieces. flat_map (λ p. p.entries.items) pieces.items ≡ journal) }
{
    let rows = row_count_of(journal.slice());
    let threads = current_num_threads(rt);
    if threads < 2 || rows < LEAST_ROWS {
        return one_piece(alloc, journal.into_vec());
    }
    pieces_of(alloc, journal, (rows / threads).saturating_add(1))
}

// One piece of these entries.
fn one_piece(alloc: Global, entries: Vec<Entry>) -> Result<Vec<Piece>, OutOfMemory>
    ensures { IfOk result (λ pieces. flat_map (λ p. p.entries.items) pieces.items
        ≡ entries.items) }
{
    let pieces = vec![in alloc; begun(alloc, entries)]?;
    Ok(pieces)
}

// The entries of a journal in pieces, of which no text is made yet. A piece ends with the entry by
// which it has so many rows; the last may have fewer.
fn pieces_of(
    alloc: Global,
    journal: List<Entry>,
    piece_rows: usize,
) -> Result<Vec<Piece>, OutOfMemory>
    ensures { IfOk result (λ pieces. flat_map (λ p. p.entries.items) pieces.items ≡ journal) }
{
    let mut pieces = Vec::new(alloc);
    let mut entries = Vec::new(alloc);
    let mut rows = 0usize;
    for entry in journal.into_vec() {
        rows = rows.saturating_add(row_count(&entry.act));
        entries.push(entry)?;
        if rows >= piece_rows {
            pieces.push(begun(alloc, mem::replace(&mut entries, Vec::new(alloc))))?;
            rows = 0;
        }
    }
    pieces.push(begun(alloc, entries))?;
    Ok(pieces)
}

// A piece of these entries, of which the texts aren't made.
fn begun(alloc: Global, entries: Vec<Entry>) -> Piece
    ensures { result.entries.items ≡ entries.items }
{
    let rooms = rooms_for(alloc, &entries);
    Piece {
        entries,
        rooms,
        texts: Err(OutOfMemory),
    }
}

// By how many threads the texts of so many pieces are made.
fn threads_for(rt: &impl Threads, pieces: usize) -> usize
    ensures { 0 < result }
{
    if pieces < 2 {
        return 1;
    }
    current_num_threads(rt)
}

// Makes the texts of all pieces, in at most so many threads.
fn fill_all<R: Threads + Sync>(rt: &R, alloc: Global, threads: usize, pieces: &mut [Piece])
    requires threads { 0 < threads }
    requires entries { All (λ p. All (λ e. PublishesAnswer e.act) p.entries.items) pieces.old }
    ensures { AreFilled pieces.old pieces.new }
{
    for_each_mut(
        rt,
        pieces,
        threads,
        &|_, piece: &mut Piece|
            requires { All (λ e. PublishesAnswer e.act) piece.now.entries.items }
            ensures { IsFilled piece.entry.now piece.exit.now }
        { fill(alloc, piece) },
    );
}

// Makes the texts of a piece, if memory suffices, and lets go of its entries.
fn fill(alloc: Global, piece: &mut Piece)
    requires { All (λ e. PublishesAnswer e.act) piece.old.entries.items }
    ensures { IsFilled piece.old piece.new }
{
    let entries = mem::replace(&mut piece.entries, Vec::new(alloc));
    let rooms = mem::replace(&mut piece.rooms, Vec::new(alloc));
    piece.texts = texts_of_entries(alloc, rooms, entries);
}

// The texts of the rows of entries, each of which is let go of when its rows are written.
fn texts_of_entries(
    alloc: Global,
    rooms: Vec<Vec<u8>>,
    entries: Vec<Entry>,
) -> Result<Vec<Vec<u8>>, OutOfMemory>
    requires { All (λ e. PublishesAnswer e.act) entries.items }
    ensures { IfOk result (λ texts. flat_map (λ t. t.items) texts.items
        ≡ text_of_rows (rows.rows_of_journal entries.items)) }
{
    let mut text = TextSoFar::new(alloc, rooms);
    for entry in entries {
        text = with_entry(alloc, text, entry)?;
    }
    text.into_texts()
}

// The texts of these pieces, in their order.
fn texts_of(
    alloc: Global,
    pieces: Vec<Piece>,
) -> Result<Vec<Result<Vec<Vec<u8>>, OutOfMemory>>, OutOfMemory>
    ensures { IfOk result (λ texts. texts.items ≡ map (λ p. p.texts) pieces.items) }
{
    let texts = pieces.into_iter().map(|piece| piece.texts).collect(alloc)?;
    Ok(texts)
}

// The texts of all pieces in their order, if each could be made.
fn joined(
    alloc: Global,
    pieces: Vec<Result<Vec<Vec<u8>>, OutOfMemory>>,
) -> Result<Text, OutOfMemory>
    ensures { IfOk result (λ text. (made : List _) × (pieces.items ≡ map Ok made)
        × (text ≡ flat_map (λ texts. flat_map (λ t. t.items) texts.items) made)) }
{
    let mut text = Text::new(alloc);
    for texts in pieces {
        push_all(&mut text, texts?)?;
    }
    Ok(text)
}

// Adds texts, one after the other.
fn push_all(text: &mut Text, texts: Vec<Vec<u8>>) -> Result<(), OutOfMemory>
    ensures { OnOk result (text.new ≡ text.old ++ flat_map (λ t. t.items) texts.items) }
{
    for piece in texts {
        text.push(piece)?;
    }
    Ok(())
}

// About how many rows the entries have.
fn row_count_of(entries: &[Entry]) -> usize {
    let mut rows = 0usize;
    for entry in entries {
        rows = rows.saturating_add(row_count(&entry.act));
    }
    rows
}

// About how many rows an entry has. No clause says so: by it the journal is cut in pieces.
fn row_count(act: &Act) -> usize {
    match act {
        Act::Published {
            answer: Answer::Ordered(plan),
            ..
        } => plan.placed.len().saturating_add(1),
        _ => 1,
    }
}
