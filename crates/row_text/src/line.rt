//! Rows to lines.
ghost use Rattle.std.specs.Prelude.{◌≡◌, ℕ, ◌<◌, length, IfOk, IsTrue};
ghost use Rattle.std.specs.Result.{result_map_both};
ghost use Rattle.rail_model.specs.declared.edit.Kind.TheVariants as kind;
ghost use Rattle.rail_model.specs.declared.items.Item.TheVariants as item;
ghost use Rattle.row_text.specs.Words as words;
ghost use Rattle.row_text.specs.Lines as lines;
ghost use Rattle.row_text.specs.SheetRows.{field};
ghost use Rattle.row_text.specs.Reads.{Reads, SpellsBy};

use crate::fields::{Fields, Row};
use crate::item_row::{block_of, item_of, signal_of};
use crate::read_field::{name_at, number_at};
use crate::unread::Unread;
use crate::word::{Word, word_of};
use rail_model::{Block, Edit, Form, Item, Kind, Name, OutOfMemory, Signal};
use std::alloc::Global;

/// What a row of a planner's text says.
#[derive(Drop)]
pub enum Line {
    /// An edit of the tables.
    Edit(Edit),
    /// A question for the answer of a section.
    Ask(Name),
    /// The start of a planner's script.
    Planner(u32),
}

/// The line that a row spells in version 1 of the rows, or its first form fault. The program reads
/// the rows of a text by `RowList::line`; this is for tests and other programs.
pub fn read_row(alloc: Global, fields: &Fields) -> Result<Result<Line, Form>, OutOfMemory>
    ensures { IfOk result (λ found. found ≡ lines.read_in 1 fields.now) }
{
    read_row_in(alloc, 1, fields)
}

/// The line that a row spells in a version of the rows, 1 or 2, or its first form fault. Any other
/// version is read as 1.
pub fn read_row_in(
    alloc: Global,
    version: u32,
    fields: &Fields,
) -> Result<Result<Line, Form>, OutOfMemory>
    ensures { IfOk result (λ found. found ≡ lines.read_in version fields.now) }
{
    read_line(alloc, version, &fields.row())
}

// The line that a row spells in a version of the rows, where it lies, or its first form fault.
pub(crate) fn read_line(
    alloc: Global,
    version: u32,
    row: &Row<'_>,
) -> Result<Result<Line, Form>, OutOfMemory>
    ensures { IfOk result (λ found. found ≡ lines.read_in version row.now) }
{
    match line_in(alloc, version, row) {
        Ok(line) => Ok(Ok(line)),
        Err(Unread::Fault(fault)) => Ok(Err(fault)),
        Err(Unread::OutOfMemory) => Err(OutOfMemory),
    }
}

fn line_in(alloc: Global, version: u32, row: &Row<'_>) -> Result<Line, Unread>
    ensures { Reads result (lines.read_in version row.now) }
{
    let word = row.does()?;
    line_of(alloc, version, word, row)
}

// What one row says in parts, for who takes them at once: so no line is made of them.
impl<'a> Row<'a> {
    /// What the row does, by its word; or its fault, where it has no word or a number of fields that
    /// the word doesn't allow.
    pub fn does(&self) -> Result<Word, Form>
        ensures line { (version : ℕ) → SpellsBy version self.now result }
        ensures fields { IfOk result (λ w. IsTrue (words.allows (words.shape_of w) (length self.now))) }
    {
        let Some(word) = word_of(self.word()) else {
            return Err(Form::Kind);
        };
        if !word.allows(self.len()) {
            return Err(Form::Fields);
        }
        Ok(word)
    }

    /// The item of a kind that the row puts or changes in a version of the rows, or the first fault
    /// of its fields.
    #[inline]
    pub fn item(&self, alloc: Global, version: u32, kind: Kind) -> Result<Item, Unread>
        requires { IsTrue (words.allows (words.kind_shape kind) (length self.now)) }
        ensures { Reads result (lines.item_in version kind self.now) }
    {
        item_of(alloc, version, kind, self)
    }

    /// The block that the row puts or changes, or the first fault of its fields, as `item` says it.
    /// A block by itself takes less room than an item of any kind.
    #[inline]
    pub fn block(&self) -> Result<Block, Form>
        requires { 2 < length self.now }
        ensures { (version : ℕ) → lines.item_in version kind.Block self.now
            ≡ result_map_both item.Block (λ fault. fault) result }
    {
        block_of(self)
    }

    /// The signal that the row puts or changes, or the first fault of its fields, as `item` says it.
    /// A signal by itself takes less room than an item of any kind.
    #[inline]
    pub fn signal(&self) -> Result<Signal, Form>
        requires { 7 < length self.now }
        ensures { (version : ℕ) → lines.item_in version kind.Signal self.now
            ≡ result_map_both item.Signal (λ fault. fault) result }
    {
        signal_of(self)
    }

    /// The name that the row drops or asks for, or the fault of its field.
    #[inline]
    pub fn name(&self) -> Result<Name, Form>
        requires { 1 < length self.now }
        ensures { result ≡ words.name_in (field self.now 1) }
    {
        name_at(self, 1)
    }
}

// The line of a row of a word.
fn line_of(alloc: Global, version: u32, word: Word, row: &Row<'_>) -> Result<Line, Unread>
    requires { IsTrue (words.allows (words.shape_of word) (length row.now)) }
    ensures { Reads result (lines.line_of version word row.now) }
{
    match word {
        Word::Put(kind) => Ok(Line::Edit(Edit::Put(item_of(alloc, version, kind, row)?))),
        Word::Change(kind) => Ok(Line::Edit(Edit::Change(item_of(alloc, version, kind, row)?))),
        Word::Drop(kind) => Ok(Line::Edit(Edit::Drop(kind, name_at(row, 1)?))),
        Word::Ask => Ok(Line::Ask(name_at(row, 1)?)),
        Word::Planner => Ok(Line::Planner(number_at(row, 1)?)),
    }
}
