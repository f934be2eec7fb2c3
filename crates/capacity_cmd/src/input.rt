//! From the text of an input to tables and scripts, or to the row at which it is refused.
ghost use Rattle.std.specs.Prelude.{◌≡◌, ℕ, ◌+◌, ◌-◌, ◌≤◌, ◌<◌, ◌^◌, IsTrue, length, sum_by, slice_index_or, [], IfOk, OnOk, Ok};
ghost use Rattle.plan_book.specs.declared.book.TheConstants.{TASKS};
ghost use Rattle.rail_model.specs.declared.edit.Edit.TheVariants as edits;
ghost use Rattle.rail_model.specs.declared.items.Item.TheVariants as items;
ghost use Rattle.rail_model.specs.declared.edit.Kind.TheVariants as kind;
ghost use Rattle.row_text.specs.Lines.{read_in, line_of};
ghost use Rattle.row_text.specs.Rows.{rows_of};
ghost use Rattle.row_text.specs.Words.{allows, kind_shape};
ghost use Rattle.row_text.specs.declared.word.Word.TheVariants as word;
ghost use Rattle.capacity_cmd.specs.Input.{content_of_rows, content_in};
ghost use Rattle.capacity_cmd.specs.InputSoFar.{accepted_in, tables_so_far, accepted_so_far};
ghost use Rattle.capacity_cmd.specs.InputSoFar.{after_one_more, IsWithin, HasTaken};
ghost use Rattle.capacity_cmd.specs.InputSoFar.{TakesLine, TakesRow, TakesRows};
ghost use Rattle.capacity_cmd.specs.InputSoFar.{refusal_of, IsFormFault};
ghost use Rattle.capacity_cmd.specs.TextRows.{BeginsWith, AreLeft, AreRowsOf, TakesPiece};
ghost use Rattle.capacity_cmd.specs.Stopped.{Gives};

use crate::Cause;
use crate::accepted::Accepted;
use crate::refusal::Refusal;
use crate::script_rows::ScriptRows;
use crate::stopped::Stopped;
use line_tables::LineTables;
use plan_model::Task;
use rail_model::{Block, Edit, Form, Item, Kind, Name, OutOfMemory, Rule, Signal};
use row_text::{Line, Row, RowList, Unread, Word, is_plain, piece_end, rows};
use std::alloc::Global;

// Shorter texts are read at once.
const LONG_BYTES: usize = 1_048_576;

// What a text gives to a command that takes the scripts of so many planners, or the row at which it
// is refused. A long text that is plain, and whose first piece has a row, is cut into fields piece
// by piece, so that the places of all its fields need not be kept.
pub(crate) fn accepted_of_text(
    alloc: Global,
    planners: usize,
    text: &[u8],
) -> Result<Accepted, Stopped<Refusal>>
    requires { length text.now < 2 ^ 63 }
    ensures same { Gives (accepted_in (content_of_rows planners (rows_of text.now))) result }
    ensures within { IfOk result (IsWithin planners (length (rows_of text.now))) }
{
    if text.len() >= LONG_BYTES && is_plain(text) {
        let end = piece_end(text, 0);
        let first = rows(alloc, &text[..end])?;
        if !first.is_empty() {
            return accepted_after(alloc, planners, text, &first, end);
        }
    }
    let all = rows(alloc, text)?;
    accepted_after(alloc, planners, text, &all, text.len())
}

// What a text gives whose rows begin with these, which end at a place. Those after it are read in
// pieces.
fn accepted_after(
    alloc: Global,
    planners: usize,
    text: &[u8],
    first: &RowList<'_>,
    end: usize,
) -> Result<Accepted, Stopped<Refusal>>
    requires small { length text.now < 2 ^ 63 }
    requires first { BeginsWith text.now first.now «end» }
    ensures same { Gives (accepted_in (content_of_rows planners (rows_of text.now))) result }
    ensures within { IfOk result (IsWithin planners (length (rows_of text.now))) }
{
    let version = match first.version() {
        Ok(version) => version,
        Err(form) => return Err(Stopped::Refused(Refusal {
            row: 1,
            cause: Cause::Form(form),
        })),
    };
    let mut so_far = InputSoFar {
        base: BaseSoFar {
            tables: LineTables::new(alloc),
            edits: 0,
            refused: None,
        },
        scripts: ScriptRows::new(alloc),
    };
    let piece = TextRows {
        text,
        rows: first,
        before: 0,
    };
    so_far.take_rows(alloc, planners, version, piece, first.first_line())?;
    so_far.take_pieces(alloc, planners, version, text, end, first.len())?;
    so_far.end()
}

// Some rows of a text, after `before` others. The text stands here for contracts alone.
#[derive(Clone, Copy)]
struct TextRows<'a> {
    text: &'a [u8],
    rows: &'a RowList<'a>,
    before: usize,
}

// The tables after the base edits of some rows, how many these are, and the first of the rows whose
// edit a rule refused. After it an edit is only counted.
#[derive(Drop)]
struct BaseSoFar {
    tables: LineTables,
    edits: u64,
    refused: Option<Refusal>,
}

impl BaseSoFar {
    // Makes an edit, or keeps the rule that refuses it; after a refusal the edit is dropped.
    fn take(&mut self, row: u64, edit: Edit) -> Result<(), OutOfMemory>
        requires { self.old.edits < 2 ^ 64 - 1 }
        ensures tables { OnOk result (tables_so_far self.new
            ≡ after_one_more row (tables_so_far self.old) edit) }
        ensures edits { OnOk result (self.new.edits ≡ self.old.edits + 1) }
    {
        match edit {
            Edit::Put(item) => self.put(row, item),
            Edit::Change(item) => self.change(row, item),
            Edit::Drop(kind, name) => {
                self.drop_named(row, kind, &name);
                Ok(())
            }
        }
    }

    #[inline]
    fn put(&mut self, row: u64, item: Item) -> Result<(), OutOfMemory>
        requires { self.old.edits < 2 ^ 64 - 1 }
        ensures tables { OnOk result (tables_so_far self.new
            ≡ after_one_more row (tables_so_far self.old) (edits.Put item)) }
        ensures edits { OnOk result (self.new.edits ≡ self.old.edits + 1) }
    {
        self.edits += 1;
        if self.refused.is_none() {
            let answer = self.tables.put(item)?;
            self.refused = refusal_of(row, answer);
        }
        Ok(())
    }

    #[inline]
    fn put_block(&mut self, row: u64, block: Block) -> Result<(), OutOfMemory>
        requires { self.old.edits < 2 ^ 64 - 1 }
        ensures tables { OnOk result (tables_so_far self.new
            ≡ after_one_more row (tables_so_far self.old) (edits.Put (items.Block block))) }
        ensures edits { OnOk result (self.new.edits ≡ self.old.edits + 1) }
    {
        self.edits += 1;
        if self.refused.is_none() {
            let answer = self.tables.put_block(block)?;
            self.refused = refusal_of(row, answer);
        }
        Ok(())
    }

    #[inline]
    fn change(&mut self, row: u64, item: Item) -> Result<(), OutOfMemory>
        requires { self.old.edits < 2 ^ 64 - 1 }
        ensures tables { OnOk result (tables_so_far self.new
            ≡ after_one_more row (tables_so_far self.old) (edits.Change item)) }
        ensures edits { OnOk result (self.new.edits ≡ self.old.edits + 1) }
    {
        self.edits += 1;
        if self.refused.is_none() {
            let answer = self.tables.change(item)?;
            self.refused = refusal_of(row, answer);
        }
        Ok(())
    }

    #[inline]
    fn change_signal(&mut self, row: u64, signal: Signal) -> Result<(), OutOfMemory>
        requires { self.old.edits < 2 ^ 64 - 1 }
        ensures tables { OnOk result (tables_so_far self.new
            ≡ after_one_more row (tables_so_far self.old) (edits.Change (items.Signal signal))) }
        ensures edits { OnOk result (self.new.edits ≡ self.old.edits + 1) }
    {
        self.edits += 1;
        if self.refused.is_none() {
            let answer = self.tables.change_signal(signal)?;
            self.refused = refusal_of(row, answer);
        }
        Ok(())
    }

    #[inline]
    fn drop_named(&mut self, row: u64, kind: Kind, name: &Name)
        requires { self.old.edits < 2 ^ 64 - 1 }
        ensures tables { tables_so_far self.new
            ≡ after_one_more row (tables_so_far self.old) (edits.Drop kind name.now) }
        ensures edits { self.new.edits ≡ self.old.edits + 1 }
    {
        self.edits += 1;
        if self.refused.is_none() {
            self.refused = refusal_of(row, self.tables.drop_named(kind, name));
        }
    }
}

// The refusal of the edit in a row, if a rule refuses it.
fn refusal_of(row: u64, answer: Result<(), Rule>) -> Option<Refusal>
    ensures { result ≡ refusal_of row answer }
{
    match answer {
        Ok(()) => None,
        Err(rule) => Some(Refusal {
            row,
            cause: Cause::Rule(rule),
        }),
    }
}

// What some rows give: the base edits, and after them the scripts of planners. After an edit that a
// rule refused, rows are read on for one with a fault of its form or its place.
#[derive(Drop)]
struct InputSoFar {
    base: BaseSoFar,
    scripts: ScriptRows,
}

impl InputSoFar {
    // Takes the rows of a text from a place on, piece by piece, up to the first that has a fault.
    fn take_pieces(
        &mut self,
        alloc: Global,
        planners: usize,
        version: u32,
        text: &[u8],
        from: usize,
        before: usize,
    ) -> Result<(), Stopped<Refusal>>
        requires small { length text.now < 2 ^ 63 }
        requires left { AreLeft text.now from before }
        requires so_far { HasTaken planners version (rows_of text.now) self.old before }
        ensures { TakesRows planners (length (rows_of text.now))
            (content_in planners (Ok version) (rows_of text.now)) self.new result }
    {
        let mut from = from;
        let mut before = before;
        while from < text.len() {
            let end = piece_end(text, from);
            let found = rows(alloc, &text[from..end])?;
            let piece = TextRows {
                text,
                rows: &found,
                before,
            };
            self.take_rows(alloc, planners, version, piece, 0)?;
            before += found.len();
            from = end;
        }
        Ok(())
    }

    // Takes some rows of a text from one of them on, up to the first that has a fault, each as soon
    // as it is read.
    fn take_rows(
        &mut self,
        alloc: Global,
        planners: usize,
        version: u32,
        piece: TextRows<'_>,
        start: usize,
    ) -> Result<(), Stopped<Refusal>>
        requires small { length piece.text.now < 2 ^ 63 }
        requires piece { AreRowsOf piece }
        requires start { start ≤ length piece.rows.now }
        requires so_far { HasTaken planners version (rows_of piece.text.now) self.old
            (piece.before + start) }
        ensures { TakesPiece planners version (rows_of piece.entry.text.now)
            (piece.entry.before + length piece.entry.rows.now) self.new result }
    {
        for i in start..piece.rows.len() {
            if let Some(cause) = self.take_row(alloc, planners, version, piece, i)? {
                return Err(Stopped::Refused(Refusal {
                    row: (piece.before + i) as u64 + 1,
                    cause,
                }));
            }
        }
        Ok(())
    }

    // Takes the row at a place of a piece, unless it has a fault. A base edit is taken in parts, so
    // that no line is made and moved for it. Each way to take a row stands by itself, since the room
    // of its items is cleared where it begins.
    fn take_row(
        &mut self,
        alloc: Global,
        planners: usize,
        version: u32,
        piece: TextRows<'_>,
        i: usize,
    ) -> Result<Option<Cause>, OutOfMemory>
        requires there { i < length piece.rows.now }
        requires counted { piece.before + i < 2 ^ 63 }
        requires few { self.old.base.edits ≤ piece.before + i }
        ensures { IfOk result (TakesRow planners (piece.entry.before + i + 1)
            (read_in version (slice_index_or piece.entry.rows.now i [])) self.old self.new) }
    {
        let number = (piece.before + i) as u64 + 1;
        if !self.scripts.is_empty() {
            return self.take_spelled(alloc, planners, version, piece, i);
        }
        let row = piece.rows.get(i);
        match row.does() {
            Ok(Word::Put(Kind::Block)) => self.put_block_of(number, &row),
            Ok(Word::Put(kind)) => self.put_item_of(alloc, version, number, kind, &row),
            Ok(Word::Change(Kind::Signal)) => self.change_signal_of(number, &row),
            Ok(Word::Change(kind)) => self.change_item_of(alloc, version, number, kind, &row),
            Ok(Word::Drop(kind)) => self.drop_of(number, kind, &row),
            Ok(Word::Ask) | Ok(Word::Planner) => {
                self.take_spelled(alloc, planners, version, piece, i)
            }
            Err(form) => Ok(Some(Cause::Form(form))),
        }
    }

    #[inline(never)]
    fn put_block_of(&mut self, number: u64, row: &Row<'_>) -> Result<Option<Cause>, OutOfMemory>
        requires none { length self.old.scripts ≡ 0 }
        requires few { self.old.base.edits < 2 ^ 64 - 1 }
        requires long { 2 < length row.now }
        ensures { (planners version : ℕ) → IfOk result (TakesRow planners number
            (line_of version (word.Put kind.Block) row.now) self.old self.new) }
    {
        match row.block() {
            Ok(block) => {
                self.base.put_block(number, block)?;
                Ok(None)
            }
            Err(form) => Ok(Some(Cause::Form(form))),
        }
    }

    #[inline(never)]
    fn put_item_of(
        &mut self,
        alloc: Global,
        version: u32,
        number: u64,
        kind: Kind,
        row: &Row<'_>,
    ) -> Result<Option<Cause>, OutOfMemory>
        requires none { length self.old.scripts ≡ 0 }
        requires few { self.old.base.edits < 2 ^ 64 - 1 }
        requires long { IsTrue (allows (kind_shape kind) (length row.now)) }
        ensures { (planners : ℕ) → IfOk result (TakesRow planners number
            (line_of version (word.Put kind) row.now) self.old self.new) }
    {
        match row.item(alloc, version, kind) {
            Ok(item) => {
                self.base.put(number, item)?;
                Ok(None)
            }
            Err(why) => form_fault(why),
        }
    }

    #[inline(never)]
    fn change_signal_of(&mut self, number: u64, row: &Row<'_>) -> Result<Option<Cause>, OutOfMemory>
        requires none { length self.old.scripts ≡ 0 }
        requires few { self.old.base.edits < 2 ^ 64 - 1 }
        requires long { 7 < length row.now }
        ensures { (planners version : ℕ) → IfOk result (TakesRow planners number
            (line_of version (word.Change kind.Signal) row.now) self.old self.new) }
    {
        match row.signal() {
            Ok(signal) => {
                self.base.change_signal(number, signal)?;
                Ok(None)
            }
            Err(form) => Ok(Some(Cause::Form(form))),
        }
    }

    #[inline(never)]
    fn change_item_of(
        &mut self,
        alloc: Global,
        version: u32,
        number: u64,
        kind: Kind,
        row: &Row<'_>,
    ) -> Result<Option<Cause>, OutOfMemory>
        requires none { length self.old.scripts ≡ 0 }
        requires few { self.old.base.edits < 2 ^ 64 - 1 }
        requires long { IsTrue (allows (kind_shape kind) (length row.now)) }
        ensures { (planners : ℕ) → IfOk result (TakesRow planners number
            (line_of version (word.Change kind) row.now) self.old self.new) }
    {
        match row.item(alloc, version, kind) {
            Ok(item) => {
                self.base.change(number, item)?;
                Ok(None)
            }
            Err(why) => form_fault(why),
        }
    }

    #[inline(never)]
    fn drop_of(
        &mut self,
        number: u64,
        kind: Kind,
        row: &Row<'_>,
    ) -> Result<Option<Cause>, OutOfMemory>
        requires none { length self.old.scripts ≡ 0 }
        requires few { self.old.base.edits < 2 ^ 64 - 1 }
        requires long { 1 < length row.now }
        ensures { (planners version : ℕ) → IfOk result (TakesRow planners number
            (line_of version (word.Drop kind) row.now) self.old self.new) }
    {
        match row.name() {
            Ok(name) => {
                self.base.drop_named(number, kind, &name);
                Ok(None)
            }
            Err(form) => Ok(Some(Cause::Form(form))),
        }
    }

    // Takes the row at a place of a piece as the line that it spells, unless it has a fault.
    #[inline(never)]
    fn take_spelled(
        &mut self,
        alloc: Global,
        planners: usize,
        version: u32,
        piece: TextRows<'_>,
        i: usize,
    ) -> Result<Option<Cause>, OutOfMemory>
        requires there { i < length piece.rows.now }
        requires counted { piece.before + i < 2 ^ 63 }
        requires few { self.old.base.edits ≤ piece.before + i }
        ensures { IfOk result (TakesRow planners (piece.entry.before + i + 1)
            (read_in version (slice_index_or piece.entry.rows.now i [])) self.old self.new) }
    {
        let found = piece.rows.line(alloc, version, i)?;
        self.take_read(planners, (piece.before + i) as u64 + 1, found)
    }

    // Takes the line that a row was read as, unless the row has a fault.
    #[inline]
    fn take_read(
        &mut self,
        planners: usize,
        row: u64,
        found: Result<Line, Form>,
    ) -> Result<Option<Cause>, OutOfMemory>
        requires { self.old.base.edits < 2 ^ 64 - 1 }
        ensures takes { IfOk result (TakesRow planners row found self.old self.new) }
        ensures edits { IfOk result (λ _. self.new.base.edits ≤ self.old.base.edits + 1) }
    {
        match found {
            Ok(line) => self.take_line(planners, row, line),
            Err(form) => Ok(Some(Cause::Form(form))),
        }
    }

    // Takes the line of a row: an edit before the first script is one of the base, any other a
    // task.
    fn take_line(
        &mut self,
        planners: usize,
        row: u64,
        line: Line,
    ) -> Result<Option<Cause>, OutOfMemory>
        requires { self.old.base.edits < 2 ^ 64 - 1 }
        ensures takes { IfOk result (TakesLine planners row line self.old self.new) }
        ensures edits { IfOk result (λ _. self.new.base.edits ≤ self.old.base.edits + 1) }
    {
        match line {
            Line::Edit(edit) => {
                if self.scripts.is_empty() {
                    self.base.take(row, edit)?;
                    return Ok(None);
                }
                self.scripts.push(Task::Edit(edit))
            }
            Line::Ask(section) => self.scripts.push(Task::Ask(section)),
            Line::Planner(planner) => self.scripts.begin(planners, planner),
        }
    }

    fn end(self) -> Result<Accepted, Stopped<Refusal>>
        ensures same { Gives (accepted_so_far self) result }
        ensures tasks { IfOk result (λ given. sum_by length given.scripts ≤ TASKS) }
    {
        let BaseSoFar {
            tables,
            edits,
            refused,
        } = self.base;
        let scripts = self.scripts.end();
        match refused {
            Some(refusal) => Err(Stopped::Refused(refusal)),
            None => Ok(Accepted {
                tables,
                at: edits,
                scripts,
            }),
        }
    }
}

// Why a row is not taken whose item is not read.
fn form_fault(why: Unread) -> Result<Option<Cause>, OutOfMemory>
    ensures { IsFormFault why result }
{
    match why {
        Unread::Fault(form) => Ok(Some(Cause::Form(form))),
        Unread::OutOfMemory => Err(OutOfMemory),
    }
}
