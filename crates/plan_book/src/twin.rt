//! A line's tables, kept twice.
ghost use Rattle.std.specs.Prelude.{◌≡◌, IfOk, IfSome};
ghost use Rattle.rail_model.specs.Rules as rules;

use line_tables::LineTables;
use rail_model::{Edit, OutOfMemory};
use std::alloc::Global;
use std::marker::Model;
use std::mem;

// Twin tables are a line's tables and, where memory allows, the same tables once more: the spare
// ones. An edit is tried on the spare ones, so that nothing is copied for it, and nothing lost if
// it fails. Both are boxed, so that little is moved where a desk takes or gives back the book.
// Contracts see the tables.
#[derive(Drop)]
pub(crate) struct TwinTables {
    tables: Box<LineTables>,
    spare: Option<Box<LineTables>>,
}

impl Model for TwinTables {
    ghost use Rattle.std.specs.Prelude.{◌≡◌, IfSome};
    ghost use Rattle.rail_model.specs.declared.tables.Tables.{Tables};

    ghost Value = { Tables };

    ghost view = { λ t. t.tables.value };

    ghost invariant = { λ t. IfSome t.spare (λ spare. spare.value ≡ t.tables.value) };
}

impl TwinTables {
    // Twin tables of these, without spare ones yet.
    pub(crate) fn of(alloc: Global, tables: LineTables) -> Result<TwinTables, OutOfMemory>
        ensures { IfOk result (λ twin. twin ≡ tables) }
    {
        Ok(TwinTables {
            tables: Box::new(alloc, tables)?,
            spare: None,
        })
    }

    // The tables.
    pub(crate) fn tables(&self) -> &LineTables
        ensures { result.now ≡ self.now }
    {
        &self.tables
    }

    // The spare tables, or a copy of the tables where there are none.
    pub(crate) fn take_spare(&mut self, alloc: Global) -> Result<Box<LineTables>, OutOfMemory>
        ensures same { self.new ≡ self.old }
        ensures spare { IfOk result (λ spare. spare.value ≡ self.old) }
    {
        match self.spare.take() {
            Some(spare) => Ok(spare),
            None => Ok(Box::new(alloc, self.tables.copy()?)?),
        }
    }

    // Gives the spare tables back, unchanged.
    pub(crate) fn give_back(&mut self, spare: Box<LineTables>)
        requires { spare.value ≡ self.old }
        ensures { self.new ≡ self.old }
    {
        self.spare = Some(spare);
    }

    // Puts the tables after an edit in the place of these, which get the same edit and become the
    // spare ones.
    pub(crate) fn replace(&mut self, next: Box<LineTables>, edit: Edit)
        requires { next.value ≡ rules.after self.old edit }
        ensures { self.new ≡ next.value }
    {
        let old = mem::replace(&mut self.tables, next);
        self.spare = after_edit(old, edit);
    }
}

// The tables after an edit, if there is memory for it and no rule refuses it. `None` says nothing:
// then there are no spare tables.
fn after_edit(tables: Box<LineTables>, edit: Edit) -> Option<Box<LineTables>>
    ensures { IfSome result (λ after. after.value ≡ rules.after tables.value edit) }
{
    let mut after = tables;
    match after.take(edit) {
        Ok(Ok(())) => Some(after),
        _ => None,
    }
}
