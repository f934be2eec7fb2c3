//! The tables of the made line.
ghost use Rattle.std.specs.Prelude.{◌≡◌, None, IfOk, OnOk};
ghost use Rattle.rail_model.specs.Rules.{rule_of, no_tables, after, after_edits, AreAccepted};
ghost use Rattle.made_line.specs.Base as base;
ghost use Rattle.made_line.specs.Base.{base_tables};

use crate::base::base_edits;
use line_tables::LineTables;
use rail_model::{Edit, OutOfMemory};
use std::alloc::Global;

/// The tables of the line made from `n`: those after the edits of its base, of which no rule
/// refuses one.
pub fn made_tables(alloc: Global, n: u32) -> Result<LineTables, OutOfMemory>
    ensures made { IfOk result (λ tables. tables ≡ after_edits no_tables (base.base_edits n)) }
    ensures accepted { AreAccepted no_tables (base.base_edits n) }
    ensures whole { IfOk result (λ tables. tables ≡ base_tables n) }
{
    let edits = base_edits(alloc, n)?;
    tables_after(alloc, edits.slice())
}

// The tables after edits of which no rule refuses one.
fn tables_after(alloc: Global, edits: &[Edit]) -> Result<LineTables, OutOfMemory>
    requires { AreAccepted no_tables edits.now }
    ensures { IfOk result (λ tables. tables ≡ after_edits no_tables edits.now) }
{
    let mut tables = LineTables::new(alloc);
    for edit in edits {
        make(&mut tables, edit)?;
    }
    Ok(tables)
}

// Makes an edit that no rule refuses.
fn make(tables: &mut LineTables, edit: &Edit) -> Result<(), OutOfMemory>
    requires { rule_of tables.old edit.now ≡ None }
    ensures { OnOk result (tables.new ≡ after tables.old edit.now) }
{
    match tables.apply(edit)? {
        Ok(()) => Ok(()),
        Err(_) => unreachable!(),
    }
}
