//! What a book knows of sections when it is started.
ghost use Rattle.std.specs.Prelude.{◌≡◌, IfOk};
ghost use Rattle.plan_model.specs.Cut.{IsSoundCut};
ghost use Rattle.plan_book.specs.First as firsts;

use crate::shelf::Shelf;
use crate::stored::Stored;
use line_tables::LineTables;
use plan_model::Cut;
use rail_model::{List, OutOfMemory};
use section_cut::all_cuts;
use std::alloc::Global;

// A shelf for each section, where the last edit has this number: no edit touched it since, and
// nothing was published of it.
pub(crate) fn first_shelves(
    alloc: Global,
    tables: &LineTables,
    at: u64,
) -> Result<List<Shelf>, OutOfMemory>
    ensures { IfOk result (firsts.AreFirst tables.now at) }
{
    let mut shelves = List::with_capacity(alloc, tables.sections() as usize)?;
    for cut in all_cuts(alloc, tables, at)?.into_vec() {
        shelves.push(first_shelf(alloc, cut, at)?)?;
    }
    Ok(shelves)
}

// The shelf of the section of a cut.
fn first_shelf(alloc: Global, cut: Cut, at: u64) -> Result<Shelf, OutOfMemory>
    requires { IsSoundCut cut }
    ensures { IfOk result (λ shelf. shelf ≡ firsts.shelf_of_cut at cut) }
{
    let stored = Stored::of(alloc, cut)?;
    Ok(Shelf {
        name: stored.cut().section.name,
        touched: at,
        published: None,
        cut: Some(stored),
    })
}
