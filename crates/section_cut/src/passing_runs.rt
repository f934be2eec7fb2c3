//! Which runs pass what an edit puts or changes.
ghost use Rattle.std.specs.Prelude.{Bool, IfOk};
ghost use Rattle.line_tables.specs.Passing.{passes_block, passes_signal};
ghost use Rattle.rail_model.specs.declared.items.Run.{Run};
ghost use Rattle.section_cut.specs.ReachedRuns.{IsTold};
ghost use Rattle.section_cut.specs.ReachedRuns as reached;

use crate::same_value::same_name;
use line_tables::LineTables;
use rail_model::{Edit, Item, Kind, Name, OutOfMemory};
use std::alloc::Global;

// For each run whether it passes what an edit puts or changes; `true` where that isn't looked up.
pub(crate) fn passing_runs(
    alloc: Global,
    after: &LineTables,
    edit: &Edit,
) -> Result<Vec<bool>, OutOfMemory>
    ensures { IfOk result
        (λ told. IsTold (reached.passes after.now edit.now) after.now.runs told.items) }
{
    match edit {
        Edit::Put(item) => passing_item(alloc, after, item),
        Edit::Change(item) => passing_item(alloc, after, item),
        Edit::Drop(..) => all_runs(alloc, after),
    }
}

fn passing_item(alloc: Global, after: &LineTables, item: &Item) -> Result<Vec<bool>, OutOfMemory>
    ensures { IfOk result
        (λ told. IsTold (reached.passes_item after.now item.now) after.now.runs told.items) }
{
    match item {
        Item::Block(block) => runs_past_block(alloc, after, &block.name),
        Item::Signal(signal) => runs_past_signal(alloc, after, &signal.name),
        Item::Route(route) => runs_on_route(alloc, after, &route.name),
        Item::Run(_) | Item::Section(_) | Item::Connection(_) => all_runs(alloc, after),
    }
}

fn runs_past_block(alloc: Global, after: &LineTables, name: &Name) -> Result<Vec<bool>, OutOfMemory>
    ensures { IfOk result
        (λ told. IsTold (passes_block after.now name.now) after.now.runs told.items) }
{
    if !after.has(Kind::Block, name) {
        return all_runs(alloc, after);
    }
    after.runs_past_block(name)
}

fn runs_past_signal(
    alloc: Global,
    after: &LineTables,
    name: &Name,
) -> Result<Vec<bool>, OutOfMemory>
    ensures { IfOk result
        (λ told. IsTold (passes_signal after.now name.now) after.now.runs told.items) }
{
    if !after.has(Kind::Signal, name) {
        return all_runs(alloc, after);
    }
    after.runs_past_signal(name)
}

fn runs_on_route(alloc: Global, after: &LineTables, name: &Name) -> Result<Vec<bool>, OutOfMemory>
    ensures { IfOk result
        (λ told. IsTold (reached.is_on name.now) after.now.runs told.items) }
{
    let mut told = Vec::with_capacity(alloc, after.runs() as usize)?;
    for run in 0..after.runs() {
        told.push(same_name(&after.run(run).route, name))?;
    }
    Ok(told)
}

fn all_runs(alloc: Global, after: &LineTables) -> Result<Vec<bool>, OutOfMemory>
    ensures { IfOk result (λ told. (test : Run → Bool) → IsTold test after.now.runs told.items) }
{
    let told = vec![in alloc; true; after.runs() as usize]?;
    Ok(told)
}
