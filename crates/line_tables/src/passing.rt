//! Which runs pass a signal, a block and a section, and which blocks a section has. What each route
//! and section names was looked up when it was put or changed, and its keys are kept.
ghost use Rattle.std.specs.Prelude.{◌≡◌, ◌<◌, true, length, map, slice_index, All, IfOk};
ghost use Rattle.std.specs.List.{list_all};
ghost use Rattle.rail_model.specs.Rules.{has_block, has_signal};
ghost use Rattle.rail_model.specs.Tables.{block_number, run_at, section_at};
ghost use Rattle.line_tables.specs.KeySet.{holds};
ghost use Rattle.line_tables.specs.Passing as passing;

use crate::LineTables;
use crate::key_set::has_key;
use crate::linked::Linked;
use crate::named_table::NamedTable;
use crate::path::numbers_by_key;
use rail_model::{Name, OutOfMemory, Run};
use std::alloc::Global;

// To look a name up takes about as long as to number so many blocks.
const BLOCKS_A_NAME: usize = 32;

impl LineTables {
    /// For each run, in the order of the runs' names, whether it passes the signal of a name:
    /// whether its route lists it.
    pub fn runs_past_signal(&self, name: &Name) -> Result<Vec<bool>, OutOfMemory>
        requires { has_signal self.now name.now ≡ true }
        ensures { IfOk result
            (λ runs. runs.items ≡ map (passing.passes_signal self.now name.now) self.now.runs) }
    {
        self.routes.learn_order();
        let key = self.signals.key_of(name).unwrap();
        runs_on(
            self.alloc,
            &self.runs,
            self.route_sets.of_signals.words(key),
        )
    }

    /// For each run, in the order of the runs' names, whether it passes the block of a name:
    /// whether its route lists a signal of it.
    pub fn runs_past_block(&self, name: &Name) -> Result<Vec<bool>, OutOfMemory>
        requires { has_block self.now name.now ≡ true }
        ensures { IfOk result
            (λ runs. runs.items ≡ map (passing.passes_block self.now name.now) self.now.runs) }
    {
        self.routes.learn_order();
        self.signals.learn_order();
        let key = self.blocks.key_of(name).unwrap();
        runs_on(self.alloc, &self.runs, self.route_sets.of_blocks.words(key))
    }

    /// Whether the run of a number passes a block of the section of a number. The section's blocks
    /// are gone through up to the first that it passes, not the run's route.
    pub fn passes_section(&self, run: u32, section: u32) -> bool
        requires run { run < length self.now.runs }
        requires section { section < length self.now.sections }
        ensures { result ≡ passing.passes_section self.now
            (section_at self.now section) (run_at self.now run) }
    {
        self.routes.learn_order();
        self.signals.learn_order();
        self.blocks.learn_order();
        let route = self.runs.nth(run as usize).refs.slice()[0];
        let blocks = self.sections.nth(section as usize).refs.slice();
        self.route_sets.has_some(blocks, route)
    }

    /// The numbers of the blocks of the section of a number, in its order. Where the section has few
    /// of the line's blocks, each is looked up by its name; otherwise all blocks of the line are
    /// numbered.
    pub fn section_blocks(&self, section: u32) -> Result<Vec<u32>, OutOfMemory>
        requires { section < length self.now.sections }
        ensures { IfOk result (λ blocks. blocks.items
            ≡ map (block_number self.now) (section_at self.now section).blocks) }
    {
        self.blocks.learn_order();
        let keys = self.sections.nth(section as usize).refs.slice();
        if keys.len() <= self.blocks.len() / BLOCKS_A_NAME {
            return self.numbers_of_blocks(self.section(section).blocks.slice());
        }
        let numbers = numbers_by_key(self.alloc, &self.blocks)?;
        numbers_at(self.alloc, &numbers, keys)
    }

    // The numbers of the blocks of these names, in their order, each looked up by itself.
    fn numbers_of_blocks(&self, names: &[Name]) -> Result<Vec<u32>, OutOfMemory>
        requires { list_all (has_block self.now) names.now ≡ true }
        ensures { IfOk result (λ numbers. numbers.items ≡ map (block_number self.now) names.now) }
    {
        let mut numbers = Vec::with_capacity(self.alloc, names.len())?;
        for name in names {
            numbers.push(self.block_number(name).unwrap())?;
        }
        Ok(numbers)
    }
}

// For each run whether the key of its route is in a set.
fn runs_on(
    alloc: Global,
    runs: &NamedTable<Linked<Run>>,
    routes: &[u64],
) -> Result<Vec<bool>, OutOfMemory>
    requires { All (λ u. 0 < length u.1.refs) runs.now }
    ensures { IfOk result (λ all. all.items
        ≡ map (λ u. holds routes.now (slice_index u.1.refs 0)) runs.now) }
{
    let mut all = Vec::with_capacity(alloc, runs.len())?;
    for number in 0..runs.len() {
        let route = runs.nth(number).refs.slice()[0];
        all.push(has_key(routes, route))?;
    }
    Ok(all)
}

// The numbers at these keys, in their order.
fn numbers_at(alloc: Global, numbers: &[usize], keys: &[usize]) -> Result<Vec<u32>, OutOfMemory>
    requires { All (passing.IsNumberAt numbers.now) keys.now }
    ensures { IfOk result (λ found. found.items ≡ map (slice_index numbers.now) keys.now) }
{
    let mut found = Vec::with_capacity(alloc, keys.len())?;
    for key in keys {
        found.push(numbers[*key] as u32)?;
    }
    Ok(found)
}
