//! The edits of the made line's base.
ghost use Rattle.std.specs.Prelude.{◌≡◌, ◌++◌, ◌<◌, ◌*◌, map, IfOk, OnOk};
ghost use Rattle.made_line.specs.Base.{next_number, after_draws};
ghost use Rattle.made_line.specs.Base as base;

use crate::draws::Draws;
use crate::names::{block_name, route_name, section_name, signal_name};
use crate::runs::{RUNS, run};
use rail_model::{Block, Edit, Item, List, Name, OutOfMemory, Route, Section, Signal};
use std::alloc::Global;

// How many blocks there are, with a signal each; and how many sections, with how many blocks each.
pub(crate) const BLOCKS: u32 = 64;

const SECTIONS: u32 = 8;

const SECTION_BLOCKS: u32 = 8;

// A signal for each block, and one route.
const EDITS: usize = (2 * BLOCKS + 1 + RUNS + SECTIONS) as usize;

// The edits that put all items, blocks first.
pub(crate) fn base_edits(alloc: Global, n: u32) -> Result<List<Edit>, OutOfMemory>
    ensures { IfOk result (λ edits. edits ≡ base.base_edits n) }
{
    let mut draws = Draws::from(n);
    let mut edits = List::with_capacity(alloc, EDITS)?;
    put_blocks(&mut edits, &mut draws)?;
    put_signals(&mut edits)?;
    edits.push(Edit::Put(Item::Route(route(alloc)?)))?;
    put_runs(alloc, &mut edits, &mut draws)?;
    put_sections(alloc, &mut edits)?;
    Ok(edits)
}

fn put_blocks(edits: &mut List<Edit>, draws: &mut Draws) -> Result<(), OutOfMemory>
    ensures put { OnOk result (edits.new
        ≡ edits.old ++ map base.put_block (base.first_blocks draws.old.x 64)) }
    ensures drawn { OnOk result (draws.new.x ≡ after_draws draws.old.x 64) }
{
    for i in 0..BLOCKS {
        edits.push(Edit::Put(Item::Block(block(draws, i))))?;
    }
    Ok(())
}

fn block(draws: &mut Draws, i: u32) -> Block
    requires { i < 64 }
    ensures made { result ≡ base.made_block draws.old.x i }
    ensures drawn { draws.new.x ≡ next_number draws.old.x }
{
    Block {
        name: block_name(i),
        length_m: 1_000 + draws.draw(1_000),
    }
}

fn put_signals(edits: &mut List<Edit>) -> Result<(), OutOfMemory>
    ensures { OnOk result (edits.new ≡ edits.old ++ map base.put_signal (base.first_signals 64)) }
{
    for i in 0..BLOCKS {
        edits.push(Edit::Put(Item::Signal(signal(i))))?;
    }
    Ok(())
}

fn signal(i: u32) -> Signal
    requires { i < 64 }
    ensures { result ≡ base.made_signal i }
{
    Signal {
        name: signal_name(i),
        block: block_name(i),
        approach_m: 1_000,
        watch_s: 10,
        form_s: 5,
        overlap_m: 50,
        release_s: 5,
    }
}

fn route(alloc: Global) -> Result<Route, OutOfMemory>
    ensures { IfOk result (λ route. route ≡ base.made_route) }
{
    let mut signals = List::with_capacity(alloc, BLOCKS as usize)?;
    for i in 0..BLOCKS {
        signals.push(signal_name(i))?;
    }
    Ok(Route {
        name: route_name(),
        signals,
    })
}

fn put_runs(alloc: Global, edits: &mut List<Edit>, draws: &mut Draws) -> Result<(), OutOfMemory>
    ensures { OnOk result (edits.new
        ≡ edits.old ++ map base.put_run (base.first_runs draws.old.x 300)) }
{
    for i in 0..RUNS {
        edits.push(Edit::Put(Item::Run(run(alloc, draws, i)?)))?;
    }
    Ok(())
}

fn put_sections(alloc: Global, edits: &mut List<Edit>) -> Result<(), OutOfMemory>
    ensures { OnOk result (edits.new ≡ edits.old ++ map base.put_section (base.first_sections 8)) }
{
    for j in 0..SECTIONS {
        edits.push(Edit::Put(Item::Section(section(alloc, j)?)))?;
    }
    Ok(())
}

fn section(alloc: Global, j: u32) -> Result<Section, OutOfMemory>
    requires { j < 8 }
    ensures { IfOk result (λ section. section ≡ base.made_section j) }
{
    Ok(Section {
        name: section_name(j),
        from_s: 0,
        to_s: 86_400,
        add_percent: 33,
        blocks: section_blocks(alloc, j)?,
    })
}

// The blocks of a section: eight that follow each other.
fn section_blocks(alloc: Global, j: u32) -> Result<List<Name>, OutOfMemory>
    requires { j < 8 }
    ensures { IfOk result (λ blocks. blocks ≡ base.block_names (8 * j) 8) }
{
    let mut blocks = List::with_capacity(alloc, SECTION_BLOCKS as usize)?;
    for k in 0..SECTION_BLOCKS {
        blocks.push(block_name(SECTION_BLOCKS * j + k))?;
    }
    Ok(blocks)
}
