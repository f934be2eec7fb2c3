//! The blocks of the sections that an edit can touch, where it moves the uses of one block alone: of
//! a run's stair no other uses are wanted.
ghost use Rattle.std.specs.Prelude.{◌≡◌, ◌<◌, true, length, slice_set, nat_lt, if◌then◌else◌, Some, IfOk, OnOk};
ghost use Rattle.rail_model.specs.Tables.{section_at};
ghost use Rattle.section_cut.specs.Wanted.{HasAll, IsAddedTo, IsWithSection};

use crate::one_run::has_name;
use crate::positions::positions;
use line_tables::LineTables;
use rail_model::OutOfMemory;
use std::alloc::Global;

// For each block of the tables whether it is in one of the sections that have this block.
pub(crate) fn wanted_blocks(
    alloc: Global,
    tables: &LineTables,
    block: u32,
) -> Result<Vec<bool>, OutOfMemory>
    requires { block < length tables.now.blocks }
    ensures { IfOk result (λ told. HasAll tables.now (Some block) told.items) }
{
    let mut told = vec![in alloc; false; tables.blocks() as usize]?;
    add_sections(alloc, tables, block, &mut told)?;
    Ok(told)
}

// Adds the blocks of the sections that have this block.
fn add_sections(
    alloc: Global,
    tables: &LineTables,
    block: u32,
    told: &mut [bool],
) -> Result<(), OutOfMemory>
    requires there { block < length tables.now.blocks }
    requires long { length told.old ≡ length tables.now.blocks }
    ensures { OnOk result (HasAll tables.now (Some block) told.new) }
{
    for section in 0..tables.sections() {
        add_section(alloc, tables, block, section, told)?;
    }
    Ok(())
}

// Adds the blocks of the section of a number, if it has this block.
fn add_section(
    alloc: Global,
    tables: &LineTables,
    block: u32,
    section: u32,
    told: &mut [bool],
) -> Result<(), OutOfMemory>
    requires there { block < length tables.now.blocks }
    requires section { section < length tables.now.sections }
    requires long { length told.old ≡ length tables.now.blocks }
    ensures { OnOk result
        (IsWithSection tables.now (Some block) (section_at tables.now section) told.old told.new) }
{
    let names = tables.section(section).blocks.slice();
    if has_name(names, &tables.block(block).name) {
        let positions = positions(alloc, tables, section)?;
        add_blocks(told, &positions, names.len());
    }
    Ok(())
}

// Adds the blocks of a section of so many, by the positions of blocks in it.
fn add_blocks(told: &mut [bool], positions: &[u32], blocks: usize)
    requires { length told.old ≡ length positions.now }
    ensures { IsAddedTo positions.now blocks (length told.old) told.old told.new }
{
    for at in 0..told.len() {
        add_block(told, at, positions[at] as usize, blocks);
    }
}

// Adds a block, if its position is in a section of so many.
fn add_block(told: &mut [bool], at: usize, position: usize, blocks: usize)
    requires { at < length told.old }
    ensures { told.new ≡ (if nat_lt position blocks then slice_set told.old at true else told.old) }
{
    if position < blocks {
        told[at] = true;
    }
}
