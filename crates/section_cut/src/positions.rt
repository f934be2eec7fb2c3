//! Where blocks stand in a section's list: a table over the numbers of blocks, filled once a
//! section; and the uses of a stairway by it.
ghost use Rattle.std.specs.Prelude.{◌≡◌, ◌↔◌, ◌+◌, ◌<◌, ◌≤◌, true, IsTrue, length, map, take, slice_set, All, IfOk, IfSome, OnOk};
ghost use Rattle.rail_model.specs.Tables.{section_at};
ghost use Rattle.rail_model.specs.declared.limits.TheConstants.{PATH_HOPS};
ghost use Rattle.section_cut.specs.Positions.{IsPositions, AreSameTo, AreSameFirst, IsUsePlaced, ArePlaced, with_position, uses_in};

use crate::spans::BlockRange;
use line_tables::LineTables;
use plan_model::SharedUses;
use rail_model::{OutOfMemory, Section, Use};
use std::alloc::Global;

// A section, with the position of each block of the tables in it, and the spans of the stairways
// that are looked at.
#[derive(Clone, Copy)]
pub(crate) struct SectionTable<'a> {
    pub(crate) section: &'a Section,
    pub(crate) positions: &'a [u32],
    pub(crate) spans: &'a [Option<BlockRange>],
    ghost most: { length section.now.blocks ≤ PATH_HOPS },
}

// For each block of the tables its position in the list of the section of a number, or the list's
// length where it isn't there. The list is taken from its end, so of two positions the first would
// stay.
pub(crate) fn positions(
    alloc: Global,
    tables: &LineTables,
    section: u32,
) -> Result<Vec<u32>, OutOfMemory>
    requires { section < length tables.now.sections }
    ensures { IfOk result
        (λ table. IsPositions tables.now (section_at tables.now section) table.items) }
{
    tables.learn_sound();
    let found = tables.section_blocks(section)?;
    let blocks = found.as_slice();
    let mut table = vec![in alloc; blocks.len() as u32; tables.blocks() as usize]?;
    for later in 0..blocks.len() {
        let position = blocks.len() - 1 - later;
        place(&mut table, blocks[position], position as u32);
    }
    Ok(table)
}

// Writes the position of the block of a number.
fn place(table: &mut [u32], block: u32, position: u32)
    requires { block < length table.old }
    ensures { table.new ≡ slice_set table.old block position }
{
    table[block as usize] = position;
}

// Gathers the uses of a stairway that are in a section, by their positions.
pub(crate) fn gather(
    found: &mut Vec<Use>,
    table: SectionTable<'_>,
    uses: &[Use],
) -> Result<(), OutOfMemory>
    requires { All (λ u. u.block < length table.positions.now) uses.now }
    ensures { OnOk result (found.new.items
        ≡ uses_in table.entry.positions.now (length table.entry.section.now.blocks) uses.now) }
{
    found.clear();
    let blocks = table.section.blocks.len() as u32;
    for one in uses {
        let block = table.positions[one.block as usize];
        if block < blocks {
            found.push(Use { block, ..*one })?;
        }
    }
    Ok(())
}

// Whether these are the uses of a stairway by their positions.
pub(crate) fn same_placed(uses: &[Use], positions: &[u32], stairway: &[Use]) -> bool
    requires { All (λ u. u.block < length positions.now) stairway.now }
    ensures { IsTrue result ↔ (map (with_position positions.now) stairway.now ≡ uses.now) }
{
    uses.len() == stairway.len() && same_first(uses, positions, stairway) == uses.len()
}

// How many of these uses are those of a stairway of as many by their positions, up to the first
// that isn't. Fewer may be told.
pub(crate) fn same_first(uses: &[Use], positions: &[u32], stairway: &[Use]) -> usize
    requires there { All (λ u. u.block < length positions.now) stairway.now }
    requires long { length uses.now ≡ length stairway.now }
    ensures { AreSameFirst positions.now uses.now stairway.now result }
{
    for i in same_fours(uses, positions, stairway)..uses.len() {
        if !is_placed(&uses[i], positions, &stairway[i]) {
            return i;
        }
    }
    uses.len()
}

// How many of these uses are those of a stairway of as many by their positions, up to the first four
// of which one isn't. They are compared four by four, so that fewer steps are taken. Fewer may be
// told.
fn same_fours(uses: &[Use], positions: &[u32], stairway: &[Use]) -> usize
    requires there { All (λ u. u.block < length positions.now) stairway.now }
    requires long { length uses.now ≡ length stairway.now }
    ensures { AreSameTo positions.now uses.now stairway.now result }
{
    for four in 0..uses.len() / 4 {
        let at = 4 * four;
        if !same_two(uses, positions, stairway, at) {
            return at;
        }
        if !same_two(uses, positions, stairway, at + 2) {
            return at;
        }
    }
    uses.len() / 4 * 4
}

// Whether the two uses from a place on are those of a stairway by their positions, where those
// before them are. `false` says nothing.
fn same_two(uses: &[Use], positions: &[u32], stairway: &[Use], at: usize) -> bool
    requires there { All (λ u. u.block < length positions.now) stairway.now }
    requires long { length uses.now ≡ length stairway.now }
    requires at { at + 1 < length uses.now }
    requires so_far { AreSameTo positions.now uses.now stairway.now at }
    ensures { result ≡ true → AreSameTo positions.now uses.now stairway.now (at + 2) }
{
    is_placed(&uses[at], positions, &stairway[at])
        && is_placed(&uses[at + 1], positions, &stairway[at + 1])
}

// Whether this is a use by its position.
fn is_placed(one: &Use, positions: &[u32], other: &Use) -> bool
    requires { other.now.block < length positions.now }
    ensures { IsTrue result ↔ (with_position positions.now other.now ≡ one.now) }
{
    one.start == other.start && one.end == other.end && one.block == positions[other.block as usize]
}

// The uses of a stairway by their positions in a section, if all are in it, where these are as
// many, all in it, and the same up to a place. `None` says nothing: the slow way follows.
pub(crate) fn placed(
    alloc: Global,
    table: SectionTable<'_>,
    old: &[Use],
    same: usize,
    stairway: &[Use],
) -> Result<Option<SharedUses>, OutOfMemory>
    requires there { All (λ u. u.block < length table.positions.now) stairway.now }
    requires long { length old.now ≡ length stairway.now }
    requires inside { All (λ u. u.block < length table.section.now.blocks) old.now }
    requires same { map (with_position table.positions.now) (take same stairway.now)
        ≡ take same old.now }
    ensures { IfOk result (λ uses. IfSome uses
        (ArePlaced table.entry.positions.now (length table.entry.section.now.blocks) stairway.now)) }
{
    let mut uses = Vec::from_slice(alloc, old)?;
    let blocks = table.section.blocks.len() as u32;
    if !place_from(&mut uses, table.positions, blocks, stairway, same) {
        return Ok(None);
    }
    Ok(Some(SharedUses::of(uses)))
}

// Makes uses from a place on those of a stairway of as many by their positions in a section of this
// many blocks, if all are in it. `false` says nothing, nor what the uses are then.
fn place_from(
    uses: &mut [Use],
    positions: &[u32],
    blocks: u32,
    stairway: &[Use],
    from: usize,
) -> bool
    requires there { All (λ u. u.block < length positions.now) stairway.now }
    requires long { length uses.old ≡ length stairway.now }
    requires inside { All (λ u. u.block < blocks) uses.old }
    requires same { map (with_position positions.now) (take from stairway.now) ≡ take from uses.old }
    ensures { result ≡ true → ArePlaced positions.now blocks stairway.now uses.new }
{
    for i in from..uses.len() {
        if !place_use(uses, i, positions, blocks, &stairway[i]) {
            return false;
        }
    }
    true
}

// Makes one use this one by its position in a section of this many blocks, if it is in it. One that
// is the same already isn't written. `false` says nothing.
fn place_use(uses: &mut [Use], i: usize, positions: &[u32], blocks: u32, one: &Use) -> bool
    requires at { i < length uses.old }
    requires there { one.now.block < length positions.now }
    requires inside { All (λ u. u.block < blocks) uses.old }
    ensures { result ≡ true → IsUsePlaced positions.now blocks one.now i uses.old uses.new }
{
    if is_placed(&uses[i], positions, one) {
        return true;
    }
    let block = positions[one.block as usize];
    if block >= blocks {
        return false;
    }
    uses[i] = Use { block, ..*one };
    true
}
