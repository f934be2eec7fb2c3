//! The piece of a cut as a cut.
ghost use Rattle.std.specs.Prelude.{◌≡◌, ◌<◌, ◌≤◌, ◌++◌, [], ◌∷◌, IfOk, OnOk, IsTrue, filter, length, map};
ghost use Rattle.plan_model.specs.declared.limits.TheConstants.{MEMBERS};
ghost use Rattle.plan_model.specs.Cut.{IsSoundCut, least};
ghost use Rattle.plan_model.specs.Members.{member_count, block_count};
ghost use Rattle.line_cutter.specs.Cutting as pieces;
ghost use Rattle.line_cutter.specs.Ways.{IsOneWay, AreOneWay, IsBeginning};

use crate::line::LineToCut;
use plan_model::{Cut, CutRow, SharedUses, least_start};
use rail_model::{GREATEST_MOMENT_S, List, OutOfMemory, Section, Use};
use std::alloc::Global;

// Seconds: the end of a piece's window. Every moment of a train lies before it, so a piece has all
// trains that use its blocks.
const WINDOW_END_S: u32 = GREATEST_MOMENT_S as u32 + 1;

// The cut of the piece from block a to before block b.
pub(crate) fn piece(alloc: Global, line: &LineToCut, a: u32, b: u32) -> Result<Cut, OutOfMemory>
    requires from { a ≤ b }
    requires to { b ≤ block_count line.now }
    ensures part { IfOk result (λ part. part ≡ pieces.piece line.now a b) }
    ensures sound { IsSoundCut line.now }
    ensures few { member_count line.now ≤ MEMBERS }
{
    let cut = line.cut().sound().cut();
    Ok(Cut {
        section: piece_section(alloc, &cut.section, a as usize, b as usize)?,
        connections: List::new(alloc),
        rows: piece_rows(alloc, cut.rows.slice(), line.one_way(), a, b)?,
    })
}

fn piece_section(
    alloc: Global,
    section: &Section,
    a: usize,
    b: usize,
) -> Result<Section, OutOfMemory>
    requires from { a ≤ b }
    requires to { b ≤ length section.now.blocks }
    ensures { IfOk result (λ part. part ≡ pieces.piece_section section.now a b) }
{
    let blocks = Vec::from_slice(alloc, &section.blocks.slice()[a..b])?;
    Ok(Section {
        name: section.name,
        from_s: section.from_s,
        to_s: WINDOW_END_S,
        add_percent: section.add_percent,
        blocks: List::from_vec(blocks),
    })
}

// The rows of those that use the piece.
fn piece_rows(
    alloc: Global,
    rows: &[CutRow],
    one_way: &[bool],
    a: u32,
    b: u32,
) -> Result<List<CutRow>, OutOfMemory>
    requires ways { AreOneWay rows.now one_way.now }
    ensures { IfOk result (λ some. some
        ≡ map (pieces.piece_row a b) (filter (pieces.uses_piece a b) rows.now)) }
{
    let mut some = List::new(alloc);
    for k in 0..rows.len() {
        add_row(alloc, &mut some, &rows[k], one_way[k], a, b)?;
    }
    Ok(some)
}

// Adds a row with its uses of the piece, if it has some.
fn add_row(
    alloc: Global,
    some: &mut List<CutRow>,
    row: &CutRow,
    one_way: bool,
    a: u32,
    b: u32,
) -> Result<(), OutOfMemory>
    requires { IsTrue one_way → IsOneWay row.now.uses }
    ensures { OnOk result (some.new ≡ some.old
        ++ map (pieces.piece_row a b) (filter (pieces.uses_piece a b) (row.now ∷ []))) }
{
    let uses = piece_uses(alloc, row.uses.slice(), one_way, a, b)?;
    if uses.is_empty() {
        return Ok(());
    }
    some.push(piece_row(row, uses))?;
    Ok(())
}

// A row with some uses alone.
fn piece_row(row: &CutRow, uses: List<Use>) -> CutRow
    ensures { result ≡ record row.now { entry = least (map (λ u. u.start) uses); uses = uses } }
{
    CutRow {
        name: row.name,
        stamp: row.stamp,
        entry: least_start(uses.slice()),
        uses: SharedUses::of(uses.into_vec()),
    }
}

fn is_within(one: &Use, a: u32, b: u32) -> bool
    ensures { result ≡ pieces.is_within a b one.now }
{
    a <= one.block && one.block < b
}

// The uses of a row that are of the piece.
fn piece_uses(
    alloc: Global,
    uses: &[Use],
    one_way: bool,
    a: u32,
    b: u32,
) -> Result<List<Use>, OutOfMemory>
    requires { IsTrue one_way → IsOneWay uses.now }
    ensures { IfOk result (λ some. some
        ≡ map (pieces.moved_use a) (filter (pieces.is_within a b) uses.now)) }
{
    if one_way {
        one_way_uses(alloc, uses, a, b)
    } else {
        moved_uses(alloc, uses, a, b)
    }
}

// The uses of a row that are of the piece, where the row's uses go one way: then they stand side by
// side.
fn one_way_uses(alloc: Global, uses: &[Use], a: u32, b: u32) -> Result<List<Use>, OutOfMemory>
    requires { IsOneWay uses.now }
    ensures { IfOk result (λ some. some
        ≡ map (pieces.moved_use a) (filter (pieces.is_within a b) uses.now)) }
{
    if is_aside(uses, a, b) {
        return Ok(List::new(alloc));
    }
    let first = likely_first(uses, a, b);
    if begins(uses, first, a, b) {
        moved_run(alloc, uses, first, a, b)
    } else {
        moved_uses(alloc, uses, a, b)
    }
}

// Whether the first and the last use are both before the piece, or both behind it. `false` says
// nothing: the slow way follows.
fn is_aside(uses: &[Use], a: u32, b: u32) -> bool
    requires { IsOneWay uses.now }
    ensures { IsTrue result → filter (pieces.is_within a b) uses.now ≡ [] }
{
    if uses.is_empty() {
        return true;
    }
    let first = uses[0].block;
    let last = uses[uses.len() - 1].block;
    if first < a {
        return last < a;
    }
    b <= first && b <= last
}

// Where the first use of the piece stands, if the path has no gaps. No clause says so: `begins`
// looks there first.
fn likely_first(uses: &[Use], a: u32, b: u32) -> usize {
    if uses.is_empty() {
        return 0;
    }
    let first = uses[0].block;
    let last = uses[uses.len() - 1].block;
    let before = if first <= last {
        a.saturating_sub(first)
    } else {
        first.saturating_sub(b.saturating_sub(1))
    };
    before as usize
}

// Whether the use at a position is of the piece, and the one before it isn't. `false` says nothing:
// the slow way follows.
fn begins(uses: &[Use], first: usize, a: u32, b: u32) -> bool
    ensures { IsTrue result → IsBeginning uses.now a b first }
{
    first < uses.len()
        && is_within(&uses[first], a, b)
        && (first == 0 || !is_within(&uses[first - 1], a, b))
}

// The uses from a position on, as long as they are of the piece.
fn moved_run(
    alloc: Global,
    uses: &[Use],
    first: usize,
    a: u32,
    b: u32,
) -> Result<List<Use>, OutOfMemory>
    requires way { IsOneWay uses.now }
    requires begins { IsBeginning uses.now a b first }
    ensures { IfOk result (λ some. some
        ≡ map (pieces.moved_use a) (filter (pieces.is_within a b) uses.now)) }
{
    let mut some = List::new(alloc);
    for k in first..uses.len() {
        if !is_within(&uses[k], a, b) {
            return Ok(some);
        }
        some.push(moved(uses[k], a))?;
    }
    Ok(some)
}

// All uses of the piece, wherever they stand.
fn moved_uses(alloc: Global, uses: &[Use], a: u32, b: u32) -> Result<List<Use>, OutOfMemory>
    ensures { IfOk result (λ some. some
        ≡ map (pieces.moved_use a) (filter (pieces.is_within a b) uses.now)) }
{
    let mut some = List::new(alloc);
    for one in uses {
        if is_within(one, a, b) {
            some.push(moved(*one, a))?;
        }
    }
    Ok(some)
}

// A use, with its block's position among the blocks of a piece that begins with block a.
fn moved(one: Use, a: u32) -> Use
    requires { a ≤ one.block }
    ensures { result ≡ pieces.moved_use a one }
{
    Use {
        block: one.block - a,
        start: one.start,
        end: one.end,
    }
}
