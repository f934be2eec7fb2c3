//! The least pair of opposite trains of a cut of few blocks, where it is found soon.
//!
//! Trains of which one starts last before the other starts first are not opposite, so that of most
//! pairs no more than the ranges of their starts are looked at.
ghost use Rattle.std.specs.Prelude.{◌≡◌, ◌<◌, ◌≤◌, ◌&&◌, int_le, Some, IfOk, IfSome, Err};
ghost use Rattle.std.specs.Int.{int_min, int_max};
ghost use Rattle.plan_model.specs.Disorder.{are_opposite, opposite_pair};
ghost use Rattle.plan_model.specs.Members.{member_count};
ghost use Rattle.plan_model.specs.Members as given;
ghost use Rattle.train_order.specs.Ordering.{AreOpposed, IsOrdering};
ghost use Rattle.line_cutter.specs.Opposed.{AreStartRanges, IsStartRange, IsNextOpposite};

use plan_model::{CutRow, Disorder, SoundCut};
use rail_model::{OutOfMemory, Use};
use std::alloc::Global;
use train_order::place_of_link;

// How many trains whose ranges meet that of one train are tried before the search is given up.
const TRIES: u32 = 16;

// A train's first and last start: seconds from the timetable's origin.
#[derive(Clone, Copy)]
pub(crate) struct StartRange {
    first: i64,
    last: i64,
}

// The least two opposite trains of a cut, as its disorder, if there are any and they are found
// soon. `None` says nothing: the slow way follows.
pub(crate) fn soon_opposite(alloc: Global, cut: &SoundCut) -> Result<Option<Disorder>, OutOfMemory>
    ensures { IfOk result (λ found. IfSome found (λ disorder. IsOrdering cut.now (Err disorder))) }
{
    let ranges = ranges_of(alloc, cut.rows())?;
    match soon_opposed(cut, &ranges) {
        Some((i, j)) => Ok(Some(told(cut, i, j))),
        None => Ok(None),
    }
}

// The disorder of members i and j, each of which precedes the other somewhere.
fn told(cut: &SoundCut, i: u32, j: u32) -> Disorder
    requires least { opposite_pair cut.now ≡ Some (i, j) }
    requires opposed { AreOpposed cut.now i j }
    ensures { IsOrdering cut.now (Err result) }
{
    let block1 = place_of_link(cut.cut(), i, j);
    let block2 = place_of_link(cut.cut(), j, i);
    Disorder::Opposite {
        first: cut.row(i).name,
        second: cut.row(j).name,
        block1,
        block2,
    }
}

// The least pair of opposite members, where it is found soon. `None` says nothing.
fn soon_opposed(cut: &SoundCut, ranges: &[StartRange]) -> Option<(u32, u32)>
    requires { AreStartRanges cut.now.rows ranges.now }
    ensures least { IfSome result (λ pair. opposite_pair cut.now ≡ Some pair) }
    ensures opposed { IfSome result (λ pair. AreOpposed cut.now pair.0 pair.1) }
{
    for i in 0..cut.member_count() {
        let next = next_opposite(cut, ranges, i)?;
        if next < cut.member_count() {
            return Some((i, next));
        }
    }
    None
}

// The first member after member i that is opposite to it, or the number of members. `None`, as
// where the search is given up, says nothing.
fn next_opposite(cut: &SoundCut, ranges: &[StartRange], i: u32) -> Option<u32>
    requires ranges { AreStartRanges cut.now.rows ranges.now }
    requires there { i < member_count cut.now }
    ensures { IfSome result (IsNextOpposite cut.now i) }
{
    let count = cut.member_count();
    let mut tried = 0;
    for j in i + 1..count {
        if meet(ranges[i as usize], ranges[j as usize]) {
            if are_opposed(cut, i, j) {
                return Some(j);
            }
            if tried >= TRIES {
                return None;
            }
            tried += 1;
        }
    }
    Some(count)
}

// Whether two ranges have a moment in common.
fn meet(one: StartRange, other: StartRange) -> bool
    ensures { result ≡ (int_le one.first other.last && int_le other.first one.last) }
{
    one.first <= other.last && other.first <= one.last
}

// Whether each of two members precedes the other somewhere.
fn are_opposed(cut: &SoundCut, i: u32, j: u32) -> bool
    requires one { i < member_count cut.now }
    requires other { j < member_count cut.now }
    ensures { result ≡ are_opposite cut.now i j }
{
    precedes_somewhere(cut, i, j) && precedes_somewhere(cut, j, i)
}

// Whether one member precedes another somewhere.
fn precedes_somewhere(cut: &SoundCut, i: u32, j: u32) -> bool
    requires one { i < member_count cut.now }
    requires other { j < member_count cut.now }
    ensures { result ≡ given.precedes_somewhere cut.now i j }
{
    for place in 0..cut.place_count() {
        if cut.precedes(i, j, place) {
            return true;
        }
    }
    false
}

// The range of each row.
fn ranges_of(alloc: Global, rows: &[CutRow]) -> Result<Vec<StartRange>, OutOfMemory>
    ensures { IfOk result (λ ranges. AreStartRanges rows.now ranges.items) }
{
    let mut ranges = Vec::with_capacity(alloc, rows.len())?;
    for row in rows {
        ranges.push(range_of(row.uses.slice()))?;
    }
    Ok(ranges)
}

fn range_of(uses: &[Use]) -> StartRange
    ensures { IsStartRange uses.now result }
{
    let mut range = StartRange {
        first: i64::MAX,
        last: i64::MIN,
    };
    for one in uses {
        range = widened(range, one);
    }
    range
}

// A train's range, widened by one use.
fn widened(range: StartRange, one: &Use) -> StartRange
    ensures first { result.first ≡ int_min range.first one.now.start }
    ensures last { result.last ≡ int_max range.last one.now.start }
{
    StartRange {
        first: range.first.min(one.start),
        last: range.last.max(one.start),
    }
}
