//! A cut that is put together from kept rows, and from rows that are taken where none is kept.
ghost use Rattle.std.specs.Prelude.{◌≡◌, ◌<◌, ◌≤◌, ◌+◌, length, take, drop, slice_set};
ghost use Rattle.std.specs.Prelude.{true, slice_index_or, IfOk, IfSome, sum_by};
ghost use Rattle.rail_model.specs.Name.{NamesRise};
ghost use Rattle.plan_model.specs.declared.limits.TheConstants.{MEMBERS};
ghost use Rattle.plan_model.specs.Cut.{IsSoundCut};
ghost use Rattle.plan_model.specs.Members.{member, member_count, no_member};
ghost use Rattle.plan_repair.specs.Kept.{AgreeByStamps, uses_to_take, TakesAtMost};
ghost use Rattle.plan_repair.specs.Left.{HasName, IsLeft, StoodAt};
ghost use Rattle.plan_repair.specs.Origin.{StoodAmong};
ghost use Rattle.plan_repair.specs.Renewed.{IsRenewed};

use crate::left::next_kept;
use crate::taken::take_row;
use plan_model::{Cut, CutRow, Rows};
use rail_model::{List, Name, OutOfMemory};
use std::alloc::Global;
use std::collections::VecDeque;

// A cut, and for each of its rows where it stood among the kept rows, if it is kept.
#[derive(Drop)]
pub(crate) struct RenewedCut {
    pub cut: Cut,
    pub origin: Vec<Option<u32>>,
}

// The cut of a reading. The uses of a kept row are neither taken nor copied.
pub(crate) fn renewed<R: Rows>(
    alloc: Global,
    kept: List<CutRow>,
    reading: &mut R,
) -> Result<RenewedCut, OutOfMemory>
    requires sound { IsSoundCut (R.shown reading.old).cut }
    requires rise { NamesRise (λ r. r.name) kept }
    requires few { length kept ≤ MEMBERS }
    requires agree { AgreeByStamps kept (R.shown reading.old).cut.rows }
    ensures cut { IfOk result (λ renewed. renewed.cut ≡ (R.shown reading.old).cut) }
    ensures origin { IfOk result (λ renewed.
        StoodAmong kept (R.shown reading.old).cut.rows renewed.origin.items) }
    ensures reading { TakesAtMost (sum_by (uses_to_take kept) (R.shown reading.old).cut.rows)
        (R.shown reading.old) (R.shown reading.new) }
{
    let section = reading.section().copy(alloc)?;
    let connections = reading.connections().copy(alloc)?;
    let (rows, origin) = renewed_rows(alloc, kept, reading)?;
    let cut = Cut {
        section,
        connections,
        rows,
    };
    Ok(RenewedCut { cut, origin })
}

// The cut's rows, and where each stood among the kept ones.
//
// Rows are renewed where they stand as long as the names are the same. From there on what is left
// of the kept rows and of the reading's is gone through side by side, in the order of names.
fn renewed_rows<R: Rows>(
    alloc: Global,
    kept: List<CutRow>,
    reading: &mut R,
) -> Result<(List<CutRow>, Vec<Option<u32>>), OutOfMemory>
    requires sound { IsSoundCut (R.shown reading.old).cut }
    requires rise { NamesRise (λ r. r.name) kept }
    requires few { length kept ≤ MEMBERS }
    requires agree { AgreeByStamps kept (R.shown reading.old).cut.rows }
    ensures rows { IfOk result (λ both. both.0 ≡ (R.shown reading.old).cut.rows) }
    ensures origin { IfOk result (λ both. StoodAmong kept both.0 both.1.items) }
    ensures reading { TakesAtMost (sum_by (uses_to_take kept) (R.shown reading.old).cut.rows)
        (R.shown reading.old) (R.shown reading.new) }
{
    let count = kept.len() as u32;
    let mut first = kept;
    let mut origin = renewed_in_place(alloc, &mut first, reading)?;
    let start = origin.len();
    let mut rows = first.into_vec();
    let rest = rows.split_off(start)?;
    let mut left = VecDeque::from_vec(rest);
    for i in start as u32..reading.count() {
        let (row, from) = next_row(&mut left, reading, i, count)?;
        rows.push(row)?;
        origin.push(from)?;
    }
    Ok((List::from_vec(rows), origin))
}

// Renews kept rows where they stand, up to the first that has another name than the reading's row
// there. Answers for each renewed row where it stood, if it stayed.
fn renewed_in_place<R: Rows>(
    alloc: Global,
    rows: &mut List<CutRow>,
    reading: &mut R,
) -> Result<Vec<Option<u32>>, OutOfMemory>
    requires sound { IsSoundCut (R.shown reading.old).cut }
    requires rise { NamesRise (λ r. r.name) rows.old }
    requires agree { AgreeByStamps rows.old (R.shown reading.old).cut.rows }
    ensures renewed { IfOk result (λ origin. let n = length origin.items in
        IsRenewed rows.old (R.shown reading.old) n
        (take n rows.new) (drop n rows.new) origin.items (R.shown reading.new)) }
    ensures reading { TakesAtMost (sum_by (uses_to_take rows.old) (R.shown reading.old).cut.rows)
        (R.shown reading.old) (R.shown reading.new) }
{
    let mut origin = Vec::with_capacity(alloc, reading.count() as usize)?;
    for i in 0..reading.count() {
        let name = reading.name(i);
        if !has_name(rows, i as usize, &name) {
            return Ok(origin);
        }
        let from = renew_row(rows, reading, i)?;
        origin.push(from)?;
    }
    Ok(origin)
}

// Whether a row stands at a position and has this name. `false` says nothing: the rows from there
// on are then looked for by name.
fn has_name(rows: &List<CutRow>, at: usize, name: &Name) -> bool
    ensures { result ≡ true → HasName rows.now at name.now }
{
    match rows.get(at) {
        Some(row) => row.name == *name,
        None => false,
    }
}

// Puts the reading's row at a position, where a kept row of its name stands: that one stays if it
// has the stamp, and answers its place, or else the row is taken. No clause says when the place is
// told: a row without one is taken for fresh.
fn renew_row<R: Rows>(
    rows: &mut List<CutRow>,
    reading: &mut R,
    i: u32,
) -> Result<Option<u32>, OutOfMemory>
    requires there { i < member_count (R.shown reading.old).cut }
    requires rise { NamesRise (λ r. r.name) (drop i rows.old) }
    requires name { HasName rows.old i (member (R.shown reading.old).cut i).name }
    requires agree { AgreeByStamps (drop i rows.old) (R.shown reading.old).cut.rows }
    ensures rows { IfOk result (λ _.
        rows.new ≡ slice_set rows.old i (member (R.shown reading.old).cut i)) }
    ensures from { IfOk result (λ from. IfSome from (StoodAt (length rows.old)
        (drop i rows.old) (drop (i + 1) rows.old) (member (R.shown reading.old).cut i))) }
    ensures reading { TakesAtMost
        (uses_to_take (drop i rows.old) (member (R.shown reading.old).cut i))
        (R.shown reading.old) (R.shown reading.new) }
{
    let own = stamp_at(rows, i as usize);
    let stamp = reading.stamp(i);
    if own == stamp {
        return Ok(Some(i));
    }
    let row = take_row(reading, i)?;
    *rows.get_mut(i as usize) = row;
    Ok(None)
}

// The stamp of the row at a position.
fn stamp_at(rows: &List<CutRow>, at: usize) -> u64
    requires { at < length rows.now }
    ensures { result ≡ (slice_index_or rows.now at no_member).stamp }
{
    rows.slice()[at].stamp
}

// The row at a position: the kept one of its name and stamp, with its place among so many kept
// rows, or else the one that is taken. No clause says when the place is told: a row without one is
// taken for fresh.
fn next_row<R: Rows>(
    left: &mut VecDeque<CutRow>,
    reading: &mut R,
    i: u32,
    count: u32,
) -> Result<(CutRow, Option<u32>), OutOfMemory>
    requires there { i < member_count (R.shown reading.old).cut }
    requires rise { NamesRise (λ r. r.name) left.old.items }
    requires few { length left.old.items ≤ count }
    requires agree { AgreeByStamps left.old.items (R.shown reading.old).cut.rows }
    ensures row { IfOk result (λ both. both.0 ≡ member (R.shown reading.old).cut i) }
    ensures from { IfOk result (λ both.
        IfSome both.1 (StoodAt count left.old.items left.new.items both.0)) }
    ensures reading { TakesAtMost
        (uses_to_take left.old.items (member (R.shown reading.old).cut i))
        (R.shown reading.old) (R.shown reading.new) }
    ensures left { IsLeft (member (R.shown reading.old).cut i).name
        left.old.items left.new.items }
{
    let name = reading.name(i);
    let stamp = reading.stamp(i);
    match next_kept(left, &name, stamp) {
        Some(row) => Ok((row, Some(count - 1 - left.len() as u32))),
        None => Ok((take_row(reading, i)?, None)),
    }
}
