//! How long after their entries the trains of a cut start their uses, by place and train.
ghost use Rattle.std.specs.Prelude.{◌≡◌, ℕ, ◌<◌, ◌≤◌, ◌^◌, length, fold, slice_index_or, slice_set, replicate, [], All, IfOk};
ghost use Rattle.plan_model.specs.Cut.{IsMoment, IsUsable};
ghost use Rattle.plan_model.specs.Members.{place_count};
ghost use Rattle.headway_table.specs.Walk as walks;
ghost use Rattle.headway_table.specs.Starts as by_place;

use crate::pair::after_entry;
use plan_model::{CutRow, SoundCut};
use rail_model::{List, OutOfMemory, Use};
use std::alloc::Global;

// Stands where a train doesn't use a place. No start is above 100,000,000, so it is later than any,
// and what is reckoned with it stays below every headway.
pub(crate) const FREE: i32 = 1_000_000_000;

// The starts of all trains: for each place a list with one for each train, after its entry.
pub(crate) fn starts(alloc: Global, cut: &SoundCut) -> Result<Vec<List<i32>>, OutOfMemory>
    ensures { IfOk result (λ table. by_place.AreStarts (place_count cut.now) cut.now.rows table.items) }
{
    let rows = cut.rows();
    let mut table = free(alloc, cut.place_count() as usize, rows.len())?;
    put_all(&mut table, rows);
    Ok(table)
}

// A table in which no train uses any place.
fn free(alloc: Global, places: usize, trains: usize) -> Result<Vec<List<i32>>, OutOfMemory>
    requires { trains < 2 ^ 63 }
    ensures { IfOk result (λ table. table.items ≡ replicate places (replicate trains FREE)) }
{
    let mut table = Vec::with_capacity(alloc, places)?;
    for _ in 0..places {
        table.push(List::from_vec(Vec::from_elem(alloc, FREE, trains)?))?;
    }
    Ok(table)
}

// Puts in the starts of all trains, at the places that they use.
fn put_all(table: &mut [List<i32>], rows: &[CutRow])
    requires free { by_place.AreStartsOf (length table.old) rows.now 0 table.old }
    requires usable { All (IsUsable (length table.old)) rows.now }
    ensures count { length table.new ≡ length table.old }
    ensures starts { by_place.AreStarts (length table.old) rows.now table.new }
{
    for (j, row) in rows.iter().enumerate() {
        put_train(table, j, row);
    }
}

// Puts in the starts of one train.
fn put_train(table: &mut [List<i32>], j: usize, row: &CutRow)
    requires wide { (p : ℕ) → p < length table.old → j < length (slice_index_or table.old p []) }
    requires usable { IsUsable (length table.old) row.now }
    ensures { by_place.Changes j
        (λ p c. fold (by_place.with_use_start row.now.entry p) c row.now.uses) table.old table.new }
{
    for one in row.uses.slice() {
        put(table, j, one, row);
    }
}

// Puts in the start of one use of a train.
fn put(table: &mut [List<i32>], j: usize, one: &Use, row: &CutRow)
    requires wide { (p : ℕ) → p < length table.old → j < length (slice_index_or table.old p []) }
    requires entry { IsMoment row.now.entry }
    requires start { IsMoment one.now.start }
    requires place { one.now.block < length table.old }
    ensures { by_place.Changes j (λ p c. by_place.with_use_start row.now.entry p c one.now)
        table.old table.new }
{
    put_at(
        &mut table[one.block as usize],
        j,
        short(after_entry(one.start, row.entry)),
    );
}

fn put_at(starts: &mut List<i32>, j: usize, start: i32)
    requires { j < length starts.old }
    ensures { starts.new ≡ slice_set starts.old j start }
{
    *starts.get_mut(j) = start;
}

// A length of time as a 32-bit number, of which the processor takes more at once. None that is laid
// out here is above 100,000,000 or below its negative.
pub(crate) fn short(time: i64) -> i32
    requires { walks.IsLength time }
    ensures { result ≡ time }
{
    time as i32
}
