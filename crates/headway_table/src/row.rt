//! The headways from one train to all others of a cut.
ghost use Rattle.std.specs.Prelude.{◌≡◌, ℕ, ◌<◌, ◌-ℤ◌, length, fold, pos, slice_index_or, All, IfOk};
ghost use Rattle.plan_model.specs.Cut.{IsUsable};
ghost use Rattle.plan_model.specs.Members.{member_count, no_use, place_count};
ghost use Rattle.headway_table.specs.Table as tables;
ghost use Rattle.headway_table.specs.Walk as walks;
ghost use Rattle.headway_table.specs.Starts as by_place;
ghost use Rattle.headway_table.specs.Numbers as numbers;

use crate::ending::{Ending, ending_at};
use plan_model::{CutRow, SoundCut};
use rail_model::{List, OutOfMemory};
use std::alloc::Global;

// Stands where no shared place is found yet: it is below `LEAST_HEADWAY`.
const NEVER: i32 = -1_000_000_000;

// No headway is less: it is reckoned from four moments, each of which is at most 50,000,000 seconds
// from the timetable's origin.
const LEAST_HEADWAY: i32 = -200_000_000;

// The headways from the train of a row to each train, in the order of the rows; none to itself.
pub(crate) fn headways_from(
    alloc: Global,
    cut: &SoundCut,
    starts: &[List<i32>],
    i: u32,
) -> Result<List<Option<i64>>, OutOfMemory>
    requires starts { by_place.AreStarts (place_count cut.now) cut.now.rows starts.now }
    requires there { i < member_count cut.now }
    ensures { IfOk result (λ row. row ≡ tables.row_of cut.now i) }
{
    let mut greatest = Vec::from_elem(alloc, NEVER, cut.member_count() as usize)?;
    raise_by_all(&mut greatest, cut.row(i), starts);
    headways_of(alloc, &greatest, i as usize)
}

// Raises the greatest so far of each other train by all uses of a train, four by four.
fn raise_by_all(greatest: &mut [i32], row: &CutRow, starts: &[List<i32>])
    requires usable { IsUsable (length starts.now) row.now }
    requires wide { by_place.IsWide (length starts.now) (length greatest.old) starts.now }
    requires starts { All (λ row. All by_place.IsStart row) starts.now }
    ensures count { length greatest.new ≡ length greatest.old }
    ensures each { (j : ℕ) → j < length greatest.old → slice_index_or greatest.new j (pos 0)
        ≡ fold (numbers.raised_from starts.now row.now.entry j)
        (slice_index_or greatest.old j (pos 0)) row.now.uses }
{
    let count = row.uses.len();
    let fours = count / 4;
    for four in 0..fours {
        let k = 4 * four;
        raise_four(
            greatest,
            &ending_at(starts, row, k),
            &ending_at(starts, row, k + 1),
            &ending_at(starts, row, k + 2),
            &ending_at(starts, row, k + 3),
        );
    }
    for k in 4 * fours..count {
        raise(greatest, &ending_at(starts, row, k));
    }
}

// Raises each train's greatest headway so far by one place.
fn raise(greatest: &mut [i32], place: &Ending)
    requires place { numbers.IsEnding (length greatest.old) place.now }
    ensures count { length greatest.new ≡ length greatest.old }
    ensures each { (j : ℕ) → j < length greatest.old → slice_index_or greatest.new j (pos 0)
        ≡ numbers.raised_at place.now j (slice_index_or greatest.old j (pos 0)) }
{
    // A copy is read once: no number that is written can lie in it.
    let place = *place;
    for j in 0..greatest.len() {
        greatest[j] = raised(greatest[j], &place, j);
    }
}

// Raises each by four places at once, so that each number is read and written only once.
fn raise_four(
    greatest: &mut [i32],
    first: &Ending,
    second: &Ending,
    third: &Ending,
    fourth: &Ending,
)
    requires first { numbers.IsEnding (length greatest.old) first.now }
    requires second { numbers.IsEnding (length greatest.old) second.now }
    requires third { numbers.IsEnding (length greatest.old) third.now }
    requires fourth { numbers.IsEnding (length greatest.old) fourth.now }
    ensures count { length greatest.new ≡ length greatest.old }
    ensures each { (j : ℕ) → j < length greatest.old → slice_index_or greatest.new j (pos 0)
        ≡ numbers.raised_by_four first.now second.now third.now fourth.now j
        (slice_index_or greatest.old j (pos 0)) }
{
    // Copies are read once: no number that is written can lie in them.
    let (first, second, third, fourth) = (*first, *second, *third, *fourth);
    for j in 0..greatest.len() {
        let number = raised(greatest[j], &first, j);
        let number = raised(number, &second, j);
        let number = raised(number, &third, j);
        greatest[j] = raised(number, &fourth, j);
    }
}

// The greatest headway so far to train j, raised by a place.
fn raised(number: i32, place: &Ending, j: usize) -> i32
    requires place { numbers.IsEnding (length place.now.starts.now) place.now }
    requires there { j < length place.now.starts.now }
    ensures { result ≡ numbers.raised_at place.now j number }
{
    number.max(place.end - place.starts[j])
}

// The headways of a row of numbers: none to the train itself, and none where no place is shared.
fn headways_of(alloc: Global, greatest: &[i32], i: usize) -> Result<List<Option<i64>>, OutOfMemory>
    ensures { IfOk result (λ row. row ≡ numbers.headways_of greatest.now i (length greatest.now)) }
{
    let mut row = List::with_capacity(alloc, greatest.len())?;
    for (j, number) in greatest.iter().enumerate() {
        row.push(headway_to(*number, i == j))?;
    }
    Ok(row)
}

fn headway_to(number: i32, own: bool) -> Option<i64>
    ensures { result ≡ numbers.headway_to number own }
{
    if own || number < LEAST_HEADWAY {
        return None;
    }
    Some(i64::from(number))
}
