//! The compressed timetable of a cut whose trains are placed.
ghost use Rattle.std.specs.Prelude.{◌≡◌, ◌<◌, IfOk, IfSome, length, map, []};
ghost use Rattle.std.specs.List.{range_with_len};
ghost use Rattle.plan_model.specs.Disorder.{remaining};
ghost use Rattle.plan_model.specs.Answer.{IsCompressed};
ghost use Rattle.plan_model.specs.Answer as occupied;
ghost use Rattle.train_placing.specs.Laid.{AreAllPlaced, HasBoundedTimes, placed_with, train_of, critical_of};

use crate::last::Last;
use occupancy_rate::occupancy;
use plan_model::{CutRow, FitCut, Placed, PlacedList, Plan, Tie};
use rail_model::OutOfMemory;
use std::alloc::Global;

/// The plan of trains that are placed, none before the window: it tells where they stand, and what
/// that occupies.
///
/// Entries and ties are by the trains' positions, last uses by the places' positions.
pub fn plan_of_placed(
    alloc: Global,
    cut: &FitCut,
    entries: &[i64],
    ties: &[Tie],
    last: &[Option<Last>],
) -> Result<Plan, OutOfMemory>
    requires none { remaining cut.now ≡ [] }
    requires placed { AreAllPlaced cut.now entries.now ties.now last.now }
    ensures compressed { IfOk result (λ plan. IsCompressed cut.now plan) }
    ensures bounded { IfOk result (λ plan. HasBoundedTimes cut.now plan) }
{
    let kept = occupancy(cut.sound().cut(), entries);
    plan_of_occupied(alloc, cut, entries, ties, last, kept)
}

/// The plan of trains that are placed, none before the window, where the occupancy time, in
/// seconds, and the position of the busiest block are known (`kept`).
///
/// Entries and ties are by the trains' positions, last uses by the places' positions.
pub fn plan_of_occupied(
    alloc: Global,
    cut: &FitCut,
    entries: &[i64],
    ties: &[Tie],
    last: &[Option<Last>],
    kept: (u64, Option<u32>),
) -> Result<Plan, OutOfMemory>
    requires none { remaining cut.now ≡ [] }
    requires placed { AreAllPlaced cut.now entries.now ties.now last.now }
    requires time { kept.0 ≡ occupied.occupancy cut.now entries.now }
    requires busiest { kept.1 ≡ occupied.busiest cut.now entries.now }
    ensures compressed { IfOk result (λ plan. IsCompressed cut.now plan) }
    ensures bounded { IfOk result (λ plan. HasBoundedTimes cut.now plan) }
{
    let sound = cut.sound();
    let places = sound.place_names(alloc)?;
    let placed = placed(alloc, sound.rows(), entries, ties)?;
    let section = &sound.cut().section;
    let (time, busiest) = kept;
    Ok(Plan {
        from_s: section.from_s,
        to_s: section.to_s,
        add_percent: section.add_percent,
        blocks: places,
        placed,
        occupancy: time,
        busiest,
        critical: critical(busiest, last),
    })
}

// The rows with their entries and ties.
fn placed(
    alloc: Global,
    rows: &[CutRow],
    entries: &[i64],
    ties: &[Tie],
) -> Result<PlacedList, OutOfMemory>
    requires entries { length entries.now ≡ length rows.now }
    requires ties { length ties.now ≡ length rows.now }
    ensures { IfOk result (λ list. list
        ≡ map (placed_with rows.now entries.now ties.now) (range_with_len 0 (length rows.now))) }
{
    let mut list = PlacedList::with_capacity(alloc, rows.len())?;
    for (i, row) in rows.iter().enumerate() {
        list.push(&placed_at(row, entries[i], ties[i]))?;
    }
    list.shrink_to_fit();
    Ok(list)
}

fn placed_at(row: &CutRow, entry: i64, tie: Tie) -> Placed
    ensures { result
        ≡ record { train = row.now.name; planned = row.now.entry; entry = entry; tie = tie } }
{
    Placed {
        train: row.name,
        planned: row.entry,
        entry,
        tie,
    }
}

// The critical train: all trains are placed, so the last use of the busiest block ends last.
fn critical(busiest: Option<u32>, last: &[Option<Last>]) -> Option<u32>
    requires { IfSome busiest (λ b. b < length last.now) }
    ensures { result ≡ critical_of busiest last.now }
{
    match busiest {
        Some(block) => train_of(last[block as usize]),
        None => None,
    }
}

fn train_of(last: Option<Last>) -> Option<u32>
    ensures { result ≡ train_of last }
{
    match last {
        Some(last) => Some(last.train),
        None => None,
    }
}
