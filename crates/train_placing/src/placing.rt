//! The trains are placed one after the other, in their order, each as early as its floor and the
//! places that it uses allow.
ghost use Rattle.std.specs.Prelude.{◌≡◌, ◌<◌, IfOk, length, map, slice_index_or, replicate, None, []};
ghost use Rattle.std.specs.List.{All};
ghost use Rattle.plan_model.specs.Members.{members, member_count, place_count};
ghost use Rattle.plan_model.specs.Disorder.{remaining};
ghost use Rattle.plan_model.specs.Schedule.{window_start, window_floor, entry_at, IsLeastFrom, tie_from};
ghost use Rattle.train_order.specs.Ordering.{IsOrder};
ghost use Rattle.train_placing.specs.Last.{IsNear, IsNearLast};
ghost use Rattle.train_placing.specs.Placing.{IsFloor, IsNextPlaced, ArePlaced};

use crate::last::{Last, earliest, occupy};
use crate::tie::tie;
use plan_model::{FitCut, SoundCut, Tie};
use rail_model::OutOfMemory;
use std::alloc::Global;

/// What is known of a cut's trains that are placed.
#[derive(Drop)]
pub struct Placing {
    /// By the trains' positions: when each enters, in seconds from the timetable's origin.
    pub entries: Vec<i64>,
    /// By the trains' positions: why each enters no earlier. `Start` says that it enters at its
    /// floor.
    pub ties: Vec<Tie>,
    /// By the places' positions: the last use of each.
    pub last: Vec<Option<Last>>,
}

/// All trains, placed in this order, none before its floor: the least schedule from the floors.
///
/// There is a floor for each train, by the trains' positions: seconds from the timetable's origin,
/// at most 100,000,000 from it.
pub fn place_all(
    alloc: Global,
    cut: &FitCut,
    order: &[u32],
    floors: Vec<i64>,
) -> Result<Placing, OutOfMemory>
    requires order { IsOrder cut.now order.now }
    requires count { length floors.items ≡ member_count cut.now }
    requires floors { All IsFloor floors.items }
    ensures placed { IfOk result (λ placing. ArePlaced cut.now (entry_at floors.items) order.now
        placing.entries.items placing.ties.items placing.last.items) }
    ensures least { remaining cut.now ≡ [] → IfOk result (λ placing.
        IsLeastFrom cut.now (entry_at floors.items) placing.entries.items) }
    ensures ties { IfOk result (λ placing. placing.ties.items
        ≡ map (tie_from cut.now (entry_at floors.items) placing.entries.items) (members cut.now)) }
{
    let mut placing = nothing_placed(alloc, cut, floors)?;
    place_each(
        cut,
        order,
        &mut placing.entries,
        &mut placing.ties,
        &mut placing.last,
    );
    Ok(placing)
}

/// All trains, placed in this order, none before the window.
pub fn place_in_window(alloc: Global, cut: &FitCut, order: &[u32]) -> Result<Placing, OutOfMemory>
    requires order { IsOrder cut.now order.now }
    ensures { IfOk result (λ placing. ArePlaced cut.now (window_floor cut.now) order.now
        placing.entries.items placing.ties.items placing.last.items) }
{
    let start = cut.sound().window_start();
    let floors = vec![in alloc; start; cut.member_count() as usize]?;
    place_all(alloc, cut, order, floors)
}

// No train is placed, and all places are free.
fn nothing_placed(alloc: Global, cut: &FitCut, floors: Vec<i64>) -> Result<Placing, OutOfMemory>
    ensures entries { IfOk result (λ p. p.entries.items ≡ floors.items) }
    ensures ties { IfOk result (λ p. length p.ties.items ≡ member_count cut.now) }
    ensures last { IfOk result (λ p. p.last.items ≡ replicate (place_count cut.now) None) }
{
    let trains = cut.member_count() as usize;
    let places = cut.sound().place_count() as usize;
    Ok(Placing {
        entries: floors,
        ties: vec![in alloc; Tie::Start; trains]?,
        last: vec![in alloc; None; places]?,
    })
}

// Places one train after the other. A train that isn't placed yet has its floor for an entry.
fn place_each(
    cut: &FitCut,
    order: &[u32],
    entries: &mut [i64],
    ties: &mut [Tie],
    last: &mut [Option<Last>],
)
    requires order { IsOrder cut.now order.now }
    requires entries { length entries.old ≡ member_count cut.now }
    requires floors { All IsFloor entries.old }
    requires ties { length ties.old ≡ member_count cut.now }
    requires last { last.old ≡ replicate (place_count cut.now) None }
    ensures placed { ArePlaced cut.now (entry_at entries.old) order.now
        entries.new ties.new last.new }
    ensures least { remaining cut.now ≡ [] → IsLeastFrom cut.now (entry_at entries.old) entries.new }
    ensures ties { ties.new
        ≡ map (tie_from cut.now (entry_at entries.old) entries.new) (members cut.now) }
{
    let sound = cut.sound();
    for train in order {
        place(sound, *train, entries, ties, last);
    }
}

// Places one more train.
fn place(
    cut: &SoundCut,
    train: u32,
    entries: &mut [i64],
    ties: &mut [Tie],
    last: &mut [Option<Last>],
)
    requires there { train < member_count cut.now }
    requires entries { length entries.old ≡ member_count cut.now }
    requires floor { IsNear (entry_at entries.old train) }
    requires ties { length ties.old ≡ member_count cut.now }
    requires places { length last.old ≡ place_count cut.now }
    requires near { All IsNearLast last.old }
    ensures { IsNextPlaced cut.now train (entry_at entries.old train) entries.old ties.old last.old
        entries.new ties.new last.new }
{
    let row = cut.row(train);
    let floor = entries[train as usize];
    let entry = earliest(floor, row, last);
    entries[train as usize] = entry;
    ties[train as usize] = tie(cut, row, floor, entry, last);
    occupy(last, row, train, entry);
}
