//! Delays spread over the planned timetable.
ghost use Rattle.std.specs.Prelude.{◌≡◌, ℕ, ◌^◌, ◌<◌, ◌≤◌, ◌+ℤ◌, pos, IfOk, All, [], length, map};
ghost use Rattle.plan_model.specs.declared.limits.TheConstants.{MEMBERS};
ghost use Rattle.plan_model.specs.Cut.{IsSoundCut};
ghost use Rattle.plan_model.specs.Members.{member, member_count, members};
ghost use Rattle.plan_model.specs.Disorder.{remaining};
ghost use Rattle.plan_model.specs.Schedule.{tie_from};
ghost use Rattle.train_order.specs.Ordering.{IsOrder};
ghost use Rattle.delay_spread.specs.declared.spreading.TheConstants.{GREATEST_DELAY_S};
ghost use Rattle.delay_spread.specs.Spreading.{delayed_floor, knock_on, IsSpread, IsSpreading, held_at, spread_by};

use crate::found::{Held, Spread};
use crate::knock_on::{late, sum};
use plan_model::{Cut, Disorder, FitCut, SoundCut, Tie};
use rail_model::{List, OutOfMemory};
use std::alloc::Global;
use train_order::order;
use train_placing::place_all;

/// The greatest delay that is spread: seconds.
pub const GREATEST_DELAY_S: u32 = 86_400;

/// Delays spread over the planned timetable of a cut: each train enters as early as its planned
/// entry and its own delay allow and the trains that precede it at some place.
///
/// There is a delay for each row, in seconds, 0 where a train isn't delayed. The answer is the
/// cut's disorder exactly where there is one.
pub fn spread(
    alloc: Global,
    cut: &Cut,
    delays: &[u32],
) -> Result<Result<Spread, Disorder>, OutOfMemory>
    requires sound { IsSoundCut cut.now }
    requires few { member_count cut.now ≤ MEMBERS }
    requires count { length delays.now ≡ member_count cut.now }
    requires limit { All (λ d. d ≤ GREATEST_DELAY_S) delays.now }
    ensures { IfOk result (IsSpreading cut.now delays.now) }
{
    match order(alloc, cut)? {
        Ok(found) => {
            let fit = FitCut::of(cut);
            Ok(Ok(spread_in(alloc, &fit, found.positions.slice(), delays)?))
        }
        Err(disorder) => Ok(Err(disorder)),
    }
}

// Delays spread over the planned timetable of a cut whose trains have this order.
fn spread_in(
    alloc: Global,
    cut: &FitCut,
    order: &[u32],
    delays: &[u32],
) -> Result<Spread, OutOfMemory>
    requires none { remaining cut.now ≡ [] }
    requires order { IsOrder cut.now order.now }
    requires count { length delays.now ≡ member_count cut.now }
    requires limit { All (λ d. d ≤ GREATEST_DELAY_S) delays.now }
    ensures { IfOk result (IsSpread cut.now delays.now) }
{
    let floors = floors(alloc, cut.sound(), delays)?;
    let placing = place_all(alloc, cut, order, floors)?;
    spread_of_placed(alloc, cut, delays, &placing.entries, &placing.ties)
}

// Delays that are spread, where the trains are placed from their floors.
fn spread_of_placed(
    alloc: Global,
    cut: &FitCut,
    delays: &[u32],
    entries: &[i64],
    ties: &[Tie],
) -> Result<Spread, OutOfMemory>
    requires delays { length delays.now ≡ member_count cut.now }
    requires entries { length entries.now ≡ member_count cut.now }
    requires ties { ties.now
        ≡ map (tie_from cut.now (delayed_floor cut.now delays.now) entries.now) (members cut.now) }
    requires small { (i : ℕ) → i < member_count cut.now
        → knock_on cut.now delays.now entries.now i ≤ 2 ^ 51 }
    ensures { IfOk result (λ spread. spread ≡ spread_by cut.now delays.now entries.now) }
{
    let sound = cut.sound();
    Ok(Spread {
        held: held(alloc, sound, delays, entries, ties)?,
        late: late(sound, delays, entries),
        sum: sum(cut, delays, entries),
    })
}

// The floor of each train, before which it can't enter: its planned entry and its own delay.
fn floors(alloc: Global, cut: &SoundCut, delays: &[u32]) -> Result<Vec<i64>, OutOfMemory>
    requires count { length delays.now ≡ member_count cut.now }
    requires limit { All (λ d. d ≤ GREATEST_DELAY_S) delays.now }
    ensures { IfOk result (λ floors. floors.items
        ≡ map (delayed_floor cut.now delays.now) (members cut.now)) }
{
    let mut floors = Vec::new(alloc);
    for i in 0..cut.member_count() {
        floors.push(floor(cut, i, delays[i as usize]))?;
    }
    Ok(floors)
}

fn floor(cut: &SoundCut, i: u32, delay: u32) -> i64
    requires { i < member_count cut.now }
    ensures { result ≡ (member cut.now i).entry +ℤ pos delay }
{
    cut.row(i).entry + i64::from(delay)
}

// The trains with their delays, entries and ties.
fn held(
    alloc: Global,
    cut: &SoundCut,
    delays: &[u32],
    entries: &[i64],
    ties: &[Tie],
) -> Result<List<Held>, OutOfMemory>
    requires delays { length delays.now ≡ member_count cut.now }
    requires entries { length entries.now ≡ member_count cut.now }
    requires ties { ties.now
        ≡ map (tie_from cut.now (delayed_floor cut.now delays.now) entries.now) (members cut.now) }
    ensures { IfOk result (λ held. held
        ≡ map (held_at cut.now delays.now entries.now) (members cut.now)) }
{
    let mut held = List::new(alloc);
    for i in 0..cut.member_count() {
        let at = i as usize;
        held.push(held_at(cut, i, delays[at], entries[at], ties[at]))?;
    }
    Ok(held)
}

fn held_at(cut: &SoundCut, i: u32, delay: u32, entry: i64, tie: Tie) -> Held
    requires { i < member_count cut.now }
    ensures { result ≡ record {
      train = (member cut.now i).name;
      delay = delay;
      entry = entry;
      tie = tie;
    } }
{
    Held {
        train: cut.row(i).name,
        delay,
        entry,
        tie,
    }
}
