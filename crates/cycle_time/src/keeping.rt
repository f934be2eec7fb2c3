//! Whether entries repeat in a period.
ghost use Rattle.std.specs.Prelude.{◌≡◌, ◌+ℤ◌, ◌≤ℤ◌, ◌<◌, ◌↔◌, All, IsTrue, length};
ghost use Rattle.plan_model.specs.Cut.{IsSoundCut};
ghost use Rattle.plan_model.specs.Members.{member_count, place_count};
ghost use Rattle.plan_model.specs.Schedule.{entry_at};
ghost use Rattle.train_order.specs.Visits.{AreInTurn};
ghost use Rattle.cycle_time.specs.Demands.{Keeps, KeepsPlace, asks};
ghost use Rattle.cycle_time.specs.Laying as given;
ghost use Rattle.cycle_time.specs.Laying.{AreTurns};
ghost use Rattle.cycle_time.specs.Checking.{KeepPlaces, KeepAll, KeepInTurn};
ghost use Rattle.cycle_time.specs.Cycle.{IsRepeating};

use crate::demand::{Demand, demand_of};
use plan_model::{FitCut, MEMBERS, SoundCut};
use train_order::{Visit, visits_at};

// Whether entries repeat in a period.
pub(crate) fn repeats(cut: &FitCut, period: u64, entries: &[i64]) -> bool
    requires { IsSoundCut cut.now }
    ensures { IsTrue result ↔ IsRepeating cut.now period entries.now }
{
    keeps_all(cut, period, entries)
}

// Whether there is an entry for each train, none before the window, and they keep all places.
fn keeps_all(cut: &FitCut, period: u64, entries: &[i64]) -> bool
    ensures { IsTrue result ↔ KeepAll cut.now period entries.now }
{
    entries.len() == cut.member_count() as usize
        && none_before(cut.sound().window_start(), entries)
        && keeps_places(cut, period, entries)
}

// Whether no train enters before a moment.
fn none_before(start: i64, entries: &[i64]) -> bool
    ensures { IsTrue result ↔ All (λ x. start ≤ℤ x) entries.now }
{
    for k in 0..entries.len() {
        if !is_from(entries, k, start) {
            return false;
        }
    }
    true
}

// Whether the train at a position does not enter before a moment.
fn is_from(entries: &[i64], k: usize, start: i64) -> bool
    requires { k < length entries.now }
    ensures { IsTrue result ↔ (start ≤ℤ entry_at entries.now k) }
{
    start <= entries[k]
}

// Whether entries keep all places.
fn keeps_places(cut: &FitCut, period: u64, entries: &[i64]) -> bool
    requires { length entries.now ≡ member_count cut.now }
    ensures { IsTrue result ↔ KeepPlaces cut.now period entries.now }
{
    for place in 0..cut.sound().place_count() {
        if !keeps_place(cut, period, entries, place) {
            return false;
        }
    }
    true
}

// Whether entries keep a place.
fn keeps_place(cut: &FitCut, period: u64, entries: &[i64], place: u32) -> bool
    requires count { length entries.now ≡ member_count cut.now }
    requires place { place < place_count cut.now }
    ensures { IsTrue result ↔ KeepsPlace cut.now period entries.now place }
{
    let nothing = Visit {
        start: 0,
        lasts_s: 0,
        member: 0,
    };
    let mut room = [nothing; MEMBERS];
    let sound = cut.sound();
    let count = visits_at(sound, place, &mut room);
    keeps_visits(sound, period, entries, place, &room[..count])
}

// Whether entries keep a place that has these visits.
fn keeps_visits(cut: &SoundCut, period: u64, entries: &[i64], place: u32, visits: &[Visit]) -> bool
    requires sound { IsSoundCut cut.now }
    requires count { length entries.now ≡ member_count cut.now }
    requires visits { AreInTurn cut.now place visits.now }
    ensures { IsTrue result ↔ KeepsPlace cut.now period entries.now place }
{
    keeps_in_turn(cut, period, entries, place, visits)
}

// Whether each train has left the place before the next one starts, and the last one of a pattern
// before the first one of the next, or as it starts.
fn keeps_in_turn(cut: &SoundCut, period: u64, entries: &[i64], place: u32, visits: &[Visit]) -> bool
    requires count { length entries.now ≡ member_count cut.now }
    requires turns { AreTurns cut.now place visits.now }
    ensures { IsTrue result ↔ KeepInTurn cut.now place visits.now period entries.now }
{
    keeps_turns(cut, period, entries, place, visits)
        && keeps_again(cut, period, entries, place, visits)
}

// Whether each train has left the place before the next one starts, or as it starts.
fn keeps_turns(cut: &SoundCut, period: u64, entries: &[i64], place: u32, visits: &[Visit]) -> bool
    requires count { length entries.now ≡ member_count cut.now }
    requires turns { AreTurns cut.now place visits.now }
    ensures { IsTrue result
        ↔ given.KeepTurns cut.now place visits.now (length visits.now) period entries.now }
{
    for k in 1..visits.len() {
        let demand = demand_of(cut, place, visits[k - 1], visits[k], false);
        if !keeps(entries, demand, period) {
            return false;
        }
    }
    true
}

// Whether the last train has left a block before the first of the next pattern starts, or as it
// starts.
fn keeps_again(cut: &SoundCut, period: u64, entries: &[i64], place: u32, visits: &[Visit]) -> bool
    requires count { length entries.now ≡ member_count cut.now }
    requires turns { AreTurns cut.now place visits.now }
    ensures { IsTrue result ↔ given.KeepsAgain cut.now place visits.now period entries.now }
{
    let count = visits.len();
    if place < cut.block_count() && 0 < count {
        let demand = demand_of(cut, place, visits[count - 1], visits[0], true);
        return keeps(entries, demand, period);
    }
    true
}

// Whether entries keep a demand. They may be any numbers.
fn keeps(entries: &[i64], demand: Demand, period: u64) -> bool
    requires one { demand.step.from < length entries.now }
    requires other { demand.step.to < length entries.now }
    ensures { IsTrue result ↔ Keeps period entries.now demand }
{
    let asked = least_entry(entries[demand.step.from as usize], demand, period);
    is_asked(entries[demand.step.to as usize], asked)
}

// When the second train of a demand can enter at the earliest, where the first enters at `entry`.
// It is reckoned in 128 bits, since an entry from elsewhere may be any number.
fn least_entry(entry: i64, demand: Demand, period: u64) -> i128
    ensures is { result ≡ entry +ℤ asks period demand }
{
    if demand.step.next {
        return i128::from(entry) + (i128::from(demand.weight) - i128::from(period));
    }
    i128::from(entry) + i128::from(demand.weight)
}

// Whether an entry is no earlier than a demand asks for.
fn is_asked(entry: i64, asked: i128) -> bool
    ensures { IsTrue result ↔ (asked ≤ℤ entry) }
{
    asked <= i128::from(entry)
}
