//! Whether a plan is the compressed timetable of a cut whose trains have an order.
ghost use Rattle.std.specs.Prelude.{◌≡◌, ℕ, ◌<◌, ◌≤◌, ◌↔◌, [], All, IsTrue, length, map, take};
ghost use Rattle.plan_model.specs.Members.{member, member_count, no_member, place_names, place_count};
ghost use Rattle.plan_model.specs.Cut.{IsSoundCut, IsBounded};
ghost use Rattle.plan_model.specs.Disorder.{remaining};
ghost use Rattle.plan_model.specs.Answer as occupied;
ghost use Rattle.critical_chain.specs.Chain.{train_at};
ghost use Rattle.critical_chain.specs.Checked.{IsChecked, entries_of};
ghost use Rattle.critical_chain.specs.Parts as parts;

use crate::keeping::keeps_place;
use crate::last::critical_train;
use crate::touched::has_tie;
use crate::trains::{has_frame, has_trains};
use occupancy_rate::occupancy;
use plan_model::{Cut, FitCut, MEMBERS, PlacedList, Plan};

// Whether a plan is what its entries make of a cut, these are a schedule, and each train whose tie
// is `Start` enters at the window's start.
pub(crate) fn is_checked(cut: &Cut, plan: &Plan) -> bool
    requires sound { IsSoundCut cut.now }
    requires few { member_count cut.now ≤ MEMBERS }
    requires order { remaining cut.now ≡ [] }
    ensures { IsTrue result ↔ IsChecked cut.now plan.now }
{
    has_frame(cut, plan) && has_trains(cut, &plan.placed) && keeps_all(&FitCut::of(cut), plan)
}

// Whether the trains of a plan have their ties, keep all places one after the other, and occupy as
// much as it tells.
fn keeps_all(cut: &FitCut, plan: &Plan) -> bool
    requires trains { parts.HasTrains cut.now plan.now.placed }
    ensures { IsTrue result ↔ parts.KeepsAll cut.now (entries_of plan.now) plan.now }
{
    let placed = &plan.placed;
    let mut room = [0i64; MEMBERS];
    let count = cut.member_count() as usize;
    let entries = &mut room[..count];
    lay_out(entries, placed);
    has_ties(cut, entries, placed)
        && keeps_places(cut, entries, placed)
        && is_occupied(cut, entries, plan)
}

// Puts the entries of a plan's trains into a list, in the order of the trains.
fn lay_out(entries: &mut [i64], placed: &PlacedList)
    requires { length entries.old ≡ length placed.now }
    ensures { entries.new ≡ map (λ p. p.entry) placed.now }
{
    for i in 0..placed.len() {
        entries[i] = placed.get(i).entry;
    }
}

// Whether each train enters at the window's start or is touched, as its tie says.
fn has_ties(cut: &FitCut, entries: &[i64], placed: &PlacedList) -> bool
    requires entries { length entries.now ≡ member_count cut.now }
    requires bounded { All IsBounded entries.now }
    requires placed { length placed.now ≡ member_count cut.now }
    ensures { IsTrue result ↔ parts.HaveTies cut.now entries.now placed.now }
{
    for j in 0..cut.member_count() {
        if !has_tie(cut, entries, j, placed.tie(j as usize)) {
            return false;
        }
    }
    true
}

// Whether the trains keep all places one after the other.
fn keeps_places(cut: &FitCut, entries: &[i64], placed: &PlacedList) -> bool
    requires entries { length entries.now ≡ member_count cut.now }
    requires bounded { All IsBounded entries.now }
    requires placed { length placed.now ≡ member_count cut.now }
    requires ties { parts.HaveTies cut.now entries.now placed.now }
    ensures { IsTrue result ↔ parts.KeepPlaces cut.now entries.now placed.now }
{
    for place in 0..cut.sound().place_count() {
        if !keeps_place(cut, entries, placed, place) {
            return false;
        }
    }
    true
}

// Whether a plan tells how long the busiest block is kept, which it is, and by which train last.
fn is_occupied(cut: &FitCut, entries: &[i64], plan: &Plan) -> bool
    requires entries { length entries.now ≡ member_count cut.now }
    requires bounded { All IsBounded entries.now }
    ensures { IsTrue result ↔ parts.IsOccupied cut.now entries.now plan.now }
{
    let (time, busiest) = occupancy(cut.sound().cut(), entries);
    plan.occupancy == time
        && plan.busiest == busiest
        && plan.critical == critical_train(cut, entries, busiest)
}
