//! Whether the trains of a plan keep a place one after the other, in the order of precedence.
ghost use Rattle.std.specs.Prelude.{◌≡◌, ℕ, ◌+◌, ◌<◌, ◌↔◌, All, IsTrue, length};
ghost use Rattle.plan_model.specs.Cut.{IsBounded, IsSoundCut};
ghost use Rattle.plan_model.specs.Members.{member_count, place_count};
ghost use Rattle.train_order.specs.Visits.{AreInTurn};
ghost use Rattle.critical_chain.specs.Parts as parts;

use crate::moved::{end_of, start_of};
use plan_model::{FitCut, MEMBERS, PlacedList, Tie};
use train_order::{Visit, visits_at};

// Whether each train ends its use of a place by the time that the next starts there and, where it
// ends just then, does not come before the next train's tie, by name.
pub(crate) fn keeps_place(cut: &FitCut, entries: &[i64], placed: &PlacedList, place: u32) -> bool
    requires entries { length entries.now ≡ member_count cut.now }
    requires bounded { All IsBounded entries.now }
    requires placed { length placed.now ≡ member_count cut.now }
    requires ties { parts.HaveTies cut.now entries.now placed.now }
    requires place { place < place_count cut.now }
    ensures { IsTrue result ↔ parts.KeepsPlace cut.now entries.now placed.now place }
{
    let nothing = Visit {
        start: 0,
        lasts_s: 0,
        member: 0,
    };
    let mut room = [nothing; MEMBERS];
    let count = visits_at(cut.sound(), place, &mut room);
    follow_in_turn(cut, entries, placed, place, &room[..count])
}

// Whether each visit may follow the one before it.
fn follow_in_turn(
    cut: &FitCut,
    entries: &[i64],
    placed: &PlacedList,
    place: u32,
    visits: &[Visit],
) -> bool
    requires sound { IsSoundCut cut.now }
    requires entries { length entries.now ≡ member_count cut.now }
    requires bounded { All IsBounded entries.now }
    requires placed { length placed.now ≡ member_count cut.now }
    requires ties { All (λ p. parts.IsWithin cut.now p.tie) placed.now }
    requires place { place < place_count cut.now }
    requires visits { AreInTurn cut.now place visits.now }
    ensures { IsTrue result
        ↔ parts.FollowInTurn cut.now entries.now placed.now place visits.now }
{
    for k in 1..visits.len() {
        let visit = visits[k - 1];
        let next = visits[k];
        let until = end_of(cut, entries, visit);
        let from = start_of(cut, entries, next);
        let tie = placed.tie(next.member as usize);
        if !may_follow(cut, until, from, (visit.member, place), tie) {
            return false;
        }
    }
    true
}

// Whether a train may start its use of a place at `from`, where the train before it ends its use at
// `until`. It may at a later moment. At the same moment the two touch: then the pair `before`,
// which is the train before and the place, must not come ahead of the later train's `tie` by name,
// since the tie is the first of all that the train touches.
fn may_follow(cut: &FitCut, until: i64, from: i64, before: (u32, u32), tie: Tie) -> bool
    requires place { before.1 < place_count cut.now }
    requires tie { parts.IsWithin cut.now tie }
    ensures { IsTrue result ↔ parts.Follows cut.now until from before.0 before.1 tie }
{
    until < from || until == from && !comes_first(cut, before, tie)
}

// Whether a member and a place come, by name, before those that a tie names.
fn comes_first(cut: &FitCut, before: (u32, u32), tie: Tie) -> bool
    requires place { before.1 < place_count cut.now }
    requires tie { parts.IsWithin cut.now tie }
    ensures { result ≡ parts.comes_first cut.now before.0 before.1 tie }
{
    match tie {
        Tie::Start => false,
        Tie::After { train, block } => cut.sound().comes_first(before, (train, block)),
    }
}
