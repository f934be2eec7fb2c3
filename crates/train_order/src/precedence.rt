//! Which members precede which.
ghost use Rattle.std.specs.Prelude.{◌≡◌, ℕ, ◌<◌, ◌≤◌, ◌||◌, false, All, length, IfOk};
ghost use Rattle.std.specs.List.Sorted.{IsPermutation, IsSortedByKey};
ghost use Rattle.plan_model.specs.Members.{place_count, member, member_count, precedes};
ghost use Rattle.plan_model.specs.Cut.{IsSoundCut};
ghost use Rattle.train_order.specs.Sets.{ArePreceded, relates};
ghost use Rattle.train_order.specs.Visits.{AreVisits, key_of, key_cmp, comes_first};

use crate::member_set::MemberSet;
use crate::visits::{Visit, put_in_order, visits_at, visits_by_place};
use plan_model::{Cut, FitCut, MEMBERS};
use rail_model::{List, OutOfMemory};
use std::alloc::Global;

// For each member the set of those that precede it somewhere.
pub(crate) fn precedence_sets(alloc: Global, cut: &FitCut) -> Result<Vec<MemberSet>, OutOfMemory>
    ensures { IfOk result (λ sets. ArePreceded cut.now sets.items) }
{
    let mut lists = visits_by_place(alloc, cut.sound())?;
    let mut sets = empty_sets(alloc, cut.member_count())?;
    put_listed(cut.sound().cut(), &mut lists, &mut sets);
    Ok(sets)
}

// Puts into the empty set of each member those that precede it, by the lists of visits, one for
// each place. Each is let go of when it is read.
fn put_listed(cut: &Cut, lists: &mut Vec<List<Visit>>, sets: &mut [MemberSet])
    requires sound { IsSoundCut cut.now }
    requires few { member_count cut.now ≤ MEMBERS }
    requires lists { AreVisits cut.now (member_count cut.now) (place_count cut.now) lists.old.items }
    requires count { length sets.old ≡ member_count cut.now }
    requires none { (i j : ℕ) → j < length sets.old → relates sets.old i j ≡ false }
    ensures count { length sets.new ≡ length sets.old }
    ensures told { ArePreceded cut.now sets.new }
{
    while let Some(list) = lists.pop() {
        let mut visits = list.into_vec();
        take_in_visits(sets, &mut visits);
    }
}

fn empty_sets(alloc: Global, count: u32) -> Result<Vec<MemberSet>, OutOfMemory>
    ensures count { IfOk result (λ sets. length sets.items ≡ count) }
    ensures none { IfOk result (λ sets. (i j : ℕ) → j < count → relates sets.items i j ≡ false) }
{
    let mut sets = Vec::with_capacity(alloc, count as usize)?;
    for _ in 0..count {
        sets.push(MemberSet::new())?;
    }
    Ok(sets)
}

// Puts into the empty set of each member those that precede it somewhere. It takes no memory.
pub(crate) fn put_preceded(cut: &FitCut, sets: &mut [MemberSet])
    requires count { length sets.old ≡ member_count cut.now }
    requires none { (i j : ℕ) → j < length sets.old → relates sets.old i j ≡ false }
    ensures sets { ArePreceded cut.now sets.new }
    ensures few { length sets.new ≤ MEMBERS }
{
    let mut room = [Visit {
        start: 0,
        lasts_s: 0,
        member: 0,
    }; MEMBERS];
    for place in 0..cut.sound().place_count() {
        put_preceded_at(cut, place, sets, &mut room);
    }
}

// Puts into the set of each member those that precede it at a place; the room is for the visits.
fn put_preceded_at(cut: &FitCut, place: u32, sets: &mut [MemberSet], room: &mut [Visit])
    requires count { length sets.old ≡ member_count cut.now }
    requires room { member_count cut.now ≤ length room.old }
    ensures count { length sets.new ≡ length sets.old }
    ensures sets { (i j : ℕ) → i < member_count cut.now → j < member_count cut.now
        → relates sets.new i j
        ≡ (relates sets.old i j || precedes (member cut.now i) (member cut.now j) place) }
{
    let count = visits_at(cut.sound(), place, room);
    take_in_earlier(sets, &room[..count]);
}

// Puts those that visit a place earlier, by their starts and names, into the set of each visitor.
fn take_in_visits(sets: &mut [MemberSet], visits: &mut [Visit])
    requires few { length sets.old ≤ MEMBERS }
    requires there { All (λ v. v.member < length sets.old) visits.old }
    ensures same { IsPermutation visits.old visits.new }
    ensures order { IsSortedByKey key_of key_cmp visits.new }
    ensures count { length sets.new ≡ length sets.old }
    ensures sets { (i j : ℕ) → relates sets.new i j
        ≡ (relates sets.old i j || comes_first visits.new i j) }
{
    put_in_order(visits);
    take_in_earlier(sets, visits);
}

// Puts those that visit a place earlier into the set of each visitor.
fn take_in_earlier(sets: &mut [MemberSet], visits: &[Visit])
    requires few { length sets.old ≤ MEMBERS }
    requires there { All (λ v. v.member < length sets.old) visits.now }
    ensures count { length sets.new ≡ length sets.old }
    ensures sets { (i j : ℕ) → relates sets.new i j
        ≡ (relates sets.old i j || comes_first visits.now i j) }
{
    let mut earlier = MemberSet::new();
    for visit in visits {
        let member = visit.member as usize;
        sets[member].take_in(&earlier);
        earlier.insert(member);
    }
}
