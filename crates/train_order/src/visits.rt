//! Who visits each place of a cut, and when.
ghost use Rattle.std.specs.Prelude.{◌≡◌, ◌<◌, ◌≤◌, All, [], take, length, replicate, IfOk, OnOk};
ghost use Rattle.std.specs.List.Sorted.{IsPermutation, IsSortedByKey};
ghost use Rattle.plan_model.specs.Cut.{IsSoundCut};
ghost use Rattle.plan_model.specs.Members.{place_count, member_count};
ghost use Rattle.train_order.specs.Visits.{IsLasting, HasMore, AreVisits, AreInTurn, key_of, key_cmp, visits, visit_of as visit_by_use};

use plan_model::SoundCut;
use rail_model::{List, OutOfMemory, Use};
use std::alloc::Global;

/// A member's visit of a place: its use of it.
#[derive(Clone, Copy)]
pub struct Visit {
    /// When it starts: seconds from the timetable's origin.
    pub start: i64,
    /// How long it lasts: seconds.
    pub lasts_s: u32,
    /// The member's position.
    pub member: u32,
}

/// Puts the visits of a place at the front of `room`, in the order of precedence, and says how many
/// there are. It takes no memory.
pub fn visits_at(cut: &SoundCut, place: u32, room: &mut [Visit]) -> usize
    requires { member_count cut.now ≤ length room.old }
    ensures room { length room.new ≡ length room.old }
    ensures within { result ≤ length room.new }
    ensures visits { AreInTurn cut.now place (take result room.new) }
    ensures sound { IsSoundCut cut.now }
{
    let count = gather(cut, place, room);
    put_in_order(&mut room[..count]);
    count
}

// Puts visits in the order of precedence.
pub(crate) fn put_in_order(visits: &mut [Visit])
    ensures same { IsPermutation visits.old visits.new }
    ensures order { IsSortedByKey key_of key_cmp visits.new }
{
    visits.sort_unstable_by_key(|visit| (visit.start, visit.member));
}

// Gathers the visits of a place in front of `room`, and says how many there are.
fn gather(cut: &SoundCut, place: u32, room: &mut [Visit]) -> usize
    requires { member_count cut.now ≤ length room.old }
    ensures room { length room.new ≡ length room.old }
    ensures within { result ≤ length room.new }
    ensures visits { take result room.new ≡ visits cut.now place }
    ensures sound { IsSoundCut cut.now }
{
    let mut count = 0;
    for i in 0..cut.member_count() {
        if let Some(one) = cut.use_at(i, place) {
            room[count] = visit_of(i, one);
            count += 1;
        }
    }
    count
}

// A member's visit by a use.
fn visit_of(member: u32, one: Use) -> Visit
    requires { IsLasting one }
    ensures { result ≡ visit_by_use member one }
{
    Visit {
        start: one.start,
        lasts_s: (one.end - one.start) as u32,
        member,
    }
}

// The visits of each place.
pub(crate) fn visits_by_place(
    alloc: Global,
    cut: &SoundCut,
) -> Result<Vec<List<Visit>>, OutOfMemory>
    ensures { IfOk result (λ lists.
        AreVisits cut.now (member_count cut.now) (place_count cut.now) lists.items) }
{
    let mut lists = empty_lists(alloc, cut.place_count(), mean_visits(cut))?;
    for i in 0..cut.member_count() {
        add_visits(&mut lists, i, cut.row(i).uses.slice())?;
    }
    Ok(lists)
}

// The mean number of visits of a place: for so many a list has room at first. No clause says so.
fn mean_visits(cut: &SoundCut) -> usize {
    let mut all = 0_usize;
    for row in cut.rows() {
        all = all.saturating_add(row.uses.len());
    }
    all / (cut.place_count() as usize).max(1)
}

// So many empty lists, each with room for so many visits.
fn empty_lists(alloc: Global, count: u32, room: usize) -> Result<Vec<List<Visit>>, OutOfMemory>
    ensures { IfOk result (λ lists. lists.items ≡ replicate count []) }
{
    let mut lists = Vec::with_capacity(alloc, count as usize)?;
    for _ in 0..count {
        lists.push(List::from_vec(Vec::with_capacity(alloc, room)?))?;
    }
    Ok(lists)
}

// Adds the visits of a member by its uses.
fn add_visits(lists: &mut Vec<List<Visit>>, member: u32, uses: &[Use]) -> Result<(), OutOfMemory>
    requires there { All (λ u. u.block < length lists.old.items) uses.now }
    requires lasting { All IsLasting uses.now }
    ensures { OnOk result (HasMore lists.old.items lists.new.items member uses.now) }
{
    for one in uses {
        lists[one.block as usize].push(visit_of(member, *one))?;
    }
    Ok(())
}
