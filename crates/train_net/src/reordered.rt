//! The order of a later cut: kept members as they stood before, and fresh ones by their entries.
ghost use Rattle.std.specs.Prelude.{◌≡◌, ℕ, ◌<◌, ◌≤◌, length, map, IfOk, IfSome, IsTrue, None, slice_index, slice_index_or};
ghost use Rattle.std.specs.List.Sorted.{IsPermutation};
ghost use Rattle.plan_model.specs.Members.{members, member_count};
ghost use Rattle.train_net.specs.Mended.{AgreeInOrder, stood};
ghost use Rattle.train_net.specs.Mending.{StandsFrom};

use plan_model::{CutRow, SoundCut};
use rail_model::OutOfMemory;
use std::alloc::Global;

// Where a member is to stand.
#[derive(Clone, Copy)]
pub(crate) struct Stand {
    // Twice the place in the order of before, and one more for who stood there: a fresh member is
    // put before the one of this place.
    slot: u64,
    // For members of one slot: the planned entry, in seconds from the timetable's origin.
    entry: i64,
    // The member's position.
    member: u32,
}

// An order of a later cut's members, if kept members stand in it as they stood before. `now` has
// the present position of each member of before that is kept. `None` says nothing: the net is made
// from all uses.
pub(crate) fn reorder(
    alloc: Global,
    cut: &SoundCut,
    before: &[u32],
    origin: &[Option<u32>],
    now: &[Option<u32>],
) -> Result<Option<Vec<u32>>, OutOfMemory>
    requires count { length origin.now ≡ member_count cut.now }
    ensures once { IfOk result (λ r. IfSome r (λ order.
        IsPermutation (members cut.now) order.items)) }
    ensures agree { IfOk result (λ r. IfSome r (λ order.
        AgreeInOrder origin.now before.now order.items)) }
{
    let mut stands = stands(alloc, cut, before, origin, now)?;
    stands.sort_unstable_by_key(|stand| (stand.slot, stand.entry, stand.member));
    let order = members_of(alloc, &stands)?;
    if !agrees(&order, before, origin) {
        return Ok(None);
    }
    Ok(Some(order))
}

// Where each member is to stand.
fn stands(
    alloc: Global,
    cut: &SoundCut,
    before: &[u32],
    origin: &[Option<u32>],
    now: &[Option<u32>],
) -> Result<Vec<Stand>, OutOfMemory>
    requires count { length origin.now ≡ member_count cut.now }
    ensures { IfOk result (λ stands. map (λ s. s.member) stands.items ≡ members cut.now) }
{
    let places = places_in(alloc, before, now.len())?;
    let mut stands = Vec::with_capacity(alloc, cut.member_count() as usize)?;
    for member in 0..cut.member_count() {
        let entry = cut.row(member).entry;
        let slot = match origin[member as usize] {
            Some(old) => slot_kept(&places, old),
            None => slot_by_entry(cut, before, now, entry),
        };
        stands.push(Stand {
            slot,
            entry,
            member,
        })?;
    }
    Ok(stands)
}

// By the members' positions, the place at which each stands in the order, and 0 for one that
// doesn't. No clause says so, nor which slot a member gets below: the order that comes of it is
// looked at by `agrees`.
fn places_in(alloc: Global, before: &[u32], count: usize) -> Result<Vec<u64>, OutOfMemory> {
    let mut places = vec![in alloc; 0u64; count]?;
    for (place, member) in before.iter().enumerate() {
        let at = *member as usize;
        if at < places.len() {
            places[at] = place as u64;
        }
    }
    Ok(places)
}

// Where a kept member is to stand.
fn slot_kept(places: &[u64], old: u32) -> u64 {
    let old = old as usize;
    if old < places.len() {
        places[old].saturating_mul(2).saturating_add(1)
    } else {
        u64::MAX
    }
}

// Where a fresh member is to stand: before the first kept one that enters later.
fn slot_by_entry(cut: &SoundCut, before: &[u32], now: &[Option<u32>], entry: i64) -> u64 {
    for (place, member) in before.iter().enumerate() {
        if enters_later(cut, now, *member, entry) {
            return (place as u64).saturating_mul(2);
        }
    }
    u64::MAX
}

// Whether a member of before is kept, and enters later than at a moment.
fn enters_later(cut: &SoundCut, now: &[Option<u32>], member: u32, entry: i64) -> bool {
    match position_of(now, member) {
        Some(position) => position < cut.member_count() && cut.row(position).entry > entry,
        None => false,
    }
}

fn members_of(alloc: Global, stands: &[Stand]) -> Result<Vec<u32>, OutOfMemory>
    ensures { IfOk result (λ members. members.items ≡ map (λ s. s.member) stands.now) }
{
    let mut members = Vec::with_capacity(alloc, stands.len())?;
    for stand in stands {
        members.push(stand.member)?;
    }
    Ok(members)
}

// Whether kept members stand in an order as they stood before. Both orders are gone through side by
// side. `false` says nothing.
fn agrees(order: &[u32], before: &[u32], origin: &[Option<u32>]) -> bool
    ensures { IsTrue result → AgreeInOrder origin.now before.now order.now }
{
    let mut from = 0;
    for member in order {
        match next_from(before, from, origin, *member) {
            Some(next) => from = next,
            None => return false,
        }
    }
    true
}

// Where to look on in the earlier order, after a member of the later one: behind the place at which
// the member stood, or at the same place if it is fresh. `None`, as where the member stood before
// that place, says nothing.
fn next_from(before: &[u32], from: usize, origin: &[Option<u32>], member: u32) -> Option<usize>
    requires { from ≤ length before.now }
    ensures within { IfSome result (λ next. (from ≤ next) × (next ≤ length before.now)) }
    ensures stands { IfSome result (λ next. (old : ℕ) → stood origin.now member ≡ Some old
        → StandsFrom before.now old from next) }
{
    match position_of(origin, member) {
        Some(old) => match find_from(before, from, old) {
            Some(place) => Some(place + 1),
            None => None,
        },
        None => Some(from),
    }
}

// The position that a list has for a member, if it has one.
pub(crate) fn position_of(positions: &[Option<u32>], member: u32) -> Option<u32>
    ensures { result ≡ slice_index_or positions.now member None }
{
    let at = member as usize;
    if at < positions.len() {
        positions[at]
    } else {
        None
    }
}

// The first place from one on at which a member stands. `None` says nothing.
pub(crate) fn find_from(before: &[u32], from: usize, member: u32) -> Option<usize>
    requires { from ≤ length before.now }
    ensures { IfSome result (λ place. (from ≤ place) × (place < length before.now)
        × (slice_index before.now place ≡ member)) }
{
    for place in from..before.len() {
        if before[place] == member {
            return Some(place);
        }
    }
    None
}
