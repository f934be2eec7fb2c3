//! A cut's members in the order in which they enter the section, and the last start at each place
//! along an order.
ghost use Rattle.std.specs.Prelude.{◌≡◌, ◌<◌, All, IsTrue, length, map, IfOk};
ghost use Rattle.std.specs.List.Sorted.{IsPermutation};
ghost use Rattle.plan_model.specs.Members.{members};
ghost use Rattle.train_order.specs.Visits.{is_earlier};
ghost use Rattle.train_order.specs.EntryOrder.{pair_of};
ghost use Rattle.train_order.specs.OutOfTurn.{ComesLast, Rise};

use plan_model::SoundCut;
use rail_model::{OutOfMemory, Use};
use std::alloc::Global;

// A member's entry, or its start at a place.
#[derive(Clone, Copy)]
pub(crate) struct Moment {
    // Seconds from the timetable's origin.
    pub(crate) time: i64,
    // The member's position.
    pub(crate) member: u32,
}

// The positions of the members by their entries and, at one moment, by their names. It is only a
// guess at their order, so the contract says no more than that each is there once.
pub(crate) fn by_entry(alloc: Global, cut: &SoundCut) -> Result<Vec<u32>, OutOfMemory>
    ensures { IfOk result (λ positions. IsPermutation (members cut.now) positions.items) }
{
    let mut entries = entries(alloc, cut)?;
    entries.sort_unstable_by_key(|entry| (entry.time, entry.member));
    members_of(alloc, &entries)
}

// The entry of each member.
fn entries(alloc: Global, cut: &SoundCut) -> Result<Vec<Moment>, OutOfMemory>
    ensures { IfOk result (λ entries. map (λ m. m.member) entries.items ≡ members cut.now) }
{
    let mut entries = Vec::with_capacity(alloc, cut.member_count() as usize)?;
    for member in 0..cut.member_count() {
        let time = cut.row(member).entry;
        entries.push(Moment { time, member })?;
    }
    Ok(entries)
}

fn members_of(alloc: Global, moments: &[Moment]) -> Result<Vec<u32>, OutOfMemory>
    ensures { IfOk result (λ members. members.items ≡ map (λ m. m.member) moments.now) }
{
    let mut members = Vec::with_capacity(alloc, moments.len())?;
    for moment in moments {
        members.push(moment.member)?;
    }
    Ok(members)
}

// Whether a member's starts by some uses come after the last ones of their places. They are the
// last ones from then on, up to the first that doesn't. `false` says nothing: the member is then
// taken for one out of turn.
pub(crate) fn come_last(last: &mut [Moment], member: u32, uses: &[Use]) -> bool
    requires { All (λ u. u.block < length last.old) uses.now }
    ensures count { length last.new ≡ length last.old }
    ensures rise { Rise last.old last.new }
    ensures last { IsTrue result → ComesLast last.old last.new member uses.now }
{
    for one in uses {
        let time = one.start;
        let place = one.block as usize;
        if !comes_after(time, member, last[place]) {
            return false;
        }
        last[place] = Moment { time, member };
    }
    true
}

// Whether a moment comes after another. At one moment the names decide, and members stand in the
// order of their names.
fn comes_after(time: i64, member: u32, last: Moment) -> bool
    ensures { result ≡ is_earlier (pair_of last) (time, member) }
{
    last.time < time || last.time == time && last.member < member
}
