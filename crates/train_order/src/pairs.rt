//! The least opposite pair where few members are apart, or where it has one of the first members.
//! Each of these is compared with all others: its starts, by the places, beside their uses.
ghost use Rattle.std.specs.Prelude.{◌≡◌, ◌<◌, ◌≤◌, ◌<ℤ◌, ◌↔◌, ℕ, All, IsTrue, length, IfOk, IfSome, None, Some, slice_index_or};
ghost use Rattle.std.specs.List.{list_any};
ghost use Rattle.plan_model.specs.declared.limits.TheConstants.{MEMBERS};
ghost use Rattle.plan_model.specs.Cut.{AreOfOtherPlaces};
ghost use Rattle.plan_model.specs.Disorder.{are_opposite, opposite_pair};
ghost use Rattle.plan_model.specs.Members.{member_count};
ghost use Rattle.train_order.specs.Starts.{starts_first, start_of};
ghost use Rattle.train_order.specs.OutOfTurn.{AreApart, AreFrom, AreStarts, leads_at, trails_at};
ghost use Rattle.train_order.specs.Pairs as pairs;
ghost use Rattle.train_order.specs.Pairs.{IsFirstOpposite};

use crate::member_set::MemberSet;
use plan_model::SoundCut;
use rail_model::{OutOfMemory, Use};
use std::alloc::Global;

// At most so many of the first members are compared with all others where many are apart: mostly
// one of them is opposite to another.
const FIRST_MEMBERS: u32 = 4;

// And no more than one in so many members, rounded up: to compare more takes as long as sets of
// all members.
const MEMBERS_PER_TRY: u32 = 64;

// The least opposite pair, the lesser member first, where no two members are opposite that aren't
// apart.
pub(crate) fn first_pair(
    alloc: Global,
    cut: &SoundCut,
    apart: &MemberSet,
) -> Result<Option<(u32, u32)>, OutOfMemory>
    requires few { member_count cut.now ≤ MEMBERS }
    requires apart { AreApart cut.now apart.now.words }
    ensures { IfOk result (λ found. found ≡ opposite_pair cut.now) }
{
    let count = cut.member_count() as usize;
    let mut least = None;
    let mut i = apart.next(0);
    while i < count {
        let (starts, first) = starts_of(alloc, cut, i as u32)?;
        let other = first_opposite(cut, &starts, first, i as u32);
        least = least_with(least, i as u32, other);
        i = apart.next(i + 1);
    }
    Ok(least)
}

// How many of the first members are compared with all others. No clause says how many: where no
// pair is found, sets follow.
fn tries_among(cut: &SoundCut) -> u32 {
    FIRST_MEMBERS.min(cut.member_count().div_ceil(MEMBERS_PER_TRY))
}

// The least opposite pair, if it has one of the first members. `None` says nothing.
pub(crate) fn pair_of_first(
    alloc: Global,
    cut: &SoundCut,
) -> Result<Option<(u32, u32)>, OutOfMemory>
    ensures { IfOk result (λ found. IfSome found (λ pair. opposite_pair cut.now ≡ Some pair)) }
{
    for i in 0..cut.member_count().min(tries_among(cut)) {
        let (starts, first) = starts_of(alloc, cut, i)?;
        if let Some(j) = first_opposite(cut, &starts, first, i) {
            return Ok(Some((i, j)));
        }
    }
    Ok(None)
}

// The first member that is opposite to member i, which has these starts, from the first moment on.
fn first_opposite(cut: &SoundCut, starts: &[Option<i64>], first: i64, i: u32) -> Option<u32>
    requires there { i < member_count cut.now }
    requires starts { AreStarts cut.now i starts.now first }
    ensures { IsFirstOpposite cut.now i result }
{
    for j in 0..cut.member_count() {
        if is_opposite(cut, starts, first, i, j) {
            return Some(j);
        }
    }
    None
}

// Whether member i, with its starts, is opposite to member j.
fn is_opposite(cut: &SoundCut, starts: &[Option<i64>], first: i64, i: u32, j: u32) -> bool
    requires one { i < member_count cut.now }
    requires other { j < member_count cut.now }
    requires starts { AreStarts cut.now i starts.now first }
    ensures { result ≡ are_opposite cut.now i j }
{
    let uses = cut.row(j).uses.slice();
    // Mostly the other is far ahead, and its starts alone show it.
    if are_before(uses, first) {
        return false;
    }
    leads_somewhere(starts, i < j, uses) && trails_somewhere(starts, j < i, uses)
}

// Whether all uses start before a moment.
fn are_before(uses: &[Use], moment: i64) -> bool
    ensures { IsTrue result ↔ All (λ u. u.start <ℤ moment) uses.now }
{
    uses.iter().all(|one| one.start < moment)
}

// Whether the member with these starts precedes that with these uses somewhere. At one moment it
// does where it is named before it.
fn leads_somewhere(starts: &[Option<i64>], named: bool, uses: &[Use]) -> bool
    requires { All (λ u. u.block < length starts.now) uses.now }
    ensures { result ≡ list_any (leads_at named starts.now) uses.now }
{
    uses.iter().any(|one| comes_first(named, starts[one.block as usize], Some(one.start)))
}

// Whether the member with these uses precedes that with these starts somewhere. At one moment it
// does where it is named before it.
fn trails_somewhere(starts: &[Option<i64>], named: bool, uses: &[Use]) -> bool
    requires { All (λ u. u.block < length starts.now) uses.now }
    ensures { result ≡ list_any (trails_at named starts.now) uses.now }
{
    uses.iter().any(|one| comes_first(named, Some(one.start), starts[one.block as usize]))
}

// Whether there are two starts, and the first is the earlier or, at one moment, is named before.
fn comes_first(named: bool, one: Option<i64>, other: Option<i64>) -> bool
    ensures { result ≡ starts_first named one other }
{
    match one {
        Some(one) => match other {
            Some(other) => one < other || one == other && named,
            None => false,
        },
        None => false,
    }
}

// The start of a member at each place, if it uses it, and a moment before which none is.
fn starts_of(alloc: Global, cut: &SoundCut, i: u32) -> Result<(Vec<Option<i64>>, i64), OutOfMemory>
    requires { i < member_count cut.now }
    ensures { IfOk result (λ both. AreStarts cut.now i both.0.items both.1) }
{
    let mut starts = vec![in alloc; None; cut.place_count() as usize]?;
    let first = put_starts(&mut starts, cut.row(i).uses.slice());
    Ok((starts, first))
}

// Puts the starts of some uses into the table, which is empty. Gives a moment before which none is.
fn put_starts(starts: &mut [Option<i64>], uses: &[Use]) -> i64
    requires there { All (λ u. u.block < length starts.old) uses.now }
    requires differ { AreOfOtherPlaces uses.now }
    requires none { (place : ℕ) → slice_index_or starts.old place None ≡ None }
    ensures count { length starts.new ≡ length starts.old }
    ensures each { (place : ℕ) → slice_index_or starts.new place None ≡ start_of uses.now place }
    ensures from { AreFrom result starts.new }
{
    let mut first = i64::MAX;
    for one in uses {
        starts[one.block as usize] = Some(one.start);
        first = first.min(one.start);
    }
    first
}

// The pair so far; or that of a member and another, if there is one and its first is lesser.
fn least_with(least: Option<(u32, u32)>, i: u32, other: Option<u32>) -> Option<(u32, u32)>
    ensures { result ≡ pairs.least_with least i other }
{
    match other {
        Some(j) => lesser(least, pair_with(i, j)),
        None => least,
    }
}

// The pair so far, or one whose first is lesser.
fn lesser(least: Option<(u32, u32)>, pair: (u32, u32)) -> Option<(u32, u32)>
    ensures { result ≡ pairs.lesser least pair }
{
    match least {
        Some(other) => Some(if pair.0 < other.0 { pair } else { other }),
        None => Some(pair),
    }
}

// Two members as a pair, the lesser first.
fn pair_with(i: u32, j: u32) -> (u32, u32)
    ensures { result ≡ pairs.pair_with i j }
{
    if j < i { (j, i) } else { (i, j) }
}
