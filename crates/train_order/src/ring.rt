//! The ring of the members that remain, where no order takes up all.
ghost use Rattle.std.specs.Prelude.{◌≡◌, ℕ, ◌<◌, ◌≤◌, ◌==◌, All, IsTrue, reverse, drop, length, nat_le, slice_index};
ghost use Rattle.std.specs.List.{list_all, list_any, position_or_len};
ghost use Rattle.plan_model.specs.Disorder as disorder;
ghost use Rattle.train_order.specs.Sets.{holds, relates};
ghost use Rattle.train_order.specs.Taking.{is_among, left_of, left_in, AreTakenUp};
ghost use Rattle.train_order.specs.Walk.{step as step_of, ArePrecededWithin, IsRound, IsNext, IsRingBy};

use crate::member_set::MemberSet;
use crate::members::Members;
use plan_model::MEMBERS;

// The members of the ring in the direction of precedence and from the least on, where not all
// members are taken up.
pub(crate) fn ring_members(sets: &[MemberSet], taken: &[u32]) -> Members
    requires few { length sets.now ≤ MEMBERS }
    requires taken { AreTakenUp sets.now taken.now }
    requires some { length taken.now < length sets.now }
    ensures { IsRingBy sets.now (left_of (length sets.now) taken.now) result }
{
    let gone = set_of(taken);
    let (walk, from) = walk_back(sets, &gone);
    turn_round(walk.slice(), from)
}

fn set_of(members: &[u32]) -> MemberSet
    requires { All (λ k. k < MEMBERS) members.now }
    ensures { (k : ℕ) → holds result.words k ≡ is_among members.now k }
{
    let mut set = MemberSet::new();
    for member in members {
        set.insert(*member as usize);
    }
    set
}

// The walk over the members that aren't gone, each time to one that precedes, until one comes a
// second time; and the position in the walk at which that one came first.
fn walk_back(sets: &[MemberSet], gone: &MemberSet) -> (Members, usize)
    requires few { length sets.now ≤ MEMBERS }
    requires some { 0 < length (left_in (length sets.now) gone.now.words) }
    requires preceded { ArePrecededWithin sets.now (left_in (length sets.now) gone.now.words) }
    ensures { IsRound sets.now (left_in (length sets.now) gone.now.words) result.0 result.1 }
{
    let mut walk = Members::new();
    let mut walked = MemberSet::new();
    let mut next = first_left(sets.len(), gone);
    while !walked.has(next) {
        walked.insert(next);
        walk.push(next as u32);
        next = step(sets, gone, next);
    }
    let from = place_in(walk.slice(), next);
    (walk, from)
}

// The first member that isn't gone.
fn first_left(count: usize, gone: &MemberSet) -> usize
    requires { count ≤ MEMBERS }
    ensures { result ≡ slice_index (left_in count gone.now.words) 0 }
{
    for j in 0..count {
        if !gone.has(j) {
            return j;
        }
    }
    0
}

// The position in a walk at which a member comes first, or the length of the walk.
fn place_in(walk: &[u32], member: usize) -> usize
    ensures { result ≡ position_or_len (λ m. m == member) walk.now }
{
    for (k, other) in walk.iter().enumerate() {
        if *other as usize == member {
            return k;
        }
    }
    walk.len()
}

// The first of the members that aren't gone that precedes member j.
fn step(sets: &[MemberSet], gone: &MemberSet, j: usize) -> usize
    requires few { length sets.now ≤ MEMBERS }
    requires there { j < length sets.now }
    requires preceded { IsTrue (list_any (λ i. relates sets.now i j)
        (left_in (length sets.now) gone.now.words)) }
    ensures { result ≡ step_of sets.now (left_in (length sets.now) gone.now.words) j }
{
    sets[j].first_outside(gone)
}

// The members of a walk from a position on, in the direction of precedence and from the least on.
fn turn_round(walk: &[u32], from: usize) -> Members
    requires few { length walk.now ≤ MEMBERS }
    requires there { from < length walk.now }
    ensures { result ≡ disorder.from_least (reverse (drop from walk.now)) }
{
    let mut members = Members::of(&walk[from..]);
    members.reverse();
    let least = least_place(members.slice());
    members.rotate_left(least);
    members
}

// The position at which the least member comes first.
fn least_place(members: &[u32]) -> usize
    requires { 0 < length members.now }
    ensures within { result < length members.now }
    ensures least { result ≡ position_or_len (λ m. list_all (nat_le m) members.now) members.now }
{
    let mut least = 0;
    for (k, member) in members.iter().enumerate() {
        if *member < members[least] {
            least = k;
        }
    }
    least
}

/// The position after k in a ring of so many members.
pub fn next_place(k: usize, count: usize) -> usize
    requires { k < count }
    ensures within { result < count }
    ensures next { IsNext count k result }
{
    if k + 1 < count { k + 1 } else { 0 }
}
