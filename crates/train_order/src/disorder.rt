//! Why a cut's trains have no order, found without memory.
ghost use Rattle.std.specs.Prelude.{◌≡◌, ℕ, ◌<◌, ◌≤◌, false, length, Some, IfSome};
ghost use Rattle.plan_model.specs.declared.cut.Cut.{Cut};
ghost use Rattle.plan_model.specs.Members.{member_count};
ghost use Rattle.plan_model.specs.Cut.{IsSoundCut};
ghost use Rattle.train_order.specs.Ordering.{IsDisorder, PrecedeInTurn, IsDisorderBy};
ghost use Rattle.train_order.specs.Sets.{relates};
ghost use Rattle.train_order.specs.Taking.{AreTakenUp};

use crate::found::{Disordered, RingMembers};
use crate::member_set::MemberSet;
use crate::opposite::opposite_members;
use crate::precedence::put_preceded;
use crate::ring::ring_members;
use crate::taking::take_up_all;
use plan_model::{Cut, FitCut, MEMBERS};

/// Why a cut's trains have no order, if they have none. It takes no memory.
///
/// The answer is `Opposite` exactly where two trains are opposite; else `Ring` exactly where trains
/// remain when, again and again, each that no remaining train precedes is taken out; else there is
/// none.
pub fn disorder_of(cut: &Cut) -> Option<Disordered>
    requires sound { IsSoundCut cut.now }
    requires few { member_count cut.now ≤ MEMBERS }
    ensures disorder { IsDisorder cut.now result }
    ensures in_turn { IfSome result (PrecedeInTurn cut.now) }
{
    let mut room = [MemberSet::new(); MEMBERS];
    let cut = FitCut::of(cut);
    let count = cut.member_count() as usize;
    disorder_by(&cut, &mut room[..count])
}

// Why a cut's trains have no order, if they have none. There is an empty set for each member.
fn disorder_by(cut: &FitCut, sets: &mut [MemberSet]) -> Option<Disordered>
    requires count { length sets.old ≡ member_count cut.now }
    requires none { (i j : ℕ) → j < length sets.old → relates sets.old i j ≡ false }
    ensures disorder { IsDisorder cut.now result }
    ensures in_turn { IfSome result (PrecedeInTurn cut.now) }
{
    put_preceded(cut, sets);
    let taken = take_up_all(sets);
    if taken.len() == sets.len() {
        return None;
    }
    Some(find_disorder(sets, taken.slice()))
}

// Which members have no order, where not all are taken up.
pub(crate) fn find_disorder(sets: &[MemberSet], taken: &[u32]) -> Disordered
    requires few { length sets.now ≤ MEMBERS }
    requires taken { AreTakenUp sets.now taken.now }
    requires some { length taken.now < length sets.now }
    ensures { IsDisorderBy sets.now taken.now result }
{
    if let Some((i, j)) = opposite_members(sets) {
        return Disordered::Opposite(i as u32, j as u32);
    }
    Disordered::Ring(RingMembers::new(ring_members(sets, taken)))
}
