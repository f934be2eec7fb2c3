//! The members of a cut that are out of turn along an order of all, where they are few. The others
//! keep the order at each place.
ghost use Rattle.std.specs.Prelude.{◌≡◌, ◌⊎◌, ◌<◌, ◌≤◌, All, length, IfOk, IfSome};
ghost use Rattle.std.specs.List.Sorted.{IsPermutation};
ghost use Rattle.plan_model.specs.declared.limits.TheConstants.{MEMBERS};
ghost use Rattle.plan_model.specs.Members.{member_count, members, place_count};
ghost use Rattle.train_order.specs.OutOfTurn.{IsInTurn, IsOutOfTurn, KeepTurn, Rise};

use crate::entry_order::{Moment, come_last};
use crate::member_set::MemberSet;
use plan_model::SoundCut;
use rail_model::{OutOfMemory, Use};
use std::alloc::Global;

// From so many members on that are out of turn, sets of all members take less time.
const FEW: u32 = 8;

// The members that are out of turn along an order, if they are found to be fewer than `FEW`: `None`
// says nothing.
pub(crate) fn out_of_turn(
    alloc: Global,
    cut: &SoundCut,
    positions: &[u32],
) -> Result<Option<MemberSet>, OutOfMemory>
    requires few { member_count cut.now ≤ MEMBERS }
    requires once { IsPermutation (members cut.now) positions.now }
    ensures { IfOk result (λ found.
        IfSome found (λ apart. KeepTurn cut.now positions.now apart.words)) }
{
    let none = Moment {
        time: i64::MIN,
        member: 0,
    };
    let mut last = vec![in alloc; none; cut.place_count() as usize]?;
    Ok(few_out_of_turn(cut, positions, &mut last))
}

// The members that are out of turn along an order, if they are few: each starts somewhere before
// one that stands before it. The table has a moment for each place. `None` says nothing.
fn few_out_of_turn(cut: &SoundCut, positions: &[u32], last: &mut [Moment]) -> Option<MemberSet>
    requires few { member_count cut.now ≤ MEMBERS }
    requires once { IsPermutation (members cut.now) positions.now }
    requires places { length last.old ≡ place_count cut.now }
    ensures { IfSome result (λ apart. KeepTurn cut.now positions.now apart.words) }
{
    let mut apart = MemberSet::new();
    let mut left = FEW;
    for i in positions {
        left = put_in_turn(last, &mut apart, left, *i, cut.row(*i).uses.slice());
        if left == 0 {
            return None;
        }
    }
    Some(apart)
}

// Puts a member's starts by some uses into the table of the last ones, as long as they come after
// those; where one doesn't, the member goes into the set of those out of turn, and one fewer is
// left. What it has put stays: a later member has then to come after that, too.
fn put_in_turn(
    last: &mut [Moment],
    apart: &mut MemberSet,
    left: u32,
    member: u32,
    uses: &[Use],
) -> u32
    requires few { member < MEMBERS }
    requires there { All (λ u. u.block < length last.old) uses.now }
    ensures count { length last.new ≡ length last.old }
    ensures rise { Rise last.old last.new }
    ensures turn { IsInTurn last.old last.new apart.old.words apart.new.words member uses.now
        ⊎ IsOutOfTurn apart.old.words apart.new.words member }
{
    if come_last(last, member, uses) {
        return left;
    }
    apart.insert(member as usize);
    left.saturating_sub(1)
}
