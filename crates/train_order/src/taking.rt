//! Members in the order in which they are taken up: each after all that precede it.
ghost use Rattle.std.specs.Prelude.{◌≡◌, ℕ, ◌<◌, ◌≤◌, [], false, IsTrue, length};
ghost use Rattle.train_order.specs.Sets.{holds};
ghost use Rattle.train_order.specs.Taking.{AreTakenUp, IsTaking};

use crate::member_set::MemberSet;
use crate::members::Members;
use plan_model::MEMBERS;

// The members that can be taken up, in an order in which each comes after all that precede it.
pub(crate) fn take_up_all(sets: &[MemberSet]) -> Members
    requires { length sets.now ≤ MEMBERS }
    ensures { AreTakenUp sets.now result }
{
    let mut taken = Members::new();
    let mut up = MemberSet::new();
    let mut tried = MemberSet::new();
    let mut path = Members::new();
    for member in 0..sets.len() {
        if !tried.has(member) {
            take_up(sets, member, &mut taken, &mut up, &mut tried, &mut path);
        }
    }
    taken
}

// Takes up a member after all that precede it. A path goes back from it, each time to the first
// that precedes and isn't taken up. Where that one was tried before, it waits for a ring: all on
// the path are left.
fn take_up(
    sets: &[MemberSet],
    member: usize,
    taken: &mut Members,
    up: &mut MemberSet,
    tried: &mut MemberSet,
    path: &mut Members,
)
    requires few { length sets.now ≤ MEMBERS }
    requires there { member < length sets.now }
    requires fresh { holds tried.old.words member ≡ false }
    requires so_far { IsTaking sets.now taken.old up.old.words tried.old.words [] }
    ensures so_far { IsTaking sets.now taken.new up.new.words tried.new.words [] }
    ensures more { (k : ℕ) → IsTrue (holds tried.old.words k) → IsTrue (holds tried.new.words k) }
    ensures tried { IsTrue (holds tried.new.words member) }
{
    tried.insert(member);
    path.clear();
    path.push(member as u32);
    while path.len() > 0 {
        let last = path.slice()[path.len() - 1];
        let missing = sets[last as usize].first_outside(up);
        if missing >= sets.len() {
            path.pop();
            taken.push(last);
            up.insert(last as usize);
        } else if tried.has(missing) {
            return;
        } else {
            path.push(missing as u32);
            tried.insert(missing);
        }
    }
}
