//! Two members, each of which precedes the other somewhere.
ghost use Rattle.std.specs.Prelude.{◌≡◌, ◌<◌, ◌≤◌, length};
ghost use Rattle.train_order.specs.Opposite as pairs;

use crate::member_set::MemberSet;
use plan_model::MEMBERS;

// The first pair of opposite members, the lesser of them first.
pub(crate) fn opposite_members(sets: &[MemberSet]) -> Option<(usize, usize)>
    requires { length sets.now ≤ MEMBERS }
    ensures { result ≡ pairs.first_opposed sets.now }
{
    for i in 0..sets.len() {
        if let Some(j) = opposed_by(sets, i, i + 1, sets.len()) {
            return Some((i, j));
        }
    }
    None
}

// The first member that i opposes, among those from one on and before another.
fn opposed_by(sets: &[MemberSet], i: usize, from: usize, until: usize) -> Option<usize>
    requires few { length sets.now ≤ MEMBERS }
    requires there { i < length sets.now }
    requires within { until ≤ length sets.now }
    ensures { result ≡ pairs.opposed_by sets.now i from until }
{
    let mut j = sets[i].next(from);
    while j < until {
        if sets[j].has(i) {
            return Some(j);
        }
        j = sets[i].next(j + 1);
    }
    None
}
