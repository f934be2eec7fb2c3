//! Which members are looked at again: those that stand nearest after a fresh one at a place.
ghost use Rattle.std.specs.Prelude.{◌≡◌, ℕ, ◌<◌, true, length, All, IfSome, OnOk, IfOk, slice_index_or, None};
ghost use Rattle.plan_model.specs.Members.{member_count};
ghost use Rattle.train_net.specs.Mended.{AreMarked, is_marked};
ghost use Rattle.train_net.specs.Mending.{KeepMarks, IsMarkedAt};

use crate::ends::reversed;
use crate::near::{Near, near_at};
use crate::reordered::position_of;
use plan_model::SoundCut;
use rail_model::{OutOfMemory, Use};
use std::alloc::Global;

// By positions, a mark for each member that stands nearest after a fresh one at one of its places.
pub(crate) fn marks_after_fresh(
    alloc: Global,
    cut: &SoundCut,
    order: &[u32],
    origin: &[Option<u32>],
) -> Result<Vec<bool>, OutOfMemory>
    requires { All (λ i. i < member_count cut.now) order.now }
    ensures count { IfOk result (λ marks. length marks.items ≡ member_count cut.now) }
    ensures marked { IfOk result (λ marks. AreMarked cut.now origin.now order.now marks.items) }
{
    let back = reversed(alloc, order)?;
    let mut marks = vec![in alloc; false; cut.member_count() as usize]?;
    mark_before_fresh(alloc, cut, &back, origin, &mut marks)?;
    Ok(marks)
}

// Marks who stands nearest before each fresh member of an order: that of the later cut, from its
// end to its beginning.
fn mark_before_fresh(
    alloc: Global,
    cut: &SoundCut,
    order: &[u32],
    origin: &[Option<u32>],
    marks: &mut [bool],
) -> Result<(), OutOfMemory>
    requires there { All (λ i. i < member_count cut.now) order.now }
    requires count { length marks.old ≡ member_count cut.now }
    ensures count { length marks.new ≡ length marks.old }
    ensures marked { OnOk result ((at : ℕ) → at < length order.now
        → IsMarkedAt cut.now origin.now order.now marks.new at) }
{
    for at in 0..order.len() {
        mark_before(alloc, cut, order, origin, at, marks)?;
    }
    Ok(())
}

// Marks who stands nearest before the one at a position, if that one is fresh.
fn mark_before(
    alloc: Global,
    cut: &SoundCut,
    order: &[u32],
    origin: &[Option<u32>],
    at: usize,
    marks: &mut [bool],
) -> Result<(), OutOfMemory>
    requires there { All (λ i. i < member_count cut.now) order.now }
    requires within { at < length order.now }
    requires count { length marks.old ≡ member_count cut.now }
    ensures count { length marks.new ≡ length marks.old }
    ensures keep { KeepMarks marks.old marks.new }
    ensures marked { OnOk result (IsMarkedAt cut.now origin.now order.now marks.new at) }
{
    let train = order[at];
    if position_of(origin, train).is_some() {
        return Ok(());
    }
    let near = near_at(alloc, cut, order, at)?;
    mark_all(&near, cut.row(train).uses.slice(), marks);
    Ok(())
}

// Marks the members that are found at the places of some uses.
fn mark_all(near: &[Option<Near>], uses: &[Use], marks: &mut [bool])
    requires there { All (λ u. u.block < length near.now) uses.now }
    requires trains { All (λ u. IfSome (slice_index_or near.now u.block None)
        (λ x. x.train < length marks.old)) uses.now }
    ensures count { length marks.new ≡ length marks.old }
    ensures keep { KeepMarks marks.old marks.new }
    ensures marked { All (λ u. IfSome (slice_index_or near.now u.block None)
        (λ x. is_marked marks.new x.train ≡ true)) uses.now }
{
    for one in uses {
        mark(near[one.block as usize], marks);
    }
}

// Marks the member that is found, if there is one.
fn mark(near: Option<Near>, marks: &mut [bool])
    requires { IfSome near (λ x. x.train < length marks.old) }
    ensures count { length marks.new ≡ length marks.old }
    ensures keep { KeepMarks marks.old marks.new }
    ensures marked { IfSome near (λ x. is_marked marks.new x.train ≡ true) }
{
    if let Some(one) = near {
        marks[one.train as usize] = true;
    }
}
