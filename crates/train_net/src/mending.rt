//! Mending the net of a cut to one of a later cut, where few of its members change.
ghost use Rattle.std.specs.Prelude.{◌≡◌, ◌⊎◌, ℕ, ◌<◌, ◌↔◌, true, length, All, IfOk, IfSome, IsTrue, Ok, Some, None, slice_index, slice_index_or};
ghost use Rattle.std.specs.List.{AllZip};
ghost use Rattle.std.specs.List.Sorted.{IsPermutation};
ghost use Rattle.plan_model.specs.declared.cut.Cut.{Cut};
ghost use Rattle.plan_model.specs.Members.{members, member_count};
ghost use Rattle.plan_model.specs.Cut.{IsSoundCut};
ghost use Rattle.train_order.specs.Ordering.{IsOrdering};
ghost use Rattle.train_net.specs.Net.{edges_to};
ghost use Rattle.train_net.specs.Held.{IsNetOf};
ghost use Rattle.train_net.specs.Mended.{IsOrigin};
ghost use Rattle.train_net.specs.Mending.{AreNow, IsMoved, AreMoved, AreAnew, AreAnewTo, AreRemadeUpto, AreAllMended, StandAsBefore, KeepPositions, MendsIn, comes_ahead};

use crate::edge::Edge;
use crate::edge_lists::EdgeLists;
use crate::edges::edges_from;
use crate::marking::marks_after_fresh;
use crate::near::{Near, near_at};
use crate::net::Net;
use crate::reordered::{find_from, position_of, reorder};
use plan_model::SoundCut;
use rail_model::{List, OutOfMemory, Use};
use std::alloc::Global;

// The edges of a net of an earlier cut, by the positions that its members had; where each member of
// the later cut stood in that one, if it is kept; and, by its position there, where it stands now.
#[derive(Clone, Copy)]
struct EarlierNet<'a> {
    edges: &'a EdgeLists,
    origin: &'a [Option<u32>],
    now: &'a [Option<u32>],
}

/// The net of a later cut, made of the net of an earlier one, if it can be: the members have an
/// order then. `origin` has, for each member of the later cut, where it stood in the earlier one if
/// it is kept.
///
/// Only the places of fresh members, and of those that stand next to them or next to where one is
/// gone, are looked at. There is no net where a member whose edges are made anew doesn't follow its
/// nearest: at one of its places, who stands nearest before it in the order starts later than it,
/// or at the same moment and has the greater name. So it is where a fresh member fits in among the
/// kept ones neither at its old place nor by its entry. No clause says when there is none: the caller
/// then makes the net from all uses.
pub fn mend(
    alloc: Global,
    cut: &SoundCut,
    net: &Net,
    origin: &[Option<u32>],
) -> Result<Option<Net>, OutOfMemory>
    requires count { length origin.now ≡ member_count cut.now }
    ensures net { (old : Cut) → IsSoundCut old → IsNetOf old net.now
        → IsOrigin old cut.now origin.now
        → IfOk result (λ r. IfSome r (IsNetOf cut.now)) }
    ensures order { (old : Cut) → IsSoundCut old → IsNetOf old net.now
        → IsOrigin old cut.now origin.now
        → IfOk result (λ r. IfSome r (λ net.
        IsOrdering cut.now (Ok (record { positions = net.order })))) }
{
    let now = positions_now(alloc, origin, cut.member_count(), net.edges.len())?;
    if stand_as_before(cut, net, origin) {
        let order = net.order.copy(alloc)?;
        if let Some(later) = mended_in(alloc, cut, net, order, origin, &now)? {
            return Ok(Some(later));
        }
    }
    match reorder(alloc, cut, net.order.slice(), origin, &now)? {
        Some(order) => mended_in(alloc, cut, net, List::from_vec(order), origin, &now),
        None => Ok(None),
    }
}

// Whether the later cut has as many members as the earlier one, and each that is kept has the
// position that it had. `false` says nothing: an order is then looked for.
fn stand_as_before(cut: &SoundCut, net: &Net, origin: &[Option<u32>]) -> bool
    ensures { IsTrue result → StandAsBefore cut.now origin.now net.now }
{
    let count = cut.member_count();
    net.edges.len() == count as usize
        && net.order.slice().iter().all(|member| *member < count)
        && keep_positions(origin)
}

// Whether each member that is kept has the position that it had. `false` says nothing.
fn keep_positions(origin: &[Option<u32>]) -> bool
    ensures { IsTrue result → KeepPositions origin.now }
{
    for i in 0..origin.len() {
        if !keeps_position(origin[i], i) {
            return false;
        }
    }
    true
}

fn keeps_position(old: Option<u32>, i: usize) -> bool
    ensures { IsTrue result → IfSome old (λ a. a ≡ i) }
{
    match old {
        Some(old) => old as usize == i,
        None => true,
    }
}

// The net with this order, if there is one. `None` says nothing.
fn mended_in(
    alloc: Global,
    cut: &SoundCut,
    net: &Net,
    order: List<u32>,
    origin: &[Option<u32>],
    now: &[Option<u32>],
) -> Result<Option<Net>, OutOfMemory>
    requires sound { IsSoundCut cut.now }
    requires there { All (λ i. i < member_count cut.now) order }
    requires now { AreNow origin.now now.now }
    ensures { IfOk result (λ r. IfSome r (MendsIn cut.now origin.now net.now order)) }
{
    let earlier = EarlierNet {
        edges: &net.edges,
        origin,
        now,
    };
    match edges_in(alloc, cut, order.slice(), earlier)? {
        Some(edges) => Ok(Some(Net { order, edges })),
        None => Ok(None),
    }
}

// By the positions that members had in the earlier cut, where each that is kept stands now.
fn positions_now(
    alloc: Global,
    origin: &[Option<u32>],
    members: u32,
    before: usize,
) -> Result<Vec<Option<u32>>, OutOfMemory>
    requires { length origin.now ≡ members }
    ensures { IfOk result (λ now. AreNow origin.now now.items) }
{
    let mut now = vec![in alloc; None; before]?;
    put_positions(origin, members, &mut now);
    Ok(now)
}

// Puts in the position of each kept member.
fn put_positions(origin: &[Option<u32>], members: u32, now: &mut [Option<u32>])
    requires none { (old : ℕ) → slice_index_or now.old old None ≡ None }
    requires count { length origin.now ≡ members }
    ensures { AreNow origin.now now.new }
{
    for i in 0..members {
        put_position(now, origin[i as usize], i);
    }
}

// Puts in the position of a member, if it is kept.
fn put_position(now: &mut [Option<u32>], old: Option<u32>, i: u32)
    ensures { (a j : ℕ) → slice_index_or now.new a None ≡ Some j
        → (slice_index_or now.old a None ≡ Some j) ⊎ ((old ≡ Some a) × (i ≡ j)) }
{
    if let Some(old) = old {
        let at = old as usize;
        if at < now.len() {
            now[at] = Some(i);
        }
    }
}

// The edges to each member, in an order. `None` says nothing: the net is made from all uses.
fn edges_in(
    alloc: Global,
    cut: &SoundCut,
    order: &[u32],
    earlier: EarlierNet<'_>,
) -> Result<Option<EdgeLists>, OutOfMemory>
    requires there { All (λ i. i < member_count cut.now) order.now }
    ensures { IfOk result (λ r. IfSome r (AreAllMended cut.now earlier.entry.origin.now
        earlier.entry.now.now order.now earlier.entry.edges.now)) }
{
    let marks = marks_after_fresh(alloc, cut, order, earlier.origin)?;
    remade(alloc, cut, order, earlier, &marks)
}

// The edges to each member, in an order, where those that stand nearest after a fresh one are
// marked. `None` says nothing.
fn remade(
    alloc: Global,
    cut: &SoundCut,
    order: &[u32],
    earlier: EarlierNet<'_>,
    marks: &[bool],
) -> Result<Option<EdgeLists>, OutOfMemory>
    requires there { All (λ i. i < member_count cut.now) order.now }
    requires marks { length marks.now ≡ member_count cut.now }
    ensures { IfOk result (λ r. IfSome r (AreRemadeUpto cut.now earlier.entry.origin.now
        earlier.entry.now.now marks.now order.now earlier.entry.edges.now (member_count cut.now))) }
{
    let mut edges = EdgeLists::with_room(alloc, cut.member_count() as usize)?;
    let mut kept = Vec::new(alloc);
    for member in 0..cut.member_count() {
        if keep_edges(earlier, marks, member, &mut kept)? {
            edges.push(&kept)?;
            continue;
        }
        let Some(to) = edges_anew(alloc, cut, order, member)? else {
            return Ok(None);
        };
        edges.push(to.slice())?;
    }
    Ok(Some(edges))
}

// Puts into `kept` the edges that a member had, if it may keep them: it isn't marked, and is kept,
// and so are all members from which it had an edge. `false` says nothing: they are made anew.
fn keep_edges(
    earlier: EarlierNet<'_>,
    marks: &[bool],
    member: u32,
    kept: &mut Vec<Edge>,
) -> Result<bool, OutOfMemory>
    requires { member < length marks.now }
    ensures { IfOk result (λ keeps. IsTrue keeps
        → AreMoved earlier.entry.origin.now earlier.entry.now.now marks.now earlier.entry.edges.now
        member kept.new.items) }
{
    if marks[member as usize] {
        return Ok(false);
    }
    match position_of(earlier.origin, member) {
        Some(before) => {
            let at = before as usize;
            if at < earlier.edges.len() {
                move_edges(earlier.edges.of(at), earlier.now, kept)
            } else {
                Ok(false)
            }
        }
        None => Ok(false),
    }
}

// Puts into `moved` edges of the earlier cut with the positions that their first members have now,
// if all of these are kept. `false` says nothing.
fn move_edges(
    edges: &[Edge],
    now: &[Option<u32>],
    moved: &mut Vec<Edge>,
) -> Result<bool, OutOfMemory>
    ensures { IfOk result (λ all. IsTrue all
        → AllZip (IsMoved now.now) edges.now moved.new.items) }
{
    moved.clear();
    for edge in edges {
        match moved_edge(*edge, now) {
            Some(edge) => moved.push(edge)?,
            None => return Ok(false),
        }
    }
    Ok(true)
}

// An edge of the earlier cut with the position that its first member has now, if that one is kept.
// `None` says nothing.
fn moved_edge(edge: Edge, now: &[Option<u32>]) -> Option<Edge>
    ensures { IfSome result (IsMoved now.now edge) }
{
    match position_of(now, edge.from) {
        Some(from) => Some(Edge {
            from,
            weight: edge.weight,
            place: edge.place,
        }),
        None => None,
    }
}

// The edges to a member, made anew, if it follows, at each of its places, the nearest before it.
// `None` says nothing.
fn edges_anew(
    alloc: Global,
    cut: &SoundCut,
    order: &[u32],
    member: u32,
) -> Result<Option<List<Edge>>, OutOfMemory>
    requires { All (λ i. i < member_count cut.now) order.now }
    ensures { IfOk result (λ r. IfSome r (AreAnewTo cut.now order.now member)) }
{
    match find_from(order, 0, member) {
        Some(at) => edges_at(alloc, cut, order, at),
        None => Ok(None),
    }
}

// The edges to who stands at a position, made anew, if it follows its nearest. `None` says nothing.
fn edges_at(
    alloc: Global,
    cut: &SoundCut,
    order: &[u32],
    at: usize,
) -> Result<Option<List<Edge>>, OutOfMemory>
    requires there { All (λ i. i < member_count cut.now) order.now }
    requires within { at < length order.now }
    ensures { IfOk result (λ r. IfSome r (AreAnew cut.now order.now at)) }
{
    let train = order[at];
    let near = near_at(alloc, cut, order, at)?;
    if !are_ahead(&near, cut.row(train).uses.slice(), train) {
        return Ok(None);
    }
    Ok(Some(edges_from(alloc, cut, train, &near)?))
}

// Whether at each use of a member the one that stands nearest before it there precedes it.
fn are_ahead(near: &[Option<Near>], uses: &[Use], train: u32) -> bool
    requires { All (λ u. u.block < length near.now) uses.now }
    ensures { IsTrue result ↔ All (λ u. IsTrue
        (comes_ahead (slice_index_or near.now u.block None) train u)) uses.now }
{
    uses.iter()
        .all(|one| comes_ahead(near[one.block as usize], train, one))
}

// Whether the one that stands nearest before a member at a use, if there is one, starts earlier
// there or, at one moment, has the lesser name.
fn comes_ahead(near: Option<Near>, train: u32, one: &Use) -> bool
    ensures { result ≡ comes_ahead near train one.now }
{
    match near {
        Some(near) => {
            near.one.start < one.start || near.one.start == one.start && near.train < train
        }
        None => true,
    }
}
