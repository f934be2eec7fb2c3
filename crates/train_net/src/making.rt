//! Making a net: one walk over all uses, along the order.
ghost use Rattle.std.specs.Prelude.{◌≡◌, ℕ, ◌<◌, length, IfOk, OnOk, slice_index, replicate, None};
ghost use Rattle.plan_model.specs.Cut.{IsSoundCut};
ghost use Rattle.plan_model.specs.Members.{place_count, member_count};
ghost use Rattle.train_order.specs.Ordering.{IsOrder};
ghost use Rattle.train_net.specs.Net.{AreEdges, edges_to};
ghost use Rattle.train_net.specs.Held.{IsNetOf};

use crate::edge::Edge;
use crate::edge_lists::EdgeLists;
use crate::edges::edges_from;
use crate::near::{Near, pass};
use crate::net::Net;
use plan_model::SoundCut;
use rail_model::{List, OutOfMemory};
use std::alloc::Global;

/// The net of a cut, by an order of its trains.
pub fn net_of(alloc: Global, cut: &SoundCut, order: List<u32>) -> Result<Net, OutOfMemory>
    requires order { IsOrder cut.now order }
    ensures order { IfOk result (λ net. net.order ≡ order) }
    ensures net { IfOk result (λ net. IsNetOf cut.now net) }
{
    let lists = all_edges(alloc, cut, order.slice())?;
    let edges = EdgeLists::of_lists(alloc, &lists)?;
    Ok(Net { order, edges })
}

// The edges to each train.
fn all_edges(alloc: Global, cut: &SoundCut, order: &[u32]) -> Result<Vec<List<Edge>>, OutOfMemory>
    requires order { IsOrder cut.now order.now }
    ensures lists { IfOk result (λ edges. length edges.items ≡ member_count cut.now) }
    ensures each { IfOk result (λ edges. (at : ℕ) → at < length order.now
        → AreEdges cut.now order.now at (edges_to edges.items (slice_index order.now at))) }
{
    let mut edges = no_edges(alloc, cut.member_count())?;
    let mut near = vec![in alloc; None; cut.place_count() as usize]?;
    put_edges(alloc, cut, order, &mut edges, &mut near)?;
    Ok(edges)
}

// Puts the edges to each train, along the order. `near` has, by the places' positions, who stands
// nearest before the train; at first nobody does.
fn put_edges(
    alloc: Global,
    cut: &SoundCut,
    order: &[u32],
    edges: &mut [List<Edge>],
    near: &mut [Option<Near>],
) -> Result<(), OutOfMemory>
    requires sound { IsSoundCut cut.now }
    requires order { IsOrder cut.now order.now }
    requires lists { length edges.old ≡ member_count cut.now }
    requires none { near.old ≡ replicate (place_count cut.now) None }
    ensures lists { length edges.new ≡ length edges.old }
    ensures each { OnOk result ((at : ℕ) → at < length order.now
        → AreEdges cut.now order.now at (edges_to edges.new (slice_index order.now at))) }
{
    for train in order {
        let to = edges_from(alloc, cut, *train, near)?;
        edges[*train as usize] = to;
        pass(near, *train, cut.row(*train).uses.slice());
    }
    Ok(())
}

// Empty lists of edges.
fn no_edges(alloc: Global, count: u32) -> Result<Vec<List<Edge>>, OutOfMemory>
    ensures { IfOk result (λ edges. length edges.items ≡ count) }
{
    let mut edges = Vec::with_capacity(alloc, count as usize)?;
    for _made in 0..count {
        edges.push(List::new(alloc))?;
    }
    Ok(edges)
}
