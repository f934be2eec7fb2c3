//! When trains enter by a net: each as early as its floor and the edges to it allow.
ghost use Rattle.std.specs.Prelude.{◌≡◌, ℕ, ◌<◌, length, All, IfOk};
ghost use Rattle.std.specs.Int.{int_max};
ghost use Rattle.plan_model.specs.Members.{member_count};
ghost use Rattle.plan_model.specs.Schedule.{window_floor, window_start};
ghost use Rattle.train_placing.specs.Last.{IsNear};
ghost use Rattle.train_net.specs.Net.{IsNet};
ghost use Rattle.train_net.specs.Read.{by_edge, IsSolved, AreSolved};
ghost use Rattle.train_net.specs.Reading.{IsShort};

use crate::edge::Edge;
use crate::edge_lists::EdgeLists;
use plan_model::FitCut;
use rail_model::OutOfMemory;
use std::alloc::Global;

// The entries of the compressed timetable by a net: its order, and the edges to each train.
pub(crate) fn entries(
    alloc: Global,
    cut: &FitCut,
    order: &[u32],
    edges: &EdgeLists,
) -> Result<Vec<i64>, OutOfMemory>
    requires net { IsNet cut.now order.now edges.now }
    requires lists { length edges.now ≡ member_count cut.now }
    ensures count { IfOk result (λ entries. length entries.items ≡ member_count cut.now) }
    ensures near { IfOk result (λ entries. All IsNear entries.items) }
    ensures solved { IfOk result (λ entries.
        AreSolved cut.now (window_floor cut.now) edges.now entries.items) }
{
    let start = cut.sound().window_start();
    let mut entries = vec![in alloc; start; cut.member_count() as usize]?;
    enter_each(cut, order, edges, &mut entries);
    Ok(entries)
}

// Lets one train after the other enter, in the order. Those that haven't entered yet stand at the
// window's start.
fn enter_each(cut: &FitCut, order: &[u32], edges: &EdgeLists, entries: &mut [i64])
    requires net { IsNet cut.now order.now edges.now }
    requires lists { length edges.now ≡ member_count cut.now }
    requires count { length entries.old ≡ member_count cut.now }
    requires first { All (λ t. t ≡ window_start cut.now) entries.old }
    ensures count { length entries.new ≡ length entries.old }
    ensures near { All IsNear entries.new }
    ensures solved { AreSolved cut.now (window_floor cut.now) edges.now entries.new }
{
    let start = cut.sound().window_start();
    for train in order {
        let to = edges.of(*train as usize);
        entries[*train as usize] = earliest(start, to, entries);
    }
}

// When a train may enter that may not enter before a moment.
fn earliest(floor: i64, edges: &[Edge], entries: &[i64]) -> i64
    requires near { All IsNear entries.now }
    requires there { All (λ e. e.from < length entries.now) edges.now }
    requires short { All (λ e. IsShort e.weight) edges.now }
    ensures { IsSolved floor edges.now entries.now result }
{
    let mut entry = floor;
    for edge in edges {
        entry = with_edge(entry, *edge, entries);
    }
    entry
}

// The later of a moment and of the one at which an edge allows a train to enter.
fn with_edge(entry: i64, edge: Edge, entries: &[i64]) -> i64
    requires near { All IsNear entries.now }
    requires there { edge.from < length entries.now }
    requires short { IsShort edge.weight }
    ensures { result ≡ int_max entry (by_edge entries.now edge) }
{
    entry.max(by_edge(edge, entries))
}

// When an edge allows a train to enter.
pub(crate) fn by_edge(edge: Edge, entries: &[i64]) -> i64
    requires near { All IsNear entries.now }
    requires there { edge.from < length entries.now }
    requires short { IsShort edge.weight }
    ensures { result ≡ by_edge entries.now edge }
{
    entries[edge.from as usize] + edge.weight
}
