//! Why trains enter no earlier, by the edges to them.
ghost use Rattle.std.specs.Prelude.{◌≡◌, ℕ, ◌<◌, length, All, IfOk, IfSome, slice_index_or};
ghost use Rattle.plan_model.specs.declared.answer.Tie.TheVariants as tie;
ghost use Rattle.plan_model.specs.Members.{member_count, place_count};
ghost use Rattle.plan_model.specs.Schedule.{window_floor, window_start, entry_at};
ghost use Rattle.train_placing.specs.Last.{IsNear};
ghost use Rattle.train_net.specs.Net.{IsNet, edges_to};
ghost use Rattle.train_net.specs.Read.{IsSolved, AreSolved, IsTieBy};
ghost use Rattle.train_net.specs.Reading.{IsShort, tight_of, first_of_two, IsFirstOf};

use crate::edge::Edge;
use crate::edge_lists::EdgeLists;
use crate::entering::by_edge;
use plan_model::{FitCut, SoundCut, Tie};
use rail_model::OutOfMemory;
use std::alloc::Global;

// The ties of all trains by a net, with the entries that it gives them.
pub(crate) fn ties(
    alloc: Global,
    cut: &FitCut,
    order: &[u32],
    edges: &EdgeLists,
    entries: &[i64],
) -> Result<Vec<Tie>, OutOfMemory>
    requires net { IsNet cut.now order.now edges.now }
    requires lists { length edges.now ≡ member_count cut.now }
    requires count { length entries.now ≡ member_count cut.now }
    requires near { All IsNear entries.now }
    requires solved { AreSolved cut.now (window_floor cut.now) edges.now entries.now }
    ensures count { IfOk result (λ ties. length ties.items ≡ member_count cut.now) }
    ensures tied { IfOk result (λ ties. (j : ℕ) → j < member_count cut.now
        → IsTieBy cut.now (window_start cut.now) (edges_to edges.now j) entries.now
        (entry_at entries.now j) (slice_index_or ties.items j tie.Start)) }
{
    let sound = cut.sound();
    let start = sound.window_start();
    let mut ties = Vec::new(alloc);
    for train in 0..cut.member_count() as usize {
        let entry = entries[train];
        ties.push(tie(sound, start, edges.of(train), entry, entries))?;
    }
    Ok(ties)
}

// The tie of a train that enters at a moment.
fn tie(cut: &SoundCut, floor: i64, edges: &[Edge], entry: i64, entries: &[i64]) -> Tie
    requires near { All IsNear entries.now }
    requires there { All (λ e. e.from < length entries.now) edges.now }
    requires places { All (λ e. e.place < place_count cut.now) edges.now }
    requires short { All (λ e. IsShort e.weight) edges.now }
    requires solved { IsSolved floor edges.now entries.now entry }
    ensures { IsTieBy cut.now floor edges.now entries.now entry result }
{
    if entry == floor {
        return Tie::Start;
    }
    match first_tight(cut, edges, entry, entries) {
        Some(edge) => Tie::After {
            train: edge.from,
            block: edge.place,
        },
        None => Tie::Start,
    }
}

// The first edge, by the names of trains and places, of those that a train enters as early as they
// allow.
fn first_tight(cut: &SoundCut, edges: &[Edge], entry: i64, entries: &[i64]) -> Option<Edge>
    requires near { All IsNear entries.now }
    requires there { All (λ e. e.from < length entries.now) edges.now }
    requires places { All (λ e. e.place < place_count cut.now) edges.now }
    requires short { All (λ e. IsShort e.weight) edges.now }
    ensures { IsFirstOf cut.now edges.now entries.now entry result }
{
    let mut best = None;
    for edge in edges {
        best = first_of_two(cut, best, tight_of(*edge, entry, entries));
    }
    best
}

// The edge, if the train enters as early as it allows.
fn tight_of(edge: Edge, entry: i64, entries: &[i64]) -> Option<Edge>
    requires near { All IsNear entries.now }
    requires there { edge.from < length entries.now }
    requires short { IsShort edge.weight }
    ensures { result ≡ tight_of entries.now entry edge }
{
    if entry == by_edge(edge, entries) {
        Some(edge)
    } else {
        None
    }
}

// The first of two edges by the names of trains and places, if there are any.
fn first_of_two(cut: &SoundCut, best: Option<Edge>, other: Option<Edge>) -> Option<Edge>
    requires best { IfSome best (λ e. e.place < place_count cut.now) }
    requires other { IfSome other (λ e. e.place < place_count cut.now) }
    ensures first { result ≡ first_of_two cut.now best other }
    ensures there { IfSome result (λ e. e.place < place_count cut.now) }
{
    match best {
        Some(one) => match other {
            Some(two) => {
                if cut.comes_first((two.from, two.place), (one.from, one.place)) {
                    other
                } else {
                    best
                }
            }
            None => best,
        },
        None => other,
    }
}
