//! The edges to a train, by who stands nearest before it at its places.
ghost use Rattle.std.specs.Prelude.{◌≡◌, ℕ, ◌<◌, length, All, IfOk, IfSome, ◌-ℤ◌, None, Some, map};
ghost use Rattle.std.specs.Option.{option_map};
ghost use Rattle.rail_model.specs.Moment.{IsMoment};
ghost use Rattle.plan_model.specs.Members.{member, member_count, place_count};
ghost use Rattle.train_net.specs.Net.{IsEdge};
ghost use Rattle.train_net.specs.Gathered.{edge_of, AreAhead, AreCovered, with_last, Gathers, IsTighter, takes_over};
ghost use Rattle.plan_model.specs.Cut.{IsBounded};

use crate::edge::Edge;
use crate::near::Near;
use plan_model::SoundCut;
use rail_model::{List, OutOfMemory, Use};
use std::alloc::Global;

// The edges to a train. `near` has, by the places' positions, who stands nearest before it at each
// of its places.
pub(crate) fn edges_from(
    alloc: Global,
    cut: &SoundCut,
    train: u32,
    near: &[Option<Near>],
) -> Result<List<Edge>, OutOfMemory>
    requires there { train < member_count cut.now }
    requires count { length near.now ≡ place_count cut.now }
    requires ahead { AreAhead cut.now train near.now }
    ensures real { IfOk result (λ edges. All (IsEdge cut.now train) edges) }
    ensures covered { IfOk result (λ edges. AreCovered cut.now train near.now edges) }
{
    let mut edges = List::new(alloc);
    let mut last = None;
    for one in cut.row(train).uses.slice() {
        let next = edge_at(cut, train, one, near[one.block as usize]);
        last = gather(&mut edges, cut, last, next)?;
    }
    closed(edges, last)
}

// The edge to a train at a use, if somebody stands before it there.
fn edge_at(cut: &SoundCut, train: u32, one: &Use, near: Option<Near>) -> Option<Edge>
    requires there { train < member_count cut.now }
    requires start { IsMoment one.now.start }
    requires near { IfSome near (λ n. n.train < member_count cut.now) }
    requires ends { IfSome near (λ n. IsMoment n.one.«end») }
    ensures { result ≡ option_map (edge_of cut.now train one.now) near }
{
    match near {
        Some(near) => Some(Edge {
            from: near.train,
            weight: headway(
                cut.row(near.train).entry,
                near.one.end,
                cut.row(train).entry,
                one.start,
            ),
            place: one.block,
        }),
        None => None,
    }
}

// The headway, in seconds, from a train that is planned to enter at `entry` and to end its use of a
// place at `end`, to one that is planned to enter at `other` and to start there at `start`.
fn headway(entry: i64, end: i64, other: i64, start: i64) -> i64
    requires entry { IsMoment entry }
    requires ends { IsMoment «end» }
    requires other { IsMoment other }
    requires start { IsMoment start }
    ensures { result ≡ («end» -ℤ entry) -ℤ (start -ℤ other) }
{
    let left = difference(end, entry);
    let until = difference(start, other);
    difference(left, until)
}

fn difference(later: i64, earlier: i64) -> i64
    requires later { IsBounded later }
    requires earlier { IsBounded earlier }
    ensures { result ≡ later -ℤ earlier }
{
    later - earlier
}

// The edges with one more, if there is one. The last edge is held back, since the next may be from
// the same train: then the tighter of the two stands for both.
fn gather(
    edges: &mut List<Edge>,
    cut: &SoundCut,
    last: Option<Edge>,
    next: Option<Edge>,
) -> Result<Option<Edge>, OutOfMemory>
    requires last { IfSome last (λ e. e.place < place_count cut.now) }
    requires next { IfSome next (λ e. e.place < place_count cut.now) }
    ensures gathers { IfOk result (λ now.
        Gathers cut.now (with_last edges.old last) next (with_last edges.new now)) }
    ensures there { IfOk result (λ now. IfSome now (λ e. e.place < place_count cut.now)) }
{
    match next {
        None => Ok(last),
        Some(edge) => match last {
            None => Ok(Some(edge)),
            Some(one) => {
                if one.from == edge.from {
                    return Ok(Some(tighter(cut, one, edge)));
                }
                edges.push(one)?;
                Ok(Some(edge))
            }
        },
    }
}

// The tighter of two edges from one train: the one that asks for more time or, where both ask for
// as much, the one whose place comes first by name.
fn tighter(cut: &SoundCut, one: Edge, other: Edge) -> Edge
    requires one { one.place < place_count cut.now }
    requires other { other.place < place_count cut.now }
    requires same { one.from ≡ other.from }
    ensures tighter { IsTighter cut.now one other result }
    ensures there { result.place < place_count cut.now }
{
    if takes_over(cut, one, other) {
        return other;
    }
    one
}

// Whether the other of two edges from one train is the tighter.
fn takes_over(cut: &SoundCut, one: Edge, other: Edge) -> bool
    requires one { one.place < place_count cut.now }
    requires other { other.place < place_count cut.now }
    ensures { result ≡ takes_over cut.now one other }
{
    one.weight < other.weight
        || one.weight == other.weight && cut.leads(Some(one.place), other.place)
}

// The edges with the one that was held back, if there is one.
fn closed(edges: List<Edge>, last: Option<Edge>) -> Result<List<Edge>, OutOfMemory>
    ensures { IfOk result (λ all. all ≡ with_last edges last) }
{
    let mut edges = edges;
    match last {
        Some(edge) => {
            edges.push(edge)?;
            Ok(edges)
        }
        None => Ok(edges),
    }
}
