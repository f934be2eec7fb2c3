//! The edges to all members of a cut.
ghost use Rattle.std.specs.Prelude.{◌≡◌, [], ◌∷◌, ◌++◌, ◌<◌, ◌≤◌, length, slice_index_or, slice_range, IfOk, OnOk};
ghost use Rattle.train_net.specs.Net.{edges_to};
ghost use Rattle.train_net.specs.Parts.{parts, AreEnds};

use crate::edge::Edge;
use rail_model::{List, OutOfMemory};
use std::alloc::Global;
use std::marker::Model;

/// The edges to each member of a cut, seen as the list of their lists. They stand one after
/// another, so that those to one member ask for no memory of their own.
#[derive(Drop)]
pub struct EdgeLists {
    // Those to the first member, then those to the second, and so on.
    edges: Vec<Edge>,
    // Where those to each member end.
    ends: Vec<usize>,
}

impl Model for EdgeLists {
    ghost use Rattle.std.specs.Prelude.{List, length};
    ghost use Rattle.train_net.specs.declared.edge.Edge.{Edge};

    ghost Value = { List (List Edge) };

    ghost use Rattle.train_net.specs.Parts.{parts, AreEnds};

    ghost view = { λ e. parts 0 e.ends.items e.edges.items };

    ghost invariant = { λ e. AreEnds 0 e.ends.items (length e.edges.items) };
}

impl EdgeLists {
    // No lists, with room for so many.
    pub(crate) fn with_room(alloc: Global, count: usize) -> Result<EdgeLists, OutOfMemory>
        ensures { IfOk result (λ lists. lists ≡ []) }
    {
        Ok(EdgeLists {
            edges: Vec::with_capacity(alloc, count)?,
            ends: Vec::with_capacity(alloc, count)?,
        })
    }

    // The edges of some lists.
    pub(crate) fn of_lists(alloc: Global, lists: &[List<Edge>]) -> Result<EdgeLists, OutOfMemory>
        ensures { IfOk result (λ all. all ≡ lists.now) }
    {
        let mut all = EdgeLists::with_room(alloc, lists.len())?;
        for list in lists {
            all.push(list.slice())?;
        }
        Ok(all)
    }

    /// How many members there are.
    pub fn len(&self) -> usize
        ensures { result ≡ length self.now }
    {
        self.ends.len()
    }

    /// The edges to a member.
    pub fn of(&self, member: usize) -> &[Edge]
        requires { member < length self.now }
        ensures { result.now ≡ edges_to self.now member }
    {
        part_of(&self.edges, &self.ends, member)
    }

    // Puts the edges to the next member.
    pub(crate) fn push(&mut self, edges: &[Edge]) -> Result<(), OutOfMemory>
        ensures { OnOk result (self.new ≡ self.old ++ edges.now ∷ []) }
    {
        self.ends.reserve(1)?;
        self.edges.extend_from_slice(edges)?;
        self.ends.push_reserved(self.edges.len());
        Ok(())
    }
}

// The edges to a member, by the ends of those to each.
fn part_of<'a>(edges: &'a [Edge], ends: &[usize], member: usize) -> &'a [Edge]
    requires there { member < length ends.now }
    requires ends { AreEnds 0 ends.now (length edges.now) }
    ensures { result.now ≡ edges_to (parts 0 ends.now edges.now) member }
{
    between(edges, start_of(ends, member), ends[member])
}

// The edges from one place up to another.
fn between(edges: &[Edge], start: usize, end: usize) -> &[Edge]
    requires rise { start ≤ «end» }
    requires within { «end» ≤ length edges.now }
    ensures { result.now ≡ slice_range edges.now start «end» }
{
    &edges[start..end]
}

// Where the edges to a member start, by the ends of those to each.
fn start_of(ends: &[usize], member: usize) -> usize
    requires { member < length ends.now }
    ensures { result ≡ slice_index_or (0 ∷ ends.now) member 0 }
{
    if member == 0 {
        return 0;
    }
    ends[member - 1]
}
