//! What is told of disorder: the trains by their names, and the places at which they precede.
ghost use Rattle.std.specs.Prelude.{◌≡◌, ◌<◌, ◌++◌, map, drop, take, true, IsTrue, length, IfOk};
ghost use Rattle.std.specs.List.{zip};
ghost use Rattle.plan_model.specs.Members.{member_count, precedes_somewhere};
ghost use Rattle.plan_model.specs.Cut.{IsSoundCut};
ghost use Rattle.plan_model.specs.Disorder as disorder;
ghost use Rattle.train_order.specs.Opposite.{told_opposite};
ghost use Rattle.train_order.specs.Ordering.{PrecedeInTurn, IsTold};
ghost use Rattle.train_order.specs.Walk.{IsRing};

use crate::found::Disordered;
use crate::link_place::place_between;
use crate::ring::next_place;
use plan_model::{Disorder, Link, SoundCut};
use rail_model::{List, OutOfMemory};
use std::alloc::Global;

// The disorder of members that have no order, in names of trains and places.
pub(crate) fn tell(
    alloc: Global,
    cut: &SoundCut,
    found: &Disordered,
) -> Result<Disorder, OutOfMemory>
    requires in_turn { PrecedeInTurn cut.now found.now }
    ensures { IfOk result (λ told. IsTold cut.now found.now told) }
{
    match found {
        Disordered::Opposite(i, j) => Ok(opposite(cut, *i, *j)),
        Disordered::Ring(members) => Ok(Disorder::Ring(links(alloc, cut, members.slice())?)),
    }
}

// The disorder of members i and j, each of which precedes the other somewhere: with the first place
// by name for either direction.
pub(crate) fn opposite(cut: &SoundCut, i: u32, j: u32) -> Disorder
    requires one { i < member_count cut.now }
    requires other { j < member_count cut.now }
    requires precedes { IsTrue (precedes_somewhere cut.now i j) }
    requires preceded { IsTrue (precedes_somewhere cut.now j i) }
    ensures { result ≡ told_opposite cut.now i j }
{
    let block1 = place_between(cut, i, j);
    let block2 = place_between(cut, j, i);
    Disorder::Opposite {
        first: cut.row(i).name,
        second: cut.row(j).name,
        block1,
        block2,
    }
}

// The links of a ring: of each member to the next, and of the last to the first.
fn links(alloc: Global, cut: &SoundCut, members: &[u32]) -> Result<List<Link>, OutOfMemory>
    requires ring { IsRing cut.now members.now }
    ensures { IfOk result (λ links. links ≡ map (disorder.link_of cut.now)
        (zip members.now (drop 1 members.now ++ take 1 members.now))) }
{
    let mut links = List::new(alloc);
    for k in 0..members.len() {
        let next = next_place(k, members.len());
        links.push(link(cut, members[k], members[next]))?;
    }
    Ok(links)
}

// The link from member i to member j, which it precedes: with the first place by name at which it
// does.
fn link(cut: &SoundCut, i: u32, j: u32) -> Link
    requires one { i < member_count cut.now }
    requires other { j < member_count cut.now }
    requires precedes { precedes_somewhere cut.now i j ≡ true }
    ensures { result ≡ disorder.link_of cut.now (i, j) }
{
    let block = place_between(cut, i, j);
    Link {
        train: cut.row(i).name,
        block,
        next: cut.row(j).name,
    }
}
