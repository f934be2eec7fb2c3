//! The chain of a train: its tie, the tie of the train that it touches, and so on back to a train
//! that enters at the window's start.
ghost use Rattle.std.specs.Prelude.{◌≡◌, ◌<◌, ◌^◌, length, reverse, IfOk};
ghost use Rattle.critical_chain.specs.Chain.{IsPlan, IsChain, link_at, chain_of};

use plan_model::{Link, Plan, Tie};
use rail_model::{List, OutOfMemory};
use std::alloc::Global;

/// The links that lead from a train that enters at the window's start to the one at this position
/// of the plan: each is the tie of its `next`. There is none where that train itself enters at the
/// window's start.
///
/// The plan is the compressed timetable of a sound cut whose trains have an order.
pub fn chain(alloc: Global, plan: &Plan, train: u32) -> Result<List<Link>, OutOfMemory>
    requires plan { IsPlan plan.now }
    requires there { train < length plan.now.placed }
    ensures chain { IfOk result (λ links. IsChain plan.now train links) }
    ensures same { IfOk result (λ links. links ≡ chain_of plan.now train) }
{
    let mut links = Vec::new(alloc);
    let mut next = train;
    while let Tie::After {
        train: before,
        block,
    } = plan.placed.tie(next as usize)
    {
        links.push(link(plan, before, block, next))?;
        next = before;
    }
    Ok(turn_round(links))
}

// The links the other way round.
fn turn_round(mut links: Vec<Link>) -> List<Link>
    requires { length links.items < 2 ^ 63 }
    ensures { result ≡ reverse links.items }
{
    links.reverse();
    List::from_vec(links)
}

// The link from a train to the one that touches it: `train` precedes `next` at the place `block`,
// all by their positions in the plan.
fn link(plan: &Plan, train: u32, block: u32, next: u32) -> Link
    requires train { train < length plan.now.placed }
    requires block { block < length plan.now.blocks }
    requires next { next < length plan.now.placed }
    ensures { result ≡ link_at plan.now train block next }
{
    Link {
        train: plan.placed.get(train as usize).train,
        block: plan.blocks.get(block as usize),
        next: plan.placed.get(next as usize).train,
    }
}
