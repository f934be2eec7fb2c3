//! The ring of a cycle, told from its least train on.
ghost use Rattle.std.specs.Prelude.{◌≡◌, ◌<◌, ◌≤◌, All, IfOk, length, map, slice_index_or};
ghost use Rattle.cycle_time.specs.Rings as rings;
ghost use Rattle.cycle_time.specs.Rings.{IsTurned};

use crate::demand::Demand;
use crate::found::Step;
use rail_model::{List, OutOfMemory};
use std::alloc::Global;

// The steps of a ring of demands, each of which begins where the next ends: in the direction of
// precedence, from the least train on.
pub(crate) fn told(alloc: Global, ring: List<Demand>) -> Result<List<Step>, OutOfMemory>
    requires { 0 < length ring }
    ensures { IfOk result (IsTurned ring) }
{
    let mut demands = ring.into_vec();
    turned(alloc, &mut demands)
}

// The steps of a ring of demands that are turned into the direction of precedence.
fn turned(alloc: Global, demands: &mut [Demand]) -> Result<List<Step>, OutOfMemory>
    requires { 0 < length demands.old }
    ensures { IfOk result (IsTurned demands.old) }
{
    let least = least_place(demands);
    demands.rotate_left(least);
    demands.reverse();
    Ok(steps(alloc, demands)?)
}

// The position of the demand that leads to the least train.
fn least_place(demands: &[Demand]) -> usize
    requires { 0 < length demands.now }
    ensures within { result < length demands.now }
    ensures least { All (λ e.
        (slice_index_or demands.now result rings.no_demand).step.to ≤ e.step.to) demands.now }
{
    let mut least = 0;
    for k in 0..demands.len() {
        least = lesser(demands, least, k);
    }
    least
}

// Of two positions the one whose demand leads to the lesser train.
fn lesser(demands: &[Demand], one: usize, other: usize) -> usize
    requires one { one < length demands.now }
    requires other { other < length demands.now }
    ensures there { result < length demands.now }
    ensures one { (slice_index_or demands.now result rings.no_demand).step.to
        ≤ (slice_index_or demands.now one rings.no_demand).step.to }
    ensures other { (slice_index_or demands.now result rings.no_demand).step.to
        ≤ (slice_index_or demands.now other rings.no_demand).step.to }
{
    if demands[other].step.to < demands[one].step.to {
        other
    } else {
        one
    }
}

fn steps(alloc: Global, demands: &[Demand]) -> Result<List<Step>, OutOfMemory>
    ensures { IfOk result (λ steps. steps ≡ map rings.step_of demands.now) }
{
    let mut steps = List::new(alloc);
    for demand in demands {
        steps.push(demand.step)?;
    }
    Ok(steps)
}
