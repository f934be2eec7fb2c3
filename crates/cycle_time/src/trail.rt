//! The trail of demands along which trains were raised, back from a train.
ghost use Rattle.std.specs.Prelude.{◌≡◌, ◌<◌, ◌≤◌, ◌==◌, IfOk, length, drop, map};
ghost use Rattle.std.specs.List.{position_or_len};
ghost use Rattle.cycle_time.specs.Rings.{AreCauses, IsBehind, to_of};

use crate::demand::Demand;
use rail_model::{List, OutOfMemory};
use std::alloc::Global;

// The ring to which the trail back from a train leads, if it comes to one: each demand begins where
// the next ends, and the last where the first ends.
pub(crate) fn ring_behind(
    alloc: Global,
    causes: &[Option<Demand>],
    top: u32,
) -> Result<Option<List<Demand>>, OutOfMemory>
    requires causes { AreCauses causes.now }
    requires there { top < length causes.now }
    ensures { IfOk result (λ ring. IsBehind causes.now top ring) }
{
    let mut trail = Vec::new(alloc);
    let mut train = top;
    while let Some(demand) = causes[train as usize] {
        let from = place_of(&trail, train);
        if from < trail.len() {
            let ring = Vec::from_slice(alloc, &trail[from..])?;
            return Ok(Some(List::from_vec(ring)));
        }
        trail.push(demand)?;
        train = demand.step.from;
    }
    Ok(None)
}

// The position of the demand of the trail that leads to a train, or the length of the trail.
fn place_of(trail: &[Demand], train: u32) -> usize
    ensures { result ≡ position_or_len (λ t. t == train) (map to_of trail.now) }
{
    for (k, demand) in trail.iter().enumerate() {
        if demand.step.to == train {
            return k;
        }
    }
    trail.len()
}
