//! Runs in the order of their names, so that they are compared by number.
ghost use Rattle.std.specs.Prelude.{◌≡◌, map, take, length, IfOk};
ghost use Rattle.std.specs.List.Sorted.{IsPermutation, IsSortedByKey};
ghost use Rattle.std.specs.Cmp.Lexicographic.{slice_cmp};
ghost use Rattle.std.specs.Ordering.{nat_cmp};
ghost use Rattle.conflict_finder.specs.Runs.{runs_of};

use rail_model::{Name, OutOfMemory, Stair};
use std::alloc::Global;

// A run's name and the place of its stairway.
#[derive(Clone, Copy)]
pub(crate) struct Ranked {
    pub(crate) name: Name,
    pub(crate) stair: usize,
}

// The runs of the stairways, in the order of their names.
pub(crate) fn by_name(alloc: Global, stairs: &[Stair]) -> Result<Vec<Ranked>, OutOfMemory>
    ensures same { IfOk result (λ runs. IsPermutation (runs_of stairs.now) runs.items) }
    ensures order { IfOk result (λ runs.
        IsSortedByKey (λ r. r.name) (slice_cmp nat_cmp) runs.items) }
{
    let mut runs = Vec::with_capacity(alloc, stairs.len())?;
    for (i, stair) in stairs.iter().enumerate() {
        runs.push(Ranked {
            name: stair.run,
            stair: i,
        })?;
    }
    runs.sort_unstable_by_key(|run| run.name);
    Ok(runs)
}
