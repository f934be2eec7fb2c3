//! The runs of the made line.
ghost use Rattle.std.specs.Prelude.{◌≡◌, ◌<◌, IfOk, OnOk};
ghost use Rattle.made_line.specs.Base.{next_number, after_draws};
ghost use Rattle.made_line.specs.Base as base;

use crate::draws::Draws;
use crate::names::{route_name, run_name};
use rail_model::{Leg, Legs, List, OutOfMemory, Run};
use std::alloc::Global;

// How many runs there are, and how many legs each has.
pub(crate) const RUNS: u32 = 300;

const LEGS: u32 = 64;

// All runs.
pub(crate) fn runs(alloc: Global, draws: &mut Draws) -> Result<List<Run>, OutOfMemory>
    ensures { IfOk result (λ runs. runs ≡ base.first_runs draws.old.x 300) }
{
    let mut runs = List::with_capacity(alloc, RUNS as usize)?;
    for i in 0..RUNS {
        runs.push(run(alloc, draws, i)?)?;
    }
    Ok(runs)
}

// The run of a number, from 0.
pub(crate) fn run(alloc: Global, draws: &mut Draws, i: u32) -> Result<Run, OutOfMemory>
    requires { i < 300 }
    ensures made { IfOk result (λ run. run ≡ base.made_run draws.old.x i) }
    ensures drawn { OnOk result (draws.new.x ≡ after_draws draws.old.x 65) }
{
    let length_m = 100 + draws.draw(300);
    let legs = Legs::of(alloc, legs(alloc, draws)?)?;
    Ok(Run {
        name: run_name(i),
        route: route_name(),
        length_m,
        tail_s: 10,
        start_s: 1_000 + 300 * i,
        legs,
    })
}

// A run's legs, none with a stop.
fn legs(alloc: Global, draws: &mut Draws) -> Result<List<Leg>, OutOfMemory>
    ensures made { IfOk result (λ legs. legs ≡ base.first_legs draws.old.x 64) }
    ensures drawn { OnOk result (draws.new.x ≡ after_draws draws.old.x 64) }
{
    let mut legs = List::with_capacity(alloc, LEGS as usize)?;
    for _ in 0..LEGS {
        legs.push(leg(draws))?;
    }
    Ok(legs)
}

fn leg(draws: &mut Draws) -> Leg
    ensures made { result ≡ base.made_leg draws.old.x }
    ensures drawn { draws.new.x ≡ next_number draws.old.x }
{
    Leg {
        running_s: 40 + draws.draw(11),
        dwell_s: 0,
    }
}
