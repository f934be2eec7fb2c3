//! The search for the least period.
ghost use Rattle.std.specs.Prelude.{◌≡◌, ◌<◌, [], IfOk};
ghost use Rattle.plan_model.specs.Cut.{IsSoundCut};
ghost use Rattle.plan_model.specs.Disorder.{remaining};
ghost use Rattle.plan_model.specs.Members.{member_count};
ghost use Rattle.cycle_time.specs.Demands.{AreEnough};
ghost use Rattle.cycle_time.specs.Rings.{IsLeastPeriod};

use crate::demand::Demand;
use crate::refusal::allowed;
use crate::settling::{Settled, settle};
use plan_model::FitCut;
use rail_model::{List, OutOfMemory};
use std::alloc::Global;

// The least period, the least entries that repeat in it, and a ring that refuses each lesser one.
#[derive(Drop)]
pub(crate) struct LeastPeriod {
    pub(crate) period: u64,
    pub(crate) entries: List<i64>,
    pub(crate) ring: List<Demand>,
}

// The least period of a cut with members. The search begins with 0. Where a ring refuses a period,
// the next one that is tried is the least that the ring allows, which is greater.
pub(crate) fn least_period(
    alloc: Global,
    cut: &FitCut,
    demands: &[Demand],
) -> Result<LeastPeriod, OutOfMemory>
    requires sound { IsSoundCut cut.now }
    requires none { remaining cut.now ≡ [] }
    requires some { 0 < member_count cut.now }
    requires enough { AreEnough cut.now demands.now }
    ensures { IfOk result (IsLeastPeriod cut.now) }
{
    let mut period = 0;
    let mut ring = List::new(alloc);
    loop {
        match settle(alloc, cut, demands, period)? {
            Settled::Repeats(entries) => {
                return Ok(LeastPeriod {
                    period,
                    entries,
                    ring,
                });
            }
            Settled::Refused(found) => {
                period = allowed(found.slice());
                ring = found;
            }
        }
    }
}
