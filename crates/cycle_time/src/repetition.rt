//! The least cycle time of a cut.
ghost use Rattle.std.specs.Prelude.{◌≡◌, ◌≤◌, [], IfOk};
ghost use Rattle.plan_model.specs.declared.limits.TheConstants.{MEMBERS};
ghost use Rattle.plan_model.specs.Cut.{IsSoundCut};
ghost use Rattle.plan_model.specs.Disorder.{remaining};
ghost use Rattle.plan_model.specs.Members.{member_count};
ghost use Rattle.train_order.specs.Ordering.{IsOrder};
ghost use Rattle.cycle_time.specs.Cycle.{IsAnswered, IsCycle, IsStill, HasNoLesserPeriod};

use crate::found::Cycle;
use crate::laying::demands_along;
use crate::least_period::{LeastPeriod, least_period};
use crate::turning::told;
use plan_model::{Cut, Disorder, FitCut};
use rail_model::{List, OutOfMemory};
use std::alloc::Global;
use train_order::order;

/// The least number of seconds after which the pattern of a cut's trains can repeat without end,
/// with running times, dwell times and order kept, the earliest entries that repeat so, and a ring
/// of trains that refuses each lesser period. The error is the cut's disorder, exactly where there
/// is one.
pub fn cycle(alloc: Global, cut: &Cut) -> Result<Result<Cycle, Disorder>, OutOfMemory>
    requires sound { IsSoundCut cut.now }
    requires few { member_count cut.now ≤ MEMBERS }
    ensures answered { IfOk result (IsAnswered cut.now) }
    ensures least { IfOk result (HasNoLesserPeriod cut.now) }
{
    match order(alloc, cut)? {
        Ok(order) => Ok(Ok(cycle_of(alloc, &FitCut::of(cut), order.positions.slice())?)),
        Err(disorder) => Ok(Err(disorder)),
    }
}

// The cycle of a cut whose trains have this order.
fn cycle_of(alloc: Global, cut: &FitCut, order: &[u32]) -> Result<Cycle, OutOfMemory>
    requires sound { IsSoundCut cut.now }
    requires none { remaining cut.now ≡ [] }
    requires order { IsOrder cut.now order.now }
    ensures { IfOk result (IsCycle cut.now) }
{
    if cut.member_count() == 0 {
        return Ok(still(alloc));
    }
    let demands = demands_along(alloc, cut, order)?;
    let LeastPeriod {
        period,
        entries,
        ring,
    } = least_period(alloc, cut, &demands)?;
    let ring = told(alloc, ring)?;
    Ok(Cycle {
        period,
        entries,
        ring,
    })
}

// The cycle of a cut without trains.
fn still(alloc: Global) -> Cycle
    ensures { IsStill result }
{
    Cycle {
        period: 0,
        entries: List::new(alloc),
        ring: List::new(alloc),
    }
}
