//! Whether a cycle shows that its entries repeat in its period, and that its ring refuses each
//! lesser one.
ghost use Rattle.std.specs.Prelude.{◌≤◌, ◌↔◌, IsTrue};
ghost use Rattle.plan_model.specs.declared.limits.TheConstants.{MEMBERS};
ghost use Rattle.plan_model.specs.Cut.{IsSoundCut};
ghost use Rattle.plan_model.specs.Members.{member_count};
ghost use Rattle.cycle_time.specs.Cycle.{IsShown, IsStill, Shows};

use crate::found::Cycle;
use crate::keeping::repeats;
use crate::ring::refuses;
use plan_model::{Cut, FitCut};

/// Whether the entries of a cycle repeat in its period and its ring refuses each lesser one; of a
/// cut without members, whether the period is 0 and both lists are empty. Any entries that repeat
/// will do, not only the earliest. Nothing of the cycle is taken on trust: its numbers may be any,
/// and its lists of any length. It takes no memory.
///
/// For a cycle that comes from elsewhere, as from a regular timetable that was drawn up by hand.
/// The command `cycle` works out its own.
pub fn shows(cut: &Cut, cycle: &Cycle) -> bool
    requires sound { IsSoundCut cut.now }
    requires few { member_count cut.now ≤ MEMBERS }
    ensures { IsTrue result ↔ IsShown cut.now cycle.now }
{
    if cut.rows.is_empty() {
        is_still(cycle)
    } else {
        shows_trains(&FitCut::of(cut), cycle)
    }
}

// Whether a cycle is that of a cut without trains.
fn is_still(cycle: &Cycle) -> bool
    ensures { IsTrue result ↔ IsStill cycle.now }
{
    cycle.period == 0 && cycle.entries.is_empty() && cycle.ring.is_empty()
}

// Whether a cycle is one of a cut with trains, as `shows` says.
fn shows_trains(cut: &FitCut, cycle: &Cycle) -> bool
    requires { IsSoundCut cut.now }
    ensures { IsTrue result ↔ Shows cut.now cycle.now }
{
    repeats(cut, cycle.period, cycle.entries.slice())
        && refuses(cut.sound(), cycle.period, cycle.ring.slice())
}
