//! A train is raised along a demand that its entry doesn't keep.
ghost use Rattle.std.specs.Prelude.{◌≡◌, ◌<◌, ◌≤◌, ◌^◌, ◌≤ℤ◌, ◌+ℤ◌, ◌-ℤ◌, pos, true, false, length};
ghost use Rattle.plan_model.specs.Schedule.{entry_at};
ghost use Rattle.cycle_time.specs.Demands.{IsLight, Keeps, asks};
ghost use Rattle.cycle_time.specs.Raising.{AreEarly, IsEarly, IsRaisedBy};

use crate::demand::Demand;

// Raises the second train of a demand, if it enters earlier than the demand allows: it then enters
// as early as the demand allows, with the demand as its cause. Tells whether it was raised.
pub(crate) fn raise(
    entries: &mut [i64],
    causes: &mut [Option<Demand>],
    demand: Demand,
    period: u64,
) -> bool
    requires one { demand.step.from < length entries.old }
    requires other { demand.step.to < length entries.old }
    requires causes { length causes.old ≡ length entries.old }
    requires early { AreEarly entries.old }
    requires light { IsLight demand.weight }
    requires period { period ≤ 2 ^ 40 }
    ensures kept { result ≡ false → (entries.new ≡ entries.old) × (causes.new ≡ causes.old)
        × Keeps period entries.old demand }
    ensures raised { result ≡ true
        → IsRaisedBy period demand entries.old causes.old entries.new causes.new }
{
    let from = entries[demand.step.from as usize];
    let asked = asked(demand, from, period);
    let to = demand.step.to as usize;
    if asked <= entries[to] {
        return false;
    }
    entries[to] = asked;
    causes[to] = Some(demand);
    true
}

// When the second train of a demand can enter at the earliest, where the first enters at `entry`.
fn asked(demand: Demand, entry: i64, period: u64) -> i64
    requires entry { IsEarly entry }
    requires light { IsLight demand.weight }
    requires period { period ≤ 2 ^ 40 }
    ensures { result ≡ entry +ℤ asks period demand }
{
    if demand.step.next {
        return entry + (demand.weight - period as i64);
    }
    entry + demand.weight
}
