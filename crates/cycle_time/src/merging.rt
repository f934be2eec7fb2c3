//! Demands to which one is added.
ghost use Rattle.std.specs.Prelude.{◌≡◌, ◌⊎◌, ◌≤ℤ◌, true, OnOk};
ghost use Rattle.cycle_time.specs.Laying.{AreBetweenSame, IsAdded};

use crate::demand::Demand;
use rail_model::OutOfMemory;

// Adds a demand. Where the last one is between the same trains, the heavier of the two stands in
// its place.
pub(crate) fn add(demands: &mut Vec<Demand>, demand: Demand) -> Result<(), OutOfMemory>
    ensures { OnOk result (IsAdded demands.old.items demands.new.items demand) }
{
    let count = demands.len();
    if 0 < count && are_between_same(demands[count - 1], demand) {
        demands[count - 1] = heavier(demands[count - 1], demand);
        return Ok(());
    }
    demands.push(demand)?;
    Ok(())
}

// Whether demands are between the same trains, of the same patterns. `false` says nothing: then
// both demands stay.
fn are_between_same(one: Demand, other: Demand) -> bool
    ensures { result ≡ true → AreBetweenSame one other }
{
    one.step.from == other.step.from
        && one.step.to == other.step.to
        && one.step.next == other.step.next
}

// The heavier of two demands between the same trains. Of two that are equally heavy either may
// stay: who keeps one keeps the other. Which of them a ring tells is free.
fn heavier(one: Demand, other: Demand) -> Demand
    ensures either { (result ≡ one) ⊎ (result ≡ other) }
    ensures one { one.weight ≤ℤ result.weight }
    ensures other { other.weight ≤ℤ result.weight }
{
    if one.weight < other.weight {
        other
    } else {
        one
    }
}
