//! What a ring of demands allows.
ghost use Rattle.std.specs.Prelude.{◌≡◌, ◌<◌, ◌≤◌, ◌+◌, ◌*◌, ◌≤ℤ◌, ◌<ℤ◌, ◌*ℤ◌, ◌+ℤ◌, ◌-ℤ◌, pos, All, length, slice_index_or};
ghost use Rattle.plan_model.specs.declared.limits.TheConstants.{MEMBERS};
ghost use Rattle.cycle_time.specs.Demands.{IsLight};
ghost use Rattle.cycle_time.specs.Rings as rings;

use crate::demand::Demand;

// The least period that a ring allows: the sum of its weights over the number of its demands that
// lead to the next pattern, rounded up.
pub(crate) fn allowed(ring: &[Demand]) -> u64
    requires light { All (λ e. IsLight e.weight) ring.now }
    requires few { length ring.now ≤ MEMBERS }
    requires some { 0 < rings.laps ring.now }
    requires positive { pos 0 <ℤ rings.weights ring.now }
    ensures more { (pos (rings.laps ring.now) *ℤ (pos result -ℤ pos 1))
        <ℤ rings.weights ring.now }
    ensures most { rings.weights ring.now ≤ℤ (pos (rings.laps ring.now) *ℤ pos result) }
    ensures small { result ≤ 200000000000 }
{
    let sum = weights(ring) as u64;
    sum.div_ceil(laps(ring))
}

// The sum of some weights.
fn weights(demands: &[Demand]) -> i64
    requires light { All (λ e. IsLight e.weight) demands.now }
    requires few { length demands.now ≤ MEMBERS }
    ensures is { result ≡ rings.weights demands.now }
    ensures small { result ≤ℤ pos (MEMBERS * 200000000) }
{
    let mut sum = 0;
    for k in 0..demands.len() {
        sum = with_weight(sum, demands, k);
    }
    sum
}

// A sum of weights with that of the demand at position k.
fn with_weight(sum: i64, demands: &[Demand], k: usize) -> i64
    requires above { (pos 0 -ℤ pos 1000000000000) ≤ℤ sum }
    requires below { sum ≤ℤ pos 1000000000000 }
    requires light { All (λ e. IsLight e.weight) demands.now }
    requires there { k < length demands.now }
    ensures { result ≡ sum +ℤ (slice_index_or demands.now k rings.no_demand).weight }
{
    sum + demands[k].weight
}

// How many demands lead to the next pattern.
fn laps(demands: &[Demand]) -> u64
    requires few { length demands.now ≤ MEMBERS }
    ensures { result ≡ rings.laps demands.now }
{
    let mut count = 0;
    for demand in demands {
        count += u64::from(demand.step.next);
    }
    count
}
