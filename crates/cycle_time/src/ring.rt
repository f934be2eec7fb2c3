//! Whether a ring refuses each period below one.
ghost use Rattle.std.specs.Prelude.{◌≡◌, ◌≢◌, ◌<◌, ◌≤◌, ◌↔◌, ◌^◌, ◌≤ℤ◌, ◌+ℤ◌, ◌-ℤ◌, pos, All, AllPairs, IsTrue, length, slice_index_or};
ghost use Rattle.cycle_time.specs.Checking.{Differs, IsMore};
ghost use Rattle.cycle_time.specs.Cycle as rings;
ghost use Rattle.cycle_time.specs.Cycle.{IsRing, IsStep, Leads, Refuses};

use crate::found::Step;
use crate::steps::{leads_on, weight};
use plan_model::SoundCut;

// Whether a ring refuses each period below this one.
pub(crate) fn refuses(cut: &SoundCut, period: u64, ring: &[Step]) -> bool
    ensures { IsTrue result ↔ Refuses cut.now period ring.now }
{
    if !is_ring(cut, ring) {
        return false;
    }
    let count = patterns(ring);
    0 < count && asks_for_more(total(cut, ring), count, period)
}

// Whether steps lead back to the first train, visit no train twice, and begin with the least.
fn is_ring(cut: &SoundCut, ring: &[Step]) -> bool
    ensures { IsTrue result ↔ IsRing cut.now ring.now }
{
    let first = first_train(ring);
    goes_round(cut, first, ring) && visits_once(ring) && begins_with_least(first, ring)
}

fn first_train(ring: &[Step]) -> u32
    ensures { result ≡ rings.first_train ring.now }
{
    if ring.is_empty() { 0 } else { ring[0].from }
}

// Whether steps lead from a train back to it.
fn goes_round(cut: &SoundCut, first: u32, ring: &[Step]) -> bool
    ensures { IsTrue result ↔ Leads cut.now first ring.now first }
{
    let mut train = first;
    for k in 0..ring.len() {
        let step = ring[k];
        if !leads_on(cut, train, step) {
            return false;
        }
        train = step.to;
    }
    train == first
}

// Whether no train is visited twice. Where all steps are between members, one that comes again is
// found among the first steps, one more than there are members, however many steps there are.
fn visits_once(ring: &[Step]) -> bool
    ensures { IsTrue result ↔ AllPairs (λ s t. s.to ≢ t.to) ring.now }
{
    for k in 0..ring.len() {
        if !differs(ring, k) {
            return false;
        }
    }
    true
}

// Whether the train that a step leads to is none to which an earlier one leads.
fn differs(ring: &[Step], k: usize) -> bool
    requires { k < length ring.now }
    ensures { IsTrue result ↔ Differs ring.now k }
{
    for j in 0..k {
        if ring[j].to == ring[k].to {
            return false;
        }
    }
    true
}

fn begins_with_least(first: u32, ring: &[Step]) -> bool
    ensures { IsTrue result ↔ All (λ s. first ≤ s.to) ring.now }
{
    for k in 0..ring.len() {
        if !is_from(ring, k, first) {
            return false;
        }
    }
    true
}

// Whether the train to which the step at position k leads isn't less than the first.
fn is_from(ring: &[Step], k: usize, first: u32) -> bool
    requires { k < length ring.now }
    ensures { IsTrue result ↔ (first ≤ (slice_index_or ring.now k rings.no_step).to) }
{
    first <= ring[k].to
}

// How many steps lead to the next pattern.
fn patterns(ring: &[Step]) -> u64
    ensures is { result ≡ rings.patterns ring.now }
    ensures most { result < 2 ^ 63 }
{
    let mut count = 0;
    for step in ring {
        count += u64::from(step.next);
    }
    count
}

// The sum of the weights of all steps: how long the ring asks for in all.
fn total(cut: &SoundCut, ring: &[Step]) -> i128
    requires { All (IsStep cut.now) ring.now }
    ensures { result ≡ rings.total cut.now ring.now }
{
    let mut sum = 0;
    for k in 0..ring.len() {
        sum = with_weight(sum, weight(cut, ring[k]));
    }
    sum
}

// A sum of weights with one more.
fn with_weight(sum: i128, weight: i64) -> i128
    requires above { (pos 0 -ℤ pos (2 ^ 120)) ≤ℤ sum }
    requires below { sum ≤ℤ pos (2 ^ 120) }
    ensures { result ≡ sum +ℤ weight }
{
    sum + i128::from(weight)
}

// Whether a sum is more than so many patterns take in each lesser period.
fn asks_for_more(sum: i128, count: u64, period: u64) -> bool
    requires { count < 2 ^ 63 }
    ensures { IsTrue result ↔ IsMore sum count period }
{
    i128::from(count) * (i128::from(period) - 1) < sum
}
