//! Entries are raised until they repeat in a period, or a ring refuses it.
ghost use Rattle.std.specs.Prelude.{◌≡◌, ◌<◌, ◌≤◌, ◌^◌, ◌≤ℤ◌, ◌<ℤ◌, pos, true, false, IfOk, IfSome, length, replicate, None, All, []};
ghost use Rattle.plan_model.specs.Schedule.{window_start, entry_at};
ghost use Rattle.plan_model.specs.Members.{member_count};
ghost use Rattle.plan_model.specs.Cut.{IsSoundCut};
ghost use Rattle.plan_model.specs.Disorder.{remaining};
ghost use Rattle.plan_model.specs.declared.limits.TheConstants.{MEMBERS};
ghost use Rattle.cycle_time.specs.declared.settling.TheConstants as constants;
ghost use Rattle.cycle_time.specs.Demands.{AreEnough, IsDemand};
ghost use Rattle.cycle_time.specs.Raising.{AreEarly, AreRaised, IsRound};
ghost use Rattle.cycle_time.specs.Rings.{IsSettling};

use crate::demand::Demand;
use crate::raising::raise;
use crate::trail::ring_behind;
use plan_model::FitCut;
use rail_model::{List, OutOfMemory};
use std::alloc::Global;

// What comes of trying a period.
#[derive(Drop)]
pub(crate) enum Settled {
    // The least entries that repeat in it.
    Repeats(List<i64>),
    // Demands that refuse it, each from the train to which the next leads: they ask for more than
    // their patterns take.
    Refused(List<Demand>),
}

// The least entries that repeat in a period, or a ring that refuses it. No period that a ring
// allows is above 200,000,000,000 s, which is less than 2^40: sums with it stay far within 64 bits.
pub(crate) fn settle(
    alloc: Global,
    cut: &FitCut,
    demands: &[Demand],
    period: u64,
) -> Result<Settled, OutOfMemory>
    requires none { remaining cut.now ≡ [] }
    requires enough { AreEnough cut.now demands.now }
    requires period { period ≤ 2 ^ 40 }
    ensures { IfOk result (λ settled. IsSettling cut.now period settled) }
{
    let count = cut.member_count() as usize;
    let mut entries = at_start(alloc, cut.sound().window_start(), count)?;
    let mut causes = no_causes(alloc, count)?;
    settle_from(alloc, cut, demands, period, &mut entries, &mut causes)
}

// The least entries that repeat in a period, or a ring that refuses it, by raising entries that
// were raised so far.
fn settle_from(
    alloc: Global,
    cut: &FitCut,
    demands: &[Demand],
    period: u64,
    entries: &mut [i64],
    causes: &mut [Option<Demand>],
) -> Result<Settled, OutOfMemory>
    requires sound { IsSoundCut cut.now }
    requires few { member_count cut.now ≤ MEMBERS }
    requires none { remaining cut.now ≡ [] }
    requires enough { AreEnough cut.now demands.now }
    requires period { period ≤ 2 ^ 40 }
    requires raised { AreRaised cut.now period entries.old causes.old }
    requires early { AreEarly entries.old }
    ensures { IfOk result (λ settled. IsSettling cut.now period settled) }
{
    while let Some(top) = round(cut, demands, entries, causes, period) {
        if let Some(ring) = ring_behind(alloc, causes, top)? {
            return Ok(Settled::Refused(ring));
        }
    }
    Ok(Settled::Repeats(list_of(alloc, entries)?))
}

// The entries as a list.
fn list_of(alloc: Global, entries: &[i64]) -> Result<List<i64>, OutOfMemory>
    ensures { IfOk result (λ list. list ≡ entries.now) }
{
    Ok(List::from_vec(Vec::from_slice(alloc, entries)?))
}

fn at_start(alloc: Global, start: i64, count: usize) -> Result<Vec<i64>, OutOfMemory>
    ensures { IfOk result (λ entries. entries.items ≡ replicate count start) }
{
    Ok(vec![in alloc; start; count]?)
}

fn no_causes(alloc: Global, count: usize) -> Result<Vec<Option<Demand>>, OutOfMemory>
    ensures { IfOk result (λ causes. causes.items ≡ replicate count None) }
{
    Ok(vec![in alloc; None; count]?)
}

// Raises along each demand once, and tells which of the raised trains enters last. It stops at a
// train that is raised past `LATEST`: then the causes behind it come to a ring.
fn round(
    cut: &FitCut,
    demands: &[Demand],
    entries: &mut [i64],
    causes: &mut [Option<Demand>],
    period: u64,
) -> Option<u32>
    requires demands { All (IsDemand cut.now) demands.now }
    requires raised { AreRaised cut.now period entries.old causes.old }
    requires early { AreEarly entries.old }
    requires period { period ≤ 2 ^ 40 }
    ensures raised { AreRaised cut.now period entries.new causes.new }
    ensures round { IsRound period demands.now entries.old entries.new result }
{
    let mut top = None;
    for demand in demands {
        if raise(entries, causes, *demand, period) {
            let to = demand.step.to;
            if is_late(entries, to) {
                return Some(to);
            }
            top = Some(later(entries, top, to));
        }
    }
    top
}

// Whether a train enters later than `LATEST`.
fn is_late(entries: &[i64], train: u32) -> bool
    requires there { train < length entries.now }
    ensures late { result ≡ true → constants.LATEST <ℤ entry_at entries.now train }
    ensures early { result ≡ false → entry_at entries.now train ≤ℤ constants.LATEST }
{
    entries[train as usize] > LATEST
}

// Of the latest train so far, if there is one, and of one train more the one that enters later.
// Any raised train would do: how soon a ring is found and which one is told depends on the choice,
// and both are free.
fn later(entries: &[i64], top: Option<u32>, train: u32) -> u32
    requires there { train < length entries.now }
    requires top { IfSome top (λ t. t < length entries.now) }
    ensures { result < length entries.now }
{
    match top {
        Some(top) => {
            if entries[top as usize] < entries[train as usize] {
                train
            } else {
                top
            }
        }
        None => train,
    }
}

// Seconds: 2^40. No train enters later unless the causes behind it come to a ring. Without a ring
// it is raised along a path of fewer than `MEMBERS` demands from a train at the window's start, and
// no demand asks for more than 200,000,000 s: that is less than 2^38. Sums with 2^40 stay far
// within 64 bits.
const LATEST: i64 = 1_099_511_627_776;
