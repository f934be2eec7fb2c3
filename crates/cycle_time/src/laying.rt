//! The demands of a cut: on each place from each train to the one that follows it, and on each
//! block from the last to the first of the next pattern. Of demands between the same trains that
//! are laid one after the other only the heaviest stays: who keeps it keeps them all.
ghost use Rattle.std.specs.Prelude.{◌≡◌, ◌+◌, ◌<◌, [], None, Some, IfOk, IfSome, OnOk, length, replicate, slice_index, slice_set, take};
ghost use Rattle.plan_model.specs.Cut.{IsSoundCut};
ghost use Rattle.plan_model.specs.Members.{place_count};
ghost use Rattle.train_order.specs.Laws.{ComesNext};
ghost use Rattle.train_order.specs.Ordering.{IsOrder};
ghost use Rattle.cycle_time.specs.Demands.{AreEnough, IsSpan};
ghost use Rattle.cycle_time.specs.Laying.{AreLaid, ends_at, HaveSpans, IsLedOn, IsLedTo, with_stay as ends_with};

use crate::demand::Demand;
use crate::merging::add;
use crate::stay::{Ends, Stay, demand_to, stay_of, with_stay};
use plan_model::{FitCut, SoundCut};
use rail_model::OutOfMemory;
use std::alloc::Global;

// Demands that are enough: entries that keep them keep all places, whatever the period. They stand
// in the order of the trains to which they lead, an order of the cut, and those to the next
// pattern last.
pub(crate) fn demands_along(
    alloc: Global,
    cut: &FitCut,
    order: &[u32],
) -> Result<Vec<Demand>, OutOfMemory>
    requires { IsOrder cut.now order.now }
    ensures { IfOk result (λ demands. AreEnough cut.now demands.items) }
{
    let sound = cut.sound();
    let mut ends = vec![in alloc; None; sound.place_count() as usize]?;
    let mut demands = Vec::new(alloc);
    lay_all(&mut demands, sound, &mut ends, order)?;
    Ok(demands)
}

// Adds all demands. `ends` has, by the places' positions, the first and the last use of each place
// so far.
fn lay_all(
    demands: &mut Vec<Demand>,
    cut: &SoundCut,
    ends: &mut [Option<Ends>],
    order: &[u32],
) -> Result<(), OutOfMemory>
    requires sound { IsSoundCut cut.now }
    requires order { IsOrder cut.now order.now }
    requires none { demands.old.items ≡ [] }
    requires unused { ends.old ≡ replicate (place_count cut.now) None }
    ensures { OnOk result (AreEnough cut.now demands.new.items) }
{
    lay_in_turn(demands, cut, ends, order)?;
    lay_again(demands, cut, ends, order)?;
    Ok(())
}

// Adds the demands from each train to those that follow it.
fn lay_in_turn(
    demands: &mut Vec<Demand>,
    cut: &SoundCut,
    ends: &mut [Option<Ends>],
    order: &[u32],
) -> Result<(), OutOfMemory>
    requires sound { IsSoundCut cut.now }
    requires order { IsOrder cut.now order.now }
    requires none { demands.old.items ≡ [] }
    requires unused { ends.old ≡ replicate (place_count cut.now) None }
    ensures { OnOk result (AreLaid cut.now order.now demands.new.items ends.new) }
{
    for k in 0..order.len() {
        lay_train(demands, cut, ends, order, k)?;
    }
    Ok(())
}

// Adds the demands to the train at a position of the order: on each of its places from the last
// train so far.
fn lay_train(
    demands: &mut Vec<Demand>,
    cut: &SoundCut,
    ends: &mut [Option<Ends>],
    order: &[u32],
    k: usize,
) -> Result<(), OutOfMemory>
    requires sound { IsSoundCut cut.now }
    requires there { k < length order.now }
    requires next { ComesNext cut.now (take k order.now) (slice_index order.now k) }
    requires laid { AreLaid cut.now (take k order.now) demands.old.items ends.old }
    ensures { OnOk result (AreLaid cut.now (take (k + 1) order.now) demands.new.items ends.new) }
{
    let train = order[k];
    let row = cut.row(train);
    for one in row.uses.slice() {
        let stay = stay_of(train, row.entry, one);
        lay_stay(demands, ends, one.block, stay)?;
    }
    Ok(())
}

// Adds the demand to a train on a place, from the last train so far. The train is the last from
// then on.
fn lay_stay(
    demands: &mut Vec<Demand>,
    ends: &mut [Option<Ends>],
    place: u32,
    stay: Stay,
) -> Result<(), OutOfMemory>
    requires there { place < length ends.old }
    requires seen { IfSome (ends_at ends.old place) HaveSpans }
    requires from { IsSpan stay.from }
    ensures demands { OnOk result
        (IsLedTo (ends_at ends.old place) stay place demands.old.items demands.new.items) }
    ensures ends { OnOk result
        (ends.new ≡ slice_set ends.old place (Some (ends_with (ends_at ends.old place) stay))) }
{
    let seen = ends[place as usize];
    lead_to(demands, seen, stay, place)?;
    ends[place as usize] = Some(with_stay(seen, stay));
    Ok(())
}

// Adds the demand to a train from the last one on a place, if there is one.
fn lead_to(
    demands: &mut Vec<Demand>,
    seen: Option<Ends>,
    stay: Stay,
    place: u32,
) -> Result<(), OutOfMemory>
    requires seen { IfSome seen HaveSpans }
    requires from { IsSpan stay.from }
    ensures { OnOk result (IsLedTo seen stay place demands.old.items demands.new.items) }
{
    if let Some(ends) = seen {
        add(demands, demand_to(ends.last, stay, place, false))?;
    }
    Ok(())
}

// Adds the demands from the last train on each block to the first of the next pattern.
fn lay_again(
    demands: &mut Vec<Demand>,
    cut: &SoundCut,
    ends: &[Option<Ends>],
    order: &[u32],
) -> Result<(), OutOfMemory>
    requires sound { IsSoundCut cut.now }
    requires order { IsOrder cut.now order.now }
    requires laid { AreLaid cut.now order.now demands.old.items ends.now }
    ensures { OnOk result (AreEnough cut.now demands.new.items) }
{
    for block in 0..cut.block_count() {
        lead_on(demands, ends[block as usize], block)?;
    }
    Ok(())
}

// Adds the demand from the last train on a block to the first of the next pattern, if there is one.
fn lead_on(demands: &mut Vec<Demand>, seen: Option<Ends>, block: u32) -> Result<(), OutOfMemory>
    requires { IfSome seen HaveSpans }
    ensures { OnOk result (IsLedOn seen block demands.old.items demands.new.items) }
{
    if let Some(ends) = seen {
        add(demands, demand_to(ends.last, ends.first, block, true))?;
    }
    Ok(())
}
