//! The net that is held beside kept rows, with the names of the places of which it speaks.
ghost use Rattle.std.specs.Prelude.{◌≡◌, ◌≤◌, length, IfOk, IfSome, Ok};
ghost use Rattle.std.specs.Prelude.{count_by, is_none};
ghost use Rattle.plan_model.specs.declared.limits.TheConstants.{MEMBERS};
ghost use Rattle.plan_model.specs.Cut.{IsSoundCut};
ghost use Rattle.plan_model.specs.Members.{member_count};
ghost use Rattle.plan_model.specs.Answer.{IsAnswer};
ghost use Rattle.train_order.specs.Ordering.{IsOrdering};
ghost use Rattle.plan_repair.specs.Held.{IsHeldOf, IsHeldBefore};

use plan_model::{Answer, Cut, FitCut, SoundCut};
use rail_model::{Names, OutOfMemory};
use std::alloc::Global;
use train_net::{Net, mend, net_of, plan_by};
use train_order::order;

// A net, and the names of its cut's places.
#[derive(Drop)]
pub(crate) struct HeldNet {
    net: Net,
    places: Names,
}

// The answer of a cut, and the net that is held of it. `origin` has, for each row of the cut,
// where it stood in the cut of the net that was held before, if it is kept.
//
// Where at most a quarter of the rows is fresh, the net that was held is mended, if it can be;
// else one is made anew, if the trains have an order. No clause says when one is held: without one
// the next answer is made anew.
pub(crate) fn answer_held(
    alloc: Global,
    cut: &Cut,
    held: Option<HeldNet>,
    origin: &[Option<u32>],
) -> Result<(Answer, Option<HeldNet>), OutOfMemory>
    requires sound { IsSoundCut cut.now }
    requires few { member_count cut.now ≤ MEMBERS }
    requires count { length origin.now ≡ member_count cut.now }
    requires held { IfSome held (IsHeldBefore cut.now origin.now) }
    ensures answer { IfOk result (λ both. IsAnswer cut.now both.0) }
    ensures held { IfOk result (λ both. IfSome both.1 (IsHeldOf cut.now)) }
{
    match mended(alloc, &SoundCut::of(cut), held, origin)? {
        Some(held) => by_net(alloc, cut, held),
        None => anew(alloc, cut),
    }
}

// The answer by a net that is made anew, if there is an order.
fn anew(alloc: Global, cut: &Cut) -> Result<(Answer, Option<HeldNet>), OutOfMemory>
    requires sound { IsSoundCut cut.now }
    requires few { member_count cut.now ≤ MEMBERS }
    ensures answer { IfOk result (λ both. IsAnswer cut.now both.0) }
    ensures held { IfOk result (λ both. IfSome both.1 (IsHeldOf cut.now)) }
{
    match order(alloc, cut)? {
        Ok(found) => {
            let sound = SoundCut::of(cut);
            let places = sound.place_names(alloc)?;
            let net = net_of(alloc, &sound, found.positions)?;
            by_net(alloc, cut, HeldNet { net, places })
        }
        Err(disorder) => Ok((disorder.into_answer(), None)),
    }
}

// The answer by a net that is held.
fn by_net(alloc: Global, cut: &Cut, held: HeldNet) -> Result<(Answer, Option<HeldNet>), OutOfMemory>
    requires sound { IsSoundCut cut.now }
    requires few { member_count cut.now ≤ MEMBERS }
    requires order { IsOrdering cut.now (Ok (record { positions = held.net.order })) }
    requires held { IsHeldOf cut.now held }
    ensures answer { IfOk result (λ both. IsAnswer cut.now both.0) }
    ensures held { IfOk result (λ both. IfSome both.1 (IsHeldOf cut.now)) }
{
    let plan = plan_by(alloc, &FitCut::of(cut), &held.net)?;
    Ok((Answer::Ordered(plan), Some(held)))
}

// What was held before, mended to what is held of a cut: if at most a quarter of the rows is fresh,
// the places are the same, and it can be. `None` says nothing: the net is made anew.
fn mended(
    alloc: Global,
    cut: &SoundCut,
    held: Option<HeldNet>,
    origin: &[Option<u32>],
) -> Result<Option<HeldNet>, OutOfMemory>
    requires few { member_count cut.now ≤ MEMBERS }
    requires count { length origin.now ≡ member_count cut.now }
    requires held { IfSome held (IsHeldBefore cut.now origin.now) }
    ensures held { IfOk result (λ r. IfSome r (IsHeldOf cut.now)) }
    ensures order { IfOk result (λ r. IfSome r (λ held.
        IsOrdering cut.now (Ok (record { positions = held.net.order })))) }
{
    match held {
        Some(held) => {
            if 4 * fresh_count(origin) > origin.len() || !cut.are_places(&held.places) {
                return Ok(None);
            }
            let HeldNet { net, places } = held;
            match mend(alloc, cut, &net, origin)? {
                Some(net) => Ok(Some(HeldNet { net, places })),
                None => Ok(None),
            }
        }
        None => Ok(None),
    }
}

// How many rows are fresh.
fn fresh_count(origin: &[Option<u32>]) -> usize
    ensures { result ≡ count_by is_none origin.now }
{
    origin.iter().filter(|one| one.is_none()).count()
}
