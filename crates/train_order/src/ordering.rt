//! The order of a cut's trains, or their disorder.
ghost use Rattle.std.specs.Prelude.{◌≡◌, ◌≤◌, IfOk, Some, Err};
ghost use Rattle.std.specs.List.Sorted.{IsPermutation};
ghost use Rattle.plan_model.specs.declared.limits.TheConstants.{MEMBERS};
ghost use Rattle.plan_model.specs.Members.{member_count, members};
ghost use Rattle.plan_model.specs.Cut.{IsSoundCut};
ghost use Rattle.plan_model.specs.Disorder.{opposite_pair};
ghost use Rattle.train_order.specs.Ordering.{IsOrdering, TellsWithoutSets};
ghost use Rattle.train_order.specs.OutOfTurn.{KeepTurn};

use crate::disorder::find_disorder;
use crate::entry_order::by_entry;
use crate::found::Order;
use crate::member_set::MemberSet;
use crate::out_of_turn::out_of_turn;
use crate::pairs::{first_pair, pair_of_first};
use crate::precedence::precedence_sets;
use crate::taking::take_up_all;
use crate::told::{opposite, tell};
use plan_model::{Cut, Disorder, FitCut, MEMBERS, SoundCut};
use rail_model::{List, OutOfMemory};
use std::alloc::Global;

// What is found without sets: the cut's order, that two trains are opposite, or nothing, so that
// the slow way follows.
#[derive(Drop)]
pub(crate) enum WithoutSets {
    Order(Order),
    Opposite(Disorder),
    Unknown,
}

/// The order in time of a cut's trains: each position once, and each train after all that precede
/// it at some place.
///
/// The answer is `Opposite` exactly where two trains are opposite; else `Ring` exactly where
/// trains remain when, again and again, each that no remaining train precedes is taken out; else
/// it is an order. Each error tells exactly the trains and places of the definition.
pub fn order(alloc: Global, cut: &Cut) -> Result<Result<Order, Disorder>, OutOfMemory>
    requires sound { IsSoundCut cut.now }
    requires few { member_count cut.now ≤ MEMBERS }
    ensures { IfOk result (λ answer. IsOrdering cut.now answer) }
{
    let cut = FitCut::of(cut);
    // Where few trains are out of turn, or one of the first is opposite to another, no sets are
    // needed.
    match answer_without_sets(alloc, cut.sound())? {
        WithoutSets::Order(order) => return Ok(Ok(order)),
        WithoutSets::Opposite(told) => return Ok(Err(told)),
        WithoutSets::Unknown => {}
    }
    let sets = precedence_sets(alloc, &cut)?;
    let taken = take_up_all(&sets);
    if taken.len() == sets.len() {
        let positions = List::from_vec(Vec::from_slice(alloc, taken.slice())?);
        return Ok(Ok(Order { positions }));
    }
    let told = tell(alloc, cut.sound(), &find_disorder(&sets, taken.slice()))?;
    Ok(Err(told))
}

// The order of the trains by their entries, where each place keeps it; or that two are opposite,
// where few trains are out of turn, or one of the two is among the first, and it is so.
fn answer_without_sets(alloc: Global, cut: &SoundCut) -> Result<WithoutSets, OutOfMemory>
    requires { member_count cut.now ≤ MEMBERS }
    ensures { IfOk result (TellsWithoutSets cut.now) }
{
    let positions = by_entry(alloc, cut)?;
    match out_of_turn(alloc, cut, &positions)? {
        Some(apart) => by_turn(alloc, cut, positions, &apart),
        None => by_first(alloc, cut),
    }
}

// That two trains are opposite, if one of the first is opposite to another.
fn by_first(alloc: Global, cut: &SoundCut) -> Result<WithoutSets, OutOfMemory>
    ensures { IfOk result (TellsWithoutSets cut.now) }
{
    match pair_of_first(alloc, cut)? {
        Some(pair) => Ok(WithoutSets::Opposite(told_pair(cut, pair))),
        None => Ok(WithoutSets::Unknown),
    }
}

// The order, where no member is out of turn along it; else that two trains are opposite, if it is
// so.
fn by_turn(
    alloc: Global,
    cut: &SoundCut,
    positions: Vec<u32>,
    apart: &MemberSet,
) -> Result<WithoutSets, OutOfMemory>
    requires few { member_count cut.now ≤ MEMBERS }
    requires once { IsPermutation (members cut.now) positions.items }
    requires turn { KeepTurn cut.now positions.items apart.now.words }
    ensures { IfOk result (TellsWithoutSets cut.now) }
{
    if apart.is_above(cut.member_count()) {
        let positions = List::from_vec(positions);
        return Ok(WithoutSets::Order(Order { positions }));
    }
    match first_pair(alloc, cut, apart)? {
        Some(pair) => Ok(WithoutSets::Opposite(told_pair(cut, pair))),
        None => Ok(WithoutSets::Unknown),
    }
}

// What is told of the least opposite pair.
fn told_pair(cut: &SoundCut, pair: (u32, u32)) -> Disorder
    requires { opposite_pair cut.now ≡ Some pair }
    ensures { IsOrdering cut.now (Err result) }
{
    opposite(cut, pair.0, pair.1)
}
