//! The answer of a cut.
ghost use Rattle.std.specs.Prelude.{◌≡◌, ◌≤◌, IfOk, []};
ghost use Rattle.plan_model.specs.declared.limits.TheConstants.{MEMBERS};
ghost use Rattle.plan_model.specs.Cut.{IsSoundCut};
ghost use Rattle.plan_model.specs.Members.{member_count};
ghost use Rattle.plan_model.specs.Answer.{IsAnswer, IsCompressed};
ghost use Rattle.plan_model.specs.Disorder.{remaining};
ghost use Rattle.train_order.specs.Ordering.{IsOrder};
ghost use Rattle.train_placing.specs.Laid.{HasBoundedTimes};
ghost use Rattle.compression.specs.Promise.{IsTaken, OnPlan, HasNoneLater, ReachesToClosing, ReachesEachClosing};

use plan_model::{Answer, Cut, FitCut, Plan, Rows, is_crowded};
use rail_model::OutOfMemory;
use std::alloc::Global;
use train_order::order;
use train_placing::{place_in_window, plan_of_placed};

/// The answer of a reading's cut, from scratch.
///
/// It is `Crowded` exactly where the cut has more than `MEMBERS` members; else `Opposite` exactly
/// where two trains each precede the other somewhere; else `Ring` exactly where trains remain when
/// each that no other precedes is taken out, again and again; else it is the compressed timetable,
/// in which no train enters later than in any timetable that keeps running times, dwell times,
/// connections and the given order, lets no two trains use a place at one time, and lets no train
/// enter before the window. Where the planned timetable is free of conflict and keeps its
/// connections, no train enters later than planned. It takes nothing of a crowded cut and else the
/// whole cut, once, also where memory runs out.
pub fn answer<R: Rows>(alloc: Global, reading: &mut R) -> Result<Answer, OutOfMemory>
    ensures answer { IfOk result (λ answer. IsAnswer (R.shown reading.old).cut answer) }
    ensures reading { IsTaken (R.shown reading.old) (R.shown reading.new) }
    ensures not_later { IfOk result (λ answer.
        OnPlan answer (HasNoneLater (R.shown reading.old).cut)) }
    ensures to_closing { IfOk result (λ answer.
        OnPlan answer (ReachesToClosing (R.shown reading.old).cut)) }
    ensures at_least_closing { IfOk result (λ answer.
        OnPlan answer (ReachesEachClosing (R.shown reading.old).cut)) }
    ensures within { IfOk result (λ answer.
        OnPlan answer (HasBoundedTimes (R.shown reading.old).cut)) }
{
    let count = reading.count();
    if is_crowded(count) {
        return Ok(Answer::Crowded { count });
    }
    answer_of_cut(alloc, reading.whole())
}

/// The answer of a cut with at most `MEMBERS` members, from scratch: as `answer` says of a cut that
/// isn't crowded.
pub fn answer_of_cut(alloc: Global, cut: &Cut) -> Result<Answer, OutOfMemory>
    requires sound { IsSoundCut cut.now }
    requires few { member_count cut.now ≤ MEMBERS }
    ensures answer { IfOk result (λ answer. IsAnswer cut.now answer) }
    ensures not_later { IfOk result (λ answer. OnPlan answer (HasNoneLater cut.now)) }
    ensures to_closing { IfOk result (λ answer. OnPlan answer (ReachesToClosing cut.now)) }
    ensures at_least_closing { IfOk result (λ answer.
        OnPlan answer (ReachesEachClosing cut.now)) }
    ensures within { IfOk result (λ answer. OnPlan answer (HasBoundedTimes cut.now)) }
{
    match order(alloc, cut)? {
        Ok(found) => {
            let plan = plan(alloc, &FitCut::of(cut), found.positions.slice())?;
            Ok(Answer::Ordered(plan))
        }
        Err(disorder) => Ok(disorder.into_answer()),
    }
}

// The compressed timetable of a cut whose trains have an order.
fn plan(alloc: Global, cut: &FitCut, order: &[u32]) -> Result<Plan, OutOfMemory>
    requires none { remaining cut.now ≡ [] }
    requires order { IsOrder cut.now order.now }
    ensures compressed { IfOk result (λ plan. IsCompressed cut.now plan) }
    ensures bounded { IfOk result (λ plan. HasBoundedTimes cut.now plan) }
{
    let placing = place_in_window(alloc, cut, order)?;
    plan_of_placed(alloc, cut, &placing.entries, &placing.ties, &placing.last)
}
