//! Demands: steps with their weights. A demand asks that the second train enters so much after the first.
ghost use Rattle.std.specs.Prelude.{◌≡◌, ◌+ℤ◌, ◌-ℤ◌, pos};
ghost use Rattle.plan_model.specs.Cut.{IsMoment};
ghost use Rattle.cycle_time.specs.Demands.{demand_on, IsLight, IsSpan};
ghost use Rattle.cycle_time.specs.Laying.{IsVisitOf};

use crate::found::Step;
use plan_model::SoundCut;
use train_order::Visit;

// A step from one train to another, with its weight: how many seconds after the first train the
// second must enter. Where the second is one of the next pattern, the period is taken off that.
#[derive(Clone, Copy)]
pub(crate) struct Demand {
    pub(crate) step: Step,
    pub(crate) weight: i64,
}

// The demand from the train of one visit of a place to that of another.
pub(crate) fn demand_of(cut: &SoundCut, place: u32, one: Visit, other: Visit, next: bool) -> Demand
    requires one { IsVisitOf cut.now place one }
    requires other { IsVisitOf cut.now place other }
    ensures is { result ≡ demand_on cut.now one.member other.member place next }
    ensures light { IsLight result.weight }
{
    let step = Step {
        from: one.member,
        to: other.member,
        block: place,
        next,
    };
    let until = since(cut.row(one.member).entry, end_of(one));
    let from = since(cut.row(other.member).entry, other.start);
    let weight = headway(until, from);
    Demand { step, weight }
}

// When a visit ends.
fn end_of(visit: Visit) -> i64
    requires { IsMoment visit.start }
    ensures { result ≡ visit.start +ℤ pos visit.lasts_s }
{
    visit.start + i64::from(visit.lasts_s)
}

// How long after a train's entry a moment is: seconds.
pub(crate) fn since(entry: i64, time: i64) -> i64
    requires entry { IsMoment entry }
    requires time { IsMoment time }
    ensures is { result ≡ time -ℤ entry }
    ensures span { IsSpan result }
{
    time - entry
}

// How long after one train another must enter: the first ends its use of a place `until` seconds
// after its entry, and the other starts there `from` seconds after its own.
pub(crate) fn headway(until: i64, from: i64) -> i64
    requires until { IsSpan until }
    requires from { IsSpan from }
    ensures is { result ≡ until -ℤ from }
    ensures light { IsLight result }
{
    until - from
}
