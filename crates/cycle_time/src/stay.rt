//! How trains use a place, by their entries.
ghost use Rattle.std.specs.Prelude.{◌≡◌};
ghost use Rattle.plan_model.specs.Cut.{IsMoment};
ghost use Rattle.cycle_time.specs.Demands.{IsLight, IsSpan};
ghost use Rattle.cycle_time.specs.Laying as given;

use crate::demand::{Demand, headway, since};
use crate::found::Step;
use rail_model::Use;

// A stay is a train's use of a place, told by the train's entry: from when until when it keeps the
// place, in seconds after it enters.
#[derive(Clone, Copy)]
pub(crate) struct Stay {
    // The train's position.
    pub(crate) train: u32,
    // When the use starts.
    pub(crate) from: i64,
    // When it ends.
    pub(crate) until: i64,
}

// The first and the last stay on a place, of those that are known so far.
#[derive(Clone, Copy)]
pub(crate) struct Ends {
    pub(crate) first: Stay,
    pub(crate) last: Stay,
}

// The stay of a train that is planned to enter at `entry`, by one of its uses.
pub(crate) fn stay_of(train: u32, entry: i64, one: &Use) -> Stay
    requires entry { IsMoment entry }
    requires starts { IsMoment one.now.start }
    requires ends { IsMoment one.now.«end» }
    ensures is { result ≡ given.stay_by train entry one.now }
    ensures from { IsSpan result.from }
    ensures until { IsSpan result.until }
{
    Stay {
        train,
        from: since(entry, one.start),
        until: since(entry, one.end),
    }
}

// The first and the last stay on a place, with one that comes after them.
pub(crate) fn with_stay(seen: Option<Ends>, stay: Stay) -> Ends
    ensures { result ≡ given.with_stay seen stay }
{
    match seen {
        Some(ends) => Ends {
            first: ends.first,
            last: stay,
        },
        None => Ends {
            first: stay,
            last: stay,
        },
    }
}

// The demand from the train of one stay on a place to that of another.
pub(crate) fn demand_to(one: Stay, other: Stay, place: u32, next: bool) -> Demand
    requires until { IsSpan one.until }
    requires from { IsSpan other.from }
    ensures is { result ≡ given.demand_to one other place next }
    ensures light { IsLight result.weight }
{
    let step = Step {
        from: one.train,
        to: other.train,
        block: place,
        next,
    };
    let weight = headway(one.until, other.from);
    Demand { step, weight }
}
