//! The plan of a cut by its net.
ghost use Rattle.std.specs.Prelude.{◌≡◌, ◌<◌, [], length, All, IfOk};
ghost use Rattle.std.specs.List.{range_with_len};
ghost use Rattle.plan_model.specs.Members.{member_count, place_count};
ghost use Rattle.plan_model.specs.Disorder.{remaining};
ghost use Rattle.plan_model.specs.Answer.{IsCompressed};
ghost use Rattle.plan_model.specs.Answer as occupied;
ghost use Rattle.plan_model.specs.Schedule.{window_floor};
ghost use Rattle.train_placing.specs.Last.{IsNear};
ghost use Rattle.train_placing.specs.Laid.{HasBoundedTimes};
ghost use Rattle.train_net.specs.Near.{AreNear};
ghost use Rattle.train_net.specs.Read.{AreSolved, AreRead};
ghost use Rattle.train_net.specs.Held.{IsNetOf};

use crate::ends::{last_users, lasts, reversed, spans};
use crate::entering::entries;
use crate::near::Near;
use crate::net::Net;
use crate::tying::ties;
use occupancy_rate::occupancy_of;
use plan_model::{FitCut, Plan};
use rail_model::OutOfMemory;
use std::alloc::Global;
use train_placing::{Placing, plan_of_occupied};

/// The compressed timetable of a cut by its net. Uses are looked at from either end of the order
/// alone, until each place is found; where a block has no train, that is all of them.
pub fn plan_by(alloc: Global, cut: &FitCut, net: &Net) -> Result<Plan, OutOfMemory>
    requires none { remaining cut.now ≡ [] }
    requires net { IsNetOf cut.now net.now }
    ensures compressed { IfOk result (λ plan. IsCompressed cut.now plan) }
    ensures bounded { IfOk result (λ plan. HasBoundedTimes cut.now plan) }
{
    let last = last_users(alloc, cut.sound(), net.order.slice())?;
    let placing = placing(alloc, cut, net, &last)?;
    let kept = occupied(alloc, cut, net, &placing.entries, &last)?;
    plan_of_occupied(
        alloc,
        cut,
        &placing.entries,
        &placing.ties,
        &placing.last,
        kept,
    )
}

// What is known of the trains: their entries and ties, and the last use of each place.
fn placing(
    alloc: Global,
    cut: &FitCut,
    net: &Net,
    last: &[Option<Near>],
) -> Result<Placing, OutOfMemory>
    requires net { IsNetOf cut.now net.now }
    requires last { AreNear cut.now net.now.order (length net.now.order)
        (range_with_len 0 (place_count cut.now)) last.now }
    requires places { length last.now ≡ place_count cut.now }
    ensures near { IfOk result (λ placing. All IsNear placing.entries.items) }
    ensures read { IfOk result (λ placing. AreRead cut.now (window_floor cut.now) net.now.order
        net.now.edges placing.entries.items placing.ties.items placing.last.items) }
{
    let order = net.order.slice();
    let entries = entries(alloc, cut, order, &net.edges)?;
    let ties = ties(alloc, cut, order, &net.edges, &entries)?;
    let last = lasts(alloc, cut.sound(), &entries, last)?;
    Ok(Placing {
        entries,
        ties,
        last,
    })
}

// The occupancy time and the busiest block.
fn occupied(
    alloc: Global,
    cut: &FitCut,
    net: &Net,
    entries: &[i64],
    last: &[Option<Near>],
) -> Result<(u64, Option<u32>), OutOfMemory>
    requires net { IsNetOf cut.now net.now }
    requires last { AreNear cut.now net.now.order (length net.now.order)
        (range_with_len 0 (place_count cut.now)) last.now }
    requires places { length last.now ≡ place_count cut.now }
    requires count { length entries.now ≡ member_count cut.now }
    requires near { All IsNear entries.now }
    requires solved { AreSolved cut.now (window_floor cut.now) net.now.edges entries.now }
    ensures time { IfOk result (λ both. both.0 ≡ occupied.occupancy cut.now entries.now) }
    ensures busiest { IfOk result (λ both. both.1 ≡ occupied.busiest cut.now entries.now) }
{
    let sound = cut.sound();
    let back = reversed(alloc, net.order.slice())?;
    let first = last_users(alloc, sound, &back)?;
    let spans = spans(alloc, sound, entries, &first, last)?;
    Ok(occupancy_of(sound.cut(), &spans))
}
