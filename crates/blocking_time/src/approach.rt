//! When the head comes to the point from which the driver must see a block's signal clear.

ghost use Rattle.std.specs.Prelude.{◌≡◌, ◌≤◌, ◌<◌, ◌-◌, ◌≤ℤ◌, pos, max, nat_lt, nat_le, if◌then◌else◌};
ghost use Rattle.rail_model.specs.Blocking.{hop_count, Fits, approach_moment as moment_of};
ghost use Rattle.rail_model.specs.Moment.{IsMoment};
ghost use Rattle.blocking_time.specs.Mark.{stop_mark, no_stop, IsMarkWithin};

use crate::motion::{self, GREATEST_REACH_S, Mark};
use rail_model::{Hop, Path};

// Stands where the train has not stopped yet.
pub(crate) fn no_stop_yet() -> Mark
    ensures { result ≡ no_stop }
{
    Mark {
        place_m: 0,
        departure_s: 0,
    }
}

// The last stop once a block is passed: its end, which has this mark, where the train stops there,
// and else the stop before.
#[inline]
pub(crate) fn stop_after(stop: Mark, mark: Mark, hop: &Hop) -> Mark
    ensures { result ≡ (if nat_lt 0 hop.now.dwell_s then mark else stop) }
{
    if hop.dwell_s > 0 { mark } else { stop }
}

// The mark of the last stop among the ends of the first k blocks.
fn last_stop(path: &Path, k: usize) -> Mark
    requires fits { Fits path.now }
    requires on_path { k ≤ hop_count path.now }
    ensures mark { result ≡ stop_mark path.now k }
    ensures bounded { IsMarkWithin result }
{
    let mut mark = motion::first_mark(path);
    let mut stop = no_stop_yet();
    for hop in &path.hops.slice()[..k] {
        mark = motion::next_mark(mark, hop);
        stop = stop_after(stop, mark, hop);
    }
    stop
}

// The later of the moment at which the head comes to a point and, where the last stop isn't before
// the point, the departure from that stop: seconds from the timetable's origin.
#[inline]
pub(crate) fn after_stop(reached_s: u64, point_m: u64, stop: Mark) -> u64
    ensures { result
        ≡ (if nat_le point_m stop.place_m then max reached_s stop.departure_s else reached_s) }
{
    if point_m <= stop.place_m {
        reached_s.max(stop.departure_s)
    } else {
        reached_s
    }
}

/// The approach moment of the k-th block, from 1, at which Pachl's approach time begins: when the
/// head comes to the approach point or, later, leaves its last stop beyond it. Seconds from the
/// timetable's origin, rounded down.
///
/// For one block alone, as where a single number is checked: `blockings` has all blocks in one
/// walk.
pub fn approach_moment(path: &Path, k: u32) -> i64
    requires fits { Fits path.now }
    requires some { 1 ≤ k }
    requires on_path { k ≤ hop_count path.now }
    ensures moment { result ≡ pos (moment_of path.now k) }
    ensures bounded { IsMoment result }
{
    approach_seconds(path, k as usize) as i64
}

// `approach_moment` as a number without a sign.
pub(crate) fn approach_seconds(path: &Path, k: usize) -> u64
    requires fits { Fits path.now }
    requires some { 1 ≤ k }
    requires on_path { k ≤ hop_count path.now }
    ensures moment { result ≡ moment_of path.now k }
    ensures bounded { result ≤ GREATEST_REACH_S }
{
    let hop = motion::hop_at(path, k);
    let entry = motion::mark_at(path, k - 1);
    let point_m = entry.place_m.saturating_sub(u64::from(hop.approach_m));
    let reached_s = motion::seconds_down_at(path, point_m);
    let stop = last_stop(path, k - 1);
    after_stop(reached_s, point_m, stop)
}
