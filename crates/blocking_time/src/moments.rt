//! The moments of a run at one block, from which its blocking is made.

ghost use Rattle.std.specs.Prelude.{◌≡◌, ◌≤◌, ◌<◌, ◌+◌, ◌-◌, ◌-ℤ◌, ◌+ℤ◌, pos, fold};
ghost use Rattle.rail_model.specs.Blocking.{hop_count, Fits, IsHopWithin, clearing_moment, parts as parts_of, blocking_start, blocking_end};
ghost use Rattle.blocking_time.specs.Mark.{IsMarkWithin};
ghost use Rattle.blocking_time.specs.Moments.{moments_of, use_by, parts_by, AreBounded};

use crate::approach;
use crate::motion::{self, GREATEST_REACH_S, Mark};
use rail_model::{Hop, Path, Use};

// The moments of a run at one block: seconds from the timetable's origin.
#[derive(Clone, Copy)]
pub(crate) struct Moments {
    // When the head comes to the approach point or, later, leaves its last stop beyond it.
    pub(crate) approach_s: u64,
    // When the head passes the block's signal.
    pub(crate) entry_s: u64,
    // When the head leaves the block's end, after the dwell.
    pub(crate) exit_s: u64,
    // When the rear has cleared the block and its overlap.
    pub(crate) clearing_s: u64,
}

// The use of a block, from the forming of its route to its release.
#[inline]
pub(crate) fn use_at(moments: Moments, hop: &Hop) -> Use
    requires bounded { AreBounded moments }
    requires within { IsHopWithin hop.now }
    ensures { result ≡ use_by moments hop.now }
{
    Use {
        block: hop.block,
        start: moments.approach_s as i64 - i64::from(hop.watch_s) - i64::from(hop.form_s),
        end: moments.clearing_s as i64 + i64::from(hop.release_s),
    }
}

// The six parts of the use of a block, in seconds: form, watch, approach, running, clearing,
// release.
pub(crate) fn parts_at(moments: Moments, hop: &Hop) -> [i64; 6]
    requires bounded { AreBounded moments }
    requires within { IsHopWithin hop.now }
    ensures { result ≡ parts_by moments hop.now }
{
    let approach_s = moments.approach_s as i64;
    let entry_s = moments.entry_s as i64;
    let exit_s = moments.exit_s as i64;
    let clearing_s = moments.clearing_s as i64;
    [
        i64::from(hop.form_s),
        i64::from(hop.watch_s),
        entry_s - approach_s,
        exit_s - entry_s,
        clearing_s - exit_s,
        i64::from(hop.release_s),
    ]
}

// Where the head stands when the rear has cleared a block and its overlap: metres from the path's
// start.
#[inline]
pub(crate) fn clearing_place(mark: Mark, hop: &Hop, length_m: u32) -> u64
    requires { IsMarkWithin mark }
    ensures { result ≡ mark.place_m + hop.now.overlap_m + length_m }
{
    mark.place_m + u64::from(hop.overlap_m) + u64::from(length_m)
}

// When the end of the path is clear: the tail after the last arrival, since the run ends without a
// dwell.
#[inline]
pub(crate) fn tail_end(path: &Path, last: Mark) -> u64
    requires bounded { IsMarkWithin last }
    requires fits { Fits path.now }
    ensures moment { result ≡ last.departure_s + path.now.tail_s }
    ensures bounded { result ≤ GREATEST_REACH_S }
{
    last.departure_s + u64::from(path.tail_s)
}

// The clearing moment of the k-th block, from 1: when the head comes to the clearing place,
// rounded up or, where the path ends before it, the tail after the last arrival.
fn clearing_seconds(path: &Path, k: usize) -> u64
    requires fits { Fits path.now }
    requires some { 1 ≤ k }
    requires on_path { k ≤ hop_count path.now }
    ensures moment { result ≡ clearing_moment path.now k }
    ensures bounded { result ≤ GREATEST_REACH_S }
{
    let hop = motion::hop_at(path, k);
    let mark = motion::mark_at(path, k);
    let last = motion::mark_at(path, path.hops.len());
    let place_m = clearing_place(mark, hop, path.length_m);
    if place_m <= last.place_m {
        motion::seconds_at(path, place_m)
    } else {
        tail_end(path, last)
    }
}

// The moments of the run at the k-th block, from 1.
fn moments_at(path: &Path, k: usize) -> Moments
    requires fits { Fits path.now }
    requires some { 1 ≤ k }
    requires on_path { k ≤ hop_count path.now }
    ensures moments { result ≡ moments_of path.now k }
    ensures bounded { AreBounded result }
{
    Moments {
        approach_s: approach::approach_seconds(path, k),
        entry_s: motion::mark_at(path, k - 1).departure_s,
        exit_s: motion::mark_at(path, k).departure_s,
        clearing_s: clearing_seconds(path, k),
    }
}

/// The six parts of the run's blocking of the k-th block, from 1, in seconds: Pachl's route
/// formation, signal watching, approach, running (here with the dwell), clearing and release.
///
/// For one block alone, as where a single number is checked: `blockings` has all blocks in one
/// walk.
pub fn parts(path: &Path, k: u32) -> [i64; 6]
    requires fits { Fits path.now }
    requires some { 1 ≤ k }
    requires on_path { k ≤ hop_count path.now }
    ensures same { result ≡ parts_of path.now k }
    ensures sum { fold ◌+ℤ◌ (pos 0) result ≡ blocking_end path.now k -ℤ blocking_start path.now k }
{
    let hop = motion::hop_at(path, k as usize);
    parts_at(moments_at(path, k as usize), hop)
}
