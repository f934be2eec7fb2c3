//! The marks of a whole path in one table, for one walk along the path.

ghost use Rattle.std.specs.Prelude.{◌≡◌, ◌≤◌, ◌<◌, ◌+◌, ◌-◌, ◌⊎◌, pos, IfOk, length};
ghost use Rattle.rail_model.specs.Blocking.{hop as hop_of, hop_count, Fits, place, blocks_before as count_before, reach as moment_of, reach_down as moment_down_of, approach_moment, clearing_moment};
ghost use Rattle.blocking_time.specs.Mark.{mark_of, marks_of, stop_mark, IsMarkWithin};
ghost use Rattle.blocking_time.specs.Moments.{moments_of, AreBounded};

use crate::approach;
use crate::moments::{self, Moments};
use crate::motion::{self, GREATEST_REACH_S, Mark};
use rail_model::{Hop, OutOfMemory, Path};
use std::alloc::Global;

// The marks of a path's start and of the ends of all its blocks, in order.
pub(crate) fn marks(alloc: Global, path: &Path) -> Result<Vec<Mark>, OutOfMemory>
    requires { Fits path.now }
    ensures { IfOk result (λ marks. marks.items ≡ marks_of path.now) }
{
    let mut mark = motion::first_mark(path);
    let mut marks = Vec::with_capacity(alloc, path.hops.len() + 1)?;
    marks.push(mark)?;
    for hop in path.hops.slice() {
        mark = motion::next_mark(mark, hop);
        marks.push(mark)?;
    }
    Ok(marks)
}

// The mark of the end of the k-th block; for k = 0 that of the path's start.
#[inline]
fn mark_in(path: &Path, marks: &[Mark], k: usize) -> Mark
    requires fits { Fits path.now }
    requires table { marks.now ≡ marks_of path.now }
    requires on_path { k ≤ hop_count path.now }
    ensures mark { result ≡ mark_of path.now k }
    ensures bounded { IsMarkWithin result }
{
    marks[k]
}

// How many blocks end before a place, by binary search between two counts.
fn blocks_before(path: &Path, marks: &[Mark], first: usize, last: usize, metres: u64) -> usize
    requires fits { Fits path.now }
    requires table { marks.now ≡ marks_of path.now }
    requires counts { (first ≤ last) × (last < hop_count path.now) }
    requires beyond { (first ≡ 0) ⊎ (place path.now first < metres) }
    requires within { metres ≤ place path.now (last + 1) }
    ensures count { result ≡ count_before path.now metres }
    ensures on_path { result < hop_count path.now }
    ensures beyond { place path.now result ≤ metres }
    ensures within { metres ≤ place path.now (result + 1) }
{
    let mut low = first;
    let mut high = last;
    while low < high {
        let middle = low + (high - low).div_ceil(2);
        if mark_in(path, marks, middle).place_m < metres {
            low = middle;
        } else {
            high = middle - 1;
        }
    }
    low
}

// How many blocks are tried one after another for a place, before it is searched for by halving.
const NEAR: usize = 4;

// How many blocks end before a place beyond the k-th block: mostly it lies in one of the next.
#[inline]
fn blocks_to(path: &Path, marks: &[Mark], k: usize, metres: u64) -> usize
    requires fits { Fits path.now }
    requires table { marks.now ≡ marks_of path.now }
    requires near { k < hop_count path.now }
    requires beyond { place path.now k < metres }
    requires on_path { metres ≤ place path.now (hop_count path.now) }
    ensures count { result ≡ count_before path.now metres }
    ensures on_path { result < hop_count path.now }
    ensures beyond { place path.now result ≤ metres }
    ensures within { metres ≤ place path.now (result + 1) }
{
    for step in 0..NEAR {
        if metres <= mark_in(path, marks, k + step + 1).place_m {
            return k + step;
        }
    }
    blocks_before(path, marks, k + NEAR, path.hops.len() - 1, metres)
}

// How many end before a place up to the end of the block beyond the k-th one: mostly it lies in
// that block or in one of those just before it.
#[inline]
fn blocks_back(path: &Path, marks: &[Mark], k: usize, metres: u64) -> usize
    requires fits { Fits path.now }
    requires table { marks.now ≡ marks_of path.now }
    requires near { k < hop_count path.now }
    requires within { metres ≤ place path.now (k + 1) }
    ensures count { result ≡ count_before path.now metres }
    ensures on_path { result < hop_count path.now }
    ensures beyond { place path.now result ≤ metres }
    ensures within { metres ≤ place path.now (result + 1) }
{
    let mut last = k;
    for _ in 0..NEAR {
        if mark_in(path, marks, last).place_m < metres {
            return last;
        }
        if last == 0 {
            return 0;
        }
        last -= 1;
    }
    blocks_before(path, marks, 0, last, metres)
}

// When the head reaches a place beyond the k-th block: seconds from the timetable's origin, rounded
// up.
#[inline]
fn seconds_at(path: &Path, marks: &[Mark], k: usize, metres: u64) -> u64
    requires fits { Fits path.now }
    requires table { marks.now ≡ marks_of path.now }
    requires near { k < hop_count path.now }
    requires beyond { place path.now k < metres }
    requires on_path { metres ≤ place path.now (hop_count path.now) }
    ensures moment { result ≡ moment_of path.now metres }
    ensures bounded { result ≤ GREATEST_REACH_S }
{
    let behind = blocks_to(path, marks, k, metres);
    let hop = &path.hops.slice()[behind];
    motion::moment_in(mark_in(path, marks, behind), hop, metres)
}

// When the head reaches a place up to the end of the block beyond the k-th one: seconds from the
// timetable's origin, rounded down.
#[inline]
fn seconds_down_at(path: &Path, marks: &[Mark], k: usize, metres: u64) -> u64
    requires fits { Fits path.now }
    requires table { marks.now ≡ marks_of path.now }
    requires near { k < hop_count path.now }
    requires within { metres ≤ place path.now (k + 1) }
    ensures moment { result ≡ moment_down_of path.now metres }
    ensures bounded { result ≤ GREATEST_REACH_S }
{
    let behind = blocks_back(path, marks, k, metres);
    let hop = &path.hops.slice()[behind];
    motion::moment_down_in(mark_in(path, marks, behind), hop, metres)
}

// The approach moment of the k-th block, from 1, by the last stop before it.
#[inline]
fn approach_seconds(path: &Path, marks: &[Mark], k: usize, hop: &Hop, stop: Mark) -> u64
    requires fits { Fits path.now }
    requires table { marks.now ≡ marks_of path.now }
    requires some { 1 ≤ k }
    requires on_path { k ≤ hop_count path.now }
    requires hop { hop.now ≡ hop_of path.now k }
    requires stop { stop ≡ stop_mark path.now (k - 1) }
    ensures moment { result ≡ approach_moment path.now k }
    ensures bounded { result ≤ GREATEST_REACH_S }
{
    let entry = mark_in(path, marks, k - 1);
    let point_m = entry.place_m.saturating_sub(u64::from(hop.approach_m));
    let reached_s = seconds_down_at(path, marks, k.saturating_sub(2), point_m);
    approach::after_stop(reached_s, point_m, stop)
}

// The clearing moment of the k-th block, from 1.
#[inline]
fn clearing_seconds(path: &Path, marks: &[Mark], k: usize, hop: &Hop) -> u64
    requires fits { Fits path.now }
    requires table { marks.now ≡ marks_of path.now }
    requires some { 1 ≤ k }
    requires on_path { k ≤ hop_count path.now }
    requires hop { hop.now ≡ hop_of path.now k }
    ensures moment { result ≡ clearing_moment path.now k }
    ensures bounded { result ≤ GREATEST_REACH_S }
{
    let mark = mark_in(path, marks, k);
    let last = mark_in(path, marks, path.hops.len());
    let place_m = moments::clearing_place(mark, hop, path.length_m);
    if place_m <= last.place_m {
        seconds_at(path, marks, k, place_m)
    } else {
        moments::tail_end(path, last)
    }
}

// The moments of the run at the k-th block, from 1, by the last stop before it.
#[inline]
pub(crate) fn moments_in(path: &Path, marks: &[Mark], k: usize, hop: &Hop, stop: Mark) -> Moments
    requires fits { Fits path.now }
    requires table { marks.now ≡ marks_of path.now }
    requires some { 1 ≤ k }
    requires on_path { k ≤ hop_count path.now }
    requires hop { hop.now ≡ hop_of path.now k }
    requires stop { stop ≡ stop_mark path.now (k - 1) }
    ensures moments { result ≡ moments_of path.now k }
    ensures bounded { AreBounded result }
{
    Moments {
        approach_s: approach_seconds(path, marks, k, hop, stop),
        entry_s: mark_in(path, marks, k - 1).departure_s,
        exit_s: mark_in(path, marks, k).departure_s,
        clearing_s: clearing_seconds(path, marks, k, hop),
    }
}

// The last stop among the ends of the first k blocks, by that of one block less.
#[inline]
pub(crate) fn next_stop(path: &Path, marks: &[Mark], k: usize, hop: &Hop, stop: Mark) -> Mark
    requires fits { Fits path.now }
    requires table { marks.now ≡ marks_of path.now }
    requires some { 1 ≤ k }
    requires on_path { k ≤ hop_count path.now }
    requires hop { hop.now ≡ hop_of path.now k }
    requires stop { stop ≡ stop_mark path.now (k - 1) }
    ensures { result ≡ stop_mark path.now k }
{
    let mark = mark_in(path, marks, k);
    approach::stop_after(stop, mark, hop)
}
