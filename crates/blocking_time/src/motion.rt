//! When the head reaches a place: constant speed inside a block.

ghost use Rattle.std.specs.Prelude.{◌≡◌, ◌≤◌, ◌<◌, ◌+◌, ◌-◌, ◌*◌, ◌/◌, pos};
ghost use Rattle.std.specs.Int.{div_ceil};
ghost use Rattle.rail_model.specs.Blocking.{hop, hop_count, Fits, IsHopWithin, place, blocks_before as count_before, reach as moment_of, reach_down as moment_down_of};
ghost use Rattle.rail_model.specs.Moment.{IsMoment};
ghost use Rattle.blocking_time.specs.Mark.{mark_of, IsMarkWithin};
ghost use Rattle.blocking_time.specs.Law.{HasConstantSpeed};

use rail_model::{Hop, Path};

// Metres: no place of a path is further, since a path has at most 256 blocks.
pub(crate) const GREATEST_PLACE_M: u64 = 256_000_000;

// Seconds: no departure is later, since a path has at most 256 running times and dwells.
pub const GREATEST_DEPARTURE_S: u64 = 44_841_600;

// Seconds: no moment at a place of a path is later, the clearing of its end included.
pub(crate) const GREATEST_REACH_S: u64 = 44_928_000;

// A mark of a path: the end of a block, or the start of the path, and when the head leaves from
// there.
#[derive(Clone, Copy)]
pub(crate) struct Mark {
    // Metres from the path's start.
    pub(crate) place_m: u64,
    // When the head leaves from there, after the dwell: seconds from the timetable's origin.
    pub(crate) departure_s: u64,
}

// The k-th hop of a path, from 1.
#[inline]
pub(crate) fn hop_at(path: &Path, k: usize) -> &Hop
    requires fits { Fits path.now }
    requires some { 1 ≤ k }
    requires on_path { k ≤ hop_count path.now }
    ensures hop { result.now ≡ hop path.now k }
    ensures within { IsHopWithin result.now }
{
    &path.hops.slice()[k - 1]
}

// The mark of the path's start.
pub(crate) fn first_mark(path: &Path) -> Mark
    ensures { result ≡ mark_of path.now 0 }
{
    Mark {
        place_m: 0,
        departure_s: u64::from(path.start_s),
    }
}

// The mark of the end of the block beyond this mark.
#[inline]
pub(crate) fn next_mark(mark: Mark, hop: &Hop) -> Mark
    requires { IsMarkWithin mark }
    ensures place { result.place_m ≡ mark.place_m + hop.now.block_m }
    ensures departure { result.departure_s ≡ mark.departure_s + (hop.now.running_s + hop.now.dwell_s) }
{
    Mark {
        place_m: mark.place_m + u64::from(hop.block_m),
        departure_s: mark.departure_s + (u64::from(hop.running_s) + u64::from(hop.dwell_s)),
    }
}

// The mark of the end of the k-th block.
pub(crate) fn mark_at(path: &Path, k: usize) -> Mark
    requires fits { Fits path.now }
    requires on_path { k ≤ hop_count path.now }
    ensures mark { result ≡ mark_of path.now k }
    ensures bounded { IsMarkWithin result }
{
    let mut mark = first_mark(path);
    for hop in &path.hops.slice()[..k] {
        mark = next_mark(mark, hop);
    }
    mark
}

// How many blocks end before a place.
fn blocks_before(path: &Path, metres: u64) -> usize
    requires fits { Fits path.now }
    requires on_path { metres ≤ place path.now (hop_count path.now) }
    ensures count { result ≡ count_before path.now metres }
    ensures on_path { result < hop_count path.now }
    ensures beyond { place path.now result ≤ metres }
    ensures within { metres ≤ place path.now (result + 1) }
{
    let mut mark = first_mark(path);
    for (k, hop) in path.hops.slice().iter().enumerate() {
        mark = next_mark(mark, hop);
        if metres <= mark.place_m {
            return k;
        }
    }
    unreachable!()
}

// When the head reaches a place of the block beyond a mark: seconds from the timetable's origin,
// rounded up.
#[inline]
pub(crate) fn moment_in(mark: Mark, hop: &Hop, metres: u64) -> u64
    requires within { IsHopWithin hop.now }
    requires beyond { mark.place_m ≤ metres }
    requires inside { metres ≤ mark.place_m + hop.now.block_m }
    requires bounded { IsMarkWithin mark }
    ensures moment { result
        ≡ mark.departure_s + div_ceil ((metres - mark.place_m) * hop.now.running_s) hop.now.block_m }
    ensures bounded { result ≤ GREATEST_REACH_S }
{
    let covered = (metres - mark.place_m) * u64::from(hop.running_s);
    mark.departure_s + covered.div_ceil(u64::from(hop.block_m))
}

// When the head reaches a place of the block beyond a mark: seconds from the timetable's origin,
// rounded down.
#[inline]
pub(crate) fn moment_down_in(mark: Mark, hop: &Hop, metres: u64) -> u64
    requires within { IsHopWithin hop.now }
    requires beyond { mark.place_m ≤ metres }
    requires inside { metres ≤ mark.place_m + hop.now.block_m }
    requires bounded { IsMarkWithin mark }
    ensures moment { result
        ≡ mark.departure_s + ((metres - mark.place_m) * hop.now.running_s) / hop.now.block_m }
    ensures bounded { result ≤ GREATEST_REACH_S }
{
    let covered = (metres - mark.place_m) * u64::from(hop.running_s);
    mark.departure_s + covered / u64::from(hop.block_m)
}

/// When the head reaches a place: seconds from the timetable's origin, rounded up. The place is in
/// metres from the path's start. At place 0 that is the start, and at the end of a block the
/// arrival.
///
/// For one place alone, as where a single number is checked: `blockings` walks along the whole
/// path.
pub fn reach(path: &Path, metres: u64) -> i64
    requires fits { Fits path.now }
    requires on_path { metres ≤ place path.now (hop_count path.now) }
    ensures moment { result ≡ pos (moment_of path.now metres) }
    ensures bounded { IsMoment result }
{
    seconds_at(path, metres) as i64
}

/// When the head reaches a place: seconds from the timetable's origin, rounded down. The place is
/// in metres from the path's start. At place 0 and at the end of a block it is what `reach` says.
///
/// For one place alone, as `reach` is.
pub fn reach_down(path: &Path, metres: u64) -> i64
    requires fits { Fits path.now }
    requires on_path { metres ≤ place path.now (hop_count path.now) }
    ensures moment { result ≡ pos (moment_down_of path.now metres) }
    ensures bounded { IsMoment result }
{
    seconds_down_at(path, metres) as i64
}

// `reach` as a number without a sign.
pub(crate) fn seconds_at(path: &Path, metres: u64) -> u64
    requires fits { Fits path.now }
    requires on_path { metres ≤ place path.now (hop_count path.now) }
    ensures moment { result ≡ moment_of path.now metres }
    ensures bounded { result ≤ GREATEST_REACH_S }
{
    let k = blocks_before(path, metres);
    let hop = &path.hops.slice()[k];
    moment_in(mark_at(path, k), hop, metres)
}

// `reach_down` as a number without a sign.
pub(crate) fn seconds_down_at(path: &Path, metres: u64) -> u64
    requires fits { Fits path.now }
    requires on_path { metres ≤ place path.now (hop_count path.now) }
    ensures moment { result ≡ moment_down_of path.now metres }
    ensures bounded { result ≤ GREATEST_REACH_S }
{
    let k = blocks_before(path, metres);
    let hop = &path.hops.slice()[k];
    moment_down_in(mark_at(path, k), hop, metres)
}

/// A law, with nothing to run: inside a block the head moves at constant speed.
pub fn constant_speed_law(path: &Path)
    requires { Fits path.now }
    ensures { HasConstantSpeed path.now }
{}
