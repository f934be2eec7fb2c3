//! The last use of each place so far, and how early a train can enter after it.
ghost use Rattle.std.specs.Prelude.{◌≡◌, ℕ, ◌<◌, length, slice_index_or, None, ◌-ℤ◌, ◌+ℤ◌};
ghost use Rattle.std.specs.Int.{int_max};
ghost use Rattle.std.specs.List.{All};
ghost use Rattle.plan_model.specs.Cut.{IsMoment, IsBounded, IsUsable};
ghost use Rattle.train_placing.specs.Last as lasts;

use plan_model::{CutRow, shift};
use rail_model::Use;

/// The last use of a place so far.
#[derive(Clone, Copy)]
pub struct Last {
    /// Until when: seconds from the timetable's origin.
    pub until: i64,
    /// By which train: its position among the cut's members.
    pub train: u32,
}

// When a train can enter that may not enter before a moment: as soon as each place that it uses
// is free.
pub(crate) fn earliest(from: i64, row: &CutRow, last: &[Option<Last>]) -> i64
    requires from { lasts.IsNear from }
    requires row { IsUsable (length last.now) row.now }
    requires last { All lasts.IsNearLast last.now }
    ensures { result ≡ lasts.earliest from row.now last.now }
{
    let mut entry = from;
    for one in row.uses.slice() {
        entry = after(entry, row.entry, one, last[one.block as usize]);
    }
    entry
}

// The later of a moment and of the one at which a train can enter after the last use of a place.
fn after(entry: i64, planned: i64, one: &Use, last: Option<Last>) -> i64
    requires planned { IsMoment planned }
    requires start { IsMoment one.now.start }
    requires last { lasts.IsNearLast last }
    ensures { result ≡ lasts.after planned last entry one.now }
{
    match last {
        Some(last) => later(entry, asked(last, planned, one)),
        None => entry,
    }
}

// When a train can enter that is to start one of its uses as the place's last use ends: the entry
// moves with the use.
fn asked(last: Last, planned: i64, one: &Use) -> i64
    requires last { lasts.IsNear last.until }
    requires planned { IsMoment planned }
    requires start { IsMoment one.now.start }
    ensures { result ≡ last.until -ℤ (one.now.start -ℤ planned) }
{
    last.until - (one.start - planned)
}

fn later(a: i64, b: i64) -> i64
    ensures { result ≡ int_max a b }
{
    a.max(b)
}

// Sets the last use of each place that a train uses, where the train enters at a moment.
pub(crate) fn occupy(last: &mut [Option<Last>], row: &CutRow, train: u32, entry: i64)
    requires entry { IsBounded entry }
    requires row { IsUsable (length last.old) row.now }
    ensures count { length last.new ≡ length last.old }
    ensures all { (p : ℕ) → p < length last.old → slice_index_or last.new p None
        ≡ lasts.with_row row.now train entry p (slice_index_or last.old p None) }
{
    for one in row.uses.slice() {
        occupy_one(last, one, row.entry, train, entry);
    }
}

// Sets the last use of the place of one of a train's uses, where the train enters at a moment.
fn occupy_one(last: &mut [Option<Last>], one: &Use, planned: i64, train: u32, entry: i64)
    requires entry { IsBounded entry }
    requires planned { IsMoment planned }
    requires ends { IsMoment one.now.«end» }
    requires place { one.now.block < length last.old }
    ensures count { length last.new ≡ length last.old }
    ensures all { (p : ℕ) → p < length last.old → slice_index_or last.new p None
        ≡ lasts.with_use planned train entry p (slice_index_or last.old p None) one.now }
{
    let until = shift(one.end, planned, entry);
    last[one.block as usize] = Some(Last { until, train });
}
