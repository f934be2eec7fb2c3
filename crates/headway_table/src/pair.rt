//! The headway from one train to another.
ghost use Rattle.std.specs.Prelude.{◌≡◌, ◌-ℤ◌, ◌==◌, find, IfSome};
ghost use Rattle.std.specs.List.{All};
ghost use Rattle.plan_model.specs.Cut.{IsMoment};
ghost use Rattle.plan_model.specs.Members as given;
ghost use Rattle.headway_table.specs.Rows.{AreRows, IsRow};
ghost use Rattle.headway_table.specs.Walk as walks;

use plan_model::{CutRow, use_of};
use rail_model::Use;

/// How long after train `a` train `b` must enter the section, at the least, in seconds: the
/// greatest over the places that both use, which may be negative. None where they share no place.
/// It takes no memory.
///
/// For a caller who asks about two trains alone, or checks one number of a table: `matrix` has all
/// pairs.
pub fn headway(a: &CutRow, b: &CutRow) -> Option<i64>
    requires rows { AreRows a.now b.now }
    ensures { result ≡ given.headway a.now b.now }
{
    let mut greatest = None;
    for one in b.uses.slice() {
        greatest = with_use(greatest, a, b, one);
    }
    greatest
}

// The greatest so far, with one use of the second train and the first train's use of the same
// place, if it has one.
fn with_use(greatest: Option<i64>, first: &CutRow, next: &CutRow, one: &Use) -> Option<i64>
    requires first { IsRow first.now }
    requires next { IsMoment next.now.entry }
    requires start { IsMoment one.now.start }
    ensures { result ≡ walks.with_use (walks.end_in first.now) next.now.entry greatest one.now }
{
    with_start(
        greatest,
        end_in(first, one.block),
        after_entry(one.start, next.entry),
    )
}

// How long after its entry a train ends its use of a place, if it uses it.
fn end_in(row: &CutRow, place: u32) -> Option<i64>
    requires row { IsRow row.now }
    ensures end { result ≡ walks.end_in row.now place }
    ensures near { IfSome result walks.IsLength }
{
    match use_of(row, place) {
        Some(one) => Some(after_entry(one.end, row.entry)),
        None => None,
    }
}

// How long after an entry a moment is: negative where it comes before.
pub(crate) fn after_entry(time: i64, entry: i64) -> i64
    requires time { IsMoment time }
    requires entry { IsMoment entry }
    ensures is { result ≡ time -ℤ entry }
    ensures near { walks.IsLength result }
{
    time - entry
}

// The greatest so far, with a place that the first train ends so long after its entry, if it uses
// it, and that the second starts so long after its own.
fn with_start(greatest: Option<i64>, end: Option<i64>, start: i64) -> Option<i64>
    requires end { IfSome «end» walks.IsLength }
    requires start { walks.IsLength start }
    ensures { result ≡ walks.with_start greatest «end» start }
{
    match end {
        Some(end) => Some(greater(greatest, between(end, start))),
        None => greatest,
    }
}

// How long after the first train the second must enter, by one place: the first ends its use so
// long after its entry, and the second starts so long after its own.
fn between(end: i64, start: i64) -> i64
    requires end { walks.IsLength «end» }
    requires start { walks.IsLength start }
    ensures { result ≡ «end» -ℤ start }
{
    end - start
}

// The greater of two numbers, where there may be none so far.
fn greater(greatest: Option<i64>, one: i64) -> i64
    ensures { result ≡ walks.greater greatest one }
{
    match greatest {
        Some(greatest) => greatest.max(one),
        None => one,
    }
}
