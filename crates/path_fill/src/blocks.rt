//! What copies of a train ask of the blocks that it uses. Each is the greatest of what the blocks
//! ask one by one.
ghost use Rattle.std.specs.Prelude.{◌≡◌, ℕ, ◌<◌, ◌≤◌, ◌^◌, ℤ, pos, ◌+ℤ◌, ◌-ℤ◌, ◌≤ℤ◌, length};
ghost use Rattle.std.specs.List.{All};
ghost use Rattle.train_placing.specs.Last.{IsNear, IsNearLast};
ghost use Rattle.plan_model.specs.Cut.{IsBounded, IsMoment};
ghost use Rattle.plan_model.specs.Members.{member, member_count, uses_place, block_count, place_count};
ghost use Rattle.plan_model.specs.Answer.{occupancy};
ghost use Rattle.plan_model.specs.Schedule.{window_start};
ghost use Rattle.path_fill.specs.Search as given;
ghost use Rattle.path_fill.specs.Search.{IsGreatest};

use occupancy_rate::{Span, occupancy_of, span_all};
use plan_model::{SoundCut, shift};
use rail_model::{PATH_HOPS, Use};
use train_placing::Last;

// The headway of a train to itself on the blocks: how long it keeps the block that it keeps
// longest, in seconds.
pub(crate) fn own_headway(cut: &SoundCut, row: u32) -> i64
    requires { row < member_count cut.now }
    ensures greatest { IsGreatest (uses_place (member cut.now row)) (given.time_at cut.now row)
        (block_count cut.now) (pos 0) result }
    ensures small { result ≤ℤ pos (2 ^ 40) }
{
    let mut greatest = 0;
    for block in 0..cut.block_count() {
        greatest = greater(greatest, time_at(cut, row, block));
    }
    greatest
}

// How long a train keeps a block, if it uses it.
fn time_at(cut: &SoundCut, row: u32, block: u32) -> Option<i64>
    requires { row < member_count cut.now }
    ensures is { result
        ≡ given.where_used (uses_place (member cut.now row) block)
        (given.time_at cut.now row block) }
    ensures small { given.IsAtMost (2 ^ 40) result }
{
    match cut.use_at(row, block) {
        Some(one) => Some(time_of(one)),
        None => None,
    }
}

// How long a use lasts.
fn time_of(one: Use) -> i64
    requires start { IsMoment one.start }
    requires ends { IsMoment one.«end» }
    ensures is { result ≡ one.«end» -ℤ one.start }
    ensures small { result ≤ℤ pos (2 ^ 40) }
{
    one.end - one.start
}

// When the first copy of a train enters, by the last uses of the blocks.
pub(crate) fn first_copy(cut: &SoundCut, row: u32, last: &[Option<Last>]) -> i64
    requires there { row < member_count cut.now }
    requires count { length last.now ≡ place_count cut.now }
    requires near { All IsNearLast last.now }
    ensures greatest { IsGreatest (uses_place (member cut.now row))
        (given.asked cut.now row last.now) (block_count cut.now) (window_start cut.now) result }
    ensures bounded { IsBounded result }
{
    let mut entry = cut.window_start();
    for block in 0..cut.block_count() {
        entry = greater(entry, asked_at(cut, row, last, block));
    }
    entry
}

// When a copy of a train can enter after the last use of a block, if it uses it.
fn asked_at(cut: &SoundCut, row: u32, last: &[Option<Last>], block: u32) -> Option<i64>
    requires there { row < member_count cut.now }
    requires block { block < length last.now }
    requires near { All IsNearLast last.now }
    ensures is { result
        ≡ given.where_used (uses_place (member cut.now row) block)
        (given.asked cut.now row last.now block) }
    ensures small { given.IsAtMost (2 ^ 50) result }
{
    match cut.use_at(row, block) {
        Some(one) => Some(asked(until(last[block as usize]), one, cut.row(row).entry)),
        None => None,
    }
}

// When a copy can enter that is to start a use as the place is free: the entry moves with the use.
fn asked(until: i64, one: Use, planned: i64) -> i64
    requires until { IsNear until }
    requires start { IsMoment one.start }
    requires planned { IsMoment planned }
    ensures is { result ≡ until -ℤ (one.start -ℤ planned) }
    ensures small { result ≤ℤ pos (2 ^ 50) }
{
    until - (one.start - planned)
}

// Until when the last use keeps a place, and 0 where there is none.
fn until(last: Option<Last>) -> i64
    requires { IsNearLast last }
    ensures is { result ≡ given.until last }
    ensures near { IsNear result }
{
    match last {
        Some(last) => last.until,
        None => 0,
    }
}

// Two times in seconds, by trains that enter at `entries`: how long the busiest block is kept; and
// how long, at most, a block that the train uses is kept up to the end of a copy that enters at
// `entry`.
pub(crate) fn times_kept(cut: &SoundCut, row: u32, entries: &[i64], entry: i64) -> (u64, i64)
    requires there { row < member_count cut.now }
    requires count { length entries.now ≡ member_count cut.now }
    requires bounded { All IsBounded entries.now }
    requires entry { IsBounded entry }
    ensures alone { result.0 ≡ occupancy cut.now entries.now }
    ensures first { IsGreatest (uses_place (member cut.now row))
        (given.kept_to cut.now row entries.now entry) (block_count cut.now) (pos 0) result.1 }
    ensures small { result.1 ≤ℤ pos (2 ^ 52) }
{
    let mut room = [None; PATH_HOPS];
    let spans = &mut room[..cut.block_count() as usize];
    span_all(spans, cut, entries);
    let (alone, _) = occupancy_of(cut.cut(), spans);
    (alone, kept_to(cut, row, spans, entry))
}

// How long, at most, a block that a train uses is kept from the start of its span up to the end of
// a copy that enters at `entry`.
fn kept_to(cut: &SoundCut, row: u32, spans: &[Option<Span>], entry: i64) -> i64
    requires there { row < member_count cut.now }
    requires count { length spans.now ≡ block_count cut.now }
    requires near { All given.StartsNear spans.now }
    requires entry { IsBounded entry }
    ensures greatest { IsGreatest (uses_place (member cut.now row))
        (given.kept_by cut.now row spans.now entry) (block_count cut.now) (pos 0) result }
    ensures small { result ≤ℤ pos (2 ^ 52) }
{
    let mut greatest = 0;
    for block in 0..cut.block_count() {
        greatest = greater(greatest, kept_at(cut, row, spans, entry, block));
    }
    greatest
}

// How long a block is kept from the start of its span up to the end of a copy that enters at
// `entry`, if the train uses it.
fn kept_at(cut: &SoundCut, row: u32, spans: &[Option<Span>], entry: i64, block: u32) -> Option<i64>
    requires there { row < member_count cut.now }
    requires block { block < length spans.now }
    requires near { All given.StartsNear spans.now }
    requires entry { IsBounded entry }
    ensures is { result ≡ given.where_used (uses_place (member cut.now row) block)
        (given.kept_by cut.now row spans.now entry block) }
    ensures small { given.IsAtMost (2 ^ 52) result }
{
    match cut.use_at(row, block) {
        Some(one) => {
            let end = shift(one.end, cut.row(row).entry, entry);
            Some(from_to(start_of(spans[block as usize]), end))
        }
        None => None,
    }
}

// When a span starts, and 0 where there is none.
fn start_of(span: Option<Span>) -> i64
    requires { given.StartsNear span }
    ensures is { result ≡ given.start_of span }
    ensures near { given.IsNearEnd result }
{
    match span {
        Some(span) => span.start,
        None => 0,
    }
}

// The time between two moments: seconds.
fn from_to(start: i64, end: i64) -> i64
    requires start { given.IsNearEnd start }
    requires end { given.IsNearEnd end }
    ensures is { result ≡ end -ℤ start }
    ensures small { result ≤ℤ pos (2 ^ 52) }
{
    end - start
}

// The greater of two numbers, of which the second may be missing.
fn greater(best: i64, one: Option<i64>) -> i64
    ensures { result ≡ given.greater best one }
{
    match one {
        Some(one) => best.max(one),
        None => best,
    }
}
