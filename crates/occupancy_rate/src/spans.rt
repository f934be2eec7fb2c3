//! From when until when each block of a section is used.
ghost use Rattle.std.specs.Prelude.{◌≡◌, ℕ, ◌<◌, ◌≤◌, length, map, fold, max, slice_index_or, All, None};
ghost use Rattle.plan_model.specs.Cut.{IsBounded, IsMoment, IsUsable};
ghost use Rattle.plan_model.specs.Members.{member_count, block_count, place_count};
ghost use Rattle.occupancy_rate.specs.Spans as given;

use plan_model::{CutRow, SoundCut, shift};
use rail_model::Use;

/// A block's span: from the first start to the last end of its uses, in seconds from the
/// timetable's origin.
#[derive(Clone, Copy)]
pub struct Span {
    pub start: i64,
    pub end: i64,
}

/// The spans of all blocks, by all members, which enter at these moments. There is one for each
/// block, and none to begin with. A use of a connection has no place here.
pub fn span_all(spans: &mut [Option<Span>], cut: &SoundCut, entries: &[i64])
    requires count { length entries.now ≡ member_count cut.now }
    requires bounded { All IsBounded entries.now }
    requires blocks { length spans.old ≡ block_count cut.now }
    requires nothing { All (λ k. k ≡ None) spans.old }
    ensures { given.AreSpans cut.now entries.now spans.new }
{
    for i in 0..cut.member_count() {
        widen_by_row(spans, cut.row(i), entries[i as usize]);
    }
}

// Widens the spans by the uses of a member that enters at a moment.
fn widen_by_row(spans: &mut [Option<Span>], row: &CutRow, entry: i64)
    requires bounded { IsBounded entry }
    requires planned { IsMoment row.now.entry }
    requires starts { All (λ u. IsMoment u.start) row.now.uses }
    requires ends { All (λ u. IsMoment u.«end») row.now.uses }
    ensures count { length spans.new ≡ length spans.old }
    ensures all { (b : ℕ) → b < length spans.old → slice_index_or spans.new b None
        ≡ given.with_row row.now entry b (slice_index_or spans.old b None) }
{
    for one in row.uses.slice() {
        widen_by_use(spans, one, row.entry, entry);
    }
}

// Widens the span of a block by one use, moved with the member's entry.
fn widen_by_use(spans: &mut [Option<Span>], one: &Use, planned: i64, entry: i64)
    requires bounded { IsBounded entry }
    requires planned { IsMoment planned }
    requires starts { IsMoment one.now.start }
    requires ends { IsMoment one.now.«end» }
    ensures count { length spans.new ≡ length spans.old }
    ensures all { (b : ℕ) → b < length spans.old → slice_index_or spans.new b None
        ≡ given.with_use planned entry b (slice_index_or spans.old b None) one.now }
{
    let block = one.block as usize;
    if block < spans.len() {
        let start = shift(one.start, planned, entry);
        let end = shift(one.end, planned, entry);
        spans[block] = Some(widened(spans[block], start, end));
    }
}

fn widened(span: Option<Span>, start: i64, end: i64) -> Span
    ensures { result ≡ given.widened span start «end» }
{
    match span {
        Some(span) => Span {
            start: span.start.min(start),
            end: span.end.max(end),
        },
        None => Span { start, end },
    }
}

// How long a span is: 0 where there is none.
pub(crate) fn time_of(span: Option<Span>) -> u64
    ensures { result ≡ given.time_of span }
{
    match span {
        Some(span) => span.end.abs_diff(span.start),
        None => 0,
    }
}

// Whether there is a span, and it is so long.
pub(crate) fn lasts(time: u64, span: Option<Span>) -> bool
    ensures { result ≡ given.lasts time span }
{
    span.is_some() && time_of(span) == time
}

// How long the longest span is.
pub(crate) fn greatest_time(spans: &[Option<Span>]) -> u64
    ensures { result ≡ fold max 0 (map given.time_of spans.now) }
{
    let mut greatest = 0;
    for one in spans {
        greatest = time_of(*one).max(greatest);
    }
    greatest
}
