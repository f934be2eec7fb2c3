//! The last use of each place, and how long each block is kept, by who uses it first and last.
ghost use Rattle.std.specs.Prelude.{◌≡◌, ℕ, ◌<◌, ◌≤◌, length, map, reverse, All, IfOk, IfSome, ◌-ℤ◌, ◌+ℤ◌, slice_index_or, None};
ghost use Rattle.std.specs.Option.{option_map};
ghost use Rattle.std.specs.List.{range_with_len};
ghost use Rattle.rail_model.specs.Moment.{IsMoment};
ghost use Rattle.plan_model.specs.Members.{member, member_count, block_count, place_count};
ghost use Rattle.plan_model.specs.Schedule.{entry_at};
ghost use Rattle.train_placing.specs.Last.{IsNear};
ghost use Rattle.train_net.specs.Near.{AreNear};
ghost use Rattle.train_net.specs.Reading.{last_by, span_by, IsReal};

use crate::near::{Near, nearest_before};
use occupancy_rate::Span;
use plan_model::{SoundCut, shift};
use rail_model::OutOfMemory;
use std::alloc::Global;
use train_placing::Last;

// By the places' positions, who uses each place last along an order.
pub(crate) fn last_users(
    alloc: Global,
    cut: &SoundCut,
    order: &[u32],
) -> Result<Vec<Option<Near>>, OutOfMemory>
    requires there { All (λ i. i < member_count cut.now) order.now }
    ensures places { IfOk result (λ near. length near.items ≡ place_count cut.now) }
    ensures near { IfOk result (λ near. AreNear cut.now order.now (length order.now)
        (range_with_len 0 (place_count cut.now)) near.items) }
{
    let places = all_places(alloc, cut.place_count())?;
    nearest_before(alloc, cut, order, order.len(), &places)
}

fn all_places(alloc: Global, count: u32) -> Result<Vec<u32>, OutOfMemory>
    ensures { IfOk result (λ places. places.items ≡ range_with_len 0 count) }
{
    let mut places = Vec::new(alloc);
    for place in 0..count {
        places.push(place)?;
    }
    Ok(places)
}

// An order from its end to its beginning.
pub(crate) fn reversed(alloc: Global, order: &[u32]) -> Result<Vec<u32>, OutOfMemory>
    ensures { IfOk result (λ back. back.items ≡ reverse order.now) }
{
    let back = order.iter().rev().copied().collect(alloc)?;
    Ok(back)
}

// The last use of each place, by who uses it last and when the trains enter.
pub(crate) fn lasts(
    alloc: Global,
    cut: &SoundCut,
    entries: &[i64],
    near: &[Option<Near>],
) -> Result<Vec<Option<Last>>, OutOfMemory>
    requires count { length entries.now ≡ member_count cut.now }
    requires bounded { All IsNear entries.now }
    requires real { All (λ n. IfSome n (IsReal cut.now)) near.now }
    ensures { IfOk result (λ lasts. lasts.items
        ≡ map (option_map (last_by cut.now entries.now)) near.now) }
{
    let mut lasts = Vec::new(alloc);
    for one in near {
        lasts.push(last_of(cut, entries, *one))?;
    }
    Ok(lasts)
}

fn last_of(cut: &SoundCut, entries: &[i64], near: Option<Near>) -> Option<Last>
    requires count { length entries.now ≡ member_count cut.now }
    requires bounded { All IsNear entries.now }
    requires real { IfSome near (IsReal cut.now) }
    ensures { result ≡ option_map (last_by cut.now entries.now) near }
{
    match near {
        Some(near) => Some(Last {
            until: moved(cut, entries, near.train, near.one.end),
            train: near.train,
        }),
        None => None,
    }
}

// A moment of a train, moved with its entry.
fn moved(cut: &SoundCut, entries: &[i64], train: u32, time: i64) -> i64
    requires there { train < member_count cut.now }
    requires count { length entries.now ≡ member_count cut.now }
    requires bounded { All IsNear entries.now }
    requires moment { IsMoment time }
    ensures { result ≡ time -ℤ (member cut.now train).entry +ℤ entry_at entries.now train }
{
    shift(time, cut.row(train).entry, entries[train as usize])
}

// From when until when each block is kept, by who uses it first and last.
pub(crate) fn spans(
    alloc: Global,
    cut: &SoundCut,
    entries: &[i64],
    first: &[Option<Near>],
    last: &[Option<Near>],
) -> Result<Vec<Option<Span>>, OutOfMemory>
    requires count { length entries.now ≡ member_count cut.now }
    requires bounded { All IsNear entries.now }
    requires first { All (λ n. IfSome n (IsReal cut.now)) first.now }
    requires last { All (λ n. IfSome n (IsReal cut.now)) last.now }
    requires firsts { block_count cut.now ≤ length first.now }
    requires lasts { block_count cut.now ≤ length last.now }
    ensures count { IfOk result (λ spans. length spans.items ≡ block_count cut.now) }
    ensures each { IfOk result (λ spans. (block : ℕ) → block < block_count cut.now
        → slice_index_or spans.items block None ≡ span_by cut.now entries.now
        (slice_index_or first.now block None) (slice_index_or last.now block None)) }
{
    let mut spans = Vec::new(alloc);
    for block in 0..cut.block_count() as usize {
        spans.push(span_of(cut, entries, first[block], last[block]))?;
    }
    Ok(spans)
}

fn span_of(cut: &SoundCut, entries: &[i64], first: Option<Near>, last: Option<Near>) -> Option<Span>
    requires count { length entries.now ≡ member_count cut.now }
    requires bounded { All IsNear entries.now }
    requires first { IfSome first (IsReal cut.now) }
    requires last { IfSome last (IsReal cut.now) }
    ensures { result ≡ span_by cut.now entries.now first last }
{
    match first {
        Some(first) => match last {
            Some(last) => Some(Span {
                start: moved(cut, entries, first.train, first.one.start),
                end: moved(cut, entries, last.train, last.one.end),
            }),
            None => None,
        },
        None => None,
    }
}
