//! The occupancy time and the busiest block.
ghost use Rattle.std.specs.Prelude.{◌≡◌, ◌<◌, List, ℤ, length, if◌then◌else◌, IfSome};
ghost use Rattle.std.specs.List.{All};
ghost use Rattle.plan_model.specs.Cut.{IsSoundCut};
ghost use Rattle.plan_model.specs.Members.{block_count, place_count, first_with, AnswersFirst, member_count};
ghost use Rattle.plan_model.specs.Answer as occupied;
ghost use Rattle.occupancy_rate.specs.Spans as spans;
ghost use Rattle.occupancy_rate.specs.Spans.{AreSpans, lasting};

use crate::spans::{Span, greatest_time, lasts, span_all};
use plan_model::{Cut, SoundCut};
use rail_model::PATH_HOPS;

/// The occupancy time, in seconds, of a timetable of a cut in which each member enters at the
/// moment given for it, and the position of the busiest block: the first by name that is kept so
/// long. Without members they are 0 and none. It takes no memory.
pub fn occupancy(cut: &Cut, entries: &[i64]) -> (u64, Option<u32>)
    requires sound { IsSoundCut cut.now }
    requires count { length entries.now ≡ member_count cut.now }
    requires bounded { All spans.IsBounded entries.now }
    ensures time { result.0 ≡ occupied.occupancy cut.now entries.now }
    ensures busiest { result.1 ≡ occupied.busiest cut.now entries.now }
{
    let sound = SoundCut::of(cut);
    let mut room = [None; PATH_HOPS];
    let spans = &mut room[..sound.block_count() as usize];
    span_all(spans, &sound, entries);
    occupancy_of(cut, spans)
}

/// The occupancy time, in seconds, and the position of the busiest block, from the spans of the
/// cut's blocks, where a caller has these already.
pub fn occupancy_of(cut: &Cut, spans: &[Option<Span>]) -> (u64, Option<u32>)
    requires sound { IsSoundCut cut.now }
    requires count { length spans.now ≡ block_count cut.now }
    ensures time { (entries : List ℤ) → AreSpans cut.now entries spans.now
        → result.0 ≡ occupied.occupancy cut.now entries }
    ensures busiest { (entries : List ℤ) → AreSpans cut.now entries spans.now
        → result.1 ≡ occupied.busiest cut.now entries }
{
    let time = greatest_time(spans);
    (time, busiest(&SoundCut::of(cut), spans, time))
}

// The first by name of the blocks whose spans are so long.
fn busiest(cut: &SoundCut, spans: &[Option<Span>], time: u64) -> Option<u32>
    requires count { length spans.now ≡ block_count cut.now }
    ensures { AnswersFirst cut.now (lasting spans.now time) result }
{
    let mut best = None;
    for block in 0..cut.block_count() {
        best = first_with(cut, best, block, lasts(time, spans[block as usize]));
    }
    best
}

// The first by name of the best so far and of one block more, if that may be chosen.
fn first_with(cut: &SoundCut, best: Option<u32>, block: u32, may: bool) -> Option<u32>
    requires there { block < place_count cut.now }
    requires best { IfSome best (λ b. b < place_count cut.now) }
    ensures first { result ≡ (if may then first_with cut.now best block else best) }
    ensures there { IfSome result (λ b. b < place_count cut.now) }
{
    if may {
        return cut.first_with(best, block);
    }
    best
}
