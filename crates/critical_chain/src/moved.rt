//! Moments of trains by the entries that are looked at.
ghost use Rattle.std.specs.Prelude.{◌≡◌, ◌+◌, ◌^◌, ◌<◌, ◌≤ℤ◌, pos, All, length, ◌-ℤ◌, ◌+ℤ◌};
ghost use Rattle.plan_model.specs.Cut.{IsBounded, IsMoment};
ghost use Rattle.plan_model.specs.Members.{member, member_count};
ghost use Rattle.plan_model.specs.Schedule.{entry_at};

use plan_model::{FitCut, shift};
use train_order::Visit;

// A moment of a member, moved with its entry.
pub(crate) fn moved(cut: &FitCut, entries: &[i64], i: u32, time: i64) -> i64
    requires there { i < member_count cut.now }
    requires entries { length entries.now ≡ member_count cut.now }
    requires bounded { All IsBounded entries.now }
    requires moment { IsMoment time }
    ensures is { result ≡ time -ℤ (member cut.now i).entry +ℤ entry_at entries.now i }
    ensures near { result ≤ℤ pos (2 ^ 51) }
{
    shift(time, cut.sound().row(i).entry, entries[i as usize])
}

// When a visit starts, moved with its member's entry.
pub(crate) fn start_of(cut: &FitCut, entries: &[i64], visit: Visit) -> i64
    requires there { visit.member < member_count cut.now }
    requires entries { length entries.now ≡ member_count cut.now }
    requires bounded { All IsBounded entries.now }
    requires moment { IsMoment visit.start }
    ensures { result ≡ visit.start -ℤ (member cut.now visit.member).entry
        +ℤ entry_at entries.now visit.member }
{
    moved(cut, entries, visit.member, visit.start)
}

// When a visit ends, moved with its member's entry.
pub(crate) fn end_of(cut: &FitCut, entries: &[i64], visit: Visit) -> i64
    requires there { visit.member < member_count cut.now }
    requires entries { length entries.now ≡ member_count cut.now }
    requires bounded { All IsBounded entries.now }
    requires moment { IsMoment visit.start }
    ensures { result ≡ visit.start -ℤ (member cut.now visit.member).entry
        +ℤ entry_at entries.now visit.member +ℤ pos visit.lasts_s }
{
    moved(cut, entries, visit.member, visit.start) + i64::from(visit.lasts_s)
}
