//! Knock-on delays: how much later a train enters than its planned entry and its own delay say.
ghost use Rattle.std.specs.Prelude.{◌≡◌, ◌≤◌, ◌<◌, ◌^◌, ℕ, nat_lt, length, count_by, sum_by};
ghost use Rattle.plan_model.specs.declared.limits.TheConstants.{MEMBERS};
ghost use Rattle.plan_model.specs.Cut.{IsMoment};
ghost use Rattle.plan_model.specs.Members.{member_count, members};
ghost use Rattle.delay_spread.specs.Spreading as delayed;

use plan_model::{FitCut, SoundCut};

// How much later a train enters than its planned entry and its own delay say: seconds.
pub(crate) fn later_by(planned: i64, delay: u32, entry: i64) -> u64
    requires { IsMoment planned }
    ensures { result ≡ delayed.later_by planned delay entry }
{
    entry.abs_diff(planned + i64::from(delay))
}

// The knock-on delay of the member at a position.
fn knock_on(cut: &SoundCut, delays: &[u32], entries: &[i64], i: u32) -> u64
    requires there { i < member_count cut.now }
    requires delays { length delays.now ≡ member_count cut.now }
    requires entries { length entries.now ≡ member_count cut.now }
    ensures { result ≡ delayed.knock_on cut.now delays.now entries.now i }
{
    later_by(cut.row(i).entry, delays[i as usize], entries[i as usize])
}

// How many trains have a knock-on delay.
pub(crate) fn late(cut: &SoundCut, delays: &[u32], entries: &[i64]) -> u32
    requires delays { length delays.now ≡ member_count cut.now }
    requires entries { length entries.now ≡ member_count cut.now }
    ensures { result
        ≡ count_by (λ i. nat_lt 0 (delayed.knock_on cut.now delays.now entries.now i)) (members cut.now) }
{
    let mut count = 0;
    for i in 0..cut.member_count() {
        if knock_on(cut, delays, entries, i) > 0 {
            count += 1;
        }
    }
    count
}

// All knock-on delays together: seconds.
pub(crate) fn sum(cut: &FitCut, delays: &[u32], entries: &[i64]) -> u64
    requires delays { length delays.now ≡ member_count cut.now }
    requires entries { length entries.now ≡ member_count cut.now }
    requires small { (i : ℕ) → i < member_count cut.now
        → delayed.knock_on cut.now delays.now entries.now i ≤ 2 ^ 51 }
    ensures { result ≡ sum_by (delayed.knock_on cut.now delays.now entries.now) (members cut.now) }
{
    let mut sum = 0;
    for i in 0..cut.member_count() {
        sum += knock_on(cut.sound(), delays, entries, i);
    }
    sum
}
