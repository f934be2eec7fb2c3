//! How many copies fit, by the occupancy times with them.
ghost use Rattle.std.specs.Prelude.{◌≡◌, ℕ, ◌+◌, ◌*◌, ◌/◌, ◌^◌, ◌<◌, ◌≤◌};
ghost use Rattle.path_fill.specs.Search as given;
ghost use Rattle.path_fill.specs.Search.{IsFillBy};

use crate::found::Fill;
use rail_model::Section;

// How many copies a section can take, by the occupancy time of its trains alone, by how long a
// block is kept up to the end of the first copy, and by the headway of the copies, all in seconds.
pub(crate) fn fill_up(section: &Section, alone: u64, first: u64, headway: u64) -> Fill
    requires window { section.now.from_s < section.now.to_s }
    requires some { 0 < headway }
    requires first { first ≤ 2 ^ 53 }
    requires headway { headway ≤ 2 ^ 53 }
    ensures { IsFillBy section.now alone first headway result }
{
    let most = most_time(section.to_s - section.from_s, section.add_percent);
    if alone > most {
        return Fill::Over { occupancy: alone };
    }
    let copies = copies_within(most, first, headway);
    Fill::Fits {
        copies,
        occupancy: filled_time(alone, first, headway, copies),
        next: filled_time(alone, first, headway, copies + 1),
    }
}

// The greatest occupancy time by which the consumption in a window of so many seconds is at most 1,
// in seconds.
fn most_time(window: u32, add_percent: u32) -> u64
    ensures is { result ≡ 100 * window / (100 + add_percent) }
    ensures small { result ≤ 2 ^ 40 }
{
    100 * u64::from(window) / (100 + u64::from(add_percent))
}

// How many copies end within a time: the first ends after `first` seconds, and each further one
// `headway` seconds later.
fn copies_within(most: u64, first: u64, headway: u64) -> u64
    requires some { 0 < headway }
    requires most { most ≤ 2 ^ 53 }
    ensures within { (more : ℕ) → more < result → first + more * headway ≤ most }
    ensures over { (more : ℕ) → result ≤ more → most < first + more * headway }
    ensures few { result * headway ≤ most + headway }
{
    if first > most {
        return 0;
    }
    (most - first) / headway + 1
}

// The occupancy time with so many copies.
fn filled_time(alone: u64, first: u64, headway: u64, copies: u64) -> u64
    requires first { first ≤ 2 ^ 53 }
    requires copies { copies * headway ≤ 2 ^ 55 }
    ensures { result ≡ given.filled_time alone first headway copies }
{
    if copies == 0 {
        return alone;
    }
    alone.max(first + (copies - 1) * headway)
}
