//! When the head of a train reaches a place.
ghost use Rattle.std.specs.Prelude.{◌≡◌, ◌≢◌, ◌<◌, ◌≤◌, ◌+◌, IfOk};
ghost use Rattle.rail_model.specs.Blocking.{hop_count, Fits, IsHopWithin, place};

use blocking_time::{approach_moment, reach, reach_down};
use rail_model::{Hop, List, Name, OutOfMemory, Path};
use small_lines::{Text, number_of, word};
use std::alloc::Global;

// When the head of a train over two blocks of 700 and 300 m reaches so many metres, rounded up and
// down, and when the second block's signal is approached.
pub(crate) fn write_reach(alloc: Global, text: &mut Text, line: &[u8]) {
    let metres = number_of(word(line, 1));
    if metres > 1_000 {
        return text.put_line(b"beyond the path");
    }
    let first = hop_over(0, 700, 0, 30, 50);
    let second = hop_over(1, 300, 250, 0, 40);
    match uneven(alloc, first, second) {
        Ok(path) => put_moments(text, &path, metres),
        Err(_) => text.lose(),
    }
}

fn put_moments(text: &mut Text, path: &Path, metres: u64)
    requires fits { Fits path.now }
    requires count { hop_count path.now ≡ 2 }
    requires within { metres ≤ place path.now (hop_count path.now) }
{
    text.show(b"rounded up ", reach(path, metres));
    text.show(b", down ", reach_down(path, metres));
    text.show(b"; approach of the second ", approach_moment(path, 2));
    text.put(b"\n");
}

// A hop over a block of this number and length, whose signal has this approach and overlap.
fn hop_over(block: u32, block_m: u32, approach_m: u32, overlap_m: u32, running_s: u32) -> Hop
    requires block { block < 4 }
    requires length { 0 < block_m }
    requires short { block_m ≤ 1_000 }
    requires approach { approach_m ≤ 1_000 }
    requires overlap { overlap_m ≤ 1_000 }
    requires some_running { 0 < running_s }
    requires running { running_s ≤ 1_000 }
    ensures within { IsHopWithin result }
    ensures block { result.block ≡ block }
    ensures length { result.block_m ≡ block_m }
    ensures dwell { result.dwell_s ≡ 0 }
{
    Hop {
        block,
        block_m,
        approach_m,
        watch_s: 10,
        form_s: 5,
        overlap_m,
        release_s: 5,
        running_s,
        dwell_s: 0,
    }
}

// A train of 121 m that starts at 100 and clears the end of its path in 10 seconds.
fn uneven(alloc: Global, first: Hop, second: Hop) -> Result<Path, OutOfMemory>
    requires first { IsHopWithin first }
    requires second { IsHopWithin second }
    requires blocks_differ { first.block ≢ second.block }
    requires last_dwell { second.dwell_s ≡ 0 }
    ensures fits { IfOk result Fits }
    ensures count { IfOk result (λ path. hop_count path ≡ 2) }
    ensures end { IfOk result (λ path. place path (hop_count path) ≡ first.block_m + second.block_m) }
{
    let Ok(run) = Name::read(b"T") else {
        return Err(OutOfMemory);
    };
    let mut hops = List::new(alloc);
    hops.push(first)?;
    hops.push(second)?;
    Ok(Path {
        run,
        length_m: 121,
        tail_s: 10,
        start_s: 100,
        hops,
    })
}
