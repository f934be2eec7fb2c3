//! The conflicts, found in parts of the blocks, side by side: the uses of each part are laid, put
//! in order and swept on their own.
ghost use Rattle.std.specs.Prelude.{◌≡◌, ◌+◌, ◌-◌, ◌*◌, ◌<◌, ◌≤◌, ◌^◌, ◌++◌, min};
ghost use Rattle.std.specs.Prelude.{All, map, take, length, IfOk, OnOk};
ghost use Rattle.std.specs.List.{flat_map, sum_by};
ghost use Rattle.rail_model.specs.declared.limits.TheConstants.{RUNS, PATH_HOPS};
ghost use Rattle.conflict_finder.specs.Runs.{run_uses_in_turn};
ghost use Rattle.conflict_finder.specs.ByNumber.{IsFoundInPart, AreFoundInParts, HasRuns};
ghost use Rattle.conflict_finder.specs.ByNumber.{named, count_of};

use crate::by_block::room_for;
use crate::found::{Conflict, Conflicts, LISTED, Met, MetInPart};
use crate::ranked::Ranked;
use crate::run_starts::RunStart;
use crate::run_uses::run_uses_in_order;
use crate::sweep::sweep;
use rail_model::{List, OutOfMemory, Stair};
use rayon::current_num_threads;
use rayon::prelude::*;
use std::alloc::Global;
use std::thread::Threads;

// Fewer uses aren't worth a thread.
const LEAST_USES: usize = 16_384;

// Fewer lists aren't worth a part of their own.
const LEAST_LISTS: usize = 8;

// With one thread there are two parts, so that only half of the lists take memory at a time. Each
// part goes over all uses, so there are no more.
const LEAST_PARTS: usize = 2;

// What is found in each part of the lists of the runs' uses.
pub(crate) fn found_in_parts(
    rt: &(impl Threads + Sync),
    alloc: Global,
    stairs: &[Stair],
    starts: &[RunStart],
) -> Result<Vec<MetInPart>, OutOfMemory>
    requires most { length (run_uses_in_turn stairs.now starts.now) ≤ RUNS * PATH_HOPS }
    requires there { All (λ e. e.stair < length stairs.now) starts.now }
    ensures { IfOk result (λ found.
        AreFoundInParts (run_uses_in_turn stairs.now starts.now) found.items) }
{
    let room = room_for(alloc, stairs)?;
    let threads = threads_for(rt, uses_of(&room));
    found_by_threads(rt, alloc, stairs, starts, &room, threads)
}

// How many uses there are in all lists.
fn uses_of(room: &[u32]) -> usize {
    let mut uses: usize = 0;
    for count in room {
        uses = uses.saturating_add(*count as usize);
    }
    uses
}

// By how many threads so many uses are swept. Only where they are many is the system asked for the
// number of processors, since that reads a file.
fn threads_for(rt: &impl Threads, uses: usize) -> usize
    ensures { 0 < result }
{
    if uses < LEAST_USES {
        1
    } else {
        current_num_threads(rt)
    }
}

// Into how many parts so many lists are split.
fn parts_for(threads: usize, lists: usize) -> usize
    ensures { 0 < result }
{
    threads.max(LEAST_PARTS).min(lists / LEAST_LISTS).max(1)
}

// What is found in each part by so many threads. One thread takes the parts in turn.
fn found_by_threads(
    rt: &(impl Threads + Sync),
    alloc: Global,
    stairs: &[Stair],
    starts: &[RunStart],
    room: &[u32],
    threads: usize,
) -> Result<Vec<MetInPart>, OutOfMemory>
    requires some { 0 < threads }
    requires lists { 0 < length room.now }
    requires most { length (run_uses_in_turn stairs.now starts.now) ≤ RUNS * PATH_HOPS }
    requires there { All (λ e. e.stair < length stairs.now) starts.now }
    ensures { IfOk result (λ found.
        AreFoundInParts (run_uses_in_turn stairs.now starts.now) found.items) }
{
    let parts = parts_for(threads, room.len());
    let size = room.len() / parts + 1;
    let in_turn = (parts / threads).max(1);
    (0..parts)
        .into_par_iter()
        .with_min_len(in_turn)
        .map(
            |part: usize| -> Result<MetInPart, OutOfMemory>
                requires { (0 < length room.now)
                    × (length (run_uses_in_turn stairs.now starts.now) ≤ RUNS * PATH_HOPS)
                    × All (λ e. e.stair < length stairs.now) starts.now }
                ensures { IfOk result (IsFoundInPart (length room.entry.now) size
                    (run_uses_in_turn stairs.entry.now starts.entry.now) part) }
            { sweep_part(alloc, stairs, starts, room, size, part) },
        )
        .collect::<Result<Vec<MetInPart>, OutOfMemory>>(rt, alloc)?
}

// What is found in a part. Each has so many of the lists, as long as there are any left.
fn sweep_part(
    alloc: Global,
    stairs: &[Stair],
    starts: &[RunStart],
    room: &[u32],
    size: usize,
    part: usize,
) -> Result<MetInPart, OutOfMemory>
    requires lists { 0 < length room.now }
    requires most { length (run_uses_in_turn stairs.now starts.now) ≤ RUNS * PATH_HOPS }
    requires there { All (λ e. e.stair < length stairs.now) starts.now }
    ensures { IfOk result (IsFoundInPart (length room.now) size
        (run_uses_in_turn stairs.now starts.now) part) }
{
    let first = part.saturating_mul(size).min(room.len());
    let end = first.saturating_add(size).min(room.len());
    let last = room.len() - 1;
    let by_block = run_uses_in_order(alloc, stairs, starts, &room[first..end], first, last)?;
    sweep(alloc, &by_block)
}

// What was found in one part after the other, with the names of the runs: the first are listed, as
// many as there is room for.
pub(crate) fn joined(
    alloc: Global,
    runs: &[Ranked],
    found: &[MetInPart],
) -> Result<Conflicts, OutOfMemory>
    requires count { sum_by count_of found.now < 2 ^ 64 }
    requires there { All (HasRuns (length runs.now))
        (take LISTED (flat_map (λ part. part.list.items) found.now)) }
    ensures list { IfOk result (λ all. all.list ≡ map (named runs.now)
        (take LISTED (flat_map (λ part. part.list.items) found.now))) }
    ensures count { IfOk result (λ all. length all.list + all.more ≡ sum_by count_of found.now) }
{
    let mut list = Vec::with_capacity(alloc, listed_in(found))?;
    let mut count: u64 = 0;
    for part in found {
        list_part(&mut list, runs, &part.list)?;
        count += part.list.len() as u64 + part.more;
    }
    let more = count - list.len() as u64;
    let list = List::from_vec(list);
    Ok(Conflicts { list, more })
}

// How many will be listed, so that room for them is asked for once. No clause says so: with less
// room the list would grow.
fn listed_in(found: &[MetInPart]) -> usize {
    let mut listed: usize = 0;
    for part in found {
        listed = listed.saturating_add(part.list.len()).min(LISTED);
    }
    listed
}

// Lists what a part lists, as long as there is room.
fn list_part(list: &mut Vec<Conflict>, runs: &[Ranked], part: &[Met]) -> Result<(), OutOfMemory>
    requires room { length list.old.items ≤ LISTED }
    requires there { All (HasRuns (length runs.now))
        (take (LISTED - length list.old.items) part.now) }
    ensures { OnOk result (list.new.items ≡ list.old.items
        ++ map (named runs.now) (take (LISTED - length list.old.items) part.now)) }
{
    let room = LISTED - list.len();
    for met in &part[..room.min(part.len())] {
        list.push(named(runs, met))?;
    }
    Ok(())
}

// A conflict with the names of its runs.
fn named(runs: &[Ranked], met: &Met) -> Conflict
    requires { HasRuns (length runs.now) met.now }
    ensures { result ≡ named runs.now met.now }
{
    Conflict {
        block: met.block,
        first: runs[met.first as usize].name,
        second: runs[met.second as usize].name,
        from: met.from,
        to: met.to,
    }
}
