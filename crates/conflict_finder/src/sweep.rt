//! The conflicts, found by one sweep over the uses.
ghost use Rattle.std.specs.Prelude.{◌≡◌, ◌-◌, ◌*◌, ◌<◌, ◌≤◌, [], ◌++◌, false};
ghost use Rattle.std.specs.Prelude.{All, map, take, length, IfOk, OnOk};
ghost use Rattle.std.specs.List.{take_while, prefix_len};
ghost use Rattle.std.specs.List.Sorted.{IsPartitionedBy, IsSortedByKey};
ghost use Rattle.rail_model.specs.Conflict.{IsTimetable};
ghost use Rattle.conflict_finder.specs.Runs.{key_of, key_cmp};
ghost use Rattle.conflict_finder.specs.Found.{IsFound};
ghost use Rattle.conflict_finder.specs.ByBlock.{one_after_another, AreSorted};
ghost use Rattle.conflict_finder.specs.ByNumber.{IsListed, met_of, all_met, met_in_turn};
ghost use Rattle.conflict_finder.specs.Sweep as swept;
ghost use Rattle.rail_model.specs.declared.limits.TheConstants.{RUNS, PATH_HOPS};

use crate::found::{Conflicts, LISTED, Met, MetInPart};
use crate::parts::{found_in_parts, joined};
use crate::ranked::by_name;
use crate::run_starts::by_start;
use crate::run_uses::RunUse;
use rail_model::{List, OutOfMemory, Stair};
use std::alloc::Global;
use std::thread::Threads;

/// The conflicts of a timetable's stairways: the first `LISTED`, and the number of the rest.
pub fn conflicts(
    rt: &(impl Threads + Sync),
    alloc: Global,
    stairs: &List<Stair>,
) -> Result<Conflicts, OutOfMemory>
    requires { IsTimetable stairs.now }
    ensures { IfOk result (λ found. IsFound stairs.now found) }
{
    let runs = by_name(alloc, stairs.slice())?;
    let starts = by_start(alloc, stairs.slice(), &runs)?;
    let found = found_in_parts(rt, alloc, stairs.slice(), &starts)?;
    joined(alloc, &runs, &found)
}

// Walks over the lists of uses, one after another.
pub(crate) fn sweep(alloc: Global, by_block: &[Vec<RunUse>]) -> Result<MetInPart, OutOfMemory>
    requires most { length (one_after_another by_block.now) ≤ RUNS * PATH_HOPS }
    requires order { AreSorted by_block.now }
    ensures { IfOk result (IsListed (met_in_turn by_block.now)) }
{
    let mut list = Vec::new(alloc);
    let mut count: u64 = 0;
    for run_uses in by_block {
        count += sweep_block(&mut list, run_uses)?;
    }
    let more = count - list.len() as u64;
    Ok(MetInPart { list, more })
}

// Walks over the uses of one block, in order. Each overlaps some of those next to it, and none
// past the first that it doesn't overlap. The conflicts are listed as long as there is room, and
// all of them are counted.
fn sweep_block(list: &mut Vec<Met>, run_uses: &[RunUse]) -> Result<u64, OutOfMemory>
    requires room { length list.old.items ≤ LISTED }
    requires most { length run_uses.now ≤ RUNS * PATH_HOPS }
    requires order { IsSortedByKey key_of key_cmp run_uses.now }
    ensures list { OnOk result (list.new.items ≡ list.old.items
        ++ take (LISTED - length list.old.items) (all_met run_uses.now)) }
    ensures count { IfOk result (λ count. count ≡ length (all_met run_uses.now)) }
    ensures most { IfOk result (λ count. count ≤ length run_uses.now * (RUNS * PATH_HOPS)) }
{
    let mut count: u64 = 0;
    for (i, one) in run_uses.iter().enumerate() {
        let met = met_by(one, &run_uses[i + 1..]);
        list_met(list, one, met)?;
        count += met.len() as u64;
    }
    Ok(count)
}

// The later uses that one use meets: they come first among them.
#[inline]
fn met_by<'a>(one: &RunUse, later: &'a [RunUse]) -> &'a [RunUse]
    requires { IsPartitionedBy (swept.meets one.now) later.now }
    ensures { result.now ≡ take_while (swept.meets one.now) later.now }
{
    if !meets_next(one, later) {
        return &later[..0];
    }
    &later[..count_met(one, later)]
}

// How many of the later uses are tried one by one, before the end of those that are met is
// searched for by halving.
const FEW: usize = 7;

// How many of the later uses one use meets: they come first among them, and mostly they are
// few.
#[inline(never)]
fn count_met(one: &RunUse, later: &[RunUse]) -> usize
    requires { IsPartitionedBy (swept.meets one.now) later.now }
    ensures { result ≡ prefix_len (swept.meets one.now) later.now }
{
    for i in 0..FEW.min(later.len()) {
        if !meets(one, &later[i]) {
            return i;
        }
    }
    later.partition_point(|other| meets(one, other))
}

// Whether a use may meet the first of the later ones: `false` says that it meets none of them,
// and `true` says nothing.
#[inline]
fn meets_next(one: &RunUse, later: &[RunUse]) -> bool
    ensures { result ≡ false → take_while (swept.meets one.now) later.now ≡ [] }
{
    !later.is_empty() && meets(one, &later[0])
}

#[inline]
fn meets(one: &RunUse, other: &RunUse) -> bool
    ensures { result ≡ swept.meets one.now other.now }
{
    one.block == other.block && other.start < one.end
}

// Lists the conflicts of one use with those that it meets, as long as there is room.
fn list_met(list: &mut Vec<Met>, one: &RunUse, met: &[RunUse]) -> Result<(), OutOfMemory>
    requires { length list.old.items ≤ LISTED }
    ensures { OnOk result (list.new.items ≡ list.old.items
        ++ map (met_of one.now) (take (LISTED - length list.old.items) met.now)) }
{
    // Mostly it meets none.
    if met.is_empty() {
        return Ok(());
    }
    let room = LISTED - list.len();
    for other in &met[..room.min(met.len())] {
        list.push(met_of(one, other))?;
    }
    Ok(())
}

fn met_of(one: &RunUse, other: &RunUse) -> Met
    ensures { result ≡ met_of one.now other.now }
{
    Met {
        block: one.block,
        first: one.run,
        second: other.run,
        from: other.start,
        to: one.end.min(other.end),
    }
}
