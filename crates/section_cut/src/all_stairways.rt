//! The stairways of a line's runs, and between which moments each of them starts to keep blocks.
ghost use Rattle.std.specs.Prelude.{◌≡◌, ◌<◌, ◌≤◌, ◌≤ℤ◌, ◌||◌, pos, int_lt, int_le, true, length, map, take, drop, IfOk};
ghost use Rattle.line_tables.specs.Paths.{path_at};
ghost use Rattle.rail_model.specs.Blocking.{stair_of};
ghost use Rattle.rail_model.specs.Conflict.{timetable, stair_at};
ghost use Rattle.section_cut.specs.Rooms.{AreRoomsFor, IsRoomFor};
ghost use Rattle.section_cut.specs.Spans.{AreSpans};
ghost use Rattle.section_cut.specs.Starts.{StartsBetween, StartsOutside};

use crate::spans::{BlockLists, BlockRange};
use blocking_time::{stairs, stairs_in};
use line_tables::{LineTables, Paths};
use rail_model::{List, OutOfMemory, Section, Stair, Use};
use rayon::current_num_threads;
use rayon::prelude::*;
use std::alloc::Global;
use std::marker::Model;
use std::thread::Threads;

// Fewer uses of blocks aren't worth a thread of their own.
const LEAST_USES: usize = 16_384;

/// The stairway of each run, in the order of the runs' names.
pub fn stairways(alloc: Global, tables: &LineTables) -> Result<List<Stair>, OutOfMemory>
    ensures { IfOk result (λ all. all ≡ timetable tables.now) }
{
    let paths = tables.paths()?;
    stairways_between(alloc, &paths, 0, tables.runs())
}

// The stairways of the runs from a number up to another.
pub(crate) fn stairways_between(
    alloc: Global,
    paths: &Paths<'_>,
    from: u32,
    to: u32,
) -> Result<List<Stair>, OutOfMemory>
    requires there { to ≤ length paths.now }
    requires part { from ≤ to }
    ensures { IfOk result (λ all. all ≡ drop from (take to (map stair_of paths.now))) }
{
    let mut all = List::with_capacity(alloc, (to - from) as usize)?;
    for run in from..to {
        all.push(stair_by(alloc, paths, run)?)?;
    }
    Ok(all)
}

/// The stairway of each run, in the order of the runs' names, made by at most as many threads as
/// there are processors.
pub fn stairways_in_parts(
    rt: &(impl Threads + Sync),
    alloc: Global,
    tables: &LineTables,
) -> Result<List<Stair>, OutOfMemory>
    ensures { IfOk result (λ all. all ≡ timetable tables.now) }
{
    let paths = tables.paths()?;
    let rooms = rooms_for(alloc, tables)?;
    let part = runs_a_part(rt, &rooms);
    Ok(List::from_vec(stairs_in_rooms(rt, alloc, &paths, rooms, part)?))
}

// A run's number, and an empty list with room for the uses of its stairway.
#[derive(Drop)]
struct StairRoom {
    run: u32,
    uses: Vec<Use>,
}

// Room for the stairway of each run. The calling thread asks for all of it, since the system's
// allocator then takes memory that this thread has let go of.
fn rooms_for(alloc: Global, tables: &LineTables) -> Result<Vec<StairRoom>, OutOfMemory>
    ensures { IfOk result (λ rooms. AreRoomsFor (length tables.now.runs) rooms.items) }
{
    let mut rooms = Vec::with_capacity(alloc, tables.runs() as usize)?;
    for run in 0..tables.runs() {
        let uses = Vec::with_capacity(alloc, tables.run(run).legs.len())?;
        rooms.push(StairRoom { run, uses })?;
    }
    Ok(rooms)
}

// How many runs are a part at least: all, unless there are uses enough for two threads. No clause
// says so.
fn runs_a_part(rt: &impl Threads, rooms: &[StairRoom]) -> usize {
    let mut uses: usize = 0;
    for room in rooms {
        uses = uses.saturating_add(room.uses.capacity());
    }
    let most = uses / LEAST_USES;
    if most < 2 {
        return rooms.len();
    }
    rooms.len() / current_num_threads(rt).min(most)
}

// The stairways of all paths, each made on its own in its room, in parts of at least so many.
fn stairs_in_rooms(
    rt: &(impl Threads + Sync),
    alloc: Global,
    paths: &Paths<'_>,
    rooms: Vec<StairRoom>,
    part: usize,
) -> Result<Vec<Stair>, OutOfMemory>
    requires { AreRoomsFor (length paths.now) rooms.items }
    ensures { IfOk result (λ stairs. stairs.items ≡ map stair_of paths.entry.now) }
{
    rooms
        .into_par_iter()
        .with_min_len(part)
        .map(
            |room: StairRoom| -> Result<Stair, OutOfMemory>
                requires { IsRoomFor (length paths.now) room }
                ensures { IfOk result (λ stair. stair ≡ stair_of (path_at paths.entry.now room.run)) }
            { stair_in_room(alloc, paths, room) },
        )
        .collect::<Result<Vec<Stair>, OutOfMemory>>(rt, alloc)?
}

// The stairway of a run, in its room.
fn stair_in_room(alloc: Global, paths: &Paths<'_>, room: StairRoom) -> Result<Stair, OutOfMemory>
    requires { IsRoomFor (length paths.now) room }
    ensures { IfOk result (λ stair. stair ≡ stair_of (path_at paths.entry.now room.run)) }
{
    let path = paths.path(room.run)?;
    stairs_in(alloc, &path, room.uses)
}

// The stairway of the run of a number.
fn stair_by(alloc: Global, paths: &Paths<'_>, run: u32) -> Result<Stair, OutOfMemory>
    requires { run < length paths.now }
    ensures { IfOk result (λ stair. stair ≡ stair_of (path_at paths.entry.now run)) }
{
    let path = paths.path(run)?;
    stairs(alloc, &path)
}

/// The stairways of a line's runs, for the cuts of many sections. Contracts see the list of the
/// stairways.
#[derive(Drop)]
pub struct AllStairways {
    stairs: List<Stair>,
    starts: Vec<Starts>,
    over: BlockLists,
}

// No use of a stairway starts before the first moment or after the last.
#[derive(Clone, Copy)]
pub(crate) struct Starts {
    pub(crate) first: i64,
    pub(crate) last: i64,
}

impl Model for AllStairways {
    ghost use Rattle.std.specs.Prelude.{List};
    ghost use Rattle.rail_model.specs.declared.stair.Stair.{Stair};
    ghost use Rattle.section_cut.specs.Spans.{AreLookedAt};

    ghost Value = { List Stair };

    ghost view = { λ t. t.stairs };

    ghost invariant = { λ t. AreLookedAt t.stairs t.starts.items t.over };
}

impl AllStairways {
    /// These stairways.
    pub fn of(alloc: Global, stairs: List<Stair>) -> Result<AllStairways, OutOfMemory>
        ensures { IfOk result (λ all. all ≡ stairs) }
    {
        let mut starts = Vec::with_capacity(alloc, stairs.len())?;
        let mut over = BlockLists::new(alloc);
        for stair in stairs.slice() {
            let uses = stair.uses.slice();
            starts.push(starts_of(uses))?;
            over.add(alloc, uses)?;
        }
        Ok(AllStairways {
            stairs,
            starts,
            over,
        })
    }

    // How many stairways there are.
    pub(crate) fn len(&self) -> usize
        ensures { result ≡ length self.now }
    {
        self.stairs.len()
    }

    // The stairway at a place.
    pub(crate) fn stair(&self, n: usize) -> &Stair
        requires { n < length self.now }
        ensures { result.now ≡ stair_at self.now n }
    {
        &self.stairs.slice()[n]
    }

    // Whether all uses of the stairway at a place start before a section's window, or all at its
    // end or later: `true` says so, and `false` says nothing.
    pub(crate) fn passes_by(&self, n: usize, section: &Section) -> bool
        requires { n < length self.now }
        ensures { result ≡ true → StartsOutside section.now (stair_at self.now n).uses }
    {
        is_outside(self.starts[n], section)
    }

    // How many stairways don't pass a section's window by: no more runs are members. No clause says
    // so, since it is for room alone.
    pub(crate) fn candidates(&self, section: &Section) -> usize {
        let mut count: usize = 0;
        for starts in &self.starts {
            if !is_outside(*starts, section) {
                count = count.saturating_add(1);
            }
        }
        count
    }

    // The spans of the stairways in a section of so many blocks, by a table of positions.
    pub(crate) fn spans(
        &self,
        alloc: Global,
        positions: &[u32],
        blocks: usize,
    ) -> Result<Vec<Option<BlockRange>>, OutOfMemory>
        ensures { IfOk result
            (λ spans. AreSpans positions.now blocks (map (λ s. s.uses) self.now) spans.items) }
    {
        let spans = self.over.spans(alloc, positions, blocks)?;
        Ok(spans)
    }
}

// Whether the last of these moments is before a section's window, or the first after it.
pub(crate) fn is_outside(starts: Starts, section: &Section) -> bool
    ensures { result ≡ (int_lt starts.last (pos section.now.from_s) || int_le (pos section.now.to_s) starts.first) }
{
    starts.last < i64::from(section.from_s) || i64::from(section.to_s) <= starts.first
}

// Between which moments uses start. Of no uses any moments would do.
pub(crate) fn starts_of(uses: &[Use]) -> Starts
    ensures { StartsBetween result uses.now }
{
    let mut starts = Starts {
        first: i64::MAX,
        last: i64::MIN,
    };
    for one in uses {
        starts = with_use(starts, one);
    }
    starts
}

// The moments with the start of one use more between them.
fn with_use(starts: Starts, one: &Use) -> Starts
    ensures first { (result.first ≤ℤ starts.first) × (result.first ≤ℤ one.now.start) }
    ensures last { (starts.last ≤ℤ result.last) × (one.now.start ≤ℤ result.last) }
{
    Starts {
        first: starts.first.min(one.start),
        last: starts.last.max(one.start),
    }
}
