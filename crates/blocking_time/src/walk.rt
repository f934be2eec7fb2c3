//! The blockings of a whole run, in one walk along its path.

ghost use Rattle.std.specs.Prelude.{◌≡◌, ◌≢◌, ◌≤◌, ◌-◌, ◌<ℤ◌, [], IfOk, map, All, AllPairs, slice_index_or, false};
ghost use Rattle.std.specs.List.{range_with_len};
ghost use Rattle.rail_model.specs.Blocking.{hop as hop_of, hop_count, Fits, stairway as stairway_of, stair_of, use_of};
ghost use Rattle.blocking_time.specs.Mark.{marks_of, stop_mark};
ghost use Rattle.blocking_time.specs.Blocking.{blocking_of, IsUseBounded, stair_on, uses_on};

use crate::motion::{self, Mark};
use crate::{approach, course, moments};
use rail_model::{Hop, List, OutOfMemory, Path, Stair, Use};
use std::alloc::Global;

/// A run's blocking of one block.
#[derive(Clone, Copy)]
pub struct Blocking {
    pub used: Use,
    /// Form, watch, approach, running, clearing, release: seconds.
    pub parts: [i64; 6],
}

/// The blockings of a run, one for each hop, in the order of its path.
pub fn blockings(alloc: Global, path: &Path) -> Result<List<Blocking>, OutOfMemory>
    requires { Fits path.now }
    ensures each { IfOk result
        (λ all. all ≡ map (blocking_of path.now) (range_with_len 1 (hop_count path.now))) }
    ensures not_empty { IfOk result (All (λ b. b.used.start <ℤ b.used.«end»)) }
    ensures bounded { IfOk result (All (λ b. IsUseBounded b.used)) }
{
    let marks = course::marks(alloc, path)?;
    let mut stop = approach::no_stop_yet();
    let mut all = Vec::with_capacity(alloc, path.hops.len())?;
    for i in 0..path.hops.len() {
        let hop = motion::hop_at(path, i + 1);
        all.push(blocking_in(path, &marks, i + 1, hop, stop))?;
        stop = course::next_stop(path, &marks, i + 1, hop, stop);
    }
    Ok(List::from_vec(all))
}

// The blocking of the k-th block, from 1, by the last stop before it.
#[inline]
fn blocking_in(path: &Path, marks: &[Mark], k: usize, hop: &Hop, stop: Mark) -> Blocking
    requires fits { Fits path.now }
    requires table { marks.now ≡ marks_of path.now }
    requires some { 1 ≤ k }
    requires on_path { k ≤ hop_count path.now }
    requires hop { hop.now ≡ hop_of path.now k }
    requires stop { stop ≡ stop_mark path.now (k - 1) }
    ensures { result ≡ blocking_of path.now k }
{
    let at = course::moments_in(path, marks, k, hop, stop);
    Blocking {
        used: moments::use_at(at, hop),
        parts: moments::parts_at(at, hop),
    }
}

/// A run's stair: its name, and its uses of blocks in the order of its path.
pub fn stairs(alloc: Global, path: &Path) -> Result<Stair, OutOfMemory>
    requires { Fits path.now }
    ensures same { IfOk result (λ s. s ≡ stair_of path.now) }
    ensures not_empty { IfOk result (λ s. All (λ u. u.start <ℤ u.«end») s.uses) }
    ensures bounded { IfOk result (λ s. All IsUseBounded s.uses) }
    ensures blocks_differ { IfOk result (λ s. AllPairs (λ a b. a ≢ b) (map (λ u. u.block) s.uses)) }
{
    let room = Vec::with_capacity(alloc, path.hops.len())?;
    stairs_in(alloc, path, room)
}

/// The stair that `stairs` makes, with its uses in `room`, an empty list. Where that has room for a
/// use of each hop, no memory is asked for them.
pub fn stairs_in(alloc: Global, path: &Path, room: Vec<Use>) -> Result<Stair, OutOfMemory>
    requires fits { Fits path.now }
    requires empty { room.items ≡ [] }
    ensures { IfOk result (λ s. s ≡ stair_of path.now) }
{
    let uses = stairway(alloc, path, room)?;
    Ok(Stair {
        run: path.run,
        uses,
    })
}

// The uses of a run's blocks, in one walk along its path, put into an empty list.
fn stairway(alloc: Global, path: &Path, room: Vec<Use>) -> Result<List<Use>, OutOfMemory>
    requires fits { Fits path.now }
    requires empty { room.items ≡ [] }
    ensures { IfOk result (λ uses. uses ≡ stairway_of path.now) }
{
    let marks = course::marks(alloc, path)?;
    let mut stop = approach::no_stop_yet();
    let mut uses = room;
    for done in 0..path.hops.len() {
        let hop = motion::hop_at(path, done + 1);
        uses.push(use_in(path, &marks, done + 1, hop, stop))?;
        stop = course::next_stop(path, &marks, done + 1, hop, stop);
    }
    Ok(List::from_vec(uses))
}

/// A run's stair with its uses of some blocks alone: of those for whose numbers `true` stands.
///
/// Where few blocks are wanted, it costs much less than `stairs`.
pub fn stair_on(alloc: Global, path: &Path, wanted: &[bool]) -> Result<Stair, OutOfMemory>
    requires { Fits path.now }
    ensures { IfOk result (λ s. s ≡ stair_on wanted.now path.now) }
{
    let uses = uses_on(alloc, path, wanted)?;
    Ok(Stair {
        run: path.run,
        uses,
    })
}

// The uses of a run's blocks that are wanted, in one walk along its path.
fn uses_on(alloc: Global, path: &Path, wanted: &[bool]) -> Result<List<Use>, OutOfMemory>
    requires { Fits path.now }
    ensures { IfOk result (λ uses. uses ≡ uses_on wanted.now (stairway_of path.now)) }
{
    let marks = course::marks(alloc, path)?;
    let mut stop = approach::no_stop_yet();
    let mut uses = Vec::new(alloc);
    for done in 0..path.hops.len() {
        let hop = motion::hop_at(path, done + 1);
        if is_wanted(wanted, hop.block) {
            uses.push(use_in(path, &marks, done + 1, hop, stop))?;
        }
        stop = course::next_stop(path, &marks, done + 1, hop, stop);
    }
    Ok(List::from_vec(uses))
}

// Whether `true` stands for a block.
#[inline]
fn is_wanted(wanted: &[bool], block: u32) -> bool
    ensures { result ≡ slice_index_or wanted.now block false }
{
    match wanted.get(block as usize) {
        Some(wanted) => *wanted,
        None => false,
    }
}

// The use of the k-th block, from 1, by the last stop before it.
#[inline]
fn use_in(path: &Path, marks: &[Mark], k: usize, hop: &Hop, stop: Mark) -> Use
    requires fits { Fits path.now }
    requires table { marks.now ≡ marks_of path.now }
    requires some { 1 ≤ k }
    requires on_path { k ≤ hop_count path.now }
    requires hop { hop.now ≡ hop_of path.now k }
    requires stop { stop ≡ stop_mark path.now (k - 1) }
    ensures { result ≡ use_of path.now k }
{
    moments::use_at(course::moments_in(path, marks, k, hop, stop), hop)
}
