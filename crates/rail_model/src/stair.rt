//! Blocking times and stairways.
use crate::{List, Name};

/// A run's blocking of one block, which is Pachl's blocking time, or in a cut its use of a
/// connection: the half-open interval from `start` to `end`, in seconds from the timetable's
/// origin.
#[derive(Clone, Copy, PartialEq, Eq)]
pub struct Use {
    /// In a stairway the block's number; in a cut a place among its places: the section's blocks,
    /// then connections.
    pub block: u32,
    pub start: i64,
    pub end: i64,
}

/// A run's stairway, which is Pachl's blocking time stairway.
#[derive(Drop)]
pub struct Stair {
    pub run: Name,
    /// In the order of the run's path: one for each hop.
    pub uses: List<Use>,
}
