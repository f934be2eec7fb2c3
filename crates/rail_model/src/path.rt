//! Paths of runs, with all that their blocks and signals say of them.
use crate::{List, Name};

/// One block of a run's path, with all that the block, its entry signal and the run's leg say of
/// it.
#[derive(Clone, Copy)]
pub struct Hop {
    /// The block's number.
    pub block: u32,
    /// The block's length: metres.
    pub block_m: u32,
    /// Of the signal: metres for the approach and the overlap, seconds for the others.
    pub approach_m: u32,
    pub watch_s: u32,
    pub form_s: u32,
    pub overlap_m: u32,
    pub release_s: u32,
    /// Of the run's leg: seconds.
    pub running_s: u32,
    pub dwell_s: u32,
}

/// A run with its route's signals and blocks looked up: one hop for each signal, in the route's
/// order.
#[derive(Drop)]
pub struct Path {
    pub run: Name,
    /// The train's length: metres.
    pub length_m: u32,
    /// From the last arrival until the end of the path is clear: seconds.
    pub tail_s: u32,
    /// When the head passes the first signal: seconds from the timetable's origin.
    pub start_s: u32,
    /// 1 to 256 where the path fits, each over another block.
    pub hops: List<Hop>,
}
