//! What is found.
use rail_model::{List, Name};

/// The greatest number of conflicts that are listed.
pub const LISTED: usize = 10_000;

/// Two runs that block one block at one time: their blocking times overlap, in Pachl's words.
#[derive(Clone, Copy)]
pub struct Conflict {
    /// The block's number.
    pub block: u32,
    /// The run whose blocking starts earlier or, of two that start at one moment, the one whose
    /// name comes first.
    pub first: Name,
    /// The other run.
    pub second: Name,
    /// The time that both block: from the start of the second run's blocking to the lesser end, in
    /// seconds from the timetable's origin.
    pub from: i64,
    pub to: i64,
}

/// The conflicts of a timetable.
#[derive(Drop)]
pub struct Conflicts {
    /// The first of them, at most `LISTED`: by block, then by the first run's start and name, then
    /// by the second's.
    pub list: List<Conflict>,
    /// How many more there are.
    pub more: u64,
}

// What two uses make, by the numbers of their runs in the order of names.
#[derive(Clone, Copy)]
pub(crate) struct Met {
    pub(crate) block: u32,
    pub(crate) first: u32,
    pub(crate) second: u32,
    pub(crate) from: i64,
    pub(crate) to: i64,
}

// The first `LISTED` of what is found in a part of the lists, and how many more there are. Each
// part may list as much as the whole, and with names a conflict is five times as large.
#[derive(Drop)]
pub(crate) struct MetInPart {
    pub(crate) list: Vec<Met>,
    pub(crate) more: u64,
}
