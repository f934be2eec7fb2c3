//! What is found.
use rail_model::List;

/// A train, and one that follows it on a place.
#[derive(Clone, Copy)]
pub struct Step {
    /// The position of the first train.
    pub from: u32,
    /// The position of the train that follows it.
    pub to: u32,
    /// The position of the place: a block, or a connection of one pattern.
    pub block: u32,
    /// The second train is one of the next pattern.
    pub next: bool,
}

/// The least number of seconds after which the pattern of a cut's trains can repeat without end.
#[derive(Drop)]
pub struct Cycle {
    /// Seconds; 0 where there are no trains.
    pub period: u64,
    /// When the trains of one pattern enter, in the order of their names: seconds from the
    /// timetable's origin.
    pub entries: List<i64>,
    /// Steps of which each begins where the one before ends, and the first where the last ends,
    /// from the least train on. They ask for more than their patterns take in any lesser period.
    pub ring: List<Step>,
}
