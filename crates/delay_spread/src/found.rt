//! What is found: when each train enters, and how late others make it.
use plan_model::Tie;
use rail_model::{List, Name};

/// A train with its own delay, held until it may enter.
#[derive(Clone, Copy)]
pub struct Held {
    pub train: Name,
    /// Its own delay: seconds after its planned entry.
    pub delay: u32,
    /// Its entry: seconds from the timetable's origin.
    pub entry: i64,
    /// Why it enters no earlier: `Start` says that it enters at its planned entry and its own
    /// delay, else it touches the train and place that are named.
    pub tie: Tie,
}

/// Delays that are spread over the trains of a cut.
#[derive(Drop)]
pub struct Spread {
    /// In the order of the trains' names.
    pub held: List<Held>,
    /// How many trains enter later than their own delay says.
    pub late: u32,
    /// By how much all of them together do: seconds.
    pub sum: u64,
}
