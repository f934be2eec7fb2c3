//! The answer of a section: its compressed timetable, or why it has none.
use crate::PlacedList;
use rail_model::{List, Name, Names};

/// Why a train enters no earlier in the compressed timetable.
#[derive(Clone, Copy)]
pub enum Tie {
    /// It enters at the window's start.
    Start,
    /// It touches a train that precedes it: of several the first by name, at the first place by
    /// name.
    After {
        /// That train's position among the plan's trains.
        train: u32,
        /// The position among the plan's places at which they touch.
        block: u32,
    },
}

/// A train of the compressed timetable. Times are in seconds from the timetable's origin.
#[derive(Clone, Copy)]
pub struct Placed {
    pub train: Name,
    /// Its entry in the given timetable.
    pub planned: i64,
    /// Its entry in the compressed timetable.
    pub entry: i64,
    pub tie: Tie,
}

/// The compressed timetable of a section: the compression of UIC Code 406, with running times,
/// dwell times and order kept.
#[derive(Drop)]
pub struct Plan {
    /// The window's start and end: seconds from the timetable's origin.
    pub from_s: u32,
    pub to_s: u32,
    /// The additional time rate: per cent of the occupancy time.
    pub add_percent: u32,
    /// The names of the cut's places: the section's blocks, then the connections.
    pub blocks: Names,
    /// In the order of the trains' names.
    pub placed: PlacedList,
    /// The occupancy time: seconds.
    pub occupancy: u64,
    /// The position of the busiest block, the first by name of several, if there is a train.
    pub busiest: Option<u32>,
    /// The position of the critical train, if there is a train: the first by name of those that end
    /// their use of the busiest block last.
    pub critical: Option<u32>,
}

/// One train precedes the next at a place.
#[derive(Clone, Copy)]
pub struct Link {
    pub train: Name,
    /// The place's name: a block or a connection.
    pub block: Name,
    pub next: Name,
}

/// Why the trains of a cut have no order.
#[derive(Drop)]
pub enum Disorder {
    /// Two trains, each of which precedes the other at some place: the least such pair by names.
    Opposite {
        first: Name,
        second: Name,
        /// The first place by name at which the first precedes the second.
        block1: Name,
        /// The first place by name at which the second precedes the first.
        block2: Name,
    },
    /// Trains of which each precedes the next, and the last the first.
    Ring(List<Link>),
}

impl Disorder {
    ghost use Rattle.std.specs.Prelude.{◌≡◌};
    ghost use Rattle.plan_model.specs.Answer.{answer_of};

    /// The answer of a cut whose trains have no order.
    pub fn into_answer(self) -> Answer
        ensures { result ≡ answer_of self }
    {
        match self {
            Disorder::Opposite {
                first,
                second,
                block1,
                block2,
            } => Answer::Opposite {
                first,
                second,
                block1,
                block2,
            },
            Disorder::Ring(links) => Answer::Ring(links),
        }
    }
}

/// The answer of a cut.
#[derive(Drop)]
pub enum Answer {
    /// The compressed timetable.
    Ordered(Plan),
    /// Two trains, each of which precedes the other at some place: the least such pair by names.
    Opposite {
        first: Name,
        second: Name,
        /// The first place by name at which the first precedes the second.
        block1: Name,
        /// The first place by name at which the second precedes the first.
        block2: Name,
    },
    /// Trains of which each precedes the next, and the last the first.
    Ring(List<Link>),
    /// The cut has more members than are compressed: `count` of them.
    Crowded {
        count: u32,
    },
}

/// An answer of a section, with the number of the last edit that it speaks of.
#[derive(Drop)]
pub struct Done {
    pub section: Name,
    pub at: u64,
    pub answer: Answer,
}
