//! The items of a line and its timetable.
ghost use Rattle.std.specs.Prelude.{◌≡◌};
ghost use Rattle.rail_model.specs.Rules.{kind_of_item, name_of_item};

use crate::{Kind, Legs, List, Name};

/// A stretch of track that one train may block at a time.
#[derive(Clone, Copy)]
pub struct Block {
    pub name: Name,
    /// Metres.
    pub length_m: u32,
}

/// The signal at the entry of a block.
#[derive(Clone, Copy)]
pub struct Signal {
    pub name: Name,
    /// The block that the signal protects: the one beyond it.
    pub block: Name,
    /// How far before the signal the driver must already see it clear: metres.
    pub approach_m: u32,
    /// How long before the approach point it must be clear: seconds.
    pub watch_s: u32,
    /// How long the interlocking takes to form the route: seconds.
    pub form_s: u32,
    /// How far past the block's end the train's rear must be before the block is clear: metres.
    pub overlap_m: u32,
    /// How long the interlocking takes to release the block: seconds.
    pub release_s: u32,
}

/// The signals that a run passes.
#[derive(Clone, Drop)]
pub struct Route {
    pub name: Name,
    /// In the order in which they are passed: 1 to 256, each of another block.
    pub signals: List<Name>,
}

/// A run's time for one block of its route.
#[derive(Clone, Copy)]
pub struct Leg {
    /// From the block's entry to its end: seconds.
    pub running_s: u32,
    /// The stop at the block's end: seconds, 0 where the train doesn't stop.
    pub dwell_s: u32,
}

/// A train's timed run over a route: one leg for each of the route's signals.
#[derive(Clone, Drop)]
pub struct Run {
    pub name: Name,
    pub route: Name,
    /// The train's length: metres.
    pub length_m: u32,
    /// How long the train takes to clear the end of its path after its last arrival: seconds.
    pub tail_s: u32,
    /// When the head passes the first signal: seconds from the timetable's origin.
    pub start_s: u32,
    /// In the route's order: one for each of its signals, the last without a dwell.
    pub legs: Legs,
}

/// A part of the line whose capacity is asked for, with the time window that is looked at.
#[derive(Clone, Drop)]
pub struct Section {
    pub name: Name,
    /// The window's start: seconds from the timetable's origin.
    pub from_s: u32,
    /// The window's end: seconds from the timetable's origin.
    pub to_s: u32,
    /// The additional time rate of UIC Code 406: per cent of the occupancy time.
    pub add_percent: u32,
    /// In the planner's order: 1 to 256, each once.
    pub blocks: List<Name>,
}

/// Two runs of which the second is to start no earlier than a time after the first run's last
/// arrival: rolling stock that turns, or passengers who change trains.
#[derive(Clone, Copy)]
pub struct Connection {
    /// No block has it.
    pub name: Name,
    pub first: Name,
    pub second: Name,
    /// From the first run's last arrival to the second run's start, at least: seconds.
    pub minimum_s: u32,
}

/// One item of a planner's tables.
#[derive(Drop)]
pub enum Item {
    Block(Block),
    Signal(Signal),
    Route(Route),
    Run(Run),
    Section(Section),
    Connection(Connection),
}

impl Item {
    /// The kind of the item.
    pub fn kind(&self) -> Kind
        ensures { result ≡ kind_of_item self.now }
    {
        match self {
            Item::Block(_) => Kind::Block,
            Item::Signal(_) => Kind::Signal,
            Item::Route(_) => Kind::Route,
            Item::Run(_) => Kind::Run,
            Item::Section(_) => Kind::Section,
            Item::Connection(_) => Kind::Connection,
        }
    }

    /// The name of the item.
    pub fn name(&self) -> &Name
        ensures { result.now ≡ name_of_item self.now }
    {
        match self {
            Item::Block(block) => &block.name,
            Item::Signal(signal) => &signal.name,
            Item::Route(route) => &route.name,
            Item::Run(run) => &run.name,
            Item::Section(section) => &section.name,
            Item::Connection(connection) => &connection.name,
        }
    }
}
