//! Whether an item's numbers, and the length of its list, are within the limits.
ghost use Rattle.std.specs.Prelude.{◌≡◌, ◌==◌};
ghost use Rattle.std.specs.List.{list_all};
ghost use Rattle.rail_model.specs.Within as within;

use crate::{
    Block, Connection, GREATEST_LENGTH_M, GREATEST_RATE, GREATEST_START_S, GREATEST_TIME_S,
    GREATEST_WINDOW_END_S, Item, Leg, PATH_HOPS, Route, Run, Section, Signal,
};

/// Whether all numbers of an item, and the length of its list, are within the limits; a run ends
/// without a dwell, and a window is not empty.
pub fn is_within(item: &Item) -> bool
    ensures { result ≡ within.is_within item.now }
{
    match item {
        Item::Block(block) => is_block_within(block),
        Item::Signal(signal) => is_signal_within(signal),
        Item::Route(route) => is_route_within(route),
        Item::Run(run) => is_run_within(run),
        Item::Section(section) => is_section_within(section),
        Item::Connection(connection) => is_connection_within(connection),
    }
}

/// Whether the length of a block is within the limits.
pub fn is_block_within(block: &Block) -> bool
    ensures { result ≡ within.is_block_within block.now }
{
    is_from_one(block.length_m, GREATEST_LENGTH_M)
}

/// Whether the numbers of a signal are within the limits.
pub fn is_signal_within(signal: &Signal) -> bool
    ensures { result ≡ within.is_signal_within signal.now }
{
    signal.approach_m <= GREATEST_LENGTH_M
        && signal.overlap_m <= GREATEST_LENGTH_M
        && signal.watch_s <= GREATEST_TIME_S
        && signal.form_s <= GREATEST_TIME_S
        && signal.release_s <= GREATEST_TIME_S
}

fn is_route_within(route: &Route) -> bool
    ensures { result ≡ within.is_route_within route.now }
{
    is_path_len(route.signals.len())
}

fn is_run_within(run: &Run) -> bool
    ensures { result ≡ within.is_run_within run.now }
{
    is_path_len(run.legs.len())
        && is_from_one(run.length_m, GREATEST_LENGTH_M)
        && run.tail_s <= GREATEST_TIME_S
        && run.start_s <= GREATEST_START_S
        && are_legs_within(run.legs.slice())
        && ends_without_dwell(run.legs.slice())
}

fn is_section_within(section: &Section) -> bool
    ensures { result ≡ within.is_section_within section.now }
{
    is_path_len(section.blocks.len())
        && section.from_s <= GREATEST_START_S
        && is_from_one(section.to_s, GREATEST_WINDOW_END_S)
        && section.from_s < section.to_s
        && section.add_percent <= GREATEST_RATE
}

fn is_connection_within(connection: &Connection) -> bool
    ensures { result ≡ within.is_connection_within connection.now }
{
    connection.minimum_s <= GREATEST_TIME_S
}

fn are_legs_within(legs: &[Leg]) -> bool
    ensures { result ≡ list_all within.is_leg_within legs.now }
{
    legs.iter().all(is_leg_within)
}

fn is_leg_within(leg: &Leg) -> bool
    ensures { result ≡ within.is_leg_within leg.now }
{
    is_from_one(leg.running_s, GREATEST_TIME_S) && leg.dwell_s <= GREATEST_TIME_S
}

fn ends_without_dwell(legs: &[Leg]) -> bool
    ensures { result ≡ (within.last_dwell legs.now == 0) }
{
    legs.last().is_none_or(|leg| leg.dwell_s == 0)
}

fn is_from_one(number: u32, most: u32) -> bool
    ensures { result ≡ within.is_from_one number most }
{
    number > 0 && number <= most
}

fn is_path_len(len: usize) -> bool
    ensures { result ≡ within.is_from_one len PATH_HOPS }
{
    len > 0 && len <= PATH_HOPS
}
