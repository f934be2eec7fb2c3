//! The items that rows put and change.
ghost use Rattle.std.specs.Prelude.{◌≡◌, ◌<◌, length, IsTrue};
ghost use Rattle.std.specs.Result.{result_map_both};
ghost use Rattle.rail_model.specs.declared.items.Item.TheVariants as item;
ghost use Rattle.rail_model.specs.declared.edit.Kind.TheVariants as kind;
ghost use Rattle.row_text.specs.Words.{kind_shape, allows};
ghost use Rattle.row_text.specs.Lines.{item_in};
ghost use Rattle.row_text.specs.Reads.{Reads};

use crate::fields::Row;
use crate::lists::{names_from, run_legs};
use crate::read_field::{name_at, number_at, rate_at, time_at};
use crate::unread::Unread;
use rail_model::{Block, Connection, Form, Item, Kind, Legs, Route, Run, Section, Signal};
use std::alloc::Global;

// The item of a kind that a row spells, or the first fault of its fields.
pub(crate) fn item_of(
    alloc: Global,
    version: u32,
    kind: Kind,
    row: &Row<'_>,
) -> Result<Item, Unread>
    requires { IsTrue (allows (kind_shape kind) (length row.now)) }
    ensures { Reads result (item_in version kind row.now) }
{
    match kind {
        Kind::Block => Ok(Item::Block(block_of(row)?)),
        Kind::Signal => Ok(Item::Signal(signal_of(row)?)),
        Kind::Route => route_of(alloc, row),
        Kind::Run => run_of(alloc, version, row),
        Kind::Section => section_of(alloc, version, row),
        Kind::Connection => connection_of(row),
    }
}

// block,NAME,LENGTH
#[inline]
pub(crate) fn block_of(row: &Row<'_>) -> Result<Block, Form>
    requires { 2 < length row.now }
    ensures { item_in 1 kind.Block row.now ≡ result_map_both item.Block (λ fault. fault) result }
{
    let name = name_at(row, 1)?;
    let length_m = number_at(row, 2)?;
    Ok(Block { name, length_m })
}

// signal,NAME,BLOCK,APPROACH,WATCH,FORM,OVERLAP,RELEASE
#[inline]
pub(crate) fn signal_of(row: &Row<'_>) -> Result<Signal, Form>
    requires { 7 < length row.now }
    ensures { item_in 1 kind.Signal row.now ≡ result_map_both item.Signal (λ fault. fault) result }
{
    let name = name_at(row, 1)?;
    let block = name_at(row, 2)?;
    let approach_m = number_at(row, 3)?;
    let watch_s = number_at(row, 4)?;
    let form_s = number_at(row, 5)?;
    let overlap_m = number_at(row, 6)?;
    let release_s = number_at(row, 7)?;
    Ok(Signal {
        name,
        block,
        approach_m,
        watch_s,
        form_s,
        overlap_m,
        release_s,
    })
}

// route,NAME,SIGNAL_1,..,SIGNAL_n
#[inline(never)]
fn route_of(alloc: Global, row: &Row<'_>) -> Result<Item, Unread>
    requires { IsTrue (allows (kind_shape kind.Route) (length row.now)) }
    ensures { Reads result (item_in 1 kind.Route row.now) }
{
    let name = name_at(row, 1)?;
    let signals = names_from(alloc, row, 2)?;
    Ok(Item::Route(Route { name, signals }))
}

// run,NAME,ROUTE,LENGTH,TAIL,START,RUNNING_1,DWELL_1,..,RUNNING_n, or in version 2
// run,NAME,ROUTE,LENGTH,TAIL,D_0,A_1,D_1,..,A_n: the departure at the start, and each arrival and
// departure after it
#[inline(never)]
fn run_of(alloc: Global, version: u32, row: &Row<'_>) -> Result<Item, Unread>
    requires { IsTrue (allows (kind_shape kind.Run) (length row.now)) }
    ensures { Reads result (item_in version kind.Run row.now) }
{
    let name = name_at(row, 1)?;
    let route = name_at(row, 2)?;
    let length_m = number_at(row, 3)?;
    let tail_s = number_at(row, 4)?;
    let start_s = time_at(version, row, 5)?;
    let legs = Legs::of(alloc, run_legs(alloc, version, start_s, row, 6)?)?;
    Ok(Item::Run(Run {
        name,
        route,
        length_m,
        tail_s,
        start_s,
        legs,
    }))
}

// section,NAME,FROM,TO,RATE,BLOCK_1,..,BLOCK_n
#[inline(never)]
fn section_of(alloc: Global, version: u32, row: &Row<'_>) -> Result<Item, Unread>
    requires { IsTrue (allows (kind_shape kind.Section) (length row.now)) }
    ensures { Reads result (item_in version kind.Section row.now) }
{
    let name = name_at(row, 1)?;
    let from_s = time_at(version, row, 2)?;
    let to_s = time_at(version, row, 3)?;
    let add_percent = rate_at(row, 4)?;
    let blocks = names_from(alloc, row, 5)?;
    Ok(Item::Section(Section {
        name,
        from_s,
        to_s,
        add_percent,
        blocks,
    }))
}

// connect,NAME,FIRST,SECOND,MINIMUM
#[inline(never)]
fn connection_of(row: &Row<'_>) -> Result<Item, Unread>
    requires { 4 < length row.now }
    ensures { Reads result (item_in 1 kind.Connection row.now) }
{
    let name = name_at(row, 1)?;
    let first = name_at(row, 2)?;
    let second = name_at(row, 3)?;
    let minimum_s = number_at(row, 4)?;
    Ok(Item::Connection(Connection {
        name,
        first,
        second,
        minimum_s,
    }))
}
