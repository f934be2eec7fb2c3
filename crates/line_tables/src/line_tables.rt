//! The tables of a line: what they hold, and looking it up.
ghost use Rattle.std.specs.Prelude.{◌≡◌, ◌<◌, length, map, All, Some, IfOk, IfSome};
ghost use Rattle.std.specs.Prelude.{is_some, slice_get};
ghost use Rattle.rail_model.specs.Tables.{number_of, signal_named};
ghost use Rattle.rail_model.specs.Rules.{has_block, has_run, has_section, has_signal, no_tables, IsSound};
ghost use Rattle.line_tables.specs.Links.{IsKey};
ghost use Rattle.line_tables.specs.KeptRoutes.{all_with_names};
ghost use Rattle.line_tables.specs.Inside.{items_of, whole_tables, tables_of, parts, IsJoined};

use crate::kept_route::{KeptRoute, plain_route};
use crate::key_counts::KeyCounts;
use crate::linked::Linked;
use crate::named_table::{NamedTable, TableItem};
use crate::route_sets::RouteSets;
use rail_model::{Block, Connection, List, Name, OutOfMemory, Route, Run, Section, Signal, Tables};
use std::alloc::Global;
use std::marker::Model;

/// A line and its timetable, seen as `Tables`, which take edits. Each item stands under a key that
/// stays its own, and what it refers to was found once, when it was put or changed.
pub struct LineTables {
    pub(crate) alloc: Global,
    pub(crate) blocks: NamedTable<Block>,
    pub(crate) signals: NamedTable<Linked<Signal>>,
    pub(crate) routes: NamedTable<Linked<KeptRoute>>,
    pub(crate) runs: NamedTable<Linked<Run>>,
    pub(crate) sections: NamedTable<Linked<Section>>,
    pub(crate) connections: NamedTable<Linked<Connection>>,
    // How often signals and sections refer to each block, routes to each signal, runs to each
    // route, and connections to each run.
    pub(crate) block_uses: KeyCounts,
    pub(crate) signal_uses: KeyCounts,
    pub(crate) route_uses: KeyCounts,
    pub(crate) run_uses: KeyCounts,
    // Which routes list each signal, and which have a signal of each block.
    pub(crate) route_sets: RouteSets,
}

// Dropping the tables is one call for whoever holds them.
impl Drop for LineTables {
    fn drop(self) {
        let LineTables {
            alloc: _,
            blocks: _,
            signals: _,
            routes: _,
            runs: _,
            sections: _,
            connections: _,
            block_uses: _,
            signal_uses: _,
            route_uses: _,
            run_uses: _,
            route_sets: _,
        } = self;
    }
}

impl Model for LineTables {
    ghost use Rattle.rail_model.specs.declared.tables.Tables.{Tables};

    ghost Value = { Tables };

    ghost use Rattle.line_tables.specs.Inside.{whole_tables, tables_of, IsJoined};

    ghost view = { λ t. tables_of (whole_tables t) };

    ghost invariant = { λ t. IsJoined (whole_tables t) };
}

impl LineTables {
    /// Tables without items, which ask for no memory.
    pub fn new(alloc: Global) -> LineTables
        ensures empty { result ≡ no_tables }
    {
        LineTables {
            alloc,
            blocks: NamedTable::new(alloc),
            signals: NamedTable::new(alloc),
            routes: NamedTable::new(alloc),
            runs: NamedTable::new(alloc),
            sections: NamedTable::new(alloc),
            connections: NamedTable::new(alloc),
            block_uses: KeyCounts::new(alloc),
            signal_uses: KeyCounts::new(alloc),
            route_uses: KeyCounts::new(alloc),
            run_uses: KeyCounts::new(alloc),
            route_sets: RouteSets::new(alloc),
        }
    }

    /// Tables equal to these.
    pub fn copy(&self) -> Result<LineTables, OutOfMemory>
        ensures { IfOk result (λ other. other ≡ self.now) }
    {
        let sets = self.route_sets.copy()?;
        let track = copy_track(&self.blocks, &self.signals, &self.routes)?;
        let trains = copy_trains(&self.runs, &self.sections, &self.connections)?;
        let counts = copy_counts(
            &self.block_uses,
            &self.signal_uses,
            &self.route_uses,
            &self.run_uses,
        )?;
        Ok(from_parts(self.alloc, track, trains, counts, sets))
    }

    /// The items alone, as plain tables.
    pub fn plain(&self) -> Result<Tables, OutOfMemory>
        ensures same { IfOk result (λ tables. tables ≡ self.now) }
        ensures sound { IfOk result IsSound }
    {
        self.signals.learn_order();
        Ok(Tables {
            blocks: plain_blocks(self.alloc, &self.blocks)?,
            signals: plain_items(self.alloc, &self.signals)?,
            routes: plain_routes(self.alloc, &self.signals, &self.routes)?,
            runs: plain_items(self.alloc, &self.runs)?,
            sections: plain_items(self.alloc, &self.sections)?,
            connections: plain_items(self.alloc, &self.connections)?,
        })
    }

    /// Learns that the tables are sound: so there are no more items of a kind than its limit.
    pub fn learn_sound(&self)
        ensures { IsSound self.now }
    {
        let _blocks = &self.blocks;
    }

    /// How many blocks there are: at most `BLOCKS`.
    pub fn blocks(&self) -> u32
        ensures count { result ≡ length self.now.blocks }
        ensures sound { IsSound self.now }
    {
        self.blocks.len() as u32
    }

    /// How many runs there are: at most `RUNS`.
    pub fn runs(&self) -> u32
        ensures count { result ≡ length self.now.runs }
        ensures sound { IsSound self.now }
    {
        self.runs.len() as u32
    }

    /// How many sections there are: at most `SECTIONS`.
    pub fn sections(&self) -> u32
        ensures count { result ≡ length self.now.sections }
        ensures sound { IsSound self.now }
    {
        self.sections.len() as u32
    }

    /// How many connections there are: at most `CONNECTIONS`.
    pub fn connections(&self) -> u32
        ensures count { result ≡ length self.now.connections }
        ensures sound { IsSound self.now }
    {
        self.connections.len() as u32
    }

    /// The block of a number.
    pub fn block(&self, n: u32) -> &Block
        requires { n < length self.now.blocks }
        ensures { slice_get self.now.blocks n ≡ Some result.now }
    {
        self.blocks.nth(n as usize)
    }

    /// The run of a number.
    pub fn run(&self, n: u32) -> &Run
        requires { n < length self.now.runs }
        ensures { slice_get self.now.runs n ≡ Some result.now }
    {
        &self.runs.nth(n as usize).item
    }

    /// The section of a number.
    pub fn section(&self, n: u32) -> &Section
        requires { n < length self.now.sections }
        ensures { slice_get self.now.sections n ≡ Some result.now }
    {
        &self.sections.nth(n as usize).item
    }

    /// The connection of a number.
    pub fn connection(&self, n: u32) -> &Connection
        requires { n < length self.now.connections }
        ensures { slice_get self.now.connections n ≡ Some result.now }
    {
        &self.connections.nth(n as usize).item
    }

    /// The signal of a name, if there is one.
    pub fn signal(&self, name: &Name) -> Option<&Signal>
        ensures there { is_some result ≡ has_signal self.now name.now }
        ensures signal { IfSome result (λ s. s.now ≡ signal_named self.now name.now) }
    {
        match self.signals.key_of(name) {
            Some(key) => Some(&self.signals.get(key).item),
            None => None,
        }
    }

    /// The number of the block of a name, if there is one.
    pub fn block_number(&self, name: &Name) -> Option<u32>
        ensures there { is_some result ≡ has_block self.now name.now }
        ensures number { IfSome result (λ n. n ≡ number_of (λ x. x.name) self.now.blocks name.now) }
        ensures in_range { IfSome result (λ n. n < length self.now.blocks) }
    {
        match self.blocks.number_of(name) {
            Some(number) => Some(number as u32),
            None => None,
        }
    }

    /// The number of the run of a name, if there is one.
    pub fn run_number(&self, name: &Name) -> Option<u32>
        ensures there { is_some result ≡ has_run self.now name.now }
        ensures number { IfSome result (λ n. n ≡ number_of (λ x. x.name) self.now.runs name.now) }
        ensures in_range { IfSome result (λ n. n < length self.now.runs) }
    {
        match self.runs.number_of(name) {
            Some(number) => Some(number as u32),
            None => None,
        }
    }

    /// The number of the section of a name, if there is one.
    pub fn section_number(&self, name: &Name) -> Option<u32>
        ensures there { is_some result ≡ has_section self.now name.now }
        ensures number { IfSome result (λ n. n ≡ number_of (λ x. x.name) self.now.sections name.now) }
        ensures in_range { IfSome result (λ n. n < length self.now.sections) }
    {
        match self.sections.number_of(name) {
            Some(number) => Some(number as u32),
            None => None,
        }
    }
}

// The tables of a line's track and of its trains.
type TrackTables = (
    NamedTable<Block>,
    NamedTable<Linked<Signal>>,
    NamedTable<Linked<KeptRoute>>,
);

type TrainTables = (
    NamedTable<Linked<Run>>,
    NamedTable<Linked<Section>>,
    NamedTable<Linked<Connection>>,
);

// How often items of four kinds are referred to, by their keys.
type ReferenceCounts = (KeyCounts, KeyCounts, KeyCounts, KeyCounts);

fn copy_track(
    blocks: &NamedTable<Block>,
    signals: &NamedTable<Linked<Signal>>,
    routes: &NamedTable<Linked<KeptRoute>>,
) -> Result<TrackTables, OutOfMemory>
    ensures { IfOk result (λ copies. copies ≡ (blocks.now, signals.now, routes.now)) }
{
    Ok((blocks.copy()?, signals.copy()?, routes.copy()?))
}

fn copy_trains(
    runs: &NamedTable<Linked<Run>>,
    sections: &NamedTable<Linked<Section>>,
    connections: &NamedTable<Linked<Connection>>,
) -> Result<TrainTables, OutOfMemory>
    ensures { IfOk result (λ copies. copies ≡ (runs.now, sections.now, connections.now)) }
{
    Ok((runs.copy()?, sections.copy()?, connections.copy()?))
}

fn copy_counts(
    blocks: &KeyCounts,
    signals: &KeyCounts,
    routes: &KeyCounts,
    runs: &KeyCounts,
) -> Result<ReferenceCounts, OutOfMemory>
    ensures { IfOk result (λ copies. copies ≡ (blocks.now, signals.now, routes.now, runs.now)) }
{
    Ok((
        blocks.copy()?,
        signals.copy()?,
        routes.copy()?,
        runs.copy()?,
    ))
}

// The tables of these parts.
fn from_parts(
    alloc: Global,
    track: TrackTables,
    trains: TrainTables,
    counts: ReferenceCounts,
    sets: RouteSets,
) -> LineTables
    requires { IsJoined (whole_tables (parts alloc track trains counts sets)) }
    ensures { result ≡ tables_of (whole_tables (parts alloc track trains counts sets)) }
{
    LineTables {
        alloc,
        blocks: track.0,
        signals: track.1,
        routes: track.2,
        runs: trains.0,
        sections: trains.1,
        connections: trains.2,
        block_uses: counts.0,
        signal_uses: counts.1,
        route_uses: counts.2,
        run_uses: counts.3,
        route_sets: sets,
    }
}

fn plain_blocks(alloc: Global, table: &NamedTable<Block>) -> Result<List<Block>, OutOfMemory>
    ensures { IfOk result (λ items. items ≡ map (λ e. e.1) table.now) }
{
    let mut items = List::from_vec(Vec::with_capacity(alloc, table.len())?);
    for number in 0..table.len() {
        items.push(*table.nth(number))?;
    }
    Ok(items)
}

// The items of a table's entries, in their order.
fn plain_items<T: TableItem>(
    alloc: Global,
    table: &NamedTable<Linked<T>>,
) -> Result<List<T>, OutOfMemory>
    ensures { IfOk result (λ items. items ≡ map (λ e. e.1.item) table.now) }
{
    let mut items = List::from_vec(Vec::with_capacity(alloc, table.len())?);
    for number in 0..table.len() {
        items.push(table.nth(number).item.clone()?)?;
    }
    Ok(items)
}

// The routes of a table's entries, in their order.
fn plain_routes(
    alloc: Global,
    signals: &NamedTable<Linked<Signal>>,
    table: &NamedTable<Linked<KeptRoute>>,
) -> Result<List<Route>, OutOfMemory>
    requires { All (λ u. All (IsKey signals.now) u.1.refs) table.now }
    ensures { IfOk result (λ items. items ≡ items_of (all_with_names signals.now table.now)) }
{
    let mut items = List::from_vec(Vec::with_capacity(alloc, table.len())?);
    for number in 0..table.len() {
        items.push(plain_route(alloc, signals, table.nth(number))?)?;
    }
    Ok(items)
}
