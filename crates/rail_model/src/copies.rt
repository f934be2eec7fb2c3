//! Copies of what holds lists. Each is equal to its original.
ghost use Rattle.std.specs.Prelude.{◌≡◌, IfOk};

use crate::{
    Block, Connection, Edit, Item, List, OutOfMemory, Route, Run, Section, Signal, Tables,
};
use std::alloc::Global;

impl Route {
    fn copy(&self, alloc: Global) -> Result<Route, OutOfMemory>
        ensures { IfOk result (λ other. other ≡ self.now) }
    {
        Ok(Route {
            name: self.name,
            signals: self.signals.copy(alloc)?,
        })
    }
}

impl Run {
    fn copy(&self) -> Result<Run, OutOfMemory>
        ensures { IfOk result (λ other. other ≡ self.now) }
    {
        Ok(Run {
            name: self.name,
            route: self.route,
            length_m: self.length_m,
            tail_s: self.tail_s,
            start_s: self.start_s,
            legs: self.legs.clone()?,
        })
    }
}

impl Section {
    /// A section equal to this one.
    pub fn copy(&self, alloc: Global) -> Result<Section, OutOfMemory>
        ensures { IfOk result (λ other. other ≡ self.now) }
    {
        Ok(Section {
            name: self.name,
            from_s: self.from_s,
            to_s: self.to_s,
            add_percent: self.add_percent,
            blocks: self.blocks.copy(alloc)?,
        })
    }
}

impl Item {
    fn copy(&self, alloc: Global) -> Result<Item, OutOfMemory>
        ensures { IfOk result (λ other. other ≡ self.now) }
    {
        match self {
            Item::Block(block) => Ok(Item::Block(*block)),
            Item::Signal(signal) => Ok(Item::Signal(*signal)),
            Item::Route(route) => Ok(Item::Route(route.copy(alloc)?)),
            Item::Run(run) => Ok(Item::Run(run.copy()?)),
            Item::Section(section) => Ok(Item::Section(section.copy(alloc)?)),
            Item::Connection(connection) => Ok(Item::Connection(*connection)),
        }
    }
}

impl Edit {
    /// An edit equal to this one.
    pub fn copy(&self, alloc: Global) -> Result<Edit, OutOfMemory>
        ensures { IfOk result (λ other. other ≡ self.now) }
    {
        match self {
            Edit::Put(item) => Ok(Edit::Put(item.copy(alloc)?)),
            Edit::Change(item) => Ok(Edit::Change(item.copy(alloc)?)),
            Edit::Drop(kind, name) => Ok(Edit::Drop(*kind, *name)),
        }
    }
}

impl Tables {
    /// Tables equal to these.
    pub fn copy(&self, alloc: Global) -> Result<Tables, OutOfMemory>
        ensures { IfOk result (λ other. other ≡ self.now) }
    {
        Ok(Tables {
            blocks: self.blocks.copy(alloc)?,
            signals: self.signals.copy(alloc)?,
            routes: copy_routes(alloc, self.routes.slice())?,
            runs: copy_runs(alloc, self.runs.slice())?,
            sections: copy_sections(alloc, self.sections.slice())?,
            connections: self.connections.copy(alloc)?,
        })
    }
}

fn copy_routes(alloc: Global, routes: &[Route]) -> Result<List<Route>, OutOfMemory>
    ensures { IfOk result (λ others. others ≡ routes.now) }
{
    let mut others = List::with_capacity(alloc, routes.len())?;
    for route in routes {
        others.push(route.copy(alloc)?)?;
    }
    Ok(others)
}

fn copy_runs(alloc: Global, runs: &[Run]) -> Result<List<Run>, OutOfMemory>
    ensures { IfOk result (λ others. others ≡ runs.now) }
{
    let mut others = List::with_capacity(alloc, runs.len())?;
    for run in runs {
        others.push(run.copy()?)?;
    }
    Ok(others)
}

fn copy_sections(alloc: Global, sections: &[Section]) -> Result<List<Section>, OutOfMemory>
    ensures { IfOk result (λ others. others ≡ sections.now) }
{
    let mut others = List::with_capacity(alloc, sections.len())?;
    for section in sections {
        others.push(section.copy(alloc)?)?;
    }
    Ok(others)
}
