//! Copies of what holds lists. Each is equal to its original.
ghost use Rattle.std.specs.Prelude.{◌≡◌, IfOk, take};

use crate::{Answer, Cut, CutRow, Plan};
use rail_model::{List, OutOfMemory};
use std::alloc::Global;

impl CutRow {
    /// A row equal to this one, its stamp included. Uses that one row holds alone are copied; others
    /// are shared.
    pub fn copy(&self) -> Result<CutRow, OutOfMemory>
        ensures { IfOk result (λ other. other ≡ self.now) }
    {
        Ok(CutRow {
            name: self.name,
            stamp: self.stamp,
            entry: self.entry,
            uses: self.uses.share()?,
        })
    }
}

impl Cut {
    /// A cut equal to this one, stamps included. Uses that several rows may hold are not copied.
    pub fn copy(&self, alloc: Global) -> Result<Cut, OutOfMemory>
        ensures { IfOk result (λ other. other ≡ self.now) }
    {
        Ok(Cut {
            section: self.section.copy(alloc)?,
            connections: self.connections.copy(alloc)?,
            rows: copy_rows(alloc, self.rows.slice())?,
        })
    }
}

fn copy_rows(alloc: Global, rows: &[CutRow]) -> Result<List<CutRow>, OutOfMemory>
    ensures { IfOk result (λ others. others ≡ rows.now) }
{
    let mut others = List::with_capacity(alloc, rows.len())?;
    for row in rows {
        others.push(row.copy()?)?;
    }
    Ok(others)
}

impl Plan {
    fn copy(&self, alloc: Global) -> Result<Plan, OutOfMemory>
        ensures { IfOk result (λ other. other ≡ self.now) }
    {
        Ok(Plan {
            from_s: self.from_s,
            to_s: self.to_s,
            add_percent: self.add_percent,
            blocks: self.blocks.clone()?,
            placed: self.placed.copy(alloc)?,
            occupancy: self.occupancy,
            busiest: self.busiest,
            critical: self.critical,
        })
    }
}

impl Answer {
    /// An answer equal to this one.
    pub fn copy(&self, alloc: Global) -> Result<Answer, OutOfMemory>
        ensures { IfOk result (λ other. other ≡ self.now) }
    {
        match self {
            Answer::Ordered(plan) => Ok(Answer::Ordered(plan.copy(alloc)?)),
            Answer::Opposite {
                first,
                second,
                block1,
                block2,
            } => Ok(Answer::Opposite {
                first: *first,
                second: *second,
                block1: *block1,
                block2: *block2,
            }),
            Answer::Ring(links) => Ok(Answer::Ring(links.copy(alloc)?)),
            Answer::Crowded { count } => Ok(Answer::Crowded { count: *count }),
        }
    }
}
