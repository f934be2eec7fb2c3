//! The cuts of all sections of a line.
ghost use Rattle.std.specs.Prelude.{◌≡◌, ◌≤◌, map, length, All, IfOk, OnOk};
ghost use Rattle.line_tables.specs.Paths.{paths_of};
ghost use Rattle.plan_model.specs.Cut.{stamped, IsSoundCut};
ghost use Rattle.plan_model.specs.Cut as cuts;
ghost use Rattle.section_cut.specs.LineCuts.{AreRowsTo};

use crate::all_stairways::{AllStairways, stairways_between};
use crate::cuts::{SectionRows, add_to_section, cut_of_section, no_section_rows};
use line_tables::{LineTables, Paths};
use plan_model::Cut;
use rail_model::{List, OutOfMemory};
use std::alloc::Global;

// The stairways of so many runs are made at a time. They take less than a megabyte.
const RUNS_A_PART: usize = 128;

// The rows of the members of each section, in the order of the tables, and their stamp.
#[derive(Drop)]
pub(crate) struct RowsOfAll {
    pub(crate) stamp: u64,
    pub(crate) each: Vec<SectionRows>,
}

/// The cuts of all sections, in the order of the tables, each row with this stamp. They are those
/// that `cut_among` makes; but only the stairways of a part of the runs are there at a time. No
/// clause says so.
pub fn all_cuts(alloc: Global, tables: &LineTables, stamp: u64) -> Result<List<Cut>, OutOfMemory>
    ensures same { IfOk result (λ all. all
        ≡ map (λ s. stamped stamp (cuts.section_cut tables.now s)) tables.now.sections) }
    ensures sound { IfOk result (λ all. All IsSoundCut all) }
{
    let rows = rows_of_all(alloc, tables, stamp)?;
    cuts_of_rows(alloc, tables, rows)
}

// The rows of the members of each section, with this stamp.
fn rows_of_all(alloc: Global, tables: &LineTables, stamp: u64) -> Result<RowsOfAll, OutOfMemory>
    ensures stamp { IfOk result (λ all. all.stamp ≡ stamp) }
    ensures rows { IfOk result (AreRowsTo tables.now (length tables.now.runs)) }
{
    let paths = tables.paths()?;
    let runs = tables.runs() as usize;
    let mut all = no_rows(alloc, tables, stamp)?;
    for part in 0..runs.div_ceil(RUNS_A_PART) {
        let from = part * RUNS_A_PART;
        let to = runs.min(from + RUNS_A_PART);
        add_part(alloc, tables, &paths, from as u32, to as u32, &mut all)?;
    }
    Ok(all)
}

// The rows of no run, in each section.
fn no_rows(alloc: Global, tables: &LineTables, stamp: u64) -> Result<RowsOfAll, OutOfMemory>
    ensures stamp { IfOk result (λ all. all.stamp ≡ stamp) }
    ensures rows { IfOk result (AreRowsTo tables.now 0) }
{
    let mut each = Vec::with_capacity(alloc, tables.sections() as usize)?;
    for section in 0..tables.sections() {
        each.push(no_section_rows(alloc, tables, section, tables.runs() as usize, 0)?)?;
    }
    Ok(RowsOfAll { stamp, each })
}

// Adds the rows of the members among the runs from a number up to another.
fn add_part(
    alloc: Global,
    tables: &LineTables,
    paths: &Paths<'_>,
    from: u32,
    to: u32,
    all: &mut RowsOfAll,
) -> Result<(), OutOfMemory>
    requires paths { paths.now ≡ paths_of tables.now }
    requires part { from ≤ to }
    requires there { to ≤ length tables.now.runs }
    requires rows { AreRowsTo tables.now from all.old }
    ensures stamp { all.new.stamp ≡ all.old.stamp }
    ensures rows { OnOk result (AreRowsTo tables.now to all.new) }
{
    let stairs = AllStairways::of(alloc, stairways_between(alloc, paths, from, to)?)?;
    for section in 0..tables.sections() {
        let rows = &mut all.each[section as usize];
        add_to_section(alloc, tables, section, &stairs, from, all.stamp, rows)?;
    }
    Ok(())
}

// The cuts of all sections, by the rows of their members.
fn cuts_of_rows(
    alloc: Global,
    tables: &LineTables,
    all: RowsOfAll,
) -> Result<List<Cut>, OutOfMemory>
    requires { AreRowsTo tables.now (length tables.now.runs) all }
    ensures same { IfOk result (λ made. made
        ≡ map (λ s. stamped all.stamp (cuts.section_cut tables.now s)) tables.now.sections) }
    ensures sound { IfOk result (λ made. All IsSoundCut made) }
{
    tables.learn_sound();
    let mut made = List::with_capacity(alloc, tables.sections() as usize)?;
    for rows in all.each {
        made.push(cut_of_section(alloc, tables, made.len() as u32, rows.members)?)?;
    }
    Ok(made)
}
