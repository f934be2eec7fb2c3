//! What an answer leaves out, and what it finds in the given timetable: lines for people.
ghost use Rattle.std.specs.Prelude.{◌≡◌, ◌<◌, true, length};
ghost use Rattle.sentences.specs.Told.{is_plain};

use crate::Told;
use crate::clashes::clashing_places;
use crate::found::{Found, NAMED, tell_found};
use crate::piece::Added;
use blocking_time::stairs;
use line_tables::{LineTables, Paths};
use plan_model::Cut;
use rail_model::{Hop, Name, OutOfMemory, Section, Use};
use std::alloc::Global;

/// What is told of a section's cut beside its answer. Its clause holds of every `Told`: no clause
/// says what the lines say.
pub fn told_of_cut(alloc: Global, tables: &LineTables, cut: &Cut) -> Told
    ensures { is_plain result ≡ true }
{
    Told::of(notes(alloc, tables, cut))
}

fn notes(alloc: Global, tables: &LineTables, cut: &Cut) -> Result<String, OutOfMemory> {
    let outsiders = outsiders(alloc, tables, cut)?;
    let idle = idle_connections(tables, cut);
    let (blocks, connections) = clashes(alloc, cut)?;
    let found = [
        (OUTSIDERS, outsiders),
        (IDLE, idle),
        (CONFLICTS, blocks),
        (NOT_KEPT, connections),
    ];
    let mut text = String::new(alloc);
    for (sentence, found) in &found {
        tell_found(&mut text, sentence, &cut.section, found)?;
    }
    Ok(text)
}

const OUTSIDERS: &str = "trains left out, since they enter outside the window from @ to @";

const IDLE: &str =
    "connections of its trains that bind nothing, since the second doesn't start after the first \
    enters";

const CONFLICTS: &str = "blocks on which its trains have conflicts in the given timetable";

const NOT_KEPT: &str = "connections of its trains that the given timetable doesn't keep";

// The trains that use a section's blocks and are no members of its cut: they enter outside its
// window.
fn outsiders<'a>(
    alloc: Global,
    tables: &'a LineTables,
    cut: &Cut,
) -> Result<Found<'a>, OutOfMemory> {
    let blocks = block_numbers(alloc, tables, &cut.section)?;
    let paths = tables.paths()?;
    let mut found = Found::nothing();
    for run in 0..tables.runs() {
        let name = &tables.run(run).name;
        if !is_member(cut, name) {
            add_outsider(alloc, &mut found, name, &paths, run, &blocks)?;
        }
    }
    Ok(found)
}

// Adds a run to those found if it uses one of these blocks. The first few have their entries.
fn add_outsider<'a>(
    alloc: Global,
    found: &mut Found<'a>,
    name: &'a Name,
    paths: &Paths<'_>,
    run: u32,
    blocks: &[bool],
) -> Added
    requires { run < length paths.now }
{
    let path = paths.path(run)?;
    if uses_one(path.hops.slice(), blocks) {
        let entry = if found.count < NAMED {
            entry(stairs(alloc, &path)?.uses.slice(), blocks)
        } else {
            None
        };
        found.add(name.bytes(), entry);
    }
    Ok(())
}

// Whether a number is one of those that are flagged.
fn is_flagged(flags: &[bool], number: u32) -> bool {
    match flags.get(number as usize) {
        Some(flag) => *flag,
        None => false,
    }
}

fn uses_one(hops: &[Hop], blocks: &[bool]) -> bool {
    for hop in hops {
        if is_flagged(blocks, hop.block) {
            return true;
        }
    }
    false
}

// The least start of the uses of these blocks.
fn entry(uses: &[Use], blocks: &[bool]) -> Option<i64> {
    let mut entry: Option<i64> = None;
    for one in uses {
        if is_flagged(blocks, one.block) {
            entry = match entry {
                Some(least) if least <= one.start => Some(least),
                _ => Some(one.start),
            };
        }
    }
    entry
}

// Whether each block of the tables, by its number, is one of a section's.
fn block_numbers(
    alloc: Global,
    tables: &LineTables,
    section: &Section,
) -> Result<Vec<bool>, OutOfMemory> {
    let mut of_section = vec![in alloc; false; tables.blocks() as usize]?;
    for block in section.blocks.slice() {
        if let Some(number) = tables.block_number(block) {
            if (number as usize) < of_section.len() {
                of_section[number as usize] = true;
            }
        }
    }
    Ok(of_section)
}

// The connections of two members that bind nothing.
fn idle_connections<'a>(tables: &'a LineTables, cut: &Cut) -> Found<'a> {
    let mut found = Found::nothing();
    for number in 0..tables.connections() {
        let connection = tables.connection(number);
        if is_member(cut, &connection.first)
            && is_member(cut, &connection.second)
            && !cut.connections.slice().contains(&connection.name)
        {
            found.add(connection.name.bytes(), None);
        }
    }
    found
}

fn is_member(cut: &Cut, run: &Name) -> bool {
    let rows = cut.rows.slice();
    rows.binary_search_by(|row| row.name.bytes().cmp(run.bytes()))
        .is_ok()
}

// The blocks and the connections of a cut that two members use at one time.
fn clashes(alloc: Global, cut: &Cut) -> Result<(Found<'_>, Found<'_>), OutOfMemory> {
    let places = clashing_places(alloc, cut)?;
    let (mut blocks, mut connections) = (Found::nothing(), Found::nothing());
    for place in places.iter() {
        add_place(&mut blocks, &mut connections, cut, *place);
    }
    Ok((blocks, connections))
}

fn add_place<'a>(blocks: &mut Found<'a>, connections: &mut Found<'a>, cut: &'a Cut, place: usize) {
    let count = cut.section.blocks.len();
    if let Some(block) = cut.section.blocks.get(place) {
        blocks.add(block.bytes(), None);
    } else if let Some(connection) = cut.connections.get(place.saturating_sub(count)) {
        connections.add(connection.bytes(), None);
    }
}
