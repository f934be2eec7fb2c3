//! What an edit of one run makes of a section's cut. It reaches the run's own row alone, where each of
//! the run's connections binds after the edit exactly where it does before; otherwise the
//! connections are bound anew among the members.
ghost use Rattle.std.specs.Prelude.{◌≡◌, IsTrue, ◌↔◌, ◌<◌, ◌≤◌, true, false, All, length, IfOk, IfSome, Some, filter, find, option_map};
ghost use Rattle.std.specs.Option.{option_copied};
ghost use Rattle.section_cut.specs.Stored.{IsStored, IsChangeOfStored};
ghost use Rattle.section_cut.specs.Members.{member_row};
ghost use Rattle.section_cut.specs.OneRun.{run_edited, uses_of_section, PassesBy};
ghost use Rattle.section_cut.specs.Connected.{joins};
ghost use Rattle.section_cut.specs.EditedRun.{KeepsRoute, IsEditedRun, KeepsPlaces, StandsAt, IsPut, rows_put};
ghost use Rattle.section_cut.specs.OneRun as one;
ghost use Rattle.section_cut.specs.Times.{with_times};
ghost use Rattle.plan_model.specs.Cut.{position_in_section};
ghost use Rattle.rail_model.specs.Blocking.{stair_of};
ghost use Rattle.rail_model.specs.Tables.{number_of, path_in, section_at};
ghost use Rattle.rail_model.specs.Name.{is_same};
ghost use Rattle.section_cut.specs.Starts.{EntersEarly};

use crate::bound_anew::cut_bound_anew;
use crate::connected::{bind_as_before, joined_by, uses_of_blocks, with_joined};
use crate::cut_changes::{CutChange, StoredCut};
use crate::members::{member_row, row_with};
use crate::positions::{SectionTable, gather, positions};
use crate::same_value::{same_name, same_row};
use crate::stamps::{own_row, place_of};
use crate::timed_stair::TimedStair;
use crate::times::with_times;
use blocking_time::stairs;
use line_tables::LineTables;
use plan_model::{Cut, CutRow};
use rail_model::{Connection, Edit, Item, Kind, List, Name, OutOfMemory, PATH_HOPS, Section, Use};
use std::alloc::Global;

// The run that an edit puts, changes or drops: its name; its stair after the edit, if it is there;
// whether it is known to be on one route before and after the edit; and its connections after it.
#[derive(Drop)]
pub(crate) struct EditedRun {
    pub(crate) name: Name,
    pub(crate) stair: Option<TimedStair>,
    pub(crate) keeps_route: bool,
    pub(crate) joined: List<Connection>,
}

// The run of this name by the tables before an edit of it and after it.
pub(crate) fn edited_run(
    alloc: Global,
    before: &LineTables,
    after: &LineTables,
    name: Name,
) -> Result<EditedRun, OutOfMemory>
    ensures name { IfOk result (λ run. run.name ≡ name) }
    ensures stair { IfOk result
        (λ run. run.stair ≡ option_map (λ r. stair_of (path_in after.now r))
        (find (λ r. is_same r.name name) after.now.runs)) }
    ensures route { IfOk result (λ run. run.keeps_route ≡ true
        → KeepsRoute before.now after.now name) }
    ensures joined { IfOk result (λ run. run.joined ≡ filter (joins name) after.now.connections) }
{
    let stair = stair_named(alloc, after, &name)?;
    let keeps_route = keeps_route(before, after, &name);
    let joined = joined_by(alloc, after, &name)?;
    Ok(EditedRun {
        name,
        stair,
        keeps_route,
        joined,
    })
}

// The name of the run that an edit puts, changes or drops, if it is an edit of a run.
pub(crate) fn run_edited(edit: &Edit) -> Option<Name>
    ensures { result ≡ run_edited edit.now }
{
    match edit {
        Edit::Put(Item::Run(run)) | Edit::Change(Item::Run(run)) => Some(run.name),
        Edit::Drop(Kind::Run, name) => Some(*name),
        _ => None,
    }
}

// The row that the edited run has in a section after the edit of a number, if it is there and a
// member, without its uses of connections. Where it keeps its route, and its own row before the edit
// has a use for each block of its path, the positions of these blocks stay: only times change.
fn row_after_run(
    alloc: Global,
    tables: &LineTables,
    section: &Section,
    run: &EditedRun,
    own: Option<&[Use]>,
    number: u64,
) -> Result<Option<CutRow>, OutOfMemory>
    requires section { find (λ s. is_same s.name section.now.name) tables.now.sections
        ≡ Some section.now }
    requires stair { run.now.stair ≡ option_map (λ r. stair_of (path_in tables.now r))
        (find (λ r. is_same r.name run.now.name) tables.now.runs) }
    requires blocks { length section.now.blocks ≤ PATH_HOPS }
    requires keeps { run.now.keeps_route ≡ true → IfSome (option_copied own)
        (KeepsPlaces tables.now section.now run.now.stair) }
    ensures { IfOk result
        (λ row. row ≡ one.row_of_stair tables.now section.now number run.now.stair) }
{
    let Some(stair) = &run.stair else {
        return Ok(None);
    };
    if run.keeps_route {
        if let Some(uses) = own {
            if uses.len() == stair.stair().uses.len() {
                return row_with_times(alloc, section, uses, stair, number);
            }
        }
    }
    row_by_stair(alloc, tables, section, &run.name, stair, own, number)
}

// The row of the run of a stair, if it is a member, where it has the places of as many uses, and only
// times change.
fn row_with_times(
    alloc: Global,
    section: &Section,
    places: &[Use],
    stair: &TimedStair,
    stamp: u64,
) -> Result<Option<CutRow>, OutOfMemory>
    requires { length places.now ≡ length stair.now.uses }
    ensures { IfOk result (λ made. made ≡ member_row section.now stair.now.run stamp
        (with_times places.now stair.now.uses)) }
{
    let own = stair.stair();
    let uses = with_times(alloc, places, own.uses.slice())?;
    Ok(row_with(section, own.run, stamp, stair.entry(), uses))
}

// The row in a section of the run of a name, whose stair this is, if it is a member. Where a cheaper
// test says that the run is no member, no table of positions is made. Whether the run passes the
// section is asked only where it was no member before: a member mostly still does.
fn row_by_stair(
    alloc: Global,
    tables: &LineTables,
    section: &Section,
    name: &Name,
    stair: &TimedStair,
    own: Option<&[Use]>,
    stamp: u64,
) -> Result<Option<CutRow>, OutOfMemory>
    requires section { find (λ s. is_same s.name section.now.name) tables.now.sections
        ≡ Some section.now }
    requires stair { Some stair.now ≡ option_map (λ r. stair_of (path_in tables.now r))
        (find (λ r. is_same r.name name.now) tables.now.runs) }
    requires blocks { length section.now.blocks ≤ PATH_HOPS }
    ensures { IfOk result
        (λ row. row ≡ one.row_of_stair tables.now section.now stamp (Some stair.now)) }
{
    tables.learn_sound();
    let Some(place) = tables.section_number(&section.name) else {
        unreachable!();
    };
    if stair.passes_by(section) {
        return Ok(None);
    }
    if enters_early(tables, section, stair) {
        return Ok(None);
    }
    if own.is_none() && !passes(tables, name, place) {
        return Ok(None);
    }
    row_by_positions(alloc, tables, place, section, stair, stamp)
}

// Whether the first use of a stair is of one of a section's blocks and starts before its window.
// `false` says nothing: the slow way follows.
fn enters_early(tables: &LineTables, section: &Section, stair: &TimedStair) -> bool
    requires { All (λ u. u.block < length tables.now.blocks) stair.now.uses }
    ensures { result ≡ true
        → EntersEarly section.now (position_in_section tables.now section.now) stair.now.uses }
{
    let Some(block) = stair.early_block(section) else {
        return false;
    };
    has_name(section.blocks.slice(), &tables.block(block).name)
}

// Whether a name is one of these.
pub(crate) fn has_name(names: &[Name], name: &Name) -> bool
    ensures { IsTrue result ↔ number_of (λ n. n) names.now name.now < length names.now }
{
    for one in names {
        if same_name(one, name) {
            return true;
        }
    }
    false
}

// Whether the run of a name, if it is there, passes a block of the section of a number. `true` says
// nothing: the slow way follows.
fn passes(tables: &LineTables, name: &Name, section: u32) -> bool
    requires { section < length tables.now.sections }
    ensures { result ≡ false → PassesBy tables.now (section_at tables.now section) name.now }
{
    match tables.run_number(name) {
        Some(number) => tables.passes_section(number, section),
        None => false,
    }
}

// The row of the run of a stair in the section of a number, if it is a member.
fn row_by_positions(
    alloc: Global,
    tables: &LineTables,
    place: u32,
    section: &Section,
    stair: &TimedStair,
    stamp: u64,
) -> Result<Option<CutRow>, OutOfMemory>
    requires place { place < length tables.now.sections }
    requires section { section_at tables.now place ≡ section.now }
    requires there { All (λ u. u.block < length tables.now.blocks) stair.now.uses }
    requires blocks { length section.now.blocks ≤ PATH_HOPS }
    ensures { IfOk result (λ row. row ≡ member_row section.now stair.now.run stamp
        (uses_of_section tables.now section.now stair.now.uses)) }
{
    let positions = positions(alloc, tables, place)?;
    let mut found = Vec::new(alloc);
    let own = stair.stair();
    let table = SectionTable {
        section,
        positions: &positions,
        spans: &[],
    };
    gather(&mut found, table, own.uses.slice())?;
    member_row(alloc, section, own.run, stamp, &found)
}

// The stair of the run of a name, if it is there.
fn stair_named(
    alloc: Global,
    tables: &LineTables,
    name: &Name,
) -> Result<Option<TimedStair>, OutOfMemory>
    ensures { IfOk result (λ stair. stair ≡ option_map (λ run. stair_of (path_in tables.now run))
        (find (λ r. is_same r.name name.now) tables.now.runs)) }
{
    let Some(number) = tables.run_number(name) else {
        return Ok(None);
    };
    let path = tables.path(number)?;
    Ok(Some(TimedStair::of(stairs(alloc, &path)?)))
}

// Whether the run of a name is on one route by both tables. `false`, as where one of them doesn't
// have the run, says nothing: the slow way follows.
fn keeps_route(before: &LineTables, after: &LineTables, name: &Name) -> bool
    ensures { result ≡ true → KeepsRoute before.now after.now name.now }
{
    let Some(old) = before.run_number(name) else {
        return false;
    };
    let Some(new) = after.run_number(name) else {
        return false;
    };
    same_name(&before.run(old).route, &after.run(new).route)
}

// What the edit of a run makes of the cut of a section that is there.
pub(crate) fn cut_after_run(
    alloc: Global,
    stored: StoredCut<'_>,
    run: &EditedRun,
) -> Result<CutChange, OutOfMemory>
    requires stored { IsStored stored }
    requires edited { IsEditedRun stored.both.before.now stored.both.after.now run.now }
    ensures { IfOk result (IsChangeOfStored stored.entry) }
{
    let old = stored.cut;
    let after = stored.both.after;
    let rows = old.rows.slice();
    let at = place_of(rows, &run.name);
    let own = own_row(rows, &run.name, at);
    let places = uses_of_blocks(&old.section, own);
    let row = row_after_run(alloc, after, &old.section, run, places, stored.number)?;
    let joined = run.joined.slice();
    if !bind_as_before(after, old, &run.name, row.as_ref(), joined) {
        let put = cut_with(alloc, old, at, own, row)?;
        return cut_bound_anew(alloc, stored, put.rows.slice());
    }
    let row = with_joined(after, old, &run.name, joined, row)?;
    Ok(with_row(at, own, row))
}

// What an edit makes of a cut whose row at a place, if the run has one there, is to be replaced by
// this row, or to go where no row is given. Where the run has none there, this row is inserted.
pub(crate) fn with_row(at: usize, own: Option<&CutRow>, row: Option<CutRow>) -> CutChange
    ensures { IsPut at (option_copied own.entry) row result }
{
    let Some(row) = row else {
        if own.is_none() {
            return CutChange::Untouched;
        }
        return CutChange::Removed { place: at };
    };
    let Some(own) = own else {
        return CutChange::Inserted { place: at, row };
    };
    if same_row(own, &row) {
        return CutChange::Untouched;
    }
    CutChange::Row { place: at, row }
}

// A copy of a cut whose row at a place, if the run has one there, is replaced by this row, or is gone
// where no row is given. Where the run has none there, this row is inserted.
fn cut_with(
    alloc: Global,
    old: &Cut,
    at: usize,
    own: Option<&CutRow>,
    row: Option<CutRow>,
) -> Result<Cut, OutOfMemory>
    requires { StandsAt old.now.rows at (option_copied own) }
    ensures { IfOk result (λ cut. cut.rows ≡ rows_put old.now.rows at (option_copied own.entry) row) }
{
    let mut cut = old.copy(alloc)?;
    match (own, row) {
        (Some(_), Some(row)) => *cut.rows.get_mut(at) = row,
        (None, Some(row)) => cut.rows.insert(at, row)?,
        (Some(_), None) => drop(cut.rows.remove(at)),
        (None, None) => {}
    }
    Ok(cut)
}
