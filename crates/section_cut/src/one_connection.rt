//! What an edit of a connection makes of a section's cut. Where the connection binds neither before
//! nor after it, nothing. Where only its minimum changes, the first run keeps it until another
//! moment. Else the connections are bound anew: the members and their uses of blocks stay.
ghost use Rattle.std.specs.Prelude.{◌≡◌, true, All, find, IfOk};
ghost use Rattle.plan_model.specs.Cut as cuts;
ghost use Rattle.rail_model.specs.Name.{NamesRise, is_same};
ghost use Rattle.section_cut.specs.Connected.{IsOfRuns, TellsEntries};
ghost use Rattle.section_cut.specs.EditedConnection.{connection_edited, IsEditedConnection, IsMinimumChanged, IsOfSameRuns};
ghost use Rattle.section_cut.specs.EditedConnection as ends;
ghost use Rattle.section_cut.specs.Stored.{IsStored, IsChangeOfStored};

use crate::bound_anew::cut_bound_anew;
use crate::connected::{binds, place_in, row_named, until};
use crate::cut_changes::{CutChange, StoredCut, stored_made_anew};
use crate::one_run::with_row;
use crate::same_value::same_name;
use crate::stamps::{own_row, place_of};
use line_tables::LineTables;
use plan_model::{Cut, CutRow, SharedUses};
use rail_model::{Connection, Edit, Item, Kind, Name, OutOfMemory, Use};
use std::alloc::Global;

// The connection that an edit puts, changes or drops: its name, and what it is after the edit, if it
// is there.
#[derive(Clone, Copy)]
pub(crate) struct EditedConnection {
    pub(crate) name: Name,
    pub(crate) after: Option<Connection>,
}

// The name of the connection that an edit puts, changes or drops, if it is an edit of a connection.
pub(crate) fn connection_edited(edit: &Edit) -> Option<Name>
    ensures { result ≡ connection_edited edit.now }
{
    match edit {
        Edit::Put(Item::Connection(connection)) | Edit::Change(Item::Connection(connection)) => {
            Some(connection.name)
        }
        Edit::Drop(Kind::Connection, name) => Some(*name),
        _ => None,
    }
}

// The connection of a name, if it is there.
pub(crate) fn connection_named(tables: &LineTables, name: &Name) -> Option<Connection>
    ensures { result ≡ find (λ c. is_same c.name name.now) tables.now.connections }
{
    for number in 0..tables.connections() {
        let connection = tables.connection(number);
        if same_name(&connection.name, name) {
            return Some(*connection);
        }
    }
    None
}

// Whether the connection of the tables that has this one's name, if there is one, is of the same two
// runs. `false` says nothing: the slow way follows.
pub(crate) fn keeps_runs(tables: &LineTables, connection: &Connection) -> bool
    ensures { result ≡ true → All (IsOfSameRuns connection.now) tables.now.connections }
{
    for number in 0..tables.connections() {
        if !is_of_same_runs(connection, tables.connection(number)) {
            return false;
        }
    }
    true
}

// Whether another connection, if it has a connection's name, is of the same runs. `false` says
// nothing.
fn is_of_same_runs(connection: &Connection, other: &Connection) -> bool
    ensures { result ≡ true → IsOfSameRuns connection.now other.now }
{
    !same_name(&other.name, &connection.name)
        || (same_name(&other.first, &connection.first)
            && same_name(&other.second, &connection.second))
}

// What the edit of a connection makes of the cut of a section that is there.
pub(crate) fn cut_after_connection(
    alloc: Global,
    stored: StoredCut<'_>,
    edited: &EditedConnection,
) -> Result<CutChange, OutOfMemory>
    requires stored { IsStored stored }
    requires edited { IsEditedConnection stored.both.before.now stored.both.after.now edited.now }
    ensures { IfOk result (IsChangeOfStored stored.entry) }
{
    if place_in(stored.cut.connections.slice(), &edited.name).is_some() {
        return cut_bound_anew(alloc, stored, stored.cut.rows.slice());
    }
    if let Some(connection) = &edited.after {
        if binds_among(stored.both.after, stored.cut, connection) {
            return cut_bound_anew(alloc, stored, stored.cut.rows.slice());
        }
    }
    Ok(CutChange::Untouched)
}

// Whether a connection binds by the rows of a cut, which have the entries of its two runs.
fn binds_among(tables: &LineTables, old: &Cut, connection: &Connection) -> bool
    requires rows { NamesRise (λ r. r.name) old.now.rows }
    requires entries { TellsEntries tables.now old.now.section
        (λ name. find (λ r. is_same r.name name) old.now.rows) }
    requires there { IsOfRuns tables.now connection.now }
    ensures { result ≡ cuts.binds tables.now old.now.section connection.now }
{
    let rows = old.rows.slice();
    let first = row_named(rows, &connection.first);
    let second = row_named(rows, &connection.second);
    binds(tables, &old.section, first, second, connection)
}

// What another minimum of a connection makes of the cut of a section that is there.
pub(crate) fn cut_after_minimum(
    alloc: Global,
    stored: StoredCut<'_>,
    connection: &Connection,
) -> Result<CutChange, OutOfMemory>
    requires stored { IsStored stored }
    requires changed { IsMinimumChanged stored.both.before.now stored.both.after.now connection.now }
    ensures { IfOk result (IsChangeOfStored stored.entry) }
{
    let old = stored.cut;
    let Some(k) = place_in(old.connections.slice(), &connection.name) else {
        return Ok(CutChange::Untouched);
    };
    let rows = old.rows.slice();
    let at = place_of(rows, &connection.first);
    let Some(own) = own_row(rows, &connection.first, at) else {
        return stored_made_anew(alloc, stored);
    };
    let run = stored.both.after.run_number(&connection.first).unwrap();
    let end = until(stored.both.after, run, connection);
    let place = (old.section.blocks.len() + k) as u32;
    let row = row_ending(alloc, own, place, end, stored.number)?;
    Ok(with_row(at, Some(own), Some(row)))
}

// A copy of a row with this stamp, whose use of a place ends at this moment.
fn row_ending(
    alloc: Global,
    row: &CutRow,
    place: u32,
    end: i64,
    stamp: u64,
) -> Result<CutRow, OutOfMemory>
    ensures { IfOk result (λ made. made ≡ record row.now {
      stamp = stamp;
      uses = ends.uses_ending place end row.now.uses;
    }) }
{
    let mut uses = Vec::with_capacity(alloc, row.uses.len())?;
    for one in row.uses.slice() {
        uses.push(ending(*one, place, end))?;
    }
    Ok(CutRow {
        name: row.name,
        stamp,
        entry: row.entry,
        uses: SharedUses::of(uses),
    })
}

// A use, which ends at this moment if it is of a place.
fn ending(one: Use, place: u32, end: i64) -> Use
    ensures { result ≡ ends.ending place end one }
{
    if one.block == place {
        return Use { end, ..one };
    }
    one
}
