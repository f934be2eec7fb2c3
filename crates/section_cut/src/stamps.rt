//! The rows of a cut by their names, and their stamps after an edit: a row that stands as before
//! keeps its own.
ghost use Rattle.std.specs.Prelude.{◌≡◌, ◌<◌, All, length, map, find, slice_set, slice_index_or, Some};
ghost use Rattle.std.specs.Option.{option_copied};
ghost use Rattle.rail_model.specs.Name.{NamesRise, is_before, is_same};
ghost use Rattle.plan_model.specs.Cut.{stamped_row};
ghost use Rattle.plan_model.specs.Members.{no_member};
ghost use Rattle.section_cut.specs.Change.{IsRestamped};
ghost use Rattle.section_cut.specs.Stamps.{AreBefore, IsReached, IsOwn, IsStamped};

use crate::same_value::{same_name, same_row};
use plan_model::{Cut, CutRow};
use rail_model::{List, Name};

// Stamps the rows of a cut after the edit of a number, by the cut before it. Both are gone through
// side by side, in the order of names.
pub(crate) fn keep_stamps(rows: &mut List<CutRow>, old: &Cut, number: u64)
    requires rise { NamesRise (λ r. r.name) rows.old }
    requires old_rise { NamesRise (λ r. r.name) old.now.rows }
    ensures value { map (stamped_row 0) rows.new ≡ map (stamped_row 0) rows.old }
    ensures stamps { All (IsRestamped number (Some old.now)) rows.new }
{
    let mut at = 0;
    for i in 0..rows.len() {
        let row = &rows.slice()[i];
        let own = next_row(old.rows.slice(), &row.name, &mut at);
        let stamp = stamp_of(row, own, number);
        set_stamp(rows, i, stamp);
    }
}

// The row of a name, if there is one, where all rows below a place have names before it. The place
// is then that of the first row whose name isn't before this one.
pub(crate) fn next_row<'a>(rows: &'a [CutRow], name: &Name, at: &mut usize) -> Option<&'a CutRow>
    requires rise { NamesRise (λ r. r.name) rows.now }
    requires before { AreBefore rows.now name.now at.old }
    ensures at { IsReached rows.now name.now at.new }
    ensures own { option_copied result ≡ find (λ r. is_same r.name name.now) rows.now }
{
    // Rows are asked for in the order of names, so the row mostly stands at the place itself.
    if let Some(row) = own_row(rows, name, *at) {
        return Some(row);
    }
    *at = reached(rows, name, *at);
    own_row(rows, name, *at)
}

// The row at a place, if it has this name.
pub(crate) fn own_row<'a>(rows: &'a [CutRow], name: &Name, at: usize) -> Option<&'a CutRow>
    ensures { IsOwn rows.now name.now at (option_copied result) }
{
    if at < rows.len() && same_name(&rows[at].name, name) {
        return Some(&rows[at]);
    }
    None
}

// The place of the first row whose name isn't before this one, from a place on.
fn reached(rows: &[CutRow], name: &Name, from: usize) -> usize
    requires { AreBefore rows.now name.now from }
    ensures { IsReached rows.now name.now result }
{
    for at in from..rows.len() {
        if rows[at].name >= *name {
            return at;
        }
    }
    rows.len()
}

// The place of the first row whose name isn't before this one, by halving.
pub(crate) fn place_of(rows: &[CutRow], name: &Name) -> usize
    requires { NamesRise (λ r. r.name) rows.now }
    ensures { IsReached rows.now name.now result }
{
    rows.partition_point(|row| is_before(&row.name, name))
}

// Whether a name is before another.
fn is_before(a: &Name, b: &Name) -> bool
    ensures { result ≡ is_before a.now b.now }
{
    a < b
}

// The stamp of a row after the edit of a number, by the row of its name before it, if there is one.
pub(crate) fn stamp_of(row: &CutRow, own: Option<&CutRow>, number: u64) -> u64
    ensures { IsStamped number (option_copied own.entry) (stamped_row result row.now) }
{
    if let Some(before) = own {
        if same_row(before, row) {
            return before.stamp;
        }
    }
    number
}

// Stamps a row.
fn set_stamp(rows: &mut List<CutRow>, i: usize, stamp: u64)
    requires { i < length rows.old }
    ensures { rows.new
        ≡ slice_set rows.old i (stamped_row stamp (slice_index_or rows.old i no_member)) }
{
    rows.get_mut(i).stamp = stamp;
}
