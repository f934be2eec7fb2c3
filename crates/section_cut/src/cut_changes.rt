//! What an edit makes of the cuts of a line's sections.
ghost use Rattle.std.specs.Prelude.{◌≡◌, ◌≢◌, ◌↔◌, All, IsTrue, IfOk, IfSome, OnOk, OnErr, Some, None, option_map};
ghost use Rattle.std.specs.Option.{option_copied};
ghost use Rattle.rail_model.specs.Rules as rules;
ghost use Rattle.rail_model.specs.Conflict.{timetable};
ghost use Rattle.plan_model.specs.Cut.{stamped, IsSoundCut, cut_of};
ghost use Rattle.section_cut.specs.Change.{IsChange, IsCutAfter, HasPlace, HasRoomAt, with_row, with_inserted, with_removed};
ghost use Rattle.section_cut.specs.Reach.{IsOneSection, IsRowReach};
ghost use Rattle.section_cut.specs.Stored.{IsStored, IsChangeOfStored};

use crate::all_stairways::AllStairways;
use crate::cuts::{cut_among, cut_of};
use crate::one_connection::{cut_after_connection, cut_after_minimum};
use crate::one_run::cut_after_run;
use crate::reach::{Reach, RowReach, reach_of};
use crate::reached_runs::cut_after_runs;
use crate::same_value::{has_same_rows, same_cut, same_name};
use crate::stamps::keep_stamps;
use line_tables::LineTables;
use plan_model::{Cut, CutRow};
use rail_model::{Edit, Name, OutOfMemory, Section};
use std::alloc::Global;
use std::marker::Model;

/// What an edit makes of a section's cut.
#[derive(Drop)]
pub enum CutChange {
    /// The edit doesn't touch the section: the cut keeps its value and its stamps.
    Untouched,
    /// The edit touches the section, whose cut is this one after it, or none where the section
    /// isn't there.
    Touched(Option<Cut>),
    /// The edit touches the section, whose cut has this row at a place after it, and else the rows
    /// that it has.
    Row { place: usize, row: CutRow },
    /// The edit touches the section. After it the cut has this row too, at this place.
    Inserted { place: usize, row: CutRow },
    /// The edit touches the section. After it the cut is without the row that stood at this place.
    Removed { place: usize },
}

// The tables before and after an edit.
#[derive(Clone, Copy)]
pub(crate) struct BothTables<'a> {
    pub(crate) before: &'a LineTables,
    pub(crate) after: &'a LineTables,
}

// The cut of the section of a name before the edit of a number.
#[derive(Clone, Copy)]
pub(crate) struct StoredCut<'a> {
    pub(crate) both: BothTables<'a>,
    pub(crate) cut: &'a Cut,
    pub(crate) section: &'a Name,
    pub(crate) number: u64,
}

/// The tables before and after an edit, with what is made of them once for the cuts of many
/// sections.
#[derive(Drop)]
pub struct CutChanges<'a> {
    both: BothTables<'a>,
    reach: Reach,
}

impl<'a> Model for CutChanges<'a> {
    ghost use Rattle.section_cut.specs.Change.{TwoTables};
    ghost use Rattle.section_cut.specs.Reach.{IsReach};

    ghost Value = { TwoTables };

    ghost view = { λ c. record { before = c.both.before.now; after = c.both.after.now } };

    ghost invariant = { λ c. IsReach c.both.before.now c.both.after.now c.reach };
}

impl<'a> CutChanges<'a> {
    /// What is made of the tables before an edit and of those after it.
    pub fn of(
        alloc: Global,
        before: &'a LineTables,
        after: &'a LineTables,
        edit: &Edit,
    ) -> Result<CutChanges<'a>, OutOfMemory>
        requires { after.now ≡ rules.after before.now edit.now }
        ensures { IfOk result
            (λ changes. changes ≡ record { before = before.now; after = after.now }) }
    {
        let reach = reach_of(alloc, before, after, edit)?;
        Ok(CutChanges {
            both: BothTables { before, after },
            reach,
        })
    }

    /// What the edit, which has this number, makes of the cut of the section of a name. The section
    /// is touched exactly where its cuts before and after the edit differ, and a cut that isn't
    /// there differs from each that is. In the cut after it each row that is new, or whose value
    /// changed, has the edit's number as its stamp, and each other row keeps its stamp. Whether a
    /// cut in which one row changed, came or went comes as `Row`, `Inserted` or `Removed`, or as
    /// `Touched`, no clause says: a caller takes each of them.
    pub fn cut_after(
        &self,
        alloc: Global,
        cut: Option<&Cut>,
        section: &Name,
        number: u64,
    ) -> Result<CutChange, OutOfMemory>
        requires { cut_of self.now.before section.now ≡ option_map (stamped 0) (option_copied cut) }
        ensures { IfOk result (IsChange (cut_of self.now.before section.now)
            (cut_of self.now.after section.now) number (option_copied cut.entry)) }
    {
        let Some(cut) = cut else {
            return cut_of_new_section(alloc, self.both.after, section, number);
        };
        self.both.before.learn_sound();
        self.both.after.learn_sound();
        let stored = StoredCut {
            both: self.both,
            cut,
            section,
            number,
        };
        match &self.reach {
            Reach::All(stairs) => cut_after_all(alloc, stored, stairs),
            Reach::Section(name) => cut_after_section(alloc, stored, name),
            Reach::Rows(reach) => cut_after_rows(alloc, stored, reach),
        }
    }
}

// What the edit of a number makes of the cut of a section that isn't there before it.
fn cut_of_new_section(
    alloc: Global,
    after: &LineTables,
    section: &Name,
    number: u64,
) -> Result<CutChange, OutOfMemory>
    ensures { IfOk result (IsChange None (cut_of after.now section.now) number None) }
{
    match cut_of(alloc, after, section, number)? {
        Some(cut) => Ok(CutChange::Touched(Some(cut))),
        None => Ok(CutChange::Untouched),
    }
}

// What an edit that leaves the sections makes of the cut of one.
fn cut_after_rows(
    alloc: Global,
    stored: StoredCut<'_>,
    reach: &RowReach,
) -> Result<CutChange, OutOfMemory>
    requires stored { IsStored stored }
    requires reach { IsRowReach stored.both.before.now stored.both.after.now reach.now }
    ensures { IfOk result (IsChangeOfStored stored.entry) }
{
    match reach {
        RowReach::Nothing => Ok(CutChange::Untouched),
        RowReach::Run(run) => cut_after_run(alloc, stored, run),
        RowReach::Connection(edited) => cut_after_connection(alloc, stored, edited),
        RowReach::Minimum(connection) => cut_after_minimum(alloc, stored, connection),
        RowReach::Runs(runs) => cut_after_runs(alloc, stored, runs),
    }
}

// What the edit makes of a stored cut, by all stairways after it.
fn cut_after_all(
    alloc: Global,
    stored: StoredCut<'_>,
    stairs: &AllStairways,
) -> Result<CutChange, OutOfMemory>
    requires stored { IsStored stored }
    requires stairs { stairs.now ≡ timetable stored.both.after.now }
    ensures { IfOk result (IsChangeOfStored stored.entry) }
{
    let later = cut_anew(
        alloc,
        stored.both.after,
        stairs,
        stored.section,
        stored.number,
    )?;
    Ok(changed(stored.cut, later, stored.number))
}

// What the edit of the section of a name makes of a stored cut.
fn cut_after_section(
    alloc: Global,
    stored: StoredCut<'_>,
    edited: &Name,
) -> Result<CutChange, OutOfMemory>
    requires stored { IsStored stored }
    requires one { IsOneSection stored.both.before.now stored.both.after.now edited.now }
    ensures { IfOk result (IsChangeOfStored stored.entry) }
{
    if !same_name(edited, stored.section) {
        return Ok(CutChange::Untouched);
    }
    if let Some(change) = cut_of_same_rows(alloc, stored)? {
        return Ok(change);
    }
    stored_made_anew(alloc, stored)
}

// What the edit makes of the cut of the section that it changes, where the section's window and its
// blocks stay: then the rows do, too. Otherwise `None`, which says nothing: the cut is made anew.
fn cut_of_same_rows(alloc: Global, stored: StoredCut<'_>) -> Result<Option<CutChange>, OutOfMemory>
    requires stored { IsStored stored }
    requires others { stored.both.after.now
        ≡ record stored.both.before.now { sections = stored.both.after.now.sections } }
    ensures { IfOk result (λ made. IfSome made (IsChangeOfStored stored.entry)) }
{
    let after = stored.both.after;
    let Some(place) = after.section_number(stored.section) else {
        return Ok(None);
    };
    let later = after.section(place);
    if !has_same_rows(later, &stored.cut.section) {
        return Ok(None);
    }
    let cut = with_section(alloc, stored.cut, later)?;
    Ok(Some(compared(stored.cut, cut, stored.number)))
}

// A copy of a cut, of this section.
fn with_section(alloc: Global, old: &Cut, section: &Section) -> Result<Cut, OutOfMemory>
    ensures { IfOk result (λ cut. cut ≡ record old.now { section = section.now }) }
{
    let mut cut = old.copy(alloc)?;
    cut.section = section.copy(alloc)?;
    Ok(cut)
}

// What the edit makes of a stored cut, where that is made anew.
pub(crate) fn stored_made_anew(
    alloc: Global,
    stored: StoredCut<'_>,
) -> Result<CutChange, OutOfMemory>
    requires { IsStored stored }
    ensures { IfOk result (IsChangeOfStored stored.entry) }
{
    let later = cut_of(alloc, stored.both.after, stored.section, stored.number)?;
    Ok(changed(stored.cut, later, stored.number))
}

// What the edit of a number makes of a cut, by the cut of its section after it, if that is there.
fn changed(old: &Cut, later: Option<Cut>, number: u64) -> CutChange
    requires old_sound { IsSoundCut old.now }
    requires sound { IfSome later IsSoundCut }
    ensures { IsChange (Some (stamped 0 old.now))
        (option_map (stamped 0) later) number (Some old.now) result }
{
    match later {
        Some(later) => compared(old, later, number),
        None => CutChange::Touched(None),
    }
}

// The cut of the section of a name, if it is there, each row with this stamp.
fn cut_anew(
    alloc: Global,
    tables: &LineTables,
    stairs: &AllStairways,
    section: &Name,
    stamp: u64,
) -> Result<Option<Cut>, OutOfMemory>
    requires { stairs.now ≡ timetable tables.now }
    ensures same { IfOk result
        (λ cut. cut ≡ option_map (stamped stamp) (cut_of tables.now section.now)) }
    ensures sound { IfOk result (λ cut. IfSome cut IsSoundCut) }
{
    let Some(place) = tables.section_number(section) else {
        return Ok(None);
    };
    Ok(Some(cut_among(alloc, tables, stairs, place, stamp)?))
}

// What the edit of a number makes of a section's cut, by the cut that the section has after it:
// nothing where both have one value, and otherwise the later cut with the stamps of its rows.
pub(crate) fn compared(old: &Cut, later: Cut, number: u64) -> CutChange
    requires old_sound { IsSoundCut old.now }
    requires sound { IsSoundCut later }
    ensures { IsChange (Some (stamped 0 old.now)) (Some (stamped 0 later)) number (Some old.now) result }
{
    if same_cut(old, &later) {
        return CutChange::Untouched;
    }
    CutChange::Touched(Some(restamped(old, later, number)))
}

// A cut with the stamps of its rows after the edit of a number, by the cut before it.
fn restamped(old: &Cut, later: Cut, number: u64) -> Cut
    requires old_sound { IsSoundCut old.now }
    requires sound { IsSoundCut later }
    ensures { IsCutAfter (Some (stamped 0 later)) number (Some old.now) (Some result) }
{
    let mut cut = later;
    keep_stamps(&mut cut.rows, old, number);
    cut
}

/// Makes the cut of a section that of the tables after an edit, and tells whether the edit touches
/// the section: whether its cuts before and after the edit differ, where a cut that isn't there
/// differs from each that is. Each row that is new, or whose value changed, gets the edit's number
/// as its stamp, and each other row keeps its stamp. Without memory the cut stays as it was. A book
/// changes its cuts by `CutChanges`; this is for tests and other programs.
pub fn cut_change(
    alloc: Global,
    cut: &mut Option<Cut>,
    section: &Name,
    before: &LineTables,
    after: &LineTables,
    edit: &Edit,
    number: u64,
) -> Result<bool, OutOfMemory>
    requires after { after.now ≡ rules.after before.now edit.now }
    requires cut { cut_of before.now section.now ≡ option_map (stamped 0) cut.old }
    ensures touched { IfOk result (λ touched. IsTrue touched
        ↔ (cut_of after.now section.now ≢ cut_of before.now section.now)) }
    ensures cut { OnOk result
        (IsCutAfter (cut_of after.now section.now) number cut.old cut.new) }
    ensures kept { OnErr result (cut.new ≡ cut.old) }
{
    after.learn_sound();
    let both = BothTables { before, after };
    match cut_after_edit(alloc, both, edit, cut.as_ref(), section, number)? {
        CutChange::Untouched => Ok(false),
        CutChange::Touched(later) => {
            *cut = later;
            Ok(true)
        }
        CutChange::Row { place, row } => {
            put_row(cut, place, row);
            Ok(true)
        }
        CutChange::Inserted { place, row } => {
            insert_row(cut, place, row)?;
            Ok(true)
        }
        CutChange::Removed { place } => {
            remove_row(cut, place);
            Ok(true)
        }
    }
}

// What the edit of a number makes of the cut of the section of a name.
fn cut_after_edit(
    alloc: Global,
    both: BothTables<'_>,
    edit: &Edit,
    cut: Option<&Cut>,
    section: &Name,
    number: u64,
) -> Result<CutChange, OutOfMemory>
    requires after { both.after.now ≡ rules.after both.before.now edit.now }
    requires cut { cut_of both.before.now section.now ≡ option_map (stamped 0) (option_copied cut) }
    ensures { IfOk result (IsChange (cut_of both.entry.before.now section.now)
        (cut_of both.entry.after.now section.now) number (option_copied cut.entry)) }
{
    let changes = CutChanges::of(alloc, both.before, both.after, edit)?;
    changes.cut_after(alloc, cut, section, number)
}

// Puts a row at a place of a cut, if there is one, in place of the one that stands there.
fn put_row(cut: &mut Option<Cut>, place: usize, row: CutRow)
    requires { IfSome cut.old (HasPlace place) }
    ensures { cut.new ≡ option_map (with_row place row) cut.old }
{
    if let Some(cut) = cut {
        *cut.rows.get_mut(place) = row;
    }
}

// Inserts a row at a place of a cut, if there is one.
fn insert_row(cut: &mut Option<Cut>, place: usize, row: CutRow) -> Result<(), OutOfMemory>
    requires { IfSome cut.old (HasRoomAt place) }
    ensures ok { OnOk result (cut.new ≡ option_map (with_inserted place row) cut.old) }
    ensures err { OnErr result (cut.new ≡ cut.old) }
{
    if let Some(cut) = cut {
        cut.rows.insert(place, row)?;
    }
    Ok(())
}

// Takes the row at a place out of a cut, if there is one.
fn remove_row(cut: &mut Option<Cut>, place: usize)
    requires { IfSome cut.old (HasPlace place) }
    ensures { cut.new ≡ option_map (with_removed place) cut.old }
{
    if let Some(cut) = cut {
        let _removed = cut.rows.remove(place);
    }
}
