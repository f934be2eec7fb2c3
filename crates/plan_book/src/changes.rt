//! What an edit makes of what a book knows of sections.
ghost use Rattle.std.specs.Prelude.{◌≡◌, ◌<◌, ◌≤◌, true, All, IfOk, IfSome, OnOk, length};
ghost use Rattle.std.specs.Option.{option_copied};
ghost use Rattle.rail_model.specs.Rules as rules;
ghost use Rattle.rail_model.specs.Name.{NamesRise};
ghost use Rattle.rail_model.specs.Rules.{is_named};
ghost use Rattle.plan_model.specs.Cut.{IsSoundCut};
ghost use Rattle.plan_book.specs.Changes.{changed, HasCutOf, HaveCuts, WillChange, IsChangeOf, AreChanges};
ghost use Rattle.plan_book.specs.Changes.{AreChanged, Widens, HaveAll, IsSoundChange, cut_change_of};
ghost use Rattle.plan_book.specs.Changes.{Keeps, AreAlike, IsAlike, HoldsOfEach, HasItsPlace, HasSpare, IsReady};
ghost use Rattle.plan_book.specs.Shelves as shelving;
ghost use Rattle.plan_book.specs.Shelves.{kept_cut};

use crate::shelf::{Shelf, place_of};
use crate::stored::{Stored, insert_row, make_own, make_shared, put_row, remove_row, spare_for};
use line_tables::LineTables;
use plan_model::{Cut, CutRow};
use rail_model::{Edit, List, Name, OutOfMemory};
use section_cut::{CutChange, CutChanges};
use std::alloc::Global;
use std::mem;

// What an edit makes of a shelf's cut.
#[derive(Drop)]
pub(crate) enum ShelfChange {
    // The edit doesn't touch the section.
    Untouched,
    // The edit touches the section, whose cut is this one after it, if the section is there.
    Touched(Option<Stored>),
    // The edit touches the section, whose cut has this row at a place after it, and else the rows
    // that it has.
    Row {
        place: usize,
        row: CutRow,
    },
    // The edit touches the section. After it the cut has this row too, at this place. The spare
    // memory has room for all its rows then.
    Inserted {
        place: usize,
        row: CutRow,
        spare: Vec<CutRow>,
    },
    // The edit touches the section. After it the cut is without the row that stood at this place.
    Removed {
        place: usize,
    },
}

// An edit that no rule refuses, the tables before and after it, and its number.
#[derive(Clone, Copy)]
pub(crate) struct AcceptedEdit<'a> {
    pub(crate) before: &'a LineTables,
    pub(crate) after: &'a LineTables,
    pub(crate) edit: &'a Edit,
    pub(crate) number: u64,
}

// What an edit makes of the cut of each section. A shelf is put in for each section of the later
// tables that has none, and the book becomes the only holder of the cuts of which one row is to
// change. What is known of sections stays, also without memory.
pub(crate) fn changes_for(
    alloc: Global,
    shelves: &mut List<Shelf>,
    first: u64,
    accepted: AcceptedEdit<'_>,
) -> Result<List<ShelfChange>, OutOfMemory>
    requires rise { NamesRise (λ s. s.name) shelves.old }
    requires cuts { HaveCuts accepted.before.now first shelves.old }
    requires after { accepted.after.now ≡ rules.after accepted.before.now accepted.edit.now }
    ensures same { Widens first shelves.old shelves.new }
    ensures made { IfOk result (WillChange accepted.entry.before.now accepted.entry.after.now
        accepted.entry.number shelves.new) }
{
    add_missing(shelves, accepted.after, first)?;
    let changes = changes_of(alloc, shelves.slice(), accepted)?;
    make_ready(alloc, shelves, changes.slice())?;
    Ok(changes)
}

// Puts a shelf in for each section of the tables that has none. What is known of sections stays,
// also without memory.
fn add_missing(
    shelves: &mut List<Shelf>,
    tables: &LineTables,
    first: u64,
) -> Result<(), OutOfMemory>
    requires { NamesRise (λ s. s.name) shelves.old }
    ensures same { Widens first shelves.old shelves.new }
    ensures all { OnOk result (HaveAll tables.now shelves.new) }
{
    for number in 0..tables.sections() {
        add_shelf(shelves, &tables.section(number).name, first)?;
    }
    Ok(())
}

// Puts a shelf in for the section of a name, if it has none.
fn add_shelf(shelves: &mut List<Shelf>, name: &Name, first: u64) -> Result<(), OutOfMemory>
    requires { NamesRise (λ s. s.name) shelves.old }
    ensures same { Widens first shelves.old shelves.new }
    ensures there { OnOk result (is_named (λ s. s.name) shelves.new name.now ≡ true) }
    ensures kept { Keeps shelves.old shelves.new }
{
    if let Err(place) = place_of(shelves.slice(), name) {
        shelves.insert(place, blank(name, first))?;
    }
    Ok(())
}

// The shelf of a section that isn't there.
fn blank(name: &Name, first: u64) -> Shelf
    ensures { result ≡ shelving.blank first name.now }
{
    Shelf {
        name: *name,
        touched: first,
        published: None,
        cut: None,
    }
}

// What an edit makes of the cut of each shelf's section.
fn changes_of(
    alloc: Global,
    shelves: &[Shelf],
    accepted: AcceptedEdit<'_>,
) -> Result<List<ShelfChange>, OutOfMemory>
    requires after { accepted.after.now ≡ rules.after accepted.before.now accepted.edit.now }
    requires cuts { All (HasCutOf accepted.before.now) shelves.now }
    ensures { IfOk result (AreChanges accepted.entry.before.now accepted.entry.after.now
        accepted.entry.number shelves.now) }
{
    let made = CutChanges::of(alloc, accepted.before, accepted.after, accepted.edit)?;
    each_change(alloc, shelves, &made, accepted.number)
}

// What the edit of a number makes of the cut of each shelf's section, in a function of its own, so
// that no exit of the loop has more than the changes to drop.
fn each_change(
    alloc: Global,
    shelves: &[Shelf],
    made: &CutChanges<'_>,
    number: u64,
) -> Result<List<ShelfChange>, OutOfMemory>
    requires { All (HasCutOf made.now.before) shelves.now }
    ensures { IfOk result (AreChanges made.now.before made.now.after number shelves.now) }
{
    let mut changes = List::new(alloc);
    for shelf in shelves {
        changes.push(change_of(alloc, made, shelf, number)?)?;
    }
    Ok(changes)
}

// What the edit of a number makes of a shelf's cut.
fn change_of(
    alloc: Global,
    made: &CutChanges<'_>,
    shelf: &Shelf,
    number: u64,
) -> Result<ShelfChange, OutOfMemory>
    requires { HasCutOf made.now.before shelf.now }
    ensures { IfOk result (IsChangeOf made.now.before made.now.after number shelf.now) }
{
    let old = cut_of(shelf);
    let change = made.cut_after(alloc, old, &shelf.name, number)?;
    shelf_change(alloc, old, change)
}

// The cut of a shelf's section, if the section is there.
fn cut_of(shelf: &Shelf) -> Option<&Cut>
    ensures { option_copied result ≡ kept_cut shelf.now }
{
    match &shelf.cut {
        Some(cut) => Some(cut.cut()),
        None => None,
    }
}

// What an edit makes of a shelf's cut, by what it makes of the section's cut. A row that is to come
// in brings the memory that it may need.
fn shelf_change(
    alloc: Global,
    old: Option<&Cut>,
    change: CutChange,
) -> Result<ShelfChange, OutOfMemory>
    requires { IsSoundChange change }
    ensures same { IfOk result (λ made. cut_change_of made ≡ change) }
    ensures spare { IfOk result (HasSpare (option_copied old.entry)) }
{
    match change {
        CutChange::Untouched => Ok(ShelfChange::Untouched),
        CutChange::Touched(None) => Ok(ShelfChange::Touched(None)),
        CutChange::Touched(Some(cut)) => { Ok(ShelfChange::Touched(Some(Stored::of(alloc, cut)?))) }
        CutChange::Row { place, row } => Ok(ShelfChange::Row { place, row }),
        CutChange::Inserted { place, row } => {
            let spare = spare_for(alloc, old)?;
            Ok(ShelfChange::Inserted { place, row, spare })
        }
        CutChange::Removed { place } => Ok(ShelfChange::Removed { place }),
    }
}

// Sets what each shelf knows after an edit, by what the edit made of its section's cut.
pub(crate) fn change_shelves(
    alloc: Global,
    shelves: &mut List<Shelf>,
    changes: List<ShelfChange>,
    number: u64,
)
    requires count { length changes ≡ length shelves.old }
    requires ready { HoldsOfEach IsReady shelves.old changes }
    ensures { AreChanged number shelves.old changes shelves.new }
{
    let mut changes = changes.into_vec();
    for place in 0..changes.len() {
        let change = mem::replace(&mut changes[place], ShelfChange::Untouched);
        change_shelf(alloc, shelves.get_mut(place), change, number);
    }
}

// Sets what a shelf knows after an edit: where the edit touches the section, its number and the cut
// after it. Untouched shelves stay as they are.
fn change_shelf(alloc: Global, shelf: &mut Shelf, change: ShelfChange, number: u64)
    requires { IsReady shelf.old change }
    ensures { shelf.new ≡ changed number shelf.old change }
{
    match change {
        ShelfChange::Untouched => {}
        ShelfChange::Touched(cut) => {
            shelf.touched = number;
            shelf.cut = cut;
        }
        ShelfChange::Row { place, row } => {
            shelf.touched = number;
            put_row(alloc, &mut shelf.cut, place, row);
        }
        ShelfChange::Inserted { place, row, spare } => {
            shelf.touched = number;
            insert_row(alloc, &mut shelf.cut, place, row, spare);
        }
        ShelfChange::Removed { place } => {
            shelf.touched = number;
            remove_row(alloc, &mut shelf.cut, place);
        }
    }
}

// Makes the book the only holder of those cuts of which one row is to change. Each cut stays the
// same, also without memory.
fn make_ready(
    alloc: Global,
    shelves: &mut List<Shelf>,
    changes: &[ShelfChange],
) -> Result<(), OutOfMemory>
    requires count { length changes.now ≡ length shelves.old }
    requires places { HoldsOfEach HasItsPlace shelves.old changes.now }
    ensures same { AreAlike shelves.old shelves.new }
    ensures ready { OnOk result (HoldsOfEach IsReady shelves.new changes.now) }
{
    for place in 0..changes.len() {
        make_shelf_ready(alloc, shelves.get_mut(place), &changes[place])?;
    }
    Ok(())
}

fn make_shelf_ready(
    alloc: Global,
    shelf: &mut Shelf,
    change: &ShelfChange,
) -> Result<(), OutOfMemory>
    requires { HasItsPlace shelf.old change.now }
    ensures same { IsAlike shelf.old shelf.new }
    ensures ready { OnOk result (IsReady shelf.new change.now) }
{
    match change {
        ShelfChange::Untouched | ShelfChange::Touched(_) => Ok(()),
        _ => make_own(alloc, &mut shelf.cut),
    }
}

// Makes each cut one that readings can share, where there is memory for it. Each cut stays the
// same.
pub(crate) fn share_cuts(alloc: Global, shelves: &mut List<Shelf>)
    requires { All (λ s. IfSome (kept_cut s) IsSoundCut) shelves.old }
    ensures { AreAlike shelves.old shelves.new }
{
    for place in 0..shelves.len() {
        share_cut(alloc, shelves.get_mut(place));
    }
}

fn share_cut(alloc: Global, shelf: &mut Shelf)
    requires { IfSome (kept_cut shelf.old) IsSoundCut }
    ensures { IsAlike shelf.old shelf.new }
{
    make_shared(alloc, &mut shelf.cut);
}
