//! The trains of which a section's last answer was published. Of most of them the next answer has
//! the same row: it is copied.
ghost use Rattle.std.specs.Prelude.{◌≡◌, ◌<◌, List, length, map, slice_index_or, IfOk, IsTrue};
ghost use Rattle.row_text.specs.SheetRows.{text_of_row, with_row};
ghost use Rattle.row_text.specs.Adds.{AddsAll};
ghost use Rattle.plan_model.specs.PlacedList.{no_train};
ghost use Rattle.capacity_report.specs.Answers as rows;
ghost use Rattle.capacity_report.specs.Shown.{IsShown, IsTrainOf};
ghost use Rattle.capacity_report.specs.LastTrains.{bytes_of, trains_of, AreAlike, EndsWithTrains};

use crate::compressed::train_row;
use plan_model::{PlacedList, Plan, Tie};
use rail_model::{Name, Names, OutOfMemory};
use row_text::Sheet;
use std::alloc::Global;

// The trains of a section's answer that was published, and where their rows stand.
#[derive(Drop)]
pub(crate) struct LastTrains {
    pub(crate) section: Name,
    pub(crate) plan: Plan,
    // Which text ends with the rows of the trains, and where in it they begin.
    pub(crate) text: usize,
    pub(crate) from: usize,
    // How many bytes the row of each train has.
    pub(crate) bytes: Vec<usize>,
}

// Whether two plans have the same trains, by their names in order, and the same places.
pub(crate) fn are_alike(plan: &Plan, last: &Plan) -> bool
    ensures { IsTrue result → AreAlike plan.now last.now }
{
    are_same_trains(&plan.placed, &last.placed) && are_same_places(&plan.blocks, &last.blocks)
}

// Whether the trains have the same names in the same order.
fn are_same_trains(trains: &PlacedList, last: &PlacedList) -> bool
    ensures { IsTrue result → trains_of trains.now ≡ trains_of last.now }
{
    if trains.len() != last.len() {
        return false;
    }
    for i in 0..trains.len() {
        if trains.name(i) != last.name(i) {
            return false;
        }
    }
    true
}

// Whether the places have the same names in the same order.
fn are_same_places(places: &Names, last: &Names) -> bool
    ensures { IsTrue result → places.now ≡ last.now }
{
    if places.len() != last.len() {
        return false;
    }
    for i in 0..places.len() {
        if places.bytes(i) != last.bytes(i) {
            return false;
        }
    }
    true
}

// Whether the train at `i` has the same row in both plans.
fn has_same_row(plan: &Plan, last: &Plan, i: usize) -> bool
    requires alike { AreAlike plan.now last.now }
    requires there { i < length plan.now.placed }
    ensures { IsTrue result → rows.train_row plan.now (slice_index_or plan.now.placed i no_train)
        ≡ rows.train_row last.now (slice_index_or last.now.placed i no_train) }
{
    let trains = &plan.placed;
    let others = &last.placed;
    if trains.planned(i) != others.planned(i) {
        return false;
    }
    if trains.entry(i) != others.entry(i) {
        return false;
    }
    is_same_tie(trains.tie(i), others.tie(i))
}

// Whether two ties are the same.
fn is_same_tie(tie: Tie, last: Tie) -> bool
    ensures { IsTrue result → tie ≡ last }
{
    match (tie, last) {
        (Tie::Start, Tie::Start) => true,
        (
            Tie::After { train, block },
            Tie::After {
                train: last_train,
                block: last_block,
            },
        ) => train == last_train && block == last_block,
        _ => false,
    }
}

// Adds the rows of the trains, and gives how many bytes each has.
pub(crate) fn rows_anew(
    alloc: Global,
    sheet: &mut Sheet,
    plan: &Plan,
) -> Result<Vec<usize>, OutOfMemory>
    requires { IsShown plan.now }
    ensures { IfOk result (λ bytes. AddsAll sheet.old sheet.new (rows.train_rows plan.now)
        × (bytes.items ≡ map bytes_of (rows.train_rows plan.now))) }
{
    let mut bytes = Vec::with_capacity(alloc, plan.placed.len())?;
    sheet.drop_row();
    for i in 0..plan.placed.len() {
        bytes.push(row_anew(sheet, plan, i)?)?;
    }
    Ok(bytes)
}

// Adds the row of a train, and gives how many bytes it has.
fn row_anew(sheet: &mut Sheet, plan: &Plan, i: usize) -> Result<usize, OutOfMemory>
    requires there { i < length plan.now.placed }
    requires train { IsTrainOf plan.now (slice_index_or plan.now.placed i no_train) }
    ensures { IfOk result (λ bytes. let row = rows.train_row plan.now
        (slice_index_or plan.now.placed i no_train)
        in (sheet.new ≡ with_row sheet.old row) × (bytes ≡ bytes_of row)) }
{
    let before = sheet.bytes();
    train_row(sheet, plan, i)?;
    Ok(sheet.bytes() - before)
}

// Adds the rows of the trains, as `rows_anew` does, where `text` ends with the rows of the last
// ones. Rows that are the same are copied, all that follow one another at once.
pub(crate) fn rows_again(
    alloc: Global,
    sheet: &mut Sheet,
    plan: &Plan,
    last: &LastTrains,
    text: &[u8],
) -> Result<Vec<usize>, OutOfMemory>
    requires shown { IsShown plan.now }
    requires alike { AreAlike plan.now last.now.plan }
    requires there { EndsWithTrains text.now last.now.plan last.now.from last.now.bytes.items }
    ensures { IfOk result (λ bytes. AddsAll sheet.old sheet.new (rows.train_rows plan.now)
        × (bytes.items ≡ map bytes_of (rows.train_rows plan.now))) }
{
    let mut bytes = Vec::with_capacity(alloc, plan.placed.len())?;
    sheet.drop_row();
    let mut start = last.from;
    let mut end = last.from;
    for i in 0..plan.placed.len() {
        let size = last.bytes[i];
        let next = end + size;
        if has_same_row(plan, &last.plan, i) {
            bytes.push(size)?;
        } else {
            sheet.append_text(&text[start..end])?;
            bytes.push(row_anew(sheet, plan, i)?)?;
            start = next;
        }
        end = next;
    }
    sheet.append_text(&text[start..end])?;
    Ok(bytes)
}
