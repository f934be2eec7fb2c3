//! The rows of a compressed timetable.
ghost use Rattle.std.specs.Prelude.{◌≡◌, ◌<◌, ◌++◌, ◌∷◌, [], length, slice_index_or, Some};
ghost use Rattle.row_text.specs.FieldText.{text_of};
ghost use Rattle.row_text.specs.Adds.{Adds};
ghost use Rattle.answer_parts.specs.Adding.{AddsFields, AddsRow};
ghost use Rattle.plan_model.specs.PlacedList.{no_train};
ghost use Rattle.critical_chain.specs.Chain.{IsPlan};
ghost use Rattle.capacity_report.specs.Answers as rows;
ghost use Rattle.capacity_report.specs.Shown.{IsShown, IsTrainOf, IsTieOf};

use crate::answers::Detail;
use crate::rates::rate_row;
use answer_parts::{link_rows, push_after, push_start};
use critical_chain::chain;
use plan_model::{Plan, Tie};
use rail_model::{Name, OutOfMemory};
use row_text::{Field, Sheet};
use std::alloc::Global;

// Adds the rows of a section's compressed timetable in so much detail.
pub(crate) fn plan_rows(
    alloc: Global,
    sheet: &mut Sheet,
    section: &Name,
    plan: &Plan,
    detail: Detail,
) -> Result<(), OutOfMemory>
    requires plan { IsPlan plan.now }
    requires shown { IsShown plan.now }
    ensures { Adds result sheet.old sheet.new (rows.plan_rows section.now plan.now detail) }
{
    match detail {
        Detail::Head => head_rows(alloc, sheet, section, plan),
        Detail::Trains => rows_with_trains(alloc, sheet, section, plan),
        Detail::Full => rows_with_chain(alloc, sheet, section, plan),
    }
}

// Adds the rows `ordered` and `rate`.
pub(crate) fn head_rows(
    alloc: Global,
    sheet: &mut Sheet,
    section: &Name,
    plan: &Plan,
) -> Result<(), OutOfMemory>
    requires { IsShown plan.now }
    ensures { Adds result sheet.old sheet.new (rows.head_rows section.now plan.now) }
{
    ordered_row(sheet, section, plan)?;
    rate_row(alloc, sheet, section, plan)
}

// Adds the head, and a row for each train.
fn rows_with_trains(
    alloc: Global,
    sheet: &mut Sheet,
    section: &Name,
    plan: &Plan,
) -> Result<(), OutOfMemory>
    requires { IsShown plan.now }
    ensures { Adds result sheet.old sheet.new
        (rows.head_rows section.now plan.now ++ rows.train_rows plan.now) }
{
    head_rows(alloc, sheet, section, plan)?;
    train_rows(sheet, plan)
}

// Adds the head, the trains, and the chain of the critical train.
fn rows_with_chain(
    alloc: Global,
    sheet: &mut Sheet,
    section: &Name,
    plan: &Plan,
) -> Result<(), OutOfMemory>
    requires plan { IsPlan plan.now }
    requires shown { IsShown plan.now }
    ensures { Adds result sheet.old sheet.new (rows.head_rows section.now plan.now
        ++ rows.train_rows plan.now ++ rows.critical_rows plan.now plan.now.critical) }
{
    rows_with_trains(alloc, sheet, section, plan)?;
    critical_rows(alloc, sheet, plan)
}

// Adds the row `ordered,SECTION,MEMBERS,OCCUPANCY,BUSIEST`.
fn ordered_row<'a>(sheet: &mut Sheet, section: &'a Name, plan: &'a Plan) -> Result<(), OutOfMemory>
    requires { IsShown plan.now }
    ensures { AddsRow result sheet.old sheet.new (rows.ordered_row section.now plan.now) }
{
    sheet.write(&[
        Field::Text(b"ordered"),
        Field::Name(section),
        Field::Count(plan.placed.len() as u64),
        Field::Count(plan.occupancy),
        busiest(plan),
    ])
}

// The name of the busiest block, or an empty field.
fn busiest(plan: &Plan) -> Field<'_>
    requires { IsShown plan.now }
    ensures { text_of result ≡ rows.busiest_text plan.now plan.now.busiest }
{
    match plan.busiest {
        Some(block) => Field::Text(plan.blocks.bytes(block as usize)),
        None => Field::Text(b""),
    }
}

// Adds the rows of the trains, in the order of their names.
pub(crate) fn train_rows(sheet: &mut Sheet, plan: &Plan) -> Result<(), OutOfMemory>
    requires { IsShown plan.now }
    ensures { Adds result sheet.old sheet.new (rows.train_rows plan.now) }
{
    sheet.drop_row();
    for i in 0..plan.placed.len() {
        train_row(sheet, plan, i)?;
    }
    Ok(())
}

// Adds the row `train,NAME,PLANNED,ENTRY,SHIFT` with its tie. A row that is open is dropped first.
// Where memory runs out, no row is added.
pub(crate) fn train_row(sheet: &mut Sheet, plan: &Plan, i: usize) -> Result<(), OutOfMemory>
    requires there { i < length plan.now.placed }
    requires train { IsTrainOf plan.now (slice_index_or plan.now.placed i no_train) }
    ensures { AddsRow result sheet.old sheet.new
        (rows.train_row plan.now (slice_index_or plan.now.placed i no_train)) }
{
    let placed = &plan.placed;
    sheet.drop_row();
    sheet.push_field(b"train")?;
    sheet.push_field(placed.name(i))?;
    let planned = placed.planned(i);
    let entry = placed.entry(i);
    let shift = entry - planned;
    sheet.push_numbers(&[planned, entry, shift])?;
    push_tie(sheet, plan, placed.tie(i))?;
    sheet.end_row()
}

// Adds the fields of a tie to a row: `start`, or `after,TRAIN,PLACE`.
fn push_tie(sheet: &mut Sheet, plan: &Plan, tie: Tie) -> Result<(), OutOfMemory>
    requires { IsTieOf plan.now tie }
    ensures { AddsFields result sheet.old sheet.new (rows.tie_fields plan.now tie) }
{
    match tie {
        Tie::Start => push_start(sheet),
        Tie::After { train, block } => {
            let train = plan.placed.name(train as usize);
            push_after(sheet, train, plan.blocks.bytes(block as usize))
        }
    }
}

// Adds the rows of the critical train and of its chain, if there is a train.
fn critical_rows(alloc: Global, sheet: &mut Sheet, plan: &Plan) -> Result<(), OutOfMemory>
    requires plan { IsPlan plan.now }
    requires shown { IsShown plan.now }
    requires closed { sheet.old.row ≡ [] }
    ensures { Adds result sheet.old sheet.new (rows.critical_rows plan.now plan.now.critical) }
{
    match plan.critical {
        Some(train) => chain_rows(alloc, sheet, plan, train),
        None => Ok(()),
    }
}

// Adds the rows of a train and of its chain.
fn chain_rows(alloc: Global, sheet: &mut Sheet, plan: &Plan, train: u32) -> Result<(), OutOfMemory>
    requires plan { IsPlan plan.now }
    requires there { train < length plan.now.placed }
    ensures { Adds result sheet.old sheet.new (rows.critical_rows plan.now (Some train)) }
{
    let links = chain(alloc, plan, train)?;
    let name = plan.placed.name(train as usize);
    critical_row(sheet, name, links.len() as u64)?;
    link_rows(sheet, links.slice())
}

// Adds the row `critical,TRAIN,LINKS`.
fn critical_row(sheet: &mut Sheet, train: &[u8], links: u64) -> Result<(), OutOfMemory>
    ensures { AddsRow result sheet.old sheet.new (rows.critical_row train.now links) }
{
    sheet.write(&[
        Field::Text(b"critical"),
        Field::Text(train),
        Field::Count(links),
    ])
}
