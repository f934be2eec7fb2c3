//! The rows of a cycle.
ghost use Rattle.std.specs.Prelude.{◌≡◌, ◌<◌, [], ◌∷◌, All, length, map};
ghost use Rattle.plan_model.specs.Cut.{IsSoundCut};
ghost use Rattle.plan_model.specs.Members.{member_count};
ghost use Rattle.row_text.specs.Adds.{Adds};
ghost use Rattle.cycle_time.specs.Cycle.{IsShown, IsStepWithin};
ghost use Rattle.cycle_time.specs.Cycle as rows;

use crate::found::{Cycle, Step};
use plan_model::{Cut, SoundCut};
use rail_model::{Name, OutOfMemory};
use row_text::{Field, Sheet};

/// Adds the rows of a cut's cycle: `period,SECTION,PERIOD,STEPS`, of each train
/// `slot,NAME,ENTRY`, and of each step of its ring `step,TRAIN,PLACE,NEXT,same` or
/// `step,TRAIN,PLACE,NEXT,next`. A row that is open is dropped first. It takes memory; where that
/// runs out, only a prefix of the rows is added, and the next row may be open.
pub fn cycle_rows(sheet: &mut Sheet, cut: &Cut, cycle: &Cycle) -> Result<(), OutOfMemory>
    requires sound { IsSoundCut cut.now }
    requires shown { IsShown cut.now cycle.now }
    ensures { Adds result sheet.old sheet.new (rows.cycle_rows cut.now cycle.now) }
{
    period_row(
        sheet,
        &cut.section.name,
        cycle.period,
        cycle.ring.len() as u64,
    )?;
    train_rows(
        sheet,
        &SoundCut::of(cut),
        cycle.entries.slice(),
        cycle.ring.slice(),
    )
}

fn period_row(sheet: &mut Sheet, section: &Name, period: u64, steps: u64) -> Result<(), OutOfMemory>
    ensures { Adds result sheet.old sheet.new (rows.period_row section.now period steps ∷ []) }
{
    sheet.write(&[
        Field::Text(b"period"),
        Field::Name(section),
        Field::Count(period),
        Field::Count(steps),
    ])
}

// Adds the rows of the trains and of the ring.
fn train_rows(
    sheet: &mut Sheet,
    cut: &SoundCut,
    entries: &[i64],
    steps: &[Step],
) -> Result<(), OutOfMemory>
    requires count { length entries.now ≡ member_count cut.now }
    requires steps { All (IsStepWithin cut.now) steps.now }
    ensures { Adds result sheet.old sheet.new (rows.train_rows cut.now entries.now steps.now) }
{
    slot_rows(sheet, cut, entries)?;
    step_rows(sheet, cut, steps)
}

fn slot_rows(sheet: &mut Sheet, cut: &SoundCut, entries: &[i64]) -> Result<(), OutOfMemory>
    requires { length entries.now ≡ member_count cut.now }
    ensures { Adds result sheet.old sheet.new (rows.slot_rows cut.now entries.now) }
{
    sheet.drop_row();
    for i in 0..cut.member_count() {
        slot_row(sheet, cut, entries, i)?;
    }
    Ok(())
}

// Adds the row of the train at a position.
fn slot_row(sheet: &mut Sheet, cut: &SoundCut, entries: &[i64], i: u32) -> Result<(), OutOfMemory>
    requires there { i < member_count cut.now }
    requires count { length entries.now ≡ member_count cut.now }
    ensures { Adds result sheet.old sheet.new (rows.slot_row cut.now entries.now i ∷ []) }
{
    sheet.write(&[
        Field::Text(b"slot"),
        Field::Name(&cut.row(i).name),
        Field::Number(entries[i as usize]),
    ])
}

fn step_rows(sheet: &mut Sheet, cut: &SoundCut, steps: &[Step]) -> Result<(), OutOfMemory>
    requires { All (IsStepWithin cut.now) steps.now }
    ensures { Adds result sheet.old sheet.new (map (rows.step_row cut.now) steps.now) }
{
    sheet.drop_row();
    for step in steps {
        step_row(sheet, cut, step)?;
    }
    Ok(())
}

fn step_row(sheet: &mut Sheet, cut: &SoundCut, step: &Step) -> Result<(), OutOfMemory>
    requires { IsStepWithin cut.now step.now }
    ensures { Adds result sheet.old sheet.new (rows.step_row cut.now step.now ∷ []) }
{
    sheet.write(&[
        Field::Text(b"step"),
        Field::Name(&cut.row(step.from).name),
        Field::Name(cut.place_name(step.block)),
        Field::Name(&cut.row(step.to).name),
        Field::Text(pattern_word(step.next)),
    ])
}

// Whether the second train is one of the same pattern or of the next.
fn pattern_word(next: bool) -> &'static [u8]
    ensures { result.now ≡ rows.pattern_word next }
{
    if next { b"next" } else { b"same" }
}
