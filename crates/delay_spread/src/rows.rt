//! The rows of delays that are spread.
ghost use Rattle.std.specs.Prelude.{◌≡◌, ◌<◌, [], ◌∷◌, length, map};
ghost use Rattle.plan_model.specs.Cut.{IsSoundCut};
ghost use Rattle.plan_model.specs.Members.{member_count};
ghost use Rattle.row_text.specs.Adds.{Adds};
ghost use Rattle.answer_parts.specs.Adding.{AddsFields, AddsRow};
ghost use Rattle.delay_spread.specs.Spreading.{IsSpreadOf, AreHeld, IsTieOf};
ghost use Rattle.delay_spread.specs.Spreading as rows;

use crate::found::{Held, Spread};
use crate::knock_on::later_by;
use answer_parts::{push_after, push_start};
use plan_model::{Cut, SoundCut, Tie};
use rail_model::OutOfMemory;
use row_text::{Field, Sheet};

/// Adds the rows of a cut's delays that are spread: of each train
/// `held,NAME,DELAY,ENTRY,KNOCKON,start` or `held,NAME,DELAY,ENTRY,KNOCKON,after,TRAIN,PLACE`, and
/// last `knock-on,LATE,SUM`. A row that is open is dropped first. It takes memory; where that runs
/// out, only a prefix of the rows is added, and the next row may be open.
pub fn spread_rows(sheet: &mut Sheet, cut: &Cut, spread: &Spread) -> Result<(), OutOfMemory>
    requires sound { IsSoundCut cut.now }
    requires spread { IsSpreadOf cut.now spread.now }
    ensures { Adds result sheet.old sheet.new (rows.spread_rows cut.now spread.now) }
{
    held_rows(sheet, &SoundCut::of(cut), spread.held.slice())?;
    knock_on_row(sheet, spread.late, spread.sum)
}

fn held_rows(sheet: &mut Sheet, cut: &SoundCut, held: &[Held]) -> Result<(), OutOfMemory>
    requires { AreHeld cut.now held.now }
    ensures { Adds result sheet.old sheet.new (rows.held_rows cut.now held.now) }
{
    sheet.drop_row();
    for i in 0..cut.member_count() {
        held_row(sheet, cut, held, i)?;
    }
    Ok(())
}

// Adds the row of the train at a position. A row that is open is dropped first. Where memory runs
// out, no row is added.
fn held_row(sheet: &mut Sheet, cut: &SoundCut, held: &[Held], i: u32) -> Result<(), OutOfMemory>
    requires there { i < member_count cut.now }
    requires held { AreHeld cut.now held.now }
    ensures { AddsRow result sheet.old sheet.new (rows.held_row cut.now held.now i) }
{
    let one = &held[i as usize];
    let later = later_by(cut.row(i).entry, one.delay, one.entry);
    sheet.drop_row();
    sheet.push_field(b"held")?;
    sheet.push_field(one.train.bytes())?;
    sheet.push_count(u64::from(one.delay))?;
    sheet.push_number(one.entry)?;
    sheet.push_count(later)?;
    push_tie(sheet, cut, one.tie)?;
    sheet.end_row()
}

// Adds the fields of a tie to a row.
fn push_tie(sheet: &mut Sheet, cut: &SoundCut, tie: Tie) -> Result<(), OutOfMemory>
    requires { IsTieOf cut.now tie }
    ensures { AddsFields result sheet.old sheet.new (rows.tie_fields cut.now tie) }
{
    match tie {
        Tie::Start => push_start(sheet),
        Tie::After { train, block } => {
            push_after(
                sheet,
                cut.row(train).name.bytes(),
                cut.place_name(block).bytes(),
            )
        }
    }
}

fn knock_on_row(sheet: &mut Sheet, late: u32, sum: u64) -> Result<(), OutOfMemory>
    ensures { Adds result sheet.old sheet.new (rows.knock_on_row late sum ∷ []) }
{
    sheet.write(&[
        Field::Text(b"knock-on"),
        Field::Count(u64::from(late)),
        Field::Count(sum),
    ])
}
