//! What holds a train at its entry, as the last fields of its row.
ghost use Rattle.answer_parts.specs.Adding.{AddsFields};
ghost use Rattle.answer_parts.specs.Rows.{start_fields, after_fields};

use rail_model::OutOfMemory;
use row_text::Sheet;

/// Adds that no other train holds it: `start`. It takes memory; where that runs out, the row that
/// is open is unknown.
pub fn push_start(sheet: &mut Sheet) -> Result<(), OutOfMemory>
    ensures { AddsFields result sheet.old sheet.new start_fields }
{
    sheet.push_field(b"start")
}

/// Adds that it touches a train that precedes it at a place, by the bytes of their names:
/// `after,TRAIN,PLACE`. It takes memory; where that runs out, the row that is open is unknown.
pub fn push_after(sheet: &mut Sheet, train: &[u8], place: &[u8]) -> Result<(), OutOfMemory>
    ensures { AddsFields result sheet.old sheet.new (after_fields train.now place.now) }
{
    sheet.push_field(b"after")?;
    sheet.push_field(train)?;
    sheet.push_field(place)
}
