//! The rows of links: of a ring, and of a chain.
ghost use Rattle.std.specs.Prelude.{[], ◌∷◌, map};
ghost use Rattle.row_text.specs.Adds.{Adds};
ghost use Rattle.answer_parts.specs.Rows as rows;

use plan_model::Link;
use rail_model::OutOfMemory;
use row_text::{Field, Sheet};

/// Adds the rows of some links, in their order: `link,TRAIN,PLACE,NEXT`. A row that is open is
/// dropped first. It takes memory; where that runs out, only a prefix of the rows is added, and the
/// next row may be open.
pub fn link_rows(sheet: &mut Sheet, links: &[Link]) -> Result<(), OutOfMemory>
    ensures { Adds result sheet.old sheet.new (map rows.link_row links.now) }
{
    sheet.drop_row();
    for link in links {
        link_row(sheet, link)?;
    }
    Ok(())
}

// Adds the row of a link.
fn link_row(sheet: &mut Sheet, link: &Link) -> Result<(), OutOfMemory>
    ensures { Adds result sheet.old sheet.new (rows.link_row link.now ∷ []) }
{
    sheet.write(&[
        Field::Text(b"link"),
        Field::Name(&link.train),
        Field::Name(&link.block),
        Field::Name(&link.next),
    ])
}
