//! The rows of a cutting.
ghost use Rattle.std.specs.Prelude.{◌≡◌, ◌<◌, ◌^◌, [], ◌∷◌, All, length};
ghost use Rattle.std.specs.List.{flat_map};
ghost use Rattle.row_text.specs.Adds.{Adds};
ghost use Rattle.line_cutter.specs.Cutting.{IsCutting};
ghost use Rattle.line_cutter.specs.Rows as rows;

use crate::found::{Cutting, Stretch};
use answer_parts::{opposite_row, ring_rows};
use plan_model::{Cut, Disorder};
use rail_model::{Name, OutOfMemory, Section};
use row_text::{Field, Sheet};

/// Adds the rows of a cut's cutting: of each piece `piece,SECTION,NUMBER,FIRST,LAST`, of each
/// stretch `stretch,FIRST,LAST` and its disorder, and last `cut,SECTION,PIECES`. FIRST and LAST are
/// blocks. A row that is open is dropped first. It takes memory; where that runs out, only a prefix
/// of the rows is added, and the next row may be open.
pub fn cutting_rows(sheet: &mut Sheet, cut: &Cut, cutting: &Cutting) -> Result<(), OutOfMemory>
    requires { IsCutting cut.now cutting.now }
    ensures { Adds result sheet.old sheet.new (rows.cutting_rows cut.now cutting.now) }
{
    piece_rows(sheet, &cut.section, cutting.ends.slice())?;
    stretches_rows(sheet, &cut.section, cutting.stretches.slice())?;
    cut_row(sheet, &cut.section.name, cutting.ends.len() as u64)
}

fn piece_rows(sheet: &mut Sheet, section: &Section, ends: &[u32]) -> Result<(), OutOfMemory>
    requires { rows.ArePiecesWithin section.now ends.now }
    ensures { Adds result sheet.old sheet.new (rows.piece_rows section.now ends.now) }
{
    sheet.drop_row();
    for k in 0..ends.len() {
        piece_row(sheet, section, ends, k)?;
    }
    Ok(())
}

// Adds the row of the piece at place k.
fn piece_row(
    sheet: &mut Sheet,
    section: &Section,
    ends: &[u32],
    k: usize,
) -> Result<(), OutOfMemory>
    requires there { k < length ends.now }
    requires few { length ends.now < 2 ^ 63 }
    requires within { rows.IsPieceWithin section.now ends.now k }
    ensures { Adds result sheet.old sheet.new (rows.piece_row section.now ends.now k ∷ []) }
{
    let first = first_block(ends, k);
    let last = ends[k] - 1;
    sheet.write(&[
        Field::Text(b"piece"),
        Field::Name(&section.name),
        Field::Count(k as u64 + 1),
        Field::Name(block_at(section, first)),
        Field::Name(block_at(section, last)),
    ])
}

// The name of a section's block.
fn block_at(section: &Section, block: u32) -> &Name
    requires { block < length section.now.blocks }
    ensures { result.now ≡ rows.block_at section.now block }
{
    &section.blocks.slice()[block as usize]
}

// The position of the block with which the piece at place k begins.
fn first_block(ends: &[u32], k: usize) -> u32
    requires { k < length ends.now }
    ensures { result ≡ rows.first_block ends.now k }
{
    if k == 0 { 0 } else { ends[k - 1] }
}

fn stretches_rows(
    sheet: &mut Sheet,
    section: &Section,
    stretches: &[Stretch],
) -> Result<(), OutOfMemory>
    requires { All (rows.IsStretchWithin section.now) stretches.now }
    ensures { Adds result sheet.old sheet.new
        (flat_map (rows.stretch_rows section.now) stretches.now) }
{
    sheet.drop_row();
    for stretch in stretches {
        stretch_rows(sheet, section, stretch)?;
    }
    Ok(())
}

// Adds the rows of a stretch and its disorder.
fn stretch_rows(sheet: &mut Sheet, section: &Section, stretch: &Stretch) -> Result<(), OutOfMemory>
    requires { rows.IsStretchWithin section.now stretch.now }
    ensures { Adds result sheet.old sheet.new (rows.stretch_rows section.now stretch.now) }
{
    stretch_row(sheet, section, stretch)?;
    disorder_rows(sheet, &section.name, &stretch.disorder)
}

fn stretch_row(sheet: &mut Sheet, section: &Section, stretch: &Stretch) -> Result<(), OutOfMemory>
    requires { rows.IsStretchWithin section.now stretch.now }
    ensures { Adds result sheet.old sheet.new (rows.stretch_row section.now stretch.now ∷ []) }
{
    sheet.write(&[
        Field::Text(b"stretch"),
        Field::Name(block_at(section, stretch.first)),
        Field::Name(block_at(section, stretch.last)),
    ])
}

fn disorder_rows(sheet: &mut Sheet, section: &Name, disorder: &Disorder) -> Result<(), OutOfMemory>
    ensures { Adds result sheet.old sheet.new (rows.disorder_rows section.now disorder.now) }
{
    match disorder {
        Disorder::Opposite {
            first,
            second,
            block1,
            block2,
        } => opposite_row(sheet, section, first, second, block1, block2),
        Disorder::Ring(links) => ring_rows(sheet, section, links.slice()),
    }
}

fn cut_row(sheet: &mut Sheet, section: &Name, pieces: u64) -> Result<(), OutOfMemory>
    ensures { Adds result sheet.old sheet.new (rows.cut_row section.now pieces ∷ []) }
{
    sheet.write(&[
        Field::Text(b"cut"),
        Field::Name(section),
        Field::Count(pieces),
    ])
}
