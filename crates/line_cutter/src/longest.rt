//! The longest orderly piece from a block on.
ghost use Rattle.std.specs.Prelude.{◌<◌, ◌≤◌, IfOk, Err};
ghost use Rattle.plan_model.specs.Members.{block_count};
ghost use Rattle.train_order.specs.Ordering.{IsOrdering};
ghost use Rattle.line_cutter.specs.Cutting as pieces;
ghost use Rattle.line_cutter.specs.Search.{IsFitting, IsLongestFrom, IsTried};

use crate::line::LineToCut;
use crate::opposed::soon_opposite;
use crate::piece::piece;
use plan_model::{Disorder, SoundCut};
use rail_model::OutOfMemory;
use std::alloc::Global;
use train_order::order;

// The most blocks of a piece whose opposite trains are looked for pair by pair, before an order is.
const FEW: u32 = 8;

// The longest orderly piece from a block on.
#[derive(Drop)]
pub(crate) struct Longest {
    // The position of the block before which it ends, or the number of blocks.
    pub(crate) end: u32,
    // Why the piece and the next block have no order, where there is a next block.
    pub(crate) disorder: Option<Disorder>,
}

// The longest orderly piece from block a on, where it is likely to end before another block. One
// of 1 block is orderly. The likely piece is tried, then that with one block more, and then pieces
// twice as long each, up to the first that isn't orderly; and then those between it and the one
// before.
pub(crate) fn longest_from(
    alloc: Global,
    line: &LineToCut,
    a: u32,
    likely: u32,
) -> Result<Longest, OutOfMemory>
    requires some { a < block_count line.now }
    requires likely { likely ≤ block_count line.now }
    ensures { IfOk result (IsLongestFrom line.now a) }
{
    let count = line.block_count();
    let mut fits = a + 1;
    while fits < count {
        let next = further(a, fits, count, likely);
        let likely_over = fits >= likely;
        match disorder_in(alloc, line, a, next, likely_over)? {
            None => fits = next,
            Some(disorder) => return narrowed(alloc, line, a, fits, next, disorder),
        }
    }
    Ok(Longest {
        end: fits,
        disorder: None,
    })
}

// The end of the likely piece, of one block more, and then of a piece twice as long or of the line.
fn further(a: u32, fits: u32, count: u32, likely: u32) -> u32
    requires some { a < fits }
    requires within { fits < count }
    requires few { count ≤ 256 }
    requires likely { likely ≤ count }
    ensures more { fits < result }
    ensures within { result ≤ count }
{
    if fits < likely {
        likely
    } else if fits == likely {
        fits + 1
    } else {
        count.min(fits + (fits - a))
    }
}

// The longest orderly piece, which ends where one fits or further on, and before where one doesn't.
// What is tried ends half way between, and is at most twice as long as the one that fits.
fn narrowed(
    alloc: Global,
    line: &LineToCut,
    a: u32,
    fits: u32,
    over: u32,
    disorder: Disorder,
) -> Result<Longest, OutOfMemory>
    requires fits { IsFitting line.now a fits }
    requires more { fits < over }
    requires within { over ≤ block_count line.now }
    requires over { IsOrdering (pieces.piece line.now a over) (Err disorder) }
    ensures { IfOk result (IsLongestFrom line.now a) }
{
    if over - fits == 1 {
        return Ok(Longest {
            end: fits,
            disorder: Some(disorder),
        });
    }
    let middle = fits + ((over - fits) / 2).min(fits - a);
    match disorder_in(alloc, line, a, middle, true)? {
        None => narrowed(alloc, line, a, middle, over, disorder),
        Some(found) => narrowed(alloc, line, a, fits, middle, found),
    }
}

// Why a piece isn't orderly, if it isn't. Where it is likely too long to be, opposite trains are
// looked for before an order is.
fn disorder_in(
    alloc: Global,
    line: &LineToCut,
    a: u32,
    b: u32,
    likely_over: bool,
) -> Result<Option<Disorder>, OutOfMemory>
    requires some { a < b }
    requires within { b ≤ block_count line.now }
    ensures { IfOk result (IsTried line.now a b) }
{
    let part = piece(alloc, line, a, b)?;
    if likely_over && b - a <= FEW {
        if let Some(disorder) = soon_opposite(alloc, &SoundCut::of(&part))? {
            return Ok(Some(disorder));
        }
    }
    match order(alloc, &part)? {
        Ok(_) => Ok(None),
        Err(disorder) => Ok(Some(disorder)),
    }
}
