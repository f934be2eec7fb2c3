//! A cut's line, with what makes the search for its pieces quick.
ghost use Rattle.std.specs.Prelude.{◌≡◌, ◌<◌, ◌≤◌, IfOk, IsTrue, length, true};
ghost use Rattle.plan_model.specs.Cut.{IsSoundCut};
ghost use Rattle.plan_model.specs.Members.{block_count};
ghost use Rattle.line_cutter.specs.Ways.{IsOneWay, AreOneWay, RiseUpTo, FallUpTo};

use crate::breaks::breaks_of;
use plan_model::{CutRow, FitCut};
use rail_model::{OutOfMemory, Use};
use std::alloc::Global;
use std::marker::Model;

// A cut whose line is to be cut into pieces, with what is known of its trains' ways and guessed of
// its pieces. Contracts see the cut.
#[derive(Drop)]
pub(crate) struct LineToCut<'a> {
    cut: FitCut<'a>,
    // For each train, whether the blocks of its uses are known to rise all along or to fall.
    one_way: Vec<bool>,
    // For each block, whether an orderly piece is likely to end before it.
    breaks: Vec<bool>,
}

impl<'a> Model for LineToCut<'a> {
    ghost use Rattle.plan_model.specs.declared.cut.Cut.{Cut};

    ghost Value = { Cut };

    ghost use Rattle.line_cutter.specs.Ways.{AreOneWay};

    ghost view = { λ l. l.cut };

    ghost invariant = { λ l. AreOneWay l.cut.rows l.one_way.items };
}

impl<'a> LineToCut<'a> {
    // The line of this cut.
    pub(crate) fn of(alloc: Global, cut: FitCut<'a>) -> Result<LineToCut<'a>, OutOfMemory>
        ensures { IfOk result (λ line. line ≡ cut.entry) }
    {
        let rows = cut.sound().rows();
        let one_way = one_ways(alloc, rows)?;
        let breaks = breaks_of(alloc, rows, cut.sound().block_count())?;
        Ok(LineToCut {
            cut,
            one_way,
            breaks,
        })
    }

    // The cut itself.
    pub(crate) fn cut(&self) -> &FitCut<'a>
        ensures { result.now ≡ self.now }
    {
        &self.cut
    }

    // How many blocks the line has.
    pub(crate) fn block_count(&self) -> u32
        ensures count { result ≡ block_count self.now }
        ensures few { result ≤ 256 }
        ensures sound { IsSoundCut self.now }
    {
        self.cut.sound().block_count()
    }

    // For each train whether it goes one way.
    pub(crate) fn one_way(&self) -> &[bool]
        ensures { AreOneWay self.now.rows result.now }
    {
        &self.one_way
    }

    // Where the longest orderly piece from a block on is likely to end. No clause says so: it is
    // where the search starts.
    pub(crate) fn likely_end(&self, a: u32) -> u32
        requires { a < block_count self.now }
        ensures some { a < result }
        ensures within { result ≤ block_count self.now }
    {
        let count = self.block_count();
        for end in a + 1..count {
            if self.breaks.get(end as usize) == Some(&true) {
                return end;
            }
        }
        count
    }
}

// For each row whether its uses go one way.
fn one_ways(alloc: Global, rows: &[CutRow]) -> Result<Vec<bool>, OutOfMemory>
    ensures { IfOk result (λ ways. AreOneWay rows.now ways.items) }
{
    let mut ways = Vec::with_capacity(alloc, rows.len())?;
    for row in rows {
        ways.push(is_one_way(row.uses.slice()))?;
    }
    Ok(ways)
}

// Whether the blocks of some uses rise all along, or fall. `false` says nothing: the slow way
// follows.
fn is_one_way(uses: &[Use]) -> bool
    ensures { IsTrue result → IsOneWay uses.now }
{
    blocks_rise(uses) || blocks_fall(uses)
}

fn blocks_rise(uses: &[Use]) -> bool
    ensures { IsTrue result → RiseUpTo uses.now (length uses.now) }
{
    for k in 1..uses.len() {
        if uses[k - 1].block >= uses[k].block {
            return false;
        }
    }
    true
}

fn blocks_fall(uses: &[Use]) -> bool
    ensures { IsTrue result → FallUpTo uses.now (length uses.now) }
{
    for k in 1..uses.len() {
        if uses[k - 1].block <= uses[k].block {
            return false;
        }
    }
    true
}
