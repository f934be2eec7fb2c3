//! The cutting of a line.
ghost use Rattle.std.specs.Prelude.{◌≡◌, ◌+◌, ◌<◌, ◌≤◌, ℕ, All, AllPairs, IfOk, List as Items, length};
ghost use Rattle.plan_model.specs.declared.limits.TheConstants.{MEMBERS};
ghost use Rattle.plan_model.specs.Cut.{IsSoundCut};
ghost use Rattle.plan_model.specs.Members.{member_count, block_count};
ghost use Rattle.line_cutter.specs.Cutting.{AreOrderly, IsCutting};
ghost use Rattle.line_cutter.specs.Laws.{IsLongest, IsCutAmong, AreDisjoint};
ghost use Rattle.line_cutter.specs.Search.{AreCutTo};

use crate::found::{Cutting, Stretch};
use crate::line::LineToCut;
use crate::longest::longest_from;
use plan_model::{Cut, FitCut};
use rail_model::{List, OutOfMemory};
use std::alloc::Global;

/// The section's line, cut into the fewest orderly pieces: each but the last is the longest orderly
/// one from its first block. A connection binds no piece.
///
/// The only error is want of memory.
pub fn cut_line(alloc: Global, cut: &Cut) -> Result<Cutting, OutOfMemory>
    requires sound { IsSoundCut cut.now }
    requires few { member_count cut.now ≤ MEMBERS }
    ensures cutting { IfOk result (IsCutting cut.now) }
    ensures one_more { IfOk result (λ cutting.
        length cutting.ends ≡ length cutting.stretches + 1) }
    ensures longest { IfOk result (λ cutting. All (IsLongest cut.now) cutting.stretches) }
    ensures disjoint { IfOk result (λ cutting. AllPairs AreDisjoint cutting.stretches) }
    ensures needed { IfOk result (λ cutting. (ends : Items ℕ)
        → AreOrderly cut.now 0 ends → All (IsCutAmong ends) cutting.stretches) }
    ensures fewest { IfOk result (λ cutting. (ends : Items ℕ)
        → AreOrderly cut.now 0 ends → length cutting.ends ≤ length ends) }
{
    let none = Cutting {
        ends: List::new(alloc),
        stretches: List::new(alloc),
    };
    let line = LineToCut::of(alloc, FitCut::of(cut))?;
    cut_from(alloc, &line, 0, true, none)
}

// The cutting of a line that is cut up to the block `first` already. Whether the guess at the next
// piece's end is trusted makes no difference to what is found.
fn cut_from(
    alloc: Global,
    line: &LineToCut,
    first: u32,
    trusted: bool,
    mut cutting: Cutting,
) -> Result<Cutting, OutOfMemory>
    requires left { first < block_count line.now }
    requires before { AreCutTo line.now 0 cutting.ends cutting.stretches first }
    ensures { IfOk result (IsCutting line.now) }
{
    let guess = line.likely_end(first);
    let likely = if trusted { guess } else { first + 1 };
    let found = longest_from(alloc, line, first, likely)?;
    let last = found.end;
    cutting.ends.push(last)?;
    match found.disorder {
        None => Ok(cutting),
        Some(disorder) => {
            cutting.stretches.push(Stretch {
                first,
                last,
                disorder,
            })?;
            cut_from(alloc, line, last, last >= guess, cutting)
        }
    }
}
