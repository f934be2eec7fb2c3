//! The one block whose uses an edit moves, where it moves no others: that of a signal that is changed
//! and keeps its block. A section that hasn't the block keeps its cut.
ghost use Rattle.std.specs.Prelude.{◌↔◌, IsTrue, IfSome};
ghost use Rattle.rail_model.specs.Rules as rules;
ghost use Rattle.section_cut.specs.ReachedRuns.{StayBeside, changed_signal};
ghost use Rattle.section_cut.specs.Wanted.{IsBeside};

use crate::same_value::same_name;
use line_tables::LineTables;
use rail_model::{Edit, Item, Signal};

// The number of the block whose uses alone an edit moves. `None` says nothing: the slow way follows.
pub(crate) fn block_moved(before: &LineTables, edit: &Edit) -> Option<u32>
    ensures { IfSome result (StayBeside before.now (rules.after before.now edit.now)) }
{
    match edit {
        Edit::Change(Item::Signal(signal)) => block_kept(before, signal),
        _ => None,
    }
}

// The number of a signal's block, where the signal of its name has the same. `None` says nothing.
fn block_kept(before: &LineTables, signal: &Signal) -> Option<u32>
    ensures { IfSome result (StayBeside before.now (changed_signal before.now signal.now)) }
{
    let old = before.signal(&signal.name)?;
    if !same_name(&old.block, &signal.block) {
        return None;
    }
    before.block_number(&signal.block)
}

// Whether a block, if one is given, isn't in a section of so many blocks, by the positions of blocks
// in it.
pub(crate) fn is_beside(block: Option<u32>, positions: &[u32], blocks: usize) -> bool
    ensures { IsTrue result ↔ IsBeside block positions.now blocks }
{
    let Some(block) = block else {
        return false;
    };
    match positions.get(block as usize) {
        Some(position) => *position as usize >= blocks,
        None => false,
    }
}
