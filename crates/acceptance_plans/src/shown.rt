//! What shows a cycle: a period, entries and a ring.
ghost use Rattle.std.specs.Prelude.{◌≤◌};
ghost use Rattle.plan_model.specs.declared.limits.TheConstants.{MEMBERS};
ghost use Rattle.plan_model.specs.Cut.{IsSoundCut};
ghost use Rattle.plan_model.specs.Members.{member_count};

use cycle_time::{Cycle, Step, shows};
use plan_model::Cut;
use rail_model::{List, OutOfMemory};
use small_lines::{
    Text, after_pieces, number_of, parts_of, piece_at, signed_number, small_number, word,
};
use std::alloc::Global;

// Whether the numbers of a case show a cycle of a section: its period; the entries, with a colon
// between them, or a dash where there is none; and the steps, each of two trains, a place, and
// whether the second train is one of the same pattern or of the next.
pub(crate) fn write_shown(alloc: Global, text: &mut Text, line: &[u8], cut: &Cut)
    requires sound { IsSoundCut cut.now }
    requires few { member_count cut.now ≤ MEMBERS }
{
    let mut cycle = Cycle {
        period: number_of(word(line, 1)),
        entries: List::new(alloc),
        ring: List::new(alloc),
    };
    if push_all(&mut cycle, line).is_err() {
        text.lose();
    }
    if shows(cut, &cycle) {
        text.put_line(b"shown");
    } else {
        text.put_line(b"not shown");
    }
}

fn push_all(cycle: &mut Cycle, line: &[u8]) -> Result<(), OutOfMemory> {
    if word(line, 2) != b"-".as_slice() {
        push_entries(&mut cycle.entries, word(line, 2))?;
    }
    push_steps(&mut cycle.ring, after_pieces(line, b' ', 3))
}

fn push_entries(entries: &mut List<i64>, numbers: &[u8]) -> Result<(), OutOfMemory> {
    let mut rest = numbers;
    for _ in 0..numbers.len() {
        if rest.is_empty() {
            return Ok(());
        }
        let (number, later) = parts_of(rest, b':');
        entries.push(signed_number(number))?;
        rest = later;
    }
    Ok(())
}

fn push_steps(ring: &mut List<Step>, words: &[u8]) -> Result<(), OutOfMemory> {
    let mut rest = words;
    for _ in 0..words.len() {
        let (step, later) = parts_of(rest, b' ');
        if !step.is_empty() {
            ring.push(step_of(step))?;
        }
        rest = later;
    }
    Ok(())
}

fn step_of(step: &[u8]) -> Step {
    Step {
        from: small_number(piece_at(step, b':', 0)),
        to: small_number(piece_at(step, b':', 1)),
        block: small_number(piece_at(step, b':', 2)),
        next: piece_at(step, b':', 3) == b"next".as_slice(),
    }
}
