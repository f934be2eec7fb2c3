//! The times of a run's legs as the row has them.
ghost use Rattle.std.specs.Prelude.{◌≡◌, ◌≤◌, nat_le, IfOk, IsTrue};
ghost use Rattle.std.specs.List.{list_all};
ghost use Rattle.row_text.specs.Lines as lines;

use crate::time_text::GREATEST_CLOCK_S;
use rail_model::{Leg, List, OutOfMemory};
use std::alloc::Global;

// A running and a dwell time for each leg, but no dwell time for the last.
pub(crate) fn leg_times(alloc: Global, legs: &[Leg]) -> Result<List<u32>, OutOfMemory>
    ensures { IfOk result (λ times. times ≡ lines.leg_times legs.now) }
{
    let mut times = List::new(alloc);
    for i in 0..legs.len() {
        times.push(legs[i].running_s)?;
        if i + 1 < legs.len() {
            times.push(legs[i].dwell_s)?;
        }
    }
    Ok(times)
}

// Makes of steps, of which the first begins at a time, the times at which they end.
pub(crate) fn add_up(start_s: u32, steps: &mut [u32])
    requires { IsTrue (lines.are_clock_times (lines.sums start_s steps.old)) }
    ensures { steps.new ≡ lines.sums start_s steps.old }
{
    let mut before = start_s;
    for i in 0..steps.len() {
        before += steps[i];
        steps[i] = before;
    }
}

// Whether all times at which steps end that begin at a time can be written as times of day.
pub(crate) fn are_clock_times(start_s: u32, steps: &[u32]) -> bool
    ensures { result ≡ lines.are_clock_times (lines.sums start_s steps.now) }
{
    let mut before = start_s;
    for step in steps {
        if u64::from(before) + u64::from(*step) > u64::from(GREATEST_CLOCK_S) {
            return false;
        }
        before += *step;
    }
    true
}
