//! A run's stairway, between which moments it starts to keep blocks, and when it does first.
ghost use Rattle.std.specs.Prelude.{◌≡◌, true, IfSome};
ghost use Rattle.section_cut.specs.Starts.{IsEntryOf, StartsEarly, StartsOutside};

use crate::all_stairways::{Starts, is_outside, starts_of};
use plan_model::least_start;
use rail_model::{Section, Stair};
use std::marker::Model;

// A stairway with these moments. Contracts see the stairway.
#[derive(Drop)]
pub(crate) struct TimedStair {
    stair: Stair,
    starts: Starts,
    entry: i64,
}

impl Model for TimedStair {
    ghost use Rattle.rail_model.specs.declared.stair.Stair.{Stair};
    ghost use Rattle.section_cut.specs.Starts.{IsTimed};

    ghost Value = { Stair };

    ghost view = { λ t. t.stair };

    ghost invariant = { λ t. IsTimed t.starts t.entry t.stair };
}

impl TimedStair {
    // This stairway.
    pub(crate) fn of(stair: Stair) -> TimedStair
        ensures { result ≡ stair }
    {
        let starts = starts_of(stair.uses.slice());
        let entry = least_start(stair.uses.slice());
        TimedStair {
            stair,
            starts,
            entry,
        }
    }

    // The stairway.
    pub(crate) fn stair(&self) -> &Stair
        ensures { result.now ≡ self.now }
    {
        &self.stair
    }

    // The least start of its uses, and 0 of none.
    pub(crate) fn entry(&self) -> i64
        ensures { IsEntryOf result self.now }
    {
        self.entry
    }

    // Whether all uses start before a section's window, or all after it. `false` says nothing: the
    // slow way follows.
    pub(crate) fn passes_by(&self, section: &Section) -> bool
        ensures { result ≡ true → StartsOutside section.now self.now.uses }
    {
        is_outside(self.starts, section)
    }

    // The block of the first use, if that starts before a section's window. `None` says nothing:
    // the slow way follows.
    pub(crate) fn early_block(&self, section: &Section) -> Option<u32>
        ensures { IfSome result (StartsEarly section.now self.now.uses) }
    {
        let uses = self.stair.uses.slice();
        if uses.is_empty() || uses[0].start >= i64::from(section.from_s) {
            return None;
        }
        Some(uses[0].block)
    }
}
