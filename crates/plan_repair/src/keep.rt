//! What is kept of a section's cut from one reading to the next.
ghost use Rattle.std.specs.Prelude.{◌≡◌, ◌≤◌, [], IfOk, IfSome};
ghost use Rattle.plan_model.specs.declared.limits.TheConstants.{MEMBERS};
ghost use Rattle.plan_model.specs.Cut.{IsSoundCut};
ghost use Rattle.plan_model.specs.Members.{member_count};
ghost use Rattle.plan_repair.specs.Held.{IsHeldOf};

use crate::held::{HeldNet, answer_held};
use crate::renewed::{RenewedCut, renewed};
use plan_model::{Answer, Cut, CutRow, Rows, is_crowded};
use rail_model::{List, Name, OutOfMemory};
use std::alloc::Global;
use std::marker::Model;

/// A keep is what is remembered of a section from one reading of its cut to the next: the section's
/// name, and the rows with their stamps.
#[derive(Drop)]
pub struct Keep {
    section: Name,
    rows: List<CutRow>,
    // The net of these rows, by which a later cut is answered where few rows change.
    held: Option<HeldNet>,
}

impl Model for Keep {
    ghost use Rattle.plan_repair.specs.Kept.{Kept};
    ghost use Rattle.plan_repair.specs.Held.{AreKept};

    ghost Value = { Kept };

    ghost view = { λ k. record { section = k.section; rows = k.rows } };

    ghost invariant = { λ k. AreKept k.rows k.held };
}

impl Keep {
    ghost use Rattle.plan_model.specs.Answer.{IsAnswer};
    ghost use Rattle.plan_model.specs.Reading.{use_count};
    ghost use Rattle.plan_repair.specs.Kept.{kept_of, AgreesWith, uses_not_kept, TakesAtMost};

    /// The name of the section: for a caller that has the keeps of several sections in a list. A
    /// worker has them by name, and needs no call.
    pub fn section(&self) -> &Name
        ensures { result.now ≡ self.now.section }
    {
        &self.section
    }

    /// The first answer of a section, from a reading, and what is kept of it.
    ///
    /// The answer is that of the reading's cut. All rows are kept, or none where the cut is
    /// crowded. At most the uses of all rows are taken, also where memory runs out.
    pub fn first<R: Rows>(alloc: Global, reading: &mut R) -> Result<(Keep, Answer), OutOfMemory>
        ensures answer { IfOk result (λ both. IsAnswer (R.shown reading.old).cut both.1) }
        ensures keep { IfOk result (λ both. both.0 ≡ kept_of (R.shown reading.old).cut) }
        ensures reading { TakesAtMost (use_count (R.shown reading.old))
            (R.shown reading.old) (R.shown reading.new) }
    {
        nothing(alloc, reading.section().name).repair(alloc, reading)
    }

    /// The answer of the section from a later reading, and what is kept of that one.
    ///
    /// The answer is that of the reading's cut, and what is kept is as for a first answer. At most
    /// the uses of those rows are taken that aren't kept with their name and stamp, also where
    /// memory runs out; then the keep is gone.
    pub fn repair<R: Rows>(
        self,
        alloc: Global,
        reading: &mut R,
    ) -> Result<(Keep, Answer), OutOfMemory>
        requires { AgreesWith self (R.shown reading.old).cut }
        ensures answer { IfOk result (λ both. IsAnswer (R.shown reading.old).cut both.1) }
        ensures keep { IfOk result (λ both. both.0 ≡ kept_of (R.shown reading.old).cut) }
        ensures reading { TakesAtMost (uses_not_kept self (R.shown reading.old).cut)
            (R.shown reading.old) (R.shown reading.new) }
    {
        let count = reading.count();
        if is_crowded(count) {
            let keep = nothing(alloc, reading.section().name);
            return Ok((keep, Answer::Crowded { count }));
        }
        let Keep { rows, held, .. } = self;
        let RenewedCut { cut, origin } = renewed(alloc, rows, reading)?;
        let (answer, held) = answer_held(alloc, &cut, held, &origin)?;
        Ok((keep_of(cut, held), answer))
    }
}

// What is kept of a section where no rows are.
fn nothing(alloc: Global, section: Name) -> Keep
    ensures { result ≡ record { section = section; rows = [] } }
{
    Keep {
        section,
        rows: List::new(alloc),
        held: None,
    }
}

// What is kept of a cut that isn't crowded, with the net that is held of it.
fn keep_of(cut: Cut, held: Option<HeldNet>) -> Keep
    requires sound { IsSoundCut cut }
    requires few { member_count cut ≤ MEMBERS }
    requires held { IfSome held (IsHeldOf cut) }
    ensures { result ≡ record { section = cut.section.name; rows = cut.rows } }
{
    let Cut { section, rows, .. } = cut;
    Keep {
        section: section.name,
        rows,
        held,
    }
}
