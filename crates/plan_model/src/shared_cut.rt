//! A cut that several hold.
ghost use Rattle.std.specs.Prelude.{◌≡◌, IfOk, MatchResult};
ghost use Rattle.plan_model.specs.Cut.{IsSoundCut};

use crate::Cut;
use rail_model::OutOfMemory;
use std::alloc::Global;
use std::marker::Model;
use std::sync::Arc;

/// A sound cut that several hold at one time, and that nobody changes while others hold it.
/// Contracts see the cut.
#[derive(Drop)]
pub struct SharedCut {
    cut: Arc<Cut, Global>,
}

impl Model for SharedCut {
    ghost use Rattle.std.specs.Arc.{arc_value};
    ghost use Rattle.plan_model.specs.declared.cut.Cut.{Cut};
    ghost use Rattle.plan_model.specs.Cut.{IsSoundCut};

    ghost Value = { Cut };

    ghost view = { λ s. arc_value s.cut };

    ghost invariant = { λ s. IsSoundCut (arc_value s.cut) };
}

impl SharedCut {
    /// A cut that can be shared.
    pub fn of(alloc: Global, cut: Cut) -> Result<SharedCut, OutOfMemory>
        requires { IsSoundCut cut }
        ensures { IfOk result (λ shared. shared ≡ cut) }
    {
        Ok(SharedCut {
            cut: Arc::new(alloc, cut)?,
        })
    }

    /// A cut that can be shared; without memory, the cut itself. Which of the two comes, no clause
    /// says: a caller does right with either.
    pub fn or_own(alloc: Global, cut: Cut) -> Result<SharedCut, Cut>
        requires { IsSoundCut cut }
        ensures { MatchResult result (λ shared. shared ≡ cut) (λ own. own ≡ cut) }
    {
        match Arc::new(alloc, cut) {
            Ok(cut) => Ok(SharedCut { cut }),
            Err(refused) => Err(refused.value),
        }
    }

    /// The cut itself, so that it can be changed, where nobody else holds it; else the same shared
    /// cut. Which of the two comes, no clause says: a caller does right with either.
    pub fn into_own(self) -> Result<Cut, SharedCut>
        ensures same { MatchResult result (λ own. own ≡ self) (λ shared. shared ≡ self) }
        ensures sound { IsSoundCut self }
    {
        let SharedCut { cut } = self;
        match Arc::try_unwrap(cut) {
            Ok(own) => Ok(own),
            Err(cut) => Err(SharedCut { cut }),
        }
    }

    /// This cut for one holder more. None of it is copied.
    pub fn share(&self) -> Result<SharedCut, OutOfMemory>
        ensures { IfOk result (λ shared. shared ≡ self.now) }
    {
        Ok(SharedCut {
            cut: Arc::try_clone(&self.cut)?,
        })
    }

    /// The cut.
    pub fn cut(&self) -> &Cut
        ensures same { result.now ≡ self.now }
        ensures sound { IsSoundCut self.now }
    {
        &self.cut
    }
}
