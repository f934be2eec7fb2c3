//! The legs of a run, which several copies of the run hold together.
ghost use Rattle.std.specs.Prelude.{◌≡◌, ◌<◌, ◌^◌, length, IfOk};

use crate::{Leg, List, OutOfMemory};
use std::alloc::{AllocError, Global};
use std::marker::Model;
use std::sync::Arc;

/// A run's legs in order. All copies of them are one list in memory. Contracts see the list.
#[derive(Drop)]
pub struct Legs {
    shared: Arc<List<Leg>, Global>,
}

impl Model for Legs {
    ghost use Rattle.std.specs.Prelude.{List};
    ghost use Rattle.std.specs.Arc.{arc_value};
    ghost use Rattle.rail_model.specs.declared.items.Leg.{Leg};

    ghost Value = { List Leg };

    ghost view = { λ l. arc_value l.shared };
}

impl Legs {
    /// These legs.
    pub fn of(alloc: Global, legs: List<Leg>) -> Result<Legs, OutOfMemory>
        ensures { IfOk result (λ held. held ≡ legs) }
    {
        Ok(Legs {
            shared: Arc::new(alloc, legs)?,
        })
    }

    /// How many legs there are.
    pub fn len(&self) -> usize
        ensures count { result ≡ length self.now }
        ensures most { result < 2 ^ 63 }
    {
        self.shared.len()
    }

    /// The legs as a slice.
    pub fn slice(&self) -> &[Leg]
        ensures { result.now ≡ self.now }
    {
        self.shared.slice()
    }
}

/// A clone shares the legs, and asks for no memory. It fails where there are so many clones that one
/// more can't be counted.
impl Clone for Legs {
    ghost is_clone = { λ legs other. other ≡ legs };

    fn clone(&self) -> Result<Legs, AllocError> {
        Ok(Legs {
            shared: Arc::try_clone(&self.shared)?,
        })
    }
}
