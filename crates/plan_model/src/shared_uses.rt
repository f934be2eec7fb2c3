//! The uses of a row, which several rows may hold.
ghost use Rattle.std.specs.Prelude.{◌≡◌, ◌++◌, [], ◌∷◌, length, IfOk, OnOk, OnErr};
ghost use Rattle.plan_model.specs.SharedUses.{uses_in};

use rail_model::{OutOfMemory, Use};
use std::alloc::Global;
use std::marker::Model;
use std::sync::Arc;
use std::{mem, slice};

/// Uses in order, of one row or of several at one time: that of a section's cut, and the same row
/// where a worker keeps it. Contracts see their list.
#[derive(Drop)]
pub struct SharedUses {
    held: Held,
}

// How uses are held: one use in the row itself; others by one row alone, with one allocation, or
// so that several rows can hold them, with two.
#[derive(Drop)]
enum Held {
    One(Use, Global),
    Own(Vec<Use>),
    Shared(Arc<Vec<Use>, Global>),
}

impl Model for SharedUses {
    ghost use Rattle.std.specs.Prelude.{List};
    ghost use Rattle.rail_model.specs.declared.stair.Use.{Use};
    ghost use Rattle.plan_model.specs.SharedUses.{uses_in};

    ghost Value = { List Use };

    ghost view = { λ u. uses_in u.held };
}

impl SharedUses {
    /// These uses, held by one row alone.
    pub fn of(uses: Vec<Use>) -> SharedUses
        ensures { result ≡ uses.items }
    {
        let held = if uses.len() == 1 {
            Held::One(uses[0], *uses.allocator())
        } else {
            Held::Own(uses)
        };
        SharedUses { held }
    }

    /// A copy of these uses, held by one row alone. One use asks for no memory.
    pub fn copy_of(alloc: Global, uses: &[Use]) -> Result<SharedUses, OutOfMemory>
        ensures { IfOk result (λ held. held ≡ uses.now) }
    {
        let held = if uses.len() == 1 {
            Held::One(uses[0], alloc)
        } else {
            Held::Own(Vec::from_slice(alloc, uses)?)
        };
        Ok(SharedUses { held })
    }

    /// Lets several rows hold these uses from now on, where there is memory for it.
    pub fn make_shared(&mut self, alloc: Global)
        ensures { self.new ≡ self.old }
    {
        self.held = match mem::replace(&mut self.held, Held::Own(Vec::new(alloc))) {
            Held::Own(uses) => shared_of(alloc, uses),
            other => other,
        };
    }

    /// The same uses for one row more. What one row holds alone is copied; all else is shared.
    pub fn share(&self) -> Result<SharedUses, OutOfMemory>
        ensures { IfOk result (λ shared. shared ≡ self.now) }
    {
        let held = match &self.held {
            Held::One(one, alloc) => Held::One(*one, *alloc),
            Held::Own(uses) => Held::Own(uses.clone()?),
            Held::Shared(uses) => Held::Shared(Arc::try_clone(uses)?),
        };
        Ok(SharedUses { held })
    }

    /// Puts a use at the end. Where several rows may hold the uses, they are copied first, and the
    /// others keep theirs. Room is made for one use alone. Without memory the uses stay as they
    /// were.
    pub fn push(&mut self, one: Use) -> Result<(), OutOfMemory>
        ensures ok { OnOk result (self.new ≡ self.old ++ one ∷ []) }
        ensures err { OnErr result (self.new ≡ self.old) }
    {
        match &mut self.held {
            Held::One(first, alloc) => {
                let mut own = Vec::with_capacity(*alloc, 2)?;
                own.push_reserved(*first);
                own.push_reserved(one);
                self.held = Held::Own(own);
                Ok(())
            }
            Held::Own(uses) => put(uses, one),
            Held::Shared(uses) => {
                let mut own = Vec::clone(uses)?;
                put(&mut own, one)?;
                self.held = Held::Own(own);
                Ok(())
            }
        }
    }

    /// How many uses there are.
    pub fn len(&self) -> usize
        ensures { result ≡ length self.now }
    {
        self.slice().len()
    }

    /// The uses as a slice.
    pub fn slice(&self) -> &[Use]
        ensures { result.now ≡ self.now }
    {
        match &self.held {
            Held::One(one, _) => slice::from_ref(one),
            Held::Own(uses) => uses,
            Held::Shared(uses) => uses,
        }
    }
}

// These uses, held so that several rows can hold them; without memory, by one alone.
fn shared_of(alloc: Global, uses: Vec<Use>) -> Held
    ensures { uses_in result ≡ uses.items }
{
    match Arc::new(alloc, uses) {
        Ok(uses) => Held::Shared(uses),
        Err(refused) => Held::Own(refused.value),
    }
}

// Puts a use at the end of some. Without memory they stay as they were.
fn put(uses: &mut Vec<Use>, one: Use) -> Result<(), OutOfMemory>
    ensures ok { OnOk result (uses.new.items ≡ uses.old.items ++ one ∷ []) }
    ensures err { OnErr result (uses.new.items ≡ uses.old.items) }
{
    uses.reserve_exact(1)?;
    uses.push_reserved(one);
    Ok(())
}
