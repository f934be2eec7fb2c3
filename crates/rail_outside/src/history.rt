//! A history that only proofs read.
ghost use Rattle.std.specs.Prelude.{◌≡◌, ◌++◌, ℕ, List, [], length};
ghost use Rattle.std.specs.Borrow.{ftrue};

use std::marker::{Model, PhantomData};

// The bytes that passed through a stream, and how many of them are flushed. Only proofs read it:
// it takes no memory, and its methods do nothing when they run.
#[derive(Drop)]
pub(crate) struct History {
    marker: PhantomData<u8>,
    pub ghost items: { List ℕ },
    pub ghost flushed: { ℕ },
}

impl Model for History {
    ghost also_owns = { λ _. ftrue };
}

impl History {
    // A history with no bytes.
    pub(crate) fn new() -> History
        ensures { (result.items ≡ []) × (result.flushed ≡ 0) }
    {
        History {
            marker: PhantomData,
        }
    }

    // A piece passes.
    pub(crate) fn add(&mut self, _piece: &[u8])
        ensures { (self.new.items ≡ self.old.items ++ _piece.now)
            × (self.new.flushed ≡ self.old.flushed) }
    {}

    // All bytes that passed are flushed.
    pub(crate) fn settle(&mut self)
        ensures { (self.new.items ≡ self.old.items)
            × (self.new.flushed ≡ length self.new.items) }
    {}
}
