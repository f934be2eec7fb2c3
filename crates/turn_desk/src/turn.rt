//! The turn at a desk.
ghost use Rattle.std.specs.Prelude.{◌≡◌};

use std::marker::Model;

/// A turn at a desk: the thread that has it has the desk's value, and no other thread does.
/// Contracts see the value. A turn that is dropped is never given back, and the value is gone with
/// it.
#[derive(Drop)]
pub struct Turn<V> {
    value: V,
}

impl<V> Model for Turn<V> {
    ghost Value = { V };

    ghost view = { λ t. t.value };
}

impl<V> Turn<V> {
    ghost use Rattle.std.specs.Borrow.{sem};
    ghost use Rattle.turn_desk.specs.Turn.{LendsValue};

    pub(crate) fn new(value: V) -> Turn<V>
        ensures { result ≡ value }
    {
        Turn { value }
    }

    pub(crate) fn into_value(self) -> V
        ensures { result ≡ self }
    {
        let Turn { value } = self;
        value
    }

    /// The value, for reading.
    pub fn value(&self) -> &V
        ensures { result.now ≡ self.now }
    {
        &self.value
    }

    /// Lends the value for writing.
    pub fn value_mut(&mut self) -> &mut V
        ensures* writes_back { sem 𝓛 (LendsValue V.row self.entry result) }
        ensures value { result.now ≡ self.old }
    {
        &mut self.value
    }
}
