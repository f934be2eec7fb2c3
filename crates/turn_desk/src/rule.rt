//! The rule of the desk's table, and what each pass knows of it.
//!
//! The table has one word and one slot. The word is 0 where the turn is free, and 1 where it is
//! taken. The slot has the value while the turn is free. A pass has one seat at the table.
use crate::Kept;
use atomic_table::TableRule;
use std::collections::LinkedList;
use std::marker::PhantomData;
use std::snapshot::Snapshot;

// What one of two joined passes had seen, and its numbers. No value of it is made.
pub(crate) struct Sight<E> {
    pub seen: LinkedList<E>,
    pub numbers: LinkedList<u64>,
}

// What a pass knows. No value of it is made.
pub(crate) struct View<E> {
    pub number: u64,
    pub numbers: LinkedList<u64>,
    pub seen: LinkedList<E>,
    pub holds: bool,
    // The desk is closed by this pass.
    pub closes: bool,
    pub tries: u64,
    pub found: u64,
    // Its steps on the word, with those of the passes that have left into it.
    pub steps: u64,
    // The number of all steps on the word after the last of these, and the word after it.
    pub moment: u64,
    pub word: u64,
    // The first number that it has drawn and given to no pass, and how many there are.
    pub drawn: u64,
    pub left: u64,
    // The two passes of the last join.
    pub one: Sight<E>,
    pub two: Sight<E>,
}

// The rule of a table that hands over a `V`.
pub(crate) struct Law<V> {
    kept: PhantomData<V>,
}

impl<V: Kept> TableRule<Option<V>, View<V::Entry>, Snapshot<V>> for Law<V> {
    ghost use Rattle.turn_desk.specs.Rule.{Standing};
    ghost use Rattle.turn_desk.specs.Views.{first_view};

    ghost holds = { λ _. Standing V.entries V.pass_of V.issued_by V.is_legal };

    ghost first = { λ key. first_view (V.entries key.value) };
}
