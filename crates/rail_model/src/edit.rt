//! Changes of the tables, and the rules that refuse them.
use crate::{Item, Name};

/// The kinds of items. Each has names of its own, but blocks and connections share theirs.
#[derive(Clone, Copy, Debug, PartialEq, Eq)]
pub enum Kind {
    Block,
    Signal,
    Route,
    Run,
    Section,
    Connection,
}

/// One edit of a planner's tables.
#[derive(Drop)]
pub enum Edit {
    /// Adds an item of a new name.
    Put(Item),
    /// Replaces the item of its kind and name, whole.
    Change(Item),
    /// Takes out the item of a kind and a name.
    Drop(Kind, Name),
}

/// Why an edit is refused.
#[derive(Clone, Copy, Debug, PartialEq, Eq)]
pub enum Rule {
    /// A number, or the length of a list, is outside its limit; or a run ends with a dwell, or a
    /// window is empty.
    Range,
    /// The name is there, or a block and a connection would share it; or an item names something
    /// twice: a route or a section a block, also after a change of a signal, or a connection a run.
    Twice,
    /// A name isn't there.
    Unknown,
    /// The kind has its greatest number of items.
    Limit,
    /// A run hasn't one leg for each signal of its route.
    Count,
    /// Another item names the one that is dropped.
    InUse,
}
