//! Laws of the definitions: each function does nothing, and its contract is the law.
ghost use Rattle.train_order.specs.Laws.{EachComesNext, DisorderIsUnique, OrderedHasNoDisorder};

/// Each train of an order comes next after those that stand before it: all that precede it at some
/// place are among them, and it precedes none of them.
pub fn each_comes_next()
    ensures { EachComesNext }
{}

/// A cut has at most one disorder: one opposite pair with its places, or one ring.
pub fn disorder_is_unique()
    ensures { DisorderIsUnique }
{}

/// A cut whose trains have an order has no disorder.
pub fn ordered_has_no_disorder()
    ensures { OrderedHasNoDisorder }
{}
