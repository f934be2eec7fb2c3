//! Laws of nets: each function does nothing, and its contract is the law.
ghost use Rattle.train_net.specs.Laws.{SolvedIsLeast, ReadArePlaced, AlongAreSpans, FollowingIsOrder, CarriedAreEdges, MendedIsNet, ComparedFollow, UnmarkedHasNoneFresh};

/// Entries of which each is as early as its floor and the edges to its train allow are the least
/// schedule from these floors.
pub fn solved_is_least()
    ensures { SolvedIsLeast }
{}

/// Entries, ties and last uses that are read off a net are those of trains that are all placed,
/// each as early as its floor and its places allow.
pub fn read_are_placed()
    ensures { ReadArePlaced }
{}

/// A block is kept from the start of the first in the net's order who uses it to the end of the
/// last.
pub fn along_are_spans()
    ensures { AlongAreSpans }
{}

/// Members of which each follows, at each of its places, the nearest before it have this order,
/// and no disorder.
pub fn following_is_order()
    ensures { FollowingIsOrder }
{}

/// The edges to a kept member of a later cut are those that it had, where all from whom it had an
/// edge are kept, no fresh member stands nearest before it, and kept members stand as before.
pub fn carried_are_edges()
    ensures { CarriedAreEdges }
{}

/// A mended net is a net of the later cut, whose members have its order and no disorder.
pub fn mended_is_net()
    ensures { MendedIsNet }
{}

/// Where each fresh member follows its nearest and is followed by the nearest after it, at each of
/// its places, each member of a later cut follows its nearest.
pub fn compared_follow()
    ensures { ComparedFollow }
{}

/// Where the nearest after each fresh member is marked, at each of its places, no fresh member
/// stands nearest before one that isn't marked.
pub fn unmarked_has_none_fresh()
    ensures { UnmarkedHasNoneFresh }
{}
