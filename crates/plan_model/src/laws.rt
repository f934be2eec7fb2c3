//! Laws of the definitions: each function does nothing, and its contract is the law.
ghost use Rattle.plan_model.specs.Cut.{MembersAreUsable};
ghost use Rattle.plan_model.specs.Disorder.{PrecededRemain};
ghost use Rattle.plan_model.specs.Laws.{LeastIsUnique, AnswerIsUnique, UsesAreApart, RemainingIsLeft, OrderIsNoneRemains, TiedIsLeast, LeastIsTied, NoneIsLater, OccupancyIsToClosing, OccupancyReachesClosing, RingIsTrue, FractionIsReduced, ReducedIsUnique, ComesBeforeIsTested, ConflictIsOverlap};

/// A cut has at most one least schedule from floors, one for each member: from the window's start
/// as from later moments.
pub fn least_is_unique()
    ensures { LeastIsUnique }
{}

/// A cut has at most one answer.
pub fn answer_is_unique()
    ensures { AnswerIsUnique }
{}

/// By a schedule of a sound cut from any floors, two trains at one place keep it one after the
/// other, in the order of precedence.
pub fn uses_are_apart()
    ensures { UsesAreApart }
{}

/// Each member that remains is preceded by one that remains.
pub fn remaining_is_left()
    ensures { RemainingIsLeft }
{}

/// The members of a cut have an order just where none of them remains: there are none of which each
/// is preceded by one of them.
pub fn order_is_none_remains()
    ensures { OrderIsNoneRemains }
{}

/// Where members of a sound cut remain, the links of its ring are true and close: each train
/// precedes the next at the place that the link names, and the last train the first. No train comes
/// twice, and the least comes first.
pub fn ring_is_true()
    ensures { RingIsTrue }
{}

/// Where no member remains, a schedule in which each train enters at its floor (the window's start,
/// in compression) or touches a train that precedes it is the least.
pub fn tied_is_least()
    ensures { TiedIsLeast }
{}

/// By the least schedule of a sound cut each train enters at its floor (the window's start, in
/// compression) or touches a train that precedes it.
pub fn least_is_tied()
    ensures { LeastIsTied }
{}

/// Where the planned timetable is free of conflict and keeps its connections, the least schedule
/// has no train later.
pub fn none_is_later()
    ensures { NoneIsLater }
{}

/// Where a train uses each block that is used and precedes every other there, the occupancy time is
/// the time from its entry to that of its closing copy: a copy of it that comes after all other
/// trains.
pub fn occupancy_is_to_closing()
    ensures { OccupancyIsToClosing }
{}

/// Whichever train is copied, the occupancy time is no less than the time from its entry to that of
/// its closing copy, which comes after all others on the blocks that the train uses.
pub fn occupancy_reaches_closing()
    ensures { OccupancyReachesClosing }
{}

/// The reduced fraction of two numbers, the second above 0, has their value, and no number but 1
/// divides both its parts.
pub fn fraction_is_reduced()
    ensures { FractionIsReduced }
{}

/// Two numbers have one reduced fraction alone.
pub fn reduced_is_unique()
    ensures { ReducedIsUnique }
{}

/// Two trains of a cut come one before the other as two runs of a timetable do.
pub fn comes_before_is_tested()
    ensures { ComesBeforeIsTested }
{}

/// Two trains of a cut conflict where their uses of a place overlap, as two runs of a timetable
/// do.
pub fn conflict_is_overlap()
    ensures { ConflictIsOverlap }
{}

/// Members of which each is preceded by one of them have no order: each of them remains.
pub fn preceded_remain()
    ensures { PrecededRemain }
{}

/// The members of a sound cut have moments within the limit, at places of the cut.
pub fn members_are_usable()
    ensures { MembersAreUsable }
{}
