//! Laws of the definitions: each function does nothing, and its contract is the law.
ghost use Rattle.cycle_time.specs.Laws.{NoLesserPeriod, LongerRepeats, ShorterIsRefused, ScheduleRepeats, PeriodIsWithinOccupancy, CyclesAreAlike, CycleIsThere, AnswerIsThere};

/// The ring of a cycle alone refuses each lesser period: no list of entries repeats in one.
pub fn no_lesser_period()
    ensures { NoLesserPeriod }
{}

/// What repeats in a period repeats in each longer one.
pub fn longer_repeats()
    ensures { LongerRepeats }
{}

/// A ring that refuses each period below one refuses each below a shorter one.
pub fn shorter_is_refused()
    ensures { ShorterIsRefused }
{}

/// A schedule repeats in a period as long as its occupancy time: it keeps no block for longer.
pub fn schedule_repeats()
    ensures { ScheduleRepeats }
{}

/// The cycle time of a cut is at most the occupancy time of each of its schedules, and so of its
/// compressed timetable.
pub fn period_is_within_occupancy()
    ensures { PeriodIsWithinOccupancy }
{}

/// The period and the entries of a cut's cycle are the only ones. Its ring may be another.
pub fn cycles_are_alike()
    ensures { CyclesAreAlike }
{}

/// A sound cut whose trains have an order has a cycle: a period with the least entries that repeat
/// in it, and a ring that refuses each lesser one.
pub fn cycle_is_there()
    ensures { CycleIsThere }
{}

/// A sound cut has an answer: a cycle, where its trains have an order, else their disorder.
pub fn answer_is_there()
    ensures { AnswerIsThere }
{}
