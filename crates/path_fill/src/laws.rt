//! Laws of the definitions: each function does nothing, and its contract is the law.
ghost use Rattle.path_fill.specs.Laws.{FilledOccupancyIsUnique, FilledOccupancyIsThere, MembersEnterAsCompressed, OccupancyNeverFalls, ConsumptionNeverFalls, FillIsUnique, FillingIsUnique};

/// With so many copies there is at most one filled occupancy.
pub fn filled_occupancy_is_unique()
    ensures { FilledOccupancyIsUnique }
{}

/// Where the trains of a sound cut have an order, there is a filled occupancy with any number of
/// copies of a train.
pub fn filled_occupancy_is_there()
    ensures { FilledOccupancyIsThere }
{}

/// However many copies follow them, the trains of a section enter as in the compressed timetable.
pub fn members_enter_as_compressed()
    ensures { MembersEnterAsCompressed }
{}

/// With more copies of a train of a sound cut, the filled occupancy is no less.
pub fn occupancy_never_falls()
    ensures { OccupancyNeverFalls }
{}

/// With more copies of a train of a sound cut, the capacity consumption is no less.
pub fn consumption_never_falls()
    ensures { ConsumptionNeverFalls }
{}

/// A section is filled with copies of a train in one way: one greatest number of them, and its
/// filled occupancies.
pub fn fill_is_unique()
    ensures { FillIsUnique }
{}

/// With its train a cut has at most one answer: one way in which it is filled, or one answer
/// without a compressed timetable.
pub fn filling_is_unique()
    ensures { FillingIsUnique }
{}
