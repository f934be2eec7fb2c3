//! Laws of the definitions: each function does nothing, and its contract is the law.
ghost use Rattle.conflict_finder.specs.Laws.{ConflictsAreUnique, FoundIsUnique};

/// A timetable has one list of conflicts.
pub fn conflicts_are_unique()
    ensures { ConflictsAreUnique }
{}

/// What is found of a timetable is one: the conflicts that are listed, and the number of the rest.
pub fn found_is_unique()
    ensures { FoundIsUnique }
{}
