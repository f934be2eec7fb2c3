//! Laws of cuts that are made by tables.
ghost use Rattle.section_cut.specs.Change.{MadeCutsHaveTheirValue};

/// A cut that `cut_of`, `cut_among` or `all_cuts` makes, with any stamp, has the value of the
/// section's cut by the tables: what `cut_change` asks of a cut that is kept.
pub fn made_cuts_have_their_value()
    ensures { MadeCutsHaveTheirValue }
{}
