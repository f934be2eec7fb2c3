//! The cut of a section: the trains that enter it within its window, with their uses of its places.
ghost use Rattle.std.specs.Prelude.{◌≡◌, map};
ghost use Rattle.plan_model.specs.Cut.{least};

use crate::SharedUses;
use rail_model::{List, Name, Section, Use};

/// A member of a cut: a run that enters the section within its window.
#[derive(Drop)]
pub struct CutRow {
    /// The run's.
    pub name: Name,
    /// The number of the last edit at which the row became new or changed its value, or of the
    /// opening; 0 in a cut that is made of tables alone.
    pub stamp: u64,
    /// The least start of the run's uses of the section's blocks: seconds from the timetable's
    /// origin.
    pub entry: i64,
    /// Of the section's blocks in the order of the run's path, then of the cut's connections in
    /// their order. The block of a use is its position among the places of the cut.
    pub uses: SharedUses,
}

/// What a timetable holds of a section in its window. Its places are the section's blocks, in the
/// order of the section, and then the connections, in the order of their names.
#[derive(Drop)]
pub struct Cut {
    pub section: Section,
    /// The connections that bind: both runs are members, and the first's entry here is before the
    /// second's own start or, at one moment, its name is the lesser. In the order of names.
    pub connections: List<Name>,
    /// In the order of their names.
    pub rows: List<CutRow>,
}

/// The least start of some uses, and 0 of none.
pub fn least_start(uses: &[Use]) -> i64
    ensures { result ≡ least (map (λ u. u.start) uses.now) }
{
    if uses.is_empty() {
        return 0;
    }
    let mut entry = uses[0].start;
    for one in &uses[1..] {
        entry = entry.min(one.start);
    }
    entry
}
