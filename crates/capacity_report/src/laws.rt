//! Laws of the definitions: each function does nothing, and its contract is the law.
ghost use Rattle.capacity_report.specs.Laws.{TotalAddsUp};

/// In the total of any answers, each section is counted once as ordered, in disorder or crowded,
/// and each ordered one once as within or over its capacity.
pub fn total_adds_up()
    ensures { TotalAddsUp }
{}
