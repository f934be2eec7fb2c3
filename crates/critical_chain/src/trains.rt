//! Whether a plan has the window, the places and the trains of a cut.
ghost use Rattle.std.specs.Prelude.{◌↔◌, IsTrue};
ghost use Rattle.plan_model.specs.Cut.{IsSoundCut};
ghost use Rattle.critical_chain.specs.Parts as parts;

use plan_model::{Cut, CutRow, Placed, PlacedList, Plan, SoundCut};

// Whether a plan has a cut's window, additional time rate and places.
pub(crate) fn has_frame(cut: &Cut, plan: &Plan) -> bool
    requires { IsSoundCut cut.now }
    ensures { IsTrue result ↔ parts.HasFrame cut.now plan.now }
{
    plan.from_s == cut.section.from_s
        && plan.to_s == cut.section.to_s
        && plan.add_percent == cut.section.add_percent
        && SoundCut::of(cut).are_places(&plan.blocks)
}

// Whether there is a train for each member, which enters within the limits.
pub(crate) fn has_trains(cut: &Cut, placed: &PlacedList) -> bool
    ensures { IsTrue result ↔ parts.HasTrains cut.now placed.now }
{
    if placed.len() != cut.rows.len() {
        return false;
    }
    for (i, row) in cut.rows.slice().iter().enumerate() {
        if !is_train(row, &placed.get(i), cut.section.from_s) {
            return false;
        }
    }
    true
}

// Seconds: the latest entry that is looked at, 2^50. Up to there a train's moments can be moved
// with its entry (`plan_model::shift`). No compressed timetable comes near it: each of at most 768
// trains enters at most 200,000,000 s after one that it touches, so all enter before 2^38.
const LATEST_ENTRY_S: i64 = 1_125_899_906_842_624;

// Whether a train is a member's, and enters neither before the window nor too late to be looked at.
fn is_train(row: &CutRow, placed: &Placed, from_s: u32) -> bool
    ensures { IsTrue result ↔ parts.IsTrain row.now from_s placed.now }
{
    placed.train == row.name
        && placed.planned == row.entry
        && i64::from(from_s) <= placed.entry
        && placed.entry <= LATEST_ENTRY_S
}
