//! Whether a train is touched as its tie says.
ghost use Rattle.std.specs.Prelude.{◌≡◌, ◌<◌, ◌↔◌, All, IsTrue, length};
ghost use Rattle.plan_model.specs.Members.{member_count};
ghost use Rattle.plan_model.specs.Cut.{IsBounded};
ghost use Rattle.plan_model.specs.Schedule.{touches};
ghost use Rattle.critical_chain.specs.Parts as parts;

use plan_model::{FitCut, Tie};

// Whether a member enters at the window's start, where its tie says so, or else is touched as it
// says.
pub(crate) fn has_tie(cut: &FitCut, entries: &[i64], j: u32, tie: Tie) -> bool
    requires entries { length entries.now ≡ member_count cut.now }
    requires bounded { All IsBounded entries.now }
    requires there { j < member_count cut.now }
    ensures { IsTrue result ↔ parts.HasTie cut.now entries.now j tie }
{
    let starts = entries[j as usize] == cut.sound().window_start();
    match tie {
        Tie::Start => starts,
        Tie::After { train, block } => {
            !starts && is_pair(cut, train, block) && touches(cut, entries, train, j, block)
        }
    }
}

// Whether the cut has a member and a place at these positions, which come from a plan that may say
// anything.
fn is_pair(cut: &FitCut, train: u32, block: u32) -> bool
    ensures { IsTrue result ↔ parts.IsPair cut.now train block }
{
    train < cut.member_count() && block < cut.sound().place_count()
}

// Whether member i precedes member j at a place and ends its use as the other starts.
fn touches(cut: &FitCut, entries: &[i64], i: u32, j: u32, place: u32) -> bool
    requires entries { length entries.now ≡ member_count cut.now }
    requires bounded { All IsBounded entries.now }
    requires one { i < member_count cut.now }
    requires other { j < member_count cut.now }
    ensures { result ≡ touches cut.now entries.now i j place }
{
    let rows = cut.sound();
    rows.precedes(i, j, place)
        && rows.end_at(i, entries[i as usize], place)
            == rows.start_at(j, entries[j as usize], place)
}
