//! The first place by name at which one member precedes another.
ghost use Rattle.std.specs.Prelude.{◌≡◌, ◌<◌, All, IsTrue};
ghost use Rattle.plan_model.specs.Members.{place_count, AnswersFirst, member, member_count, precedes_somewhere};
ghost use Rattle.plan_model.specs.Cut.{IsSoundCut};
ghost use Rattle.plan_model.specs.Disorder as disorder;
ghost use Rattle.train_order.specs.Starts.{is_first_of, places_first};

use plan_model::{Cut, SoundCut};
use rail_model::{Name, Use};

/// The name of the first place by name at which member `i` precedes member `j`. It takes no memory.
pub fn place_of_link(cut: &Cut, i: u32, j: u32) -> Name
    requires sound { IsSoundCut cut.now }
    requires one { i < member_count cut.now }
    requires other { j < member_count cut.now }
    requires precedes { IsTrue (precedes_somewhere cut.now i j) }
    ensures { result ≡ disorder.link_place cut.now i j }
{
    place_between(&SoundCut::of(cut), i, j)
}

// The name of the first place by name at which member i precedes member j.
pub(crate) fn place_between(cut: &SoundCut, i: u32, j: u32) -> Name
    requires one { i < member_count cut.now }
    requires other { j < member_count cut.now }
    requires precedes { IsTrue (precedes_somewhere cut.now i j) }
    ensures { result ≡ disorder.link_place cut.now i j }
{
    let uses = cut.row(i).uses.slice();
    let place = first_place(cut, uses, i < j, j).unwrap_or(0);
    *cut.place_name(place)
}

// Of the places of some uses that start before member j's use of the place, the first by name.
fn first_place(cut: &SoundCut, uses: &[Use], named: bool, j: u32) -> Option<u32>
    requires there { All (λ u. u.block < place_count cut.now) uses.now }
    requires other { j < member_count cut.now }
    ensures { AnswersFirst cut.now (places_first named uses.now (member cut.now j).uses) result }
{
    let mut best = None;
    for one in uses {
        // Names first: the other use is looked for only where the place would be taken.
        if cut.leads(best, one.block) && starts_first(cut, *one, named, j) {
            best = Some(one.block);
        }
    }
    best
}

// Whether a use starts before member j's of its place.
fn starts_first(cut: &SoundCut, one: Use, named: bool, j: u32) -> bool
    requires { j < member_count cut.now }
    ensures { result ≡ is_first_of named (member cut.now j).uses one }
{
    match cut.use_at(j, one.block) {
        Some(other) => one.start < other.start || one.start == other.start && named,
        None => false,
    }
}
