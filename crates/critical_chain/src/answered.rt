//! Whether an answer is that of a cut.
ghost use Rattle.std.specs.Prelude.{◌≡◌, ◌≢◌, ◌<◌, ◌≤◌, ◌↔◌, ◌++◌, [], None, Some, true, IsTrue, length, map, drop, take};
ghost use Rattle.std.specs.List.{zip};
ghost use Rattle.plan_model.specs.Members.{member_count, precedes_somewhere};
ghost use Rattle.plan_model.specs.Cut.{IsSoundCut};
ghost use Rattle.plan_model.specs.Disorder as disorder;
ghost use Rattle.plan_model.specs.Answer.{IsAnswer};
ghost use Rattle.train_order.specs.Ordering.{AreOpposed};
ghost use Rattle.train_order.specs.Walk.{IsRing};

use crate::checking::is_checked;
use plan_model::{Answer, Cut, FitCut, Link, MEMBERS, SoundCut};
use train_order::{Disordered, disorder_of, next_place, place_of_link};

/// Whether an answer is that of a cut. It takes no memory, and looks for no better timetable: the
/// answer `Ordered` is looked at train by train and place by place, whether it keeps running times,
/// dwell times and the order, and whether each train enters at the window's start or touches one
/// that precedes it.
///
/// For an answer that comes from elsewhere, as from a file or another program, and is to be checked
/// before anything rests on it. The commands make their answers themselves.
pub fn is_answer(cut: &Cut, answer: &Answer) -> bool
    requires sound { IsSoundCut cut.now }
    ensures { IsTrue result ↔ IsAnswer cut.now answer.now }
{
    if cut.rows.len() > MEMBERS {
        return is_crowded(cut, answer);
    }
    let fit = FitCut::of(cut);
    match disorder_of(cut) {
        Some(Disordered::Opposite(i, j)) => is_opposite(&fit, answer, i, j),
        Some(Disordered::Ring(members)) => is_ring(&fit, answer, members.slice()),
        None => is_ordered(cut, answer),
    }
}

// Whether an answer is that of a cut with too many members.
fn is_crowded(cut: &Cut, answer: &Answer) -> bool
    requires many { MEMBERS < member_count cut.now }
    ensures { IsTrue result ↔ IsAnswer cut.now answer.now }
{
    match answer {
        Answer::Crowded { count } => *count as usize == cut.rows.len(),
        _ => false,
    }
}

// Whether an answer is that of a cut with these opposite members.
fn is_opposite(cut: &FitCut, answer: &Answer, i: u32, j: u32) -> bool
    requires pair { disorder.opposite_pair cut.now ≡ Some (i, j) }
    requires opposed { AreOpposed cut.now i j }
    ensures { IsTrue result ↔ IsAnswer cut.now answer.now }
{
    let sound = cut.sound();
    match answer {
        Answer::Opposite {
            first,
            second,
            block1,
            block2,
        } => {
            *first == sound.row(i).name
                && *second == sound.row(j).name
                && *block1 == place_of_link(sound.cut(), i, j)
                && *block2 == place_of_link(sound.cut(), j, i)
        }
        _ => false,
    }
}

// Whether an answer is that of a cut with this ring.
fn is_ring(cut: &FitCut, answer: &Answer, members: &[u32]) -> bool
    requires none { disorder.opposite_pair cut.now ≡ None }
    requires remain { disorder.remaining cut.now ≢ [] }
    requires members { members.now ≡ disorder.ring_members cut.now }
    requires ring { IsRing cut.now members.now }
    ensures { IsTrue result ↔ IsAnswer cut.now answer.now }
{
    let sound = cut.sound();
    match answer {
        Answer::Ring(links) => are_links(sound, members, links.slice()),
        _ => false,
    }
}

// Whether an answer is that of a cut whose members have an order.
fn is_ordered(cut: &Cut, answer: &Answer) -> bool
    requires sound { IsSoundCut cut.now }
    requires few { member_count cut.now ≤ MEMBERS }
    requires none { disorder.opposite_pair cut.now ≡ None }
    requires order { disorder.remaining cut.now ≡ [] }
    ensures { IsTrue result ↔ IsAnswer cut.now answer.now }
{
    match answer {
        Answer::Ordered(plan) => is_checked(cut, plan),
        _ => false,
    }
}

// Whether these are the links of a ring: of each member to the next, and of the last to the first.
fn are_links(cut: &SoundCut, members: &[u32], links: &[Link]) -> bool
    requires ring { IsRing cut.now members.now }
    ensures { IsTrue result ↔ (links.now ≡ map (disorder.link_of cut.now)
        (zip members.now (drop 1 members.now ++ take 1 members.now))) }
{
    if links.len() != members.len() {
        return false;
    }
    for (k, link) in links.iter().enumerate() {
        let next = next_place(k, members.len());
        if !is_link(cut, link, members[k], members[next]) {
            return false;
        }
    }
    true
}

// Whether a link says that member i precedes member j at the first place where it does.
fn is_link(cut: &SoundCut, link: &Link, i: u32, j: u32) -> bool
    requires one { i < member_count cut.now }
    requires other { j < member_count cut.now }
    requires precedes { precedes_somewhere cut.now i j ≡ true }
    ensures { IsTrue result ↔ (link.now ≡ disorder.link_of cut.now (i, j)) }
{
    link.train == cut.row(i).name
        && link.next == cut.row(j).name
        && link.block == place_of_link(cut.cut(), i, j)
}
