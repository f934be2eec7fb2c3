//! What a book knows of the section of a name.
ghost use Rattle.std.specs.Prelude.{◌≡◌, MatchResult, IfOk, IsSome, Some, find};
ghost use Rattle.std.specs.Option.{option_copied};
ghost use Rattle.rail_model.specs.Name.{is_same, NamesRise};
ghost use Rattle.plan_model.specs.Legal.{IsLegal};
ghost use Rattle.plan_book.specs.Shelves.{answer_at, IsShelf, IsPlaceOf, IsPlaceFor, IsVerdict};
ghost use Rattle.plan_book.specs.Kept.{IsAnswered};

use crate::stored::Stored;
use plan_model::{Act, Answer, Asked, Entry, NotTaken};
use rail_model::{Name, OutOfMemory};
use std::alloc::Global;

// Where a section's last publication stands: the number of the edit that it speaks of, and the
// place of its entry in the journal.
#[derive(Clone, Copy)]
pub(crate) struct Published {
    pub(crate) at: u64,
    pub(crate) entry: usize,
}

// A shelf is what a book knows of the section of a name: the last edit that touched it, its last
// publication, and its cut, with a stamp on each row. There is no cut where the section isn't
// there.
#[derive(Drop)]
pub(crate) struct Shelf {
    pub(crate) name: Name,
    pub(crate) touched: u64,
    pub(crate) published: Option<Published>,
    pub(crate) cut: Option<Stored>,
}

// The place of the shelf of a name, or the place at which one is to be put in.
pub(crate) fn place_of(shelves: &[Shelf], name: &Name) -> Result<usize, usize>
    requires { NamesRise (λ s. s.name) shelves.now }
    ensures { MatchResult result
        (IsPlaceOf shelves.now name.now) (IsPlaceFor shelves.now name.now) }
{
    shelves.binary_search_by(|s| s.name.bytes().cmp(name.bytes()))
}

// The shelf of a name, if there is one.
pub(crate) fn shelf_of<'a>(shelves: &'a [Shelf], name: &Name) -> Option<&'a Shelf>
    requires { NamesRise (λ s. s.name) shelves.now }
    ensures { option_copied result ≡ find (λ s. is_same s.name name.now) shelves.now }
{
    match place_of(shelves, name) {
        Ok(place) => Some(&shelves[place]),
        Err(_) => None,
    }
}

// The shelf of a name, if there is one, which is looked for at a place first.
pub(crate) fn shelf_near<'a>(shelves: &'a [Shelf], name: &Name, near: usize) -> Option<&'a Shelf>
    requires { NamesRise (λ s. s.name) shelves.now }
    ensures { option_copied result ≡ find (λ s. is_same s.name name.now) shelves.now }
{
    match shelves.get(near) {
        Some(shelf) if shelf.name == *name => Some(shelf),
        _ => shelf_of(shelves, name),
    }
}

// What one gets who asks for the section of a shelf.
pub(crate) fn asked_of(
    alloc: Global,
    shelf: &Shelf,
    journal: &[Entry],
) -> Result<Asked, OutOfMemory>
    requires legal { IsLegal journal.now }
    requires shelf { IsShelf journal.now shelf.now.name shelf.now }
    ensures { IfOk result (IsAnswered journal.now shelf.now.name) }
{
    if shelf.cut.is_none() {
        return Ok(Asked::Unknown);
    }
    let Some(published) = shelf.published else {
        return Ok(Asked::NotYet);
    };
    let at = published.at;
    if at < shelf.touched {
        let by = shelf.touched;
        return Ok(Asked::Stale { at, by });
    }
    let answer = answer_at(journal, published.entry).copy(alloc)?;
    Ok(Asked::Ready { at, answer })
}

// The answer that the entry at a place publishes.
fn answer_at(journal: &[Entry], place: usize) -> &Answer
    requires { IsSome (answer_at journal.now place) }
    ensures { answer_at journal.now place ≡ Some result.now }
{
    match &journal[place].act {
        Act::Published { answer, .. } => answer,
        _ => unreachable!(),
    }
}

// Whether an answer may be published of the section of a shelf: the answer is that of the edit of
// the number `at`.
pub(crate) fn verdict_of(shelf: &Shelf, at: u64) -> Result<(), NotTaken>
    ensures { IsVerdict shelf.now at result }
{
    if shelf.touched > at {
        return Err(NotTaken::Stale { by: shelf.touched });
    }
    match shelf.published {
        Some(last) if shelf.touched <= last.at => Err(NotTaken::Current { at: last.at }),
        _ => Ok(()),
    }
}
