//! What a book reads next.
ghost use Rattle.std.specs.Prelude.{◌≡◌, ◌<◌, ◌↔◌, IsTrue, IfOk, MatchOption, length};
ghost use Rattle.plan_model.specs.Journal.{opening, tables_of, tasks_left};
ghost use Rattle.plan_model.specs.Legal.{IsCurrent, IsLegal, IsJournal};
ghost use Rattle.plan_model.specs.Outcome.{section_name, ShareIsCurrent, ReadsTo};
ghost use Rattle.plan_book.specs.Shelves.{IsShelf};
ghost use Rattle.plan_book.specs.Kept.{IsWithin, AreDone};
ghost use Rattle.plan_book.specs.Reading.{HasLatest, IsNextOpen, IsReadingOf, AreOpen};

use crate::Book;
use crate::shelf::{Shelf, shelf_near};
use plan_model::{Act, Entry, Next, Reading, Scripts};
use rail_model::OutOfMemory;

impl Book {
    /// Reads the first section by name that is not current, of those whose number leaves the rest
    /// `share` on division by `of`. `Idle` comes exactly where all of these are current, and tells
    /// how many tasks are left. Nothing is added.
    pub fn read_next(&self, share: u32, of: u32) -> Result<Next<Reading>, OutOfMemory>
        requires { share < of }
        ensures { IfOk result (λ next. ReadsTo (λ r. r) share of self.now next self.now) }
    {
        match self.next_open(share, of) {
            Some(number) => Ok(Next::Reading(self.reading(number)?)),
            None => Ok(Next::Idle { left: self.left() }),
        }
    }

    /// Reads all sections that are not current, in the order of names. Nothing is added.
    pub fn readings(&self) -> Result<Vec<Reading>, OutOfMemory>
        ensures { IfOk result (λ readings. AreOpen self.now readings.items) }
    {
        let mut readings = Vec::new(self.alloc);
        for number in 0..self.tables().sections() {
            if !self.is_current(number) {
                readings.push(self.reading(number)?)?;
            }
        }
        Ok(readings)
    }

    /// How many tasks are left in all scripts.
    pub fn left(&self) -> u64
        ensures { result ≡ tasks_left self.now }
    {
        left_in(self.journal.slice(), &self.done)
    }

    // The number of the first section of a share that is not current.
    fn next_open(&self, share: u32, of: u32) -> Option<u32>
        requires { share < of }
        ensures { MatchOption result
            (ShareIsCurrent share of self.now) (IsNextOpen share of self.now) }
    {
        for number in 0..self.tables().sections() {
            if number % of == share && !self.is_current(number) {
                return Some(number);
            }
        }
        None
    }

    // Whether the section of a number is current.
    fn is_current(&self, number: u32) -> bool
        requires { number < length (tables_of self.now).sections }
        ensures { IsTrue result ↔ IsCurrent self.now (section_name self.now number) }
    {
        has_latest(self.shelf(number))
    }

    // A reading of the section of a number, which shares its cut.
    fn reading(&self, number: u32) -> Result<Reading, OutOfMemory>
        requires { number < length (tables_of self.now).sections }
        ensures { IfOk result (IsReadingOf self.now (section_name self.now number)) }
    {
        let Some(cut) = &self.shelf(number).cut else {
            unreachable!();
        };
        Ok(Reading::shared(cut.share(self.alloc)?, self.at()))
    }

    // The shelf of the section of a number. It stands at that number among shelves, unless shelves
    // of sections that are gone stand before it.
    fn shelf(&self, number: u32) -> &Shelf
        requires { number < length (tables_of self.now).sections }
        ensures shelf { IsShelf self.now (section_name self.now number) result.now }
        ensures is_journal { IsJournal self.now }
    {
        let name = &self.tables.tables().section(number).name;
        let Some(shelf) = shelf_near(self.shelves.slice(), name, number as usize) else {
            unreachable!();
        };
        shelf
    }
}

// Whether by a shelf its section is current.
fn has_latest(shelf: &Shelf) -> bool
    ensures { IsTrue result ↔ HasLatest shelf.now }
{
    match shelf.published {
        Some(last) => shelf.touched <= last.at,
        None => false,
    }
}

// How many tasks are left, where each planner has done so many.
fn left_in(journal: &[Entry], done: &[usize]) -> u64
    requires is_journal { IsJournal journal.now }
    requires within { IsWithin (opening journal.now) }
    requires done { AreDone journal.now done.now }
    ensures { result ≡ tasks_left journal.now }
{
    let scripts = scripts_of(journal);
    let mut left = 0;
    for place in 0..done.len() {
        left += (scripts.script(place).len() - done[place]) as u64;
    }
    left
}

// The planners' scripts.
pub(crate) fn scripts_of(journal: &[Entry]) -> &Scripts
    requires { IsLegal journal.now }
    ensures { result.now ≡ (opening journal.now).scripts }
{
    match &journal[0].act {
        Act::Opened { scripts, .. } => scripts,
        _ => unreachable!(),
    }
}
