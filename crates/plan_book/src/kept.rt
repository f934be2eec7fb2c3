//! The book as a value that a desk hands from pass to pass.
use crate::Book;
use plan_model::{Act, Entry};
use rail_model::OutOfMemory;
use turn_desk::Kept;

impl Kept for Book {
    ghost use Rattle.plan_model.specs.Journal.{issued};
    ghost use Rattle.plan_model.specs.Legal.{IsJournal};
    ghost use Rattle.plan_book.specs.Entries as entries_of;

    type Entry = Entry;

    ghost entries = { λ b. b };

    ghost pass_of = { λ e. e.pass };

    ghost issued_by = { issued };

    ghost is_legal = { IsJournal };

    fn issued(&self) -> u32 {
        self.passes
    }

    fn enter(&mut self, by: u32) -> Result<u32, OutOfMemory> {
        let number = self.passes;
        let act = Act::Entered { number };
        self.journal.push(Entry { pass: by, act })?;
        self.passes = number + 1;
        Ok(number)
    }

    ghost longer_issues_no_fewer = { entries_of.longer_issues_no_fewer };

    ghost legal_has_one = { entries_of.legal_has_one };

    ghost prefixes_are_legal = { entries_of.prefixes_are_legal };
}
