//! A board over a book, for one thread.
ghost use Rattle.std.specs.Prelude.{◌≡◌, ◌<◌};
ghost use Rattle.plan_model.specs.Journal.{issued};
ghost use Rattle.plan_book.specs.Alone.{counted};

use crate::Book;
use plan_model::{Asked, Board, Done, Next, NotTaken, Reading, Stepped};
use rail_model::{Edit, Name, OutOfMemory, Rule};
use std::sync::Wait;

/// The access of a pass to a book that nobody else adds to: what it has seen is the whole journal.
/// It has the numbers of all passes that are issued, so a call finds what the call before it left
/// (`nobody_else_adds`). It counts the readings that it was given, and notes how many uses were
/// taken of the last that it handed back by a call that found memory.
///
/// For a worker or a planner's calls in one thread, without a desk: by it
/// `section_worker::Worker::turn` runs over a book. `session_run::session_alone` makes calls of the
/// book itself.
#[derive(Drop)]
pub struct Alone<'a> {
    book: &'a mut Book,
    who: u32,
    readings: u64,
    handed: u64,
    ghost entered: { who < issued book.now },
}

impl<'a> Alone<'a> {
    /// The access of a pass that is issued in the book.
    pub fn new(book: &'a mut Book, who: u32) -> Alone<'a>
        requires { who < issued book.old }
        ensures same_reference { result.book.ghost_name ≡ book.entry.ghost_name }
        ensures book { result.book.now ≡ book.old }
        ensures who { result.who ≡ who }
        ensures readings { result.readings ≡ 0 }
        ensures handed { result.handed ≡ 0 }
    {
        Alone {
            book,
            who,
            readings: 0,
            handed: 0,
        }
    }
}

impl<'a> Board for Alone<'a> {
    ghost use Rattle.plan_book.specs.Alone.{alone};

    type Read = Reading;

    ghost access = { λ a. alone a.book.now a.who a.readings a.handed };

    fn step<R: Wait>(&mut self, _rt: &R, planner: u32) -> Result<Stepped, OutOfMemory> {
        let _found = self.book.journal();
        let stepped = self.book.step(self.who, planner);
        let _left = self.book.journal();
        stepped
    }

    fn edit<R: Wait>(&mut self, _rt: &R, edit: Edit) -> Result<Result<u64, Rule>, OutOfMemory> {
        let _found = self.book.journal();
        let edited = self.book.edit(self.who, edit);
        let _left = self.book.journal();
        edited
    }

    fn ask<R: Wait>(&mut self, _rt: &R, section: Name) -> Result<Asked, OutOfMemory> {
        let _found = self.book.journal();
        let asked = self.book.ask(self.who, section);
        let _left = self.book.journal();
        asked
    }

    fn read_next<R: Wait>(
        &mut self,
        _rt: &R,
        share: u32,
        of: u32,
    ) -> Result<Next<Reading>, OutOfMemory> {
        let _found = self.book.journal();
        let next = self.book.read_next(share, of)?;
        self.readings = counted(self.readings, &next);
        Ok(next)
    }

    fn publish<R: Wait>(
        &mut self,
        _rt: &R,
        done: Done,
        reading: Reading,
    ) -> Result<Result<(), NotTaken>, OutOfMemory> {
        let _found = self.book.journal();
        match self.book.publish(self.who, done) {
            Ok(published) => {
                let _left = self.book.journal();
                self.handed = reading.taken();
                Ok(published)
            }
            Err(error) => Err(error),
        }
    }
}

/// How many readings a board has given, after this answer: the count stands still at 2^64 - 1.
pub fn counted(readings: u64, next: &Next<Reading>) -> u64
    ensures { result ≡ counted readings next.now }
{
    match next {
        Next::Reading(_) => readings.saturating_add(1),
        Next::Idle { .. } => readings,
    }
}
