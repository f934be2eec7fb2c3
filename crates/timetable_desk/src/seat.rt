//! Seats at the desk of a book.
ghost use Rattle.std.specs.Prelude.{◌≡◌, false};
ghost use Rattle.turn_desk.specs.Known.{IsReady};
ghost use Rattle.timetable_desk.specs.Seat.{new_seat};

use plan_book::{Book, counted};
use plan_model::{Asked, Board, Done, Next, NotTaken, Reading, Stepped};
use rail_model::{Edit, Name, OutOfMemory, Rule};
use std::marker::Model;
use std::sync::Wait;
use turn_desk::{Desk, Pass};

/// A seat is the board of a thread that shares a book with others: by its pass, it makes calls of
/// the book at a desk. Each call takes the turn, makes one call of the book, and gives the turn
/// back, also where memory ran out. No answer is worked out in a turn. Contracts see the pass and
/// the counts.
#[derive(Drop)]
pub struct Seat<'a> {
    desk: &'a Desk<Book>,
    pass: Pass<Book>,
    readings: u64,
    handed: u64,
}

impl<'a> Model for Seat<'a> {
    ghost use Rattle.turn_desk.specs.Known.{IsReady};
    ghost use Rattle.timetable_desk.specs.Seat.{Seated};

    ghost Value = { Seated };

    ghost view = { λ s. record { pass = s.pass; readings = s.readings; handed = s.handed } };

    ghost invariant = { λ s. IsReady s.desk.now s.pass };
}

impl<'a> Seat<'a> {
    /// The seat of a pass of this desk that holds no turn. It was given no reading yet.
    pub fn new(desk: &'a Desk<Book>, pass: Pass<Book>) -> Seat<'a>
        requires { IsReady desk.now pass }
        ensures { result ≡ new_seat pass }
    {
        Seat {
            desk,
            pass,
            readings: 0,
            handed: 0,
        }
    }

    /// Gives the pass back, as the seat's last call has left it. It holds no turn.
    pub fn end(self) -> Pass<Book>
        ensures pass { result ≡ self.entry.pass }
        ensures ready { IsReady self.entry.pass.desk result }
    {
        self.pass
    }
}

impl<'a> Board for Seat<'a> {
    ghost use Rattle.timetable_desk.specs.Seat.{access_of};

    type Read = Reading;

    ghost access = { λ s. access_of s };

    fn step<R: Wait>(&mut self, rt: &R, planner: u32) -> Result<Stepped, OutOfMemory> {
        let who = self.pass.number();
        let mut turn = self.desk.take(rt, &mut self.pass);
        let stepped = turn.value_mut().step(who, planner);
        self.desk.give(&mut self.pass, turn);
        let _left = self.pass.number();
        stepped
    }

    fn edit<R: Wait>(&mut self, rt: &R, edit: Edit) -> Result<Result<u64, Rule>, OutOfMemory> {
        let who = self.pass.number();
        let mut turn = self.desk.take(rt, &mut self.pass);
        let edited = turn.value_mut().edit(who, edit);
        self.desk.give(&mut self.pass, turn);
        let _left = self.pass.number();
        edited
    }

    fn ask<R: Wait>(&mut self, rt: &R, section: Name) -> Result<Asked, OutOfMemory> {
        let who = self.pass.number();
        let mut turn = self.desk.take(rt, &mut self.pass);
        let asked = turn.value_mut().ask(who, section);
        self.desk.give(&mut self.pass, turn);
        let _left = self.pass.number();
        asked
    }

    fn read_next<R: Wait>(
        &mut self,
        rt: &R,
        share: u32,
        of: u32,
    ) -> Result<Next<Reading>, OutOfMemory> {
        let _who = self.pass.number();
        let turn = self.desk.take(rt, &mut self.pass);
        let next = turn.value().read_next(share, of);
        self.desk.give(&mut self.pass, turn);
        let _left = self.pass.number();
        let next = next?;
        self.readings = counted(self.readings, &next);
        Ok(next)
    }

    fn publish<R: Wait>(
        &mut self,
        rt: &R,
        done: Done,
        reading: Reading,
    ) -> Result<Result<(), NotTaken>, OutOfMemory> {
        let taken = reading.taken();
        let who = self.pass.number();
        let mut turn = self.desk.take(rt, &mut self.pass);
        let published = turn.value_mut().publish(who, done);
        self.desk.give(&mut self.pass, turn);
        let _left = self.pass.number();
        let published = published?;
        self.handed = taken;
        Ok(published)
    }
}
