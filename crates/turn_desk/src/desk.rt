//! The desk at which a value is handed from thread to thread.
ghost use Rattle.std.specs.Prelude.{◌≡◌, ◌⊎◌, ℕ, ◌+◌, ◌-◌, ◌<◌, true, false, All, IfOk, OnErr};
ghost use Rattle.turn_desk.specs.Entering.{EntersAll, EntersNone, EntersSome};
ghost use Rattle.turn_desk.specs.Journal.{GoesOn, AddsOwn};
ghost use Rattle.turn_desk.specs.Known.{IsReady, IsSamePass, AgreeOn, HaveNoCommonNumber, new_pass};
ghost use Rattle.turn_desk.specs.Known.{with_turn, refused, without_turn, with_other};

use crate::drawn::draw_all;
use crate::kept::learn_legal;
use crate::rule::{Law, View};
use crate::steps::{give_back, join_one, shut_down, try_turn};
use crate::{Kept, MOST_PASSES, Pass, Turn};
use atomic_table::Table;
use rail_model::{List, OutOfMemory};
use std::alloc::Global;
use std::marker::Model;
use std::snapshot::Snapshot;
use std::sync::Wait;

/// Another pass has the turn.
#[derive(Clone, Copy, Debug)]
pub struct Busy;

/// Too few numbers are left for so many passes: a desk issues no more than `MOST_PASSES`.
#[derive(Clone, Copy, Debug)]
pub struct Full;

/// A desk is a lock that hands one value from thread to thread: the thread that has the turn has
/// the value. Contracts see which desk it is.
#[derive(Drop)]
pub struct Desk<V: Kept> {
    pub(crate) table: Table<Option<V>, View<V::Entry>, Snapshot<V>, Law<V>, Global>,
}

impl<V: Kept> Model for Desk<V> {
    ghost use Rattle.atomic_table.specs.Seated.{TableId, table_id_coded};
    ghost use Rattle.turn_desk.specs.Seats.{IsSmall};

    ghost Value = { TableId };

    ghost coded = { table_id_coded };

    ghost view = { λ d. d.table.shared.table_id };

    ghost invariant = { λ d. IsSmall d.table.shared.table_id };
}

impl<V: Kept> Desk<V> {
    /// A desk for the value, and pass 0, which has seen all its entries. The value has issued this
    /// pass alone, and each of its entries carries 0.
    pub fn start(alloc: Global, value: V) -> Result<(Desk<V>, Pass<V>), OutOfMemory>
    where
        V: Drop,
        requires alone { V.issued_by (V.entries value) ≡ 1 }
        requires zero { All (λ e. V.pass_of e ≡ 0) (V.entries value) }
        ensures { IfOk result (λ r. r.1 ≡ new_pass r.0 0 (V.entries value)) }
    {
        learn_legal(&value);
        let key = Snapshot::of(&value);
        let mut slots = Vec::new(alloc);
        slots.push(Some(value))?;
        let Ok((table, seat)) = Table::new(alloc, &[0], slots, &key) else {
            return Err(OutOfMemory);
        };
        Ok((Desk { table }, Pass { seat, number: 0 }))
    }

    /// One try to take the turn, which does not wait. What the value's list has beyond the pass's
    /// seen part are entries of others, and the list is legal. `Busy` comes exactly where the turn
    /// was taken at the pass's one step: the word was 1 then. What the pass has seen stays; the try
    /// and the step are counted, with the word that they found and left.
    ///
    /// For a thread that has other work to do where the turn is taken, and for one that can't wait.
    /// Seats wait, by `take`.
    pub fn try_take(&self, pass: &mut Pass<V>) -> Result<Turn<V>, Busy>
        requires { IsReady self.now pass.old }
        ensures goes_on { IfOk result
            (λ turn. GoesOn V.pass_of pass.old.numbers pass.old.seen (V.entries turn)) }
        ensures legal { IfOk result (λ turn. V.is_legal (V.entries turn)) }
        ensures ok { IfOk result (λ turn. pass.new ≡ with_turn pass.old (V.entries turn)) }
        ensures busy { OnErr result (pass.new ≡ refused pass.old) }
    {
        let Some(value) = try_turn(&self.table.shared, &mut pass.seat) else {
            return Err(Busy);
        };
        Ok(Turn::new(value))
    }

    /// Gives the turn back. The value's list is what the pass has seen and then entries of the
    /// pass's own number.
    pub fn give(&self, pass: &mut Pass<V>, turn: Turn<V>)
        requires desk { pass.old.desk ≡ self.now }
        requires holds { pass.old.holds ≡ true }
        requires own { AddsOwn V.pass_of pass.old.number pass.old.seen (V.entries turn) }
        ensures { pass.new ≡ without_turn pass.old (V.entries turn) }
    {
        let value = turn.into_value();
        learn_legal(&value);
        give_back(&self.table.shared, &mut pass.seat, pass.number, value);
    }

    /// Takes the turn. It sleeps while another pass has it. What the value's list has beyond the
    /// pass's seen part are entries of others, and the list is legal. Each try is one step, and the
    /// last found the turn free.
    pub fn take<R: Wait>(&self, rt: &R, pass: &mut Pass<V>) -> Turn<V>
        requires { IsReady self.now pass.old }
        ensures pass { IsSamePass pass.old pass.new }
        ensures goes_on { GoesOn V.pass_of pass.old.numbers pass.old.seen (V.entries result) }
        ensures legal { V.is_legal (V.entries result) }
        ensures seen { pass.new.seen ≡ V.entries result }
        ensures holds { pass.new.holds ≡ true }
        ensures tries { pass.old.tries < pass.new.tries }
        ensures found { pass.new.found ≡ 0 }
        ensures steps { pass.new.steps ≡ pass.old.steps + (pass.new.tries - pass.old.tries) }
        ensures word { pass.new.word ≡ 1 }
    {
        // A try that finds the turn taken is a look, and the sleep asks for the word that it found: who
        // gives the turn back after the look has stored another, or wakes one that sleeps (steps `try`
        // and `park` of the model in `bench/waits`).
        for _ in rt.forever() {
            if let Ok(turn) = self.try_take(pass) {
                return turn;
            }
            self.table.shared.park(rt, 0, 1);
        }
        unreachable!()
    }

    /// Draws `count` numbers in one turn, one after the other, and gives a new pass for each, in
    /// the order of the numbers. `Full` says that so many numbers are not left, and no entry is
    /// made. Out of memory, at most `count` entries were made, and no pass has the numbers that
    /// they issued. In each case the pass has taken the turn, and given it back by one more step,
    /// and what it has seen is legal.
    ///
    /// No number goes to two passes of a desk. A caller learns this where one of the two leaves
    /// into the other: `leave` says that they have no number in common.
    pub fn enter<R: Wait>(
        &self,
        rt: &R,
        alloc: Global,
        pass: &mut Pass<V>,
        count: u32,
    ) -> Result<Result<List<Pass<V>>, Full>, OutOfMemory>
        requires { IsReady self.now pass.old }
        ensures pass { IsSamePass pass.old pass.new }
        ensures idle { pass.new.holds ≡ false }
        ensures legal { V.is_legal pass.new.seen }
        ensures tries { pass.old.tries < pass.new.tries }
        ensures found { pass.new.found ≡ 0 }
        ensures steps { pass.new.steps ≡ pass.old.steps + (pass.new.tries - pass.old.tries) + 1 }
        ensures word { pass.new.word ≡ 0 }
        ensures ok { IfOk result
            (λ r. IfOk r (EntersAll V.pass_of V.issued_by pass.old pass.new count)) }
        ensures full { IfOk result
            (λ r. OnErr r (EntersNone V.pass_of V.issued_by pass.old pass.new count)) }
        ensures err { OnErr result (EntersSome V.pass_of V.issued_by pass.old pass.new count) }
    {
        let turn = self.take(rt, pass);
        let first = turn.value().issued();
        if count > MOST_PASSES - first {
            self.give(pass, turn);
            return Ok(Err(Full));
        }
        let value = turn.into_value();
        let shared = &self.table.shared;
        let number = pass.number;
        Ok(Ok(draw_all(alloc, shared, &mut pass.seat, number, value, count)?))
    }

    /// Takes another pass in: what either has seen is then seen by one, which has the numbers of
    /// both. One of the two seen parts began with the other, and what the longer had beyond it
    /// carries none of the numbers of the pass with the shorter. The steps of both are counted
    /// together, and the word is that of one of the two; tries stay those of the pass.
    pub fn leave(&self, pass: &mut Pass<V>, other: Pass<V>)
        requires one { IsReady self.now pass.old }
        requires other { IsReady self.now other }
        ensures agree { AgreeOn V.pass_of pass.old other }
        ensures apart { HaveNoCommonNumber pass.old other }
        ensures joined { pass.new ≡ with_other pass.old other pass.new.word }
        ensures word { (pass.new.word ≡ pass.old.word) ⊎ (pass.new.word ≡ other.word) }
    {
        join_one(&self.table.shared, &mut pass.seat, other.into_seat());
    }

    /// Closes the desk by a pass that holds the turn, and gives the turn's value as it is. No pass
    /// takes a turn afterwards.
    pub fn shut(self, pass: Pass<V>, turn: Turn<V>) -> V
        requires desk { pass.desk ≡ self }
        requires holds { pass.holds ≡ true }
        ensures { result ≡ turn }
    {
        let mut seat = pass.into_seat();
        shut_down(&self.table.shared, &mut seat);
        let Desk { table } = self;
        let mut closed = table.close_with(seat);
        let left = closed.take(0);
        let None = left else { unreachable!() };
        closed.free();
        turn.into_value()
    }

    /// Takes the last turn, and gives its value: a `take` and then a `shut`. What the value's list
    /// has beyond the pass's seen part are entries of others, and the list is legal.
    ///
    /// No clause says that one turn was taken, nor that the value is just what the turn found: who
    /// must know it calls the two, since `shut` gives the turn's value as it is.
    pub fn close<R: Wait>(self, rt: &R, pass: Pass<V>) -> V
        requires { IsReady self pass }
        ensures goes_on { GoesOn V.pass_of pass.numbers pass.seen (V.entries result) }
        ensures legal { V.is_legal (V.entries result) }
    {
        let mut pass = pass;
        let turn = self.take(rt, &mut pass);
        self.shut(pass, turn)
    }
}
