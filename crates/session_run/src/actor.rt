//! The planners and workers of a session, each at its seat.
ghost use Rattle.std.specs.Prelude.{◌≡◌, IfOk, OnErr, false};
ghost use Rattle.section_worker.specs.Keeping.{IsSameWorker, KeepsWhatWasRead};
ghost use Rattle.session_run.specs.Actors as roles;
ghost use Rattle.session_run.specs.Actors.{IsAtWork};
ghost use Rattle.session_run.specs.Acting.{has_ended, rests, IsSameAccess, IsWorking, WorksOn};

use crate::signals::{Signals, Watch};
use plan_model::{Board, Stepped};
use rail_model::OutOfMemory;
use rail_outside::{Gate, Point};
use section_worker::{Turned, Worker};
use std::sync::Wait;
use timetable_desk::Seat;

// What an actor does: the steps of the planner of this number, or a worker's turns.
#[derive(Drop)]
pub(crate) enum Duty {
    Planner(u32),
    Worker(Worker),
}

// An actor at its seat.
#[derive(Drop)]
pub(crate) struct Actor<'a> {
    pub(crate) seat: Seat<'a>,
    pub(crate) duty: Duty,
    // Whether nothing is left to do for it.
    pub(crate) ended: bool,
}

impl<'a> Actor<'a> {
    // Works until it has ended, or until memory is short, here or elsewhere; and leaves.
    pub(crate) fn work<R: Wait, G: Gate>(&mut self, rt: &R, gate: &G, signals: &Signals)
        requires { IsWorking self.old }
        ensures { WorksOn self.old self.new }
    {
        let found_short = self.work_on(rt, gate, signals).is_err();
        signals.leave(found_short);
    }

    // Makes steps or turns until it has ended, or memory is short elsewhere.
    fn work_on<R: Wait, G: Gate>(
        &mut self,
        rt: &R,
        gate: &G,
        signals: &Signals,
    ) -> Result<(), OutOfMemory>
        requires { IsWorking self.old }
        ensures { WorksOn self.old self.new }
    {
        for _ in rt.forever() {
            if self.ended {
                return Ok(());
            }
            let Some(watch) = signals.watch() else {
                return Ok(());
            };
            self.go_on(rt, gate, signals, watch)?;
        }
        unreachable!()
    }

    // Makes one step or turn. Only a worker waits on the watch.
    fn go_on<R: Wait, G: Gate>(
        &mut self,
        rt: &R,
        gate: &G,
        signals: &Signals,
        watch: Watch<'_>,
    ) -> Result<(), OutOfMemory>
        requires working { IsWorking self.old }
        requires ended { self.old.ended ≡ false }
        ensures { WorksOn self.old self.new }
    {
        match &mut self.duty {
            Duty::Planner(planner) => {
                self.ended = step(rt, gate, signals, &mut self.seat, *planner)?;
                Ok(())
            }
            Duty::Worker(worker) => {
                self.ended = turn(rt, gate, watch, &mut self.seat, worker)?;
                Ok(())
            }
        }
    }
}

// Makes a planner's next step, and says whether the planner has ended.
fn step<R: Wait, B: Board, G: Gate>(
    rt: &R,
    gate: &G,
    signals: &Signals,
    board: &mut B,
    planner: u32,
) -> Result<bool, OutOfMemory>
    requires { IsAtWork (roles.Planner planner) false (B.access board.old) }
    ensures same { IsSameAccess (B.access board.old) (B.access board.new) }
    ensures ok { IfOk result (λ ended.
        IsAtWork (roles.Planner planner) ended (B.access board.new)) }
    ensures err { OnErr result (IsAtWork (roles.Planner planner) false (B.access board.new)) }
{
    gate.pass(rt, planner, Point::BeforeEdit);
    let stepped = board.step(rt, planner)?;
    signals.wake();
    Ok(has_ended(&stepped))
}

// Whether a planner's step was its last.
fn has_ended(stepped: &Stepped) -> bool
    ensures { result ≡ has_ended stepped.now }
{
    matches!(stepped, Stepped::Ended)
}

// Makes a worker's next turn, and says whether the worker has ended. Where its share is current and
// tasks are left, it waits for a step of a planner.
fn turn<R: Wait, B: Board, G: Gate>(
    rt: &R,
    gate: &G,
    watch: Watch<'_>,
    board: &mut B,
    worker: &mut Worker,
) -> Result<bool, OutOfMemory>
    requires at_work { IsAtWork (roles.Worker worker.old.share worker.old.of) false
        (B.access board.old) }
    requires keeps { KeepsWhatWasRead worker.old (B.access board.old).seen }
    ensures same { IsSameAccess (B.access board.old) (B.access board.new) }
    ensures worker { IsSameWorker worker.old worker.new }
    ensures keeps { KeepsWhatWasRead worker.new (B.access board.new).seen }
    ensures ok { IfOk result (λ ended.
        IsAtWork (roles.Worker worker.old.share worker.old.of) ended (B.access board.new)) }
    ensures err { OnErr result
        (IsAtWork (roles.Worker worker.old.share worker.old.of) false (B.access board.new)) }
{
    gate.pass(rt, worker.actor(), Point::AfterLook);
    let turned = worker.turn(rt, board, gate)?;
    Ok(rests(rt, watch, &turned))
}

// Whether a worker has nothing left to do after a turn. Where it is idle and tasks are left, it
// waits first.
fn rests<R: Wait>(rt: &R, watch: Watch<'_>, turned: &Turned) -> bool
    ensures { result ≡ rests turned.now }
{
    match turned {
        Turned::Idle { left } => {
            if *left > 0 {
                watch.wait(rt);
            }
            *left == 0
        }
        _ => false,
    }
}
