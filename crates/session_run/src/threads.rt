//! The session on threads.
ghost use Rattle.std.specs.Prelude.{◌≡◌, ◌+◌, ◌<◌, ◌≤◌, [], ◌∷◌, length, sum_by, All, IfOk, OnOk};
ghost use Rattle.plan_book.specs.declared.book.TheConstants.{PLANNERS, TASKS, FIRST_NUMBER};
ghost use Rattle.plan_model.specs.Session.{IsSession};
ghost use Rattle.turn_desk.specs.Known.{IsReady};
ghost use Rattle.session_run.specs.declared.threads.TheConstants.{WORKERS};
ghost use Rattle.session_run.specs.Actors.{IsLeaving};
ghost use Rattle.session_run.specs.Acting.{IsWorking, WorksOn, AllWorkOn, AreNewPasses, IsNewPass};
ghost use Rattle.session_run.specs.Acting.{IsNewDuty, IsActorOf, AreActors};

use crate::actor::{Actor, Duty};
use crate::signals::Signals;
use line_tables::LineTables;
use plan_book::Book;
use plan_model::Scripts;
use rail_model::{List, OutOfMemory, ask_for_room};
use rail_outside::Gate;
use section_worker::Worker;
use std::alloc::Global;
use std::sync::Wait;
use std::thread::{Threads, for_each_mut};
use timetable_desk::Seat;
use turn_desk::{Desk, Pass};

/// The most workers of a session.
pub const WORKERS: u32 = 16;

// At the gate worker w, from 1, is the actor of this number and w, as `rail_outside::Gate::pass`
// says. Planners, of whom there are at most 16, have the numbers below it.
const GATE_WORKERS: u32 = 100;

// Room that each thread asks for at once: a worker keeps the rows of its sections.
const ROOM: usize = 30 * 1_048_576;

/// Runs the scripts of planners over these tables, whose last edit had the number `at`, with
/// workers that answer sections meanwhile: each planner and each worker in a thread of its own,
/// where one can be made. Every planner and worker passes the gate at the points of its work. No
/// clause speaks of threads or of the gate.
pub fn session<R: Threads + Wait + Sync, G: Gate>(
    rt: &R,
    alloc: Global,
    tables: LineTables,
    at: u64,
    scripts: Scripts,
    workers: u32,
    gate: &G,
) -> Result<Book, OutOfMemory>
    requires planners { length scripts ≤ PLANNERS }
    requires tasks { sum_by length scripts ≤ TASKS }
    requires at { at ≤ FIRST_NUMBER }
    requires some { 1 ≤ workers }
    requires most { workers ≤ WORKERS }
    ensures { IfOk result (IsSession tables at scripts workers) }
{
    let book = Book::start(alloc, tables, at, scripts)?;
    let planners = book.planners();
    let (desk, mut main) = Desk::start(alloc, book)?;
    let Ok(passes) = desk.enter(rt, alloc, &mut main, planners + workers)? else {
        unreachable!();
    };
    let mut actors = seated(alloc, &desk, passes, planners, workers)?;
    work_all(rt, alloc, &mut actors, gate);
    leave_all(&desk, &mut main, actors, planners, workers)?;
    Ok(desk.close(rt, main))
}

// The actors at their seats, each with its own of the new passes. The last is planner 1, before it
// come the other planners and then the workers. Where no thread can be made, the calls of
// `for_each_mut` run one after the other from the last place to the first; so planners, who wait
// for nobody, come before the workers, who wait for planners (step `start` of the model in
// `bench/waits`).
fn seated<'a>(
    alloc: Global,
    desk: &'a Desk<Book>,
    passes: List<Pass<Book>>,
    planners: u32,
    workers: u32,
) -> Result<Vec<Actor<'a>>, OutOfMemory>
    requires passes { AreNewPasses desk.now planners workers passes }
    requires planners { planners ≤ PLANNERS }
    requires workers { workers ≤ WORKERS }
    ensures { IfOk result (λ actors. AreActors desk.entry.now planners workers actors.items) }
{
    let mut passes = passes;
    let mut actors = Vec::new(alloc);
    let count = planners + workers;
    for place in 0..count {
        let Some(pass) = passes.pop() else {
            unreachable!();
        };
        actors.push(actor_of(alloc, desk, pass, count - place, planners, workers))?;
    }
    Ok(actors)
}

// The actor that has the pass of a number.
fn actor_of<'a>(
    alloc: Global,
    desk: &'a Desk<Book>,
    pass: Pass<Book>,
    number: u32,
    planners: u32,
    workers: u32,
) -> Actor<'a>
    requires pass { IsNewPass desk.now planners number pass }
    requires number { number ≤ planners + workers }
    requires planners { planners ≤ PLANNERS }
    requires workers { workers ≤ WORKERS }
    ensures { IsActorOf desk.entry.now planners workers number result }
{
    Actor {
        seat: Seat::new(desk, pass),
        duty: duty_of(alloc, number, planners, workers),
        ended: false,
    }
}

// The duty of the actor of a number: the planner of this number, or the worker that comes after all
// planners.
fn duty_of(alloc: Global, number: u32, planners: u32, workers: u32) -> Duty
    requires from_one { 1 ≤ number }
    requires number { number ≤ planners + workers }
    requires planners { planners ≤ PLANNERS }
    requires workers { workers ≤ WORKERS }
    ensures { IsNewDuty planners workers number result }
{
    if number <= planners {
        return Duty::Planner(number);
    }
    let share = number - planners - 1;
    Duty::Worker(Worker::new(alloc, share, workers, GATE_WORKERS + share + 1))
}

// Lets all actors work, in as many threads as they are.
fn work_all<R: Threads + Wait + Sync, G: Gate>(
    rt: &R,
    alloc: Global,
    actors: &mut [Actor<'_>],
    gate: &G,
)
    requires some { 0 < length actors.old }
    requires working { All IsWorking actors.old }
    ensures { AllWorkOn actors.old actors.new }
{
    let signals = Signals::new();
    let count = actors.len();
    for_each_mut(
        rt,
        actors,
        count,
        &|_, actor: &mut Actor<'_>|
            requires { IsWorking actor.now }
            ensures { WorksOn actor.entry.now actor.exit.now }
        {
            ask_for_room(alloc, ROOM);
            actor.work(rt, gate, &signals)
        },
    );
}

// Takes in the passes of all actors, that of planner 1 first. Memory was short where one has not
// ended.
fn leave_all(
    desk: &Desk<Book>,
    main: &mut Pass<Book>,
    actors: Vec<Actor<'_>>,
    planners: u32,
    workers: u32,
) -> Result<(), OutOfMemory>
    requires ready { IsReady desk.now main.old }
    requires own { main.old.numbers ≡ 0 ∷ [] }
    requires seen { 0 < length main.old.seen }
    requires actors { AreActors desk.now planners workers actors.items }
    requires planners { planners ≤ PLANNERS }
    requires workers { workers ≤ WORKERS }
    ensures ready { OnOk result (IsReady desk.now main.new) }
    ensures left { OnOk result
        (IsLeaving planners workers main.old.seen main.new (planners + workers)) }
{
    let mut actors = List::from_vec(actors);
    for _gone in 0..planners + workers {
        let Some(actor) = actors.pop() else {
            unreachable!();
        };
        let Actor {
            seat,
            duty: _,
            ended,
        } = actor;
        if !ended {
            return Err(OutOfMemory);
        }
        desk.leave(main, seat.end());
    }
    Ok(())
}
