//! Two threads at one desk, of which a worker is held until the other has come.
ghost use Rattle.std.specs.Prelude.{◌≡◌, IfOk, IfSome};
ghost use Rattle.turn_desk.specs.Known.{IsReady};

use crate::boards::{asked, edited, opened, turned};
use plan_book::Book;
use rail_model::OutOfMemory;
use rail_outside::{Gate, Point};
use section_worker::Worker;
use small_lines::{Text, edit_of, parts_of};
use std::alloc::Global;
use std::sync::Wait;
use std::sync::atomic::AtomicU64;
use std::sync::atomic::Ordering::SeqCst;
use std::thread::{Threads, join, yield_now};
use timetable_desk::Seat;
use turn_desk::{Desk, Pass};

// How often a thread that waits for another looks whether it has come.
const LOOKS: u32 = 1_000_000;

// What a thread does.
#[derive(Clone, Copy)]
enum Part<'a> {
    // Two turns of a new worker of all sections.
    Worker,
    // Waits until the worker is held, and makes the edits of rows; a row that spells none asks
    // for S.
    Planner(&'a [u8]),
}

// Holds a worker at a point until another thread has played its part, or is held there too; then
// asks for S. What the two threads told comes in the order of letters. The line has the point, and
// `worker` or the planner's rows with semicolons between them.
pub(crate) fn write_race<R: Threads + Wait + Sync>(
    rt: &R,
    alloc: Global,
    text: &mut Text,
    line: &[u8],
) {
    let (word, rest) = parts_of(line, b' ');
    let point = match word {
        b"after-reading" => Point::AfterReading,
        _ => Point::BeforePublication,
    };
    let part = match rest {
        b"worker" => Part::Worker,
        _ => Part::Planner(rest),
    };
    match started(rt, alloc, text) {
        Ok(Some((desk, main, one, two))) => {
            write_raced(
                rt,
                alloc,
                text,
                &Meeting::new(point),
                &desk,
                (one, two),
                part,
            );
            asked(rt, text, &mut Seat::new(&desk, main));
        }
        Ok(None) => text.put(b"no desk"),
        Err(_) => text.lose(),
    }
}

// A gate that holds each worker at a point until two threads have come.
#[derive(Drop)]
struct Meeting {
    point: Point,
    come: AtomicU64,
    ran_out: AtomicU64,
}

impl Meeting {
    fn new(point: Point) -> Meeting {
        Meeting {
            point,
            come: AtomicU64::new(0),
            ran_out: AtomicU64::new(0),
        }
    }

    fn come(&self) {
        self.come.fetch_add(1, SeqCst);
    }

    // Looks until so many have come; notes where the looks ran out.
    fn wait(&self, count: u64) {
        for _ in 0..LOOKS {
            if self.come.load(SeqCst) >= count {
                return;
            }
            yield_now();
        }
        self.ran_out.store(1, SeqCst);
    }
}

impl Gate for Meeting {
    fn pass<R: Wait>(&self, _rt: &R, _actor: u32, point: Point) {
        if point == self.point {
            self.come();
            self.wait(2);
        }
    }
}

// A desk over the book, its first pass, and two that this pass has drawn.
pub(crate) fn started<R: Wait>(
    rt: &R,
    alloc: Global,
    text: &mut Text,
) -> Result<Option<(Desk<Book>, Pass<Book>, Pass<Book>, Pass<Book>)>, OutOfMemory>
    ensures { IfOk result (λ r. IfSome r
        (λ d. IsReady d.0 d.1 × IsReady d.0 d.2 × IsReady d.0 d.3)) }
{
    let Some(book) = opened(alloc, text)? else {
        return Ok(None);
    };
    let (desk, mut main) = Desk::start(alloc, book)?;
    let Ok(passes) = desk.enter(rt, alloc, &mut main, 2)? else {
        return Ok(None);
    };
    let mut passes = passes.into_vec();
    match (passes.pop(), passes.pop()) {
        (Some(two), Some(one)) => Ok(Some((desk, main, one, two))),
        _ => Ok(None),
    }
}

// Plays a part at the seat of a pass, and tells what was answered.
fn one_turn<R: Wait>(
    rt: &R,
    alloc: Global,
    desk: &Desk<Book>,
    pass: Pass<Book>,
    meeting: &Meeting,
    part: Part<'_>,
) -> Text
    requires { IsReady desk.now pass }
{
    let mut told = Text::new(alloc);
    let mut seat = Seat::new(desk, pass);
    match part {
        Part::Worker => turns(rt, alloc, &mut told, &mut seat, meeting),
        Part::Planner(rows) => calls(rt, alloc, &mut told, &mut seat, meeting, rows),
    }
    told
}

// Two turns of a new worker.
fn turns<R: Wait>(rt: &R, alloc: Global, told: &mut Text, seat: &mut Seat<'_>, meeting: &Meeting) {
    let mut worker = Worker::new(alloc, 0, 1, 101);
    turned(rt, told, &mut worker, seat, meeting);
    told.put(b" ");
    turned(rt, told, &mut worker, seat, meeting);
}

// What a planner does once another thread is held.
fn calls<R: Wait>(
    rt: &R,
    alloc: Global,
    told: &mut Text,
    seat: &mut Seat<'_>,
    meeting: &Meeting,
    rows: &[u8],
) {
    meeting.wait(1);
    let mut rest = rows;
    for _ in 0..rows.len() {
        if rest.is_empty() {
            return meeting.come();
        }
        let (row, later) = parts_of(rest, b';');
        if !told.bytes().is_empty() {
            told.put(b" ");
        }
        made(rt, alloc, told, seat, row);
        rest = later;
    }
    meeting.come();
}

// Makes the edit of a row; where the row spells none, asks for S.
fn made<R: Wait>(rt: &R, alloc: Global, told: &mut Text, seat: &mut Seat<'_>, row: &[u8]) {
    match edit_of(alloc, told, row) {
        Some(edit) => {
            if edited(rt, told, seat, edit).is_err() {
                told.lose();
            }
        }
        None => asked(rt, told, seat),
    }
}

// What a worker and a thread with another part told.
fn both<R: Threads + Wait + Sync>(
    rt: &R,
    alloc: Global,
    desk: &Desk<Book>,
    passes: (Pass<Book>, Pass<Book>),
    meeting: &Meeting,
    part: Part<'_>,
) -> (Text, Text)
    requires { IsReady desk.now passes.0 × IsReady desk.now passes.1 }
{
    let (one, two) = passes;
    join(
        rt,
        move || -> Text
            requires { IsReady desk.now one }
        { one_turn(rt, alloc, desk, one, meeting, Part::Worker) },
        move || -> Text
            requires { IsReady desk.now two }
        { one_turn(rt, alloc, desk, two, meeting, part) },
    )
}

fn write_raced<R: Threads + Wait + Sync>(
    rt: &R,
    alloc: Global,
    text: &mut Text,
    meeting: &Meeting,
    desk: &Desk<Book>,
    passes: (Pass<Book>, Pass<Book>),
    part: Part<'_>,
)
    requires { IsReady desk.now passes.0 × IsReady desk.now passes.1 }
{
    let (one, two) = both(rt, alloc, desk, passes, meeting, part);
    if meeting.ran_out.load(SeqCst) > 0 {
        text.put(b"the looks ran out; ");
    }
    if !one.is_whole() || !two.is_whole() {
        text.lose();
    }
    if one.bytes() < two.bytes() {
        write_both(text, one.bytes(), two.bytes());
    } else {
        write_both(text, two.bytes(), one.bytes());
    }
}

// Tells what two threads told.
fn write_both(text: &mut Text, first: &[u8], second: &[u8]) {
    text.put(first);
    text.put(b"; ");
    text.put(second);
    text.put(b"; ");
}
