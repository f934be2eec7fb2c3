//! A session whose planner is refused memory between a worker's look and its sleep.
ghost use Rattle.std.specs.Prelude.{◌≡◌, ◌∷◌, [], IfOk};

use crate::hoard::Hoard;
use crate::scripts::script_of;
use plan_book::Book;
use rail_model::{Edit, OutOfMemory};
use rail_outside::{Gate, Point};
use session_run::session;
use small_lines::{Text, edit_of, small_line};
use std::alloc::Global;
use std::sync::atomic::AtomicU64;
use std::sync::atomic::Ordering::SeqCst;
use std::sync::{Mutex, Wait};
use std::thread::{Threads, yield_now};

// How often an actor that waits for another looks whether it has come.
const LOOKS: u32 = 30_000_000;

// How often the worker yields while the planner is refused memory, tells so, and leaves.
const YIELDS: u32 = 20_000;

// A session with the only task of planner 1, the edit of a row, and one worker: with ample memory, and
// then where memory runs out for the planner. It tells how many entries the first journal has, and
// how the second session ends.
pub(crate) fn write_shortage<R: Threads + Wait + Sync>(
    rt: &R,
    alloc: Global,
    text: &mut Text,
    row: &[u8],
) {
    write_session(rt, alloc, text, row, &Shortage::new(alloc, false));
    text.put(b"; ");
    write_session(rt, alloc, text, row, &Shortage::new(alloc, true));
}

fn write_session<R: Threads + Wait + Sync>(
    rt: &R,
    alloc: Global,
    text: &mut Text,
    row: &[u8],
    gate: &Shortage,
) {
    let Some(edit) = edit_of(alloc, text, row) else {
        return text.put(b"no edit");
    };
    let ended = run(rt, alloc, text, edit, gate);
    gate.hoard.lock(rt).clear();
    match ended {
        Ok(Some(book)) => text.show(b"entries: ", book.journal().len() as u64),
        Ok(None) => text.put(b"no line"),
        Err(_) => text.put(b"out of memory"),
    }
    if gate.ran_out.load(SeqCst) > 0 {
        text.put(b", the looks ran out");
    }
}

// Holds the worker after the look before its second turn until the planner has come, and the planner
// before its step until the worker is there. The planner then takes all memory, if it is to be
// short.
#[derive(Drop)]
struct Shortage {
    alloc: Global,
    is_short: bool,
    looks: AtomicU64,
    steps: AtomicU64,
    ran_out: AtomicU64,
    hoard: Mutex<Hoard>,
}

impl Shortage {
    fn new(alloc: Global, is_short: bool) -> Shortage {
        Shortage {
            alloc,
            is_short,
            looks: AtomicU64::new(0),
            steps: AtomicU64::new(0),
            ran_out: AtomicU64::new(0),
            hoard: Mutex::new(Hoard::new(alloc)),
        }
    }

    // Looks until a counter is so great, and notes where the looks ran out.
    fn hold(&self, counter: &AtomicU64, least: u64) {
        for _ in 0..LOOKS {
            if counter.load(SeqCst) >= least {
                return;
            }
            yield_now();
        }
        self.ran_out.store(1, SeqCst);
    }

    // The planner's part.
    fn run_short<R: Wait>(&self, rt: &R) {
        self.hold(&self.looks, 2);
        if self.is_short {
            self.hoard.lock(rt).fill(self.alloc);
        }
        self.steps.fetch_add(1, SeqCst);
    }

    // The worker's part: it goes on once the planner has left.
    fn look(&self) {
        if self.looks.fetch_add(1, SeqCst) == 1 {
            self.hold(&self.steps, 1);
            for _ in 0..YIELDS {
                yield_now();
            }
        }
    }
}

impl Gate for Shortage {
    fn pass<R: Wait>(&self, rt: &R, actor: u32, point: Point) {
        match (actor, point) {
            (1, Point::BeforeEdit) => self.run_short(rt),
            (101, Point::AfterLook) => self.look(),
            _ => {}
        }
    }
}

fn run<R: Threads + Wait + Sync>(
    rt: &R,
    alloc: Global,
    text: &mut Text,
    edit: Edit,
    gate: &Shortage,
) -> Result<Option<Book>, OutOfMemory> {
    let Some(tables) = small_line(alloc, text) else {
        return Ok(None);
    };
    let scripts = script_of(alloc, edit)?;
    Ok(Some(session(rt, alloc, tables, 8, scripts, 1, gate)?))
}
