//! A gate that puts the steps of a planner and a worker in an order.
use rail_outside::{Gate, Point};
use std::sync::Wait;
use std::sync::atomic::AtomicU64;
use std::sync::atomic::Ordering::SeqCst;
use std::thread::yield_now;

// How often an actor that waits for another looks whether it has come.
const LOOKS: u32 = 1_000_000;

// A gate that holds planner 1 before its first task until worker 1 has read so often, and worker 1
// after its first reading until planner 1 has come so often to a task.
#[derive(Drop)]
pub(crate) struct Race {
    readings_first: u64,
    tasks_first: u64,
    readings: AtomicU64,
    tasks: AtomicU64,
    ran_out: AtomicU64,
}

impl Race {
    pub(crate) fn new(readings_first: u64, tasks_first: u64) -> Race {
        Race {
            readings_first,
            tasks_first,
            readings: AtomicU64::new(0),
            tasks: AtomicU64::new(0),
            ran_out: AtomicU64::new(0),
        }
    }

    // Looks until a counter is so great, and notes where the looks ran out.
    fn hold(&self, counter: &AtomicU64, least: u64) {
        for _ in 0..LOOKS {
            if counter.load(SeqCst) >= least {
                return;
            }
            yield_now();
        }
        self.ran_out.store(1, SeqCst);
    }

    // Whether both came as often as they were waited for, and nobody was let go for want of looks.
    pub(crate) fn was_run(&self) -> bool {
        self.ran_out.load(SeqCst) == 0
            && self.readings.load(SeqCst) >= self.readings_first
            && self.tasks.load(SeqCst) >= self.tasks_first.max(1)
    }
}

impl Gate for Race {
    fn pass<R: Wait>(&self, _rt: &R, actor: u32, point: Point) {
        match (actor, point) {
            (1, Point::BeforeEdit) => {
                if self.tasks.fetch_add(1, SeqCst) == 0 {
                    self.hold(&self.readings, self.readings_first);
                }
            }
            (101, Point::AfterReading) => {
                if self.readings.fetch_add(1, SeqCst) == 0 {
                    self.hold(&self.tasks, self.tasks_first);
                }
            }
            _ => {}
        }
    }
}
