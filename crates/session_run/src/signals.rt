//! What the actors of a session tell one another beside the desk.
//!
//! No contract speaks of waiting; `bench/waits` has a model of it, whose steps the comments name. A
//! thread that sleeps on a count has taken it before its last look at what it waits for. So whoever
//! changes that after the look adds to the count, too, and the thread doesn't sleep.
use std::sync::Wait;
use std::sync::atomic::{AtomicBool, AtomicU64, Ordering};

// Whether memory is short somewhere, and a count of what idle workers wait for: a planner's step, or
// an actor that leaves.
#[derive(Drop)]
pub(crate) struct Signals {
    short: AtomicBool,
    count: AtomicU64,
}

// A look that found memory not short, and the count from before it. It can be waited on once.
#[derive(Drop)]
pub(crate) struct Watch<'a> {
    signals: &'a Signals,
    count: u32,
}

impl Signals {
    pub(crate) fn new() -> Signals {
        Signals {
            short: AtomicBool::new(false),
            count: AtomicU64::new(0),
        }
    }

    // Takes the count, and then looks whether an actor has told that memory is short; where one has,
    // there is nothing to wait for (step `watch`).
    pub(crate) fn watch(&self) -> Option<Watch<'_>> {
        let count = (self.count.load(Ordering::SeqCst) % (1 << 32)) as u32;
        if self.short.load(Ordering::SeqCst) {
            return None;
        }
        Some(Watch {
            signals: self,
            count,
        })
    }

    // A planner has made a step: wakes all workers that sleep (step `stepped`).
    pub(crate) fn wake(&self) {
        self.count.fetch_add(1, Ordering::SeqCst);
        self.count.wake_all();
    }

    // An actor leaves, for whatever reason: tells whether it found memory short, and wakes all (step
    // `leave`).
    pub(crate) fn leave(&self, found_short: bool) {
        if found_short {
            self.short.store(true, Ordering::SeqCst);
        }
        self.wake();
    }
}

impl Watch<'_> {
    // Sleeps while the count is that from before the look. It may return for no reason. A planner's
    // next step wakes it, or his leaving: while tasks are left their planner is at work, or has left
    // for want of memory, and then he has woken all after that look (step `sleep`).
    pub(crate) fn wait<R: Wait>(self, rt: &R) {
        self.signals.count.park(rt, self.count);
    }
}
