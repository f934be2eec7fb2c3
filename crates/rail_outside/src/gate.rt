//! A gate that threads pass at the points of their work.
use std::sync::Wait;

/// Where in its work a thread passes the gate.
#[derive(Clone, Copy, Debug, PartialEq, Eq)]
pub enum Point {
    /// A planner is about to make its next step: an edit, a question, or none where it has ended.
    BeforeEdit,
    /// A worker has looked whether memory is short, and is about to make its next turn, after which
    /// it may sleep.
    AfterLook,
    /// A worker has read what it works on.
    AfterReading,
    /// An answer is about to be published.
    BeforePublication,
}

/// A gate that threads pass at the points of their work. It has no meaning, and may wait: by it a
/// test puts the steps of threads in an order.
pub trait Gate: Sync {
    /// Passes the gate. Planner p is actor p, and worker w, from 1, is actor 100 + w.
    fn pass<R: Wait>(&self, rt: &R, actor: u32, point: Point);
}

/// A gate that returns at once.
#[derive(Clone, Copy, Debug)]
pub struct OpenGate;

impl Gate for OpenGate {
    fn pass<R: Wait>(&self, _rt: &R, _actor: u32, _point: Point) {}
}
