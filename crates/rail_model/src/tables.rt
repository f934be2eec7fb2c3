//! A line and its timetable as lists of items.
use crate::{Block, Connection, List, Route, Run, Section, Signal};

/// A line and its timetable. Each list is in the order of its items' names, and the number of an
/// item is its place in its list, from 0.
#[derive(Drop)]
pub struct Tables {
    pub blocks: List<Block>,
    pub signals: List<Signal>,
    pub routes: List<Route>,
    pub runs: List<Run>,
    pub sections: List<Section>,
    pub connections: List<Connection>,
}
