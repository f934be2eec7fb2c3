//! What stands in the tables above a row.
use line_tables::LineTables;
use rail_model::{Form, Kind, Name, Named, OutOfMemory, Route, Run, Tables};
use row_text::{Line, RowList};
use std::alloc::Global;

// The tables that the rows above a place make. No rule refuses one of them.
pub(crate) fn tables_above(
    alloc: Global,
    rows: &RowList<'_>,
    version: u32,
    place: usize,
) -> Result<Tables, OutOfMemory> {
    let mut tables = LineTables::new(alloc);
    for i in rows.first_line()..place.min(rows.len()) {
        take_line(&mut tables, rows.line(alloc, version, i)?)?;
    }
    tables.plain()
}

fn take_line(tables: &mut LineTables, line: Result<Line, Form>) -> Result<(), OutOfMemory> {
    if let Ok(Line::Edit(edit)) = line {
        let _ = tables.take(edit)?;
    }
    Ok(())
}

// Whether an item of a kind and a name is there.
pub(crate) fn stands(tables: &Tables, kind: Kind, name: &[u8]) -> bool {
    match kind {
        Kind::Block => is_among(tables.blocks.slice(), name),
        Kind::Signal => is_among(tables.signals.slice(), name),
        Kind::Route => is_among(tables.routes.slice(), name),
        Kind::Run => is_among(tables.runs.slice(), name),
        Kind::Section => is_among(tables.sections.slice(), name),
        Kind::Connection => is_among(tables.connections.slice(), name),
    }
}

fn is_among<T: Named>(items: &[T], name: &[u8]) -> bool {
    for item in items {
        if item.name().bytes() == name {
            return true;
        }
    }
    false
}

// The route of a name, if there is one.
pub(crate) fn route_of<'a>(tables: &'a Tables, name: &[u8]) -> Option<&'a Route> {
    for route in tables.routes.slice() {
        if route.name.bytes() == name {
            return Some(route);
        }
    }
    None
}

// The block of the signal of a name: nothing where there is none.
pub(crate) fn block_of<'a>(tables: &'a Tables, signal: &[u8]) -> &'a [u8] {
    let signals = tables.signals.slice();
    match signals.binary_search_by(|other| other.name.bytes().cmp(signal)) {
        Ok(at) => signals[at].block.bytes(),
        Err(_) => b"",
    }
}

// The first run over a route that has other than so many legs.
pub(crate) fn run_off<'a>(tables: &'a Tables, route: &[u8], legs: usize) -> Option<&'a Run> {
    for run in tables.runs.slice() {
        if run.route.bytes() == route && run.legs.len() != legs {
            return Some(run);
        }
    }
    None
}

// The first item that uses the one of a kind and a name.
pub(crate) fn user<'a>(tables: &'a Tables, kind: Kind, name: &[u8]) -> Option<(Kind, &'a Name)> {
    let (by, user) = match kind {
        Kind::Block => match signal_of(tables, name) {
            Some(signal) => (Kind::Signal, Some(signal)),
            None => (Kind::Section, section_over(tables, name)),
        },
        Kind::Signal => (Kind::Route, route_over(tables, name)),
        Kind::Route => (Kind::Run, run_over(tables, name)),
        Kind::Run => (Kind::Connection, connection_of(tables, name)),
        Kind::Section | Kind::Connection => (kind, None),
    };
    Some((by, user?))
}

fn signal_of<'a>(tables: &'a Tables, block: &[u8]) -> Option<&'a Name> {
    for signal in tables.signals.slice() {
        if signal.block.bytes() == block {
            return Some(&signal.name);
        }
    }
    None
}

fn section_over<'a>(tables: &'a Tables, block: &[u8]) -> Option<&'a Name> {
    for section in tables.sections.slice() {
        if lists(section.blocks.slice(), block) {
            return Some(&section.name);
        }
    }
    None
}

fn route_over<'a>(tables: &'a Tables, signal: &[u8]) -> Option<&'a Name> {
    for route in tables.routes.slice() {
        if lists(route.signals.slice(), signal) {
            return Some(&route.name);
        }
    }
    None
}

fn run_over<'a>(tables: &'a Tables, route: &[u8]) -> Option<&'a Name> {
    for run in tables.runs.slice() {
        if run.route.bytes() == route {
            return Some(&run.name);
        }
    }
    None
}

fn connection_of<'a>(tables: &'a Tables, run: &[u8]) -> Option<&'a Name> {
    for connection in tables.connections.slice() {
        if connection.first.bytes() == run || connection.second.bytes() == run {
            return Some(&connection.name);
        }
    }
    None
}

pub(crate) fn lists(names: &[Name], name: &[u8]) -> bool {
    for other in names {
        if other.bytes() == name {
            return true;
        }
    }
    false
}
