//! The blocking times of the first run of a line.
ghost use Rattle.rail_model.specs.Blocking.{Fits};

use blocking_time::{Blocking, blockings, constant_speed_law, parts, stairs};
use line_tables::LineTables;
use rail_model::{Path, Use};
use small_lines::Text;
use std::alloc::Global;

// From when until when each block is kept; the parts of the first two blockings; and both of each
// blocking in the list of all.
pub(crate) fn write_blockings(alloc: Global, text: &mut Text, tables: &LineTables) {
    if tables.runs() == 0 {
        return text.put_line(b"no path");
    }
    match tables.path(0) {
        Ok(path) => write_all(alloc, text, &path),
        Err(_) => text.lose(),
    }
}

fn write_all(alloc: Global, text: &mut Text, path: &Path)
    requires { Fits path.now }
{
    match stairs(alloc, path) {
        Ok(stair) => put_uses(text, stair.uses.slice()),
        Err(_) => text.lose(),
    }
    put_parts(text, path);
    write_list(alloc, text, path);
}

fn put_uses(text: &mut Text, uses: &[Use]) {
    for one in uses {
        text.show(b"kept from ", one.start);
        text.show(b" until ", one.end);
        text.put(b"\n");
    }
}

fn put_parts(text: &mut Text, path: &Path)
    requires { Fits path.now }
{
    for k in 1..3u32 {
        if k as usize <= path.hops.len() {
            text.show(b"parts of ", k);
            text.show_all(b": ", &parts(path, k));
            text.put(b"\n");
        }
    }
}

fn write_list(alloc: Global, text: &mut Text, path: &Path)
    requires { Fits path.now }
{
    constant_speed_law(path);
    match blockings(alloc, path) {
        Ok(all) => put_blockings(text, all.slice()),
        Err(_) => text.lose(),
    }
}

fn put_blockings(text: &mut Text, all: &[Blocking]) {
    for one in all {
        text.show(b"from ", one.used.start);
        text.show(b" until ", one.used.end);
        text.show_all(b": ", &one.parts);
        text.put(b"\n");
    }
}
