//! What is looked up in tables.
ghost use Rattle.std.specs.Prelude.{◌<◌, length};

use line_tables::LineTables;
use rail_model::{Name, OutOfMemory, Path, Tables};
use small_lines::{Text, word};
use std::alloc::Global;

// What is looked up by the names of a block and of a run, the second hop of the second run, and
// how many runs and connections a copy of a copy's plain tables has.
pub(crate) fn write_look_ups(alloc: Global, text: &mut Text, tables: &LineTables, line: &[u8]) {
    match (Name::read(word(line, 1)), Name::read(word(line, 2))) {
        (Ok(block), Ok(run)) => write_numbers(text, tables, &block, &run),
        _ => text.put_line(b"no names"),
    }
    write_second_hop(text, tables);
    write_plain(alloc, text, tables);
}

fn write_numbers(text: &mut Text, tables: &LineTables, block: &Name, run: &Name) {
    text.show_all(b"block ", &tables.block_number(block));
    text.show_all(b", run ", &tables.run_number(run));
    text.show_all(
        b", a section of the run's name ",
        &tables.section_number(run),
    );
    text.put(b"\n");
}

// By the path alone, and by that among the paths of all runs.
fn write_second_hop(text: &mut Text, tables: &LineTables) {
    if tables.runs() < 2 {
        return text.put_line(b"not two runs");
    }
    match hop_alone(tables) {
        Ok(alone) => text.show_all(b"second hop: ", &alone),
        Err(_) => text.lose(),
    }
    match hop_among(tables) {
        Ok(among) => text.show_all(b", among all ", &among),
        Err(_) => text.lose(),
    }
    text.put(b"\n");
}

fn hop_alone(tables: &LineTables) -> Result<Option<(u32, u32, u32)>, OutOfMemory>
    requires { 1 < length tables.now.runs }
{
    let path = tables.path(1)?;
    Ok(second_hop(&path))
}

fn hop_among(tables: &LineTables) -> Result<Option<(u32, u32, u32)>, OutOfMemory>
    requires { 1 < length tables.now.runs }
{
    let paths = tables.paths()?;
    let path = paths.path(1)?;
    Ok(second_hop(&path))
}

// The block of the second of two hops, its length, and the running time.
fn second_hop(path: &Path) -> Option<(u32, u32, u32)> {
    match path.hops.slice() {
        [_, hop] => Some((hop.block, hop.block_m, hop.running_s)),
        _ => None,
    }
}

fn write_plain(alloc: Global, text: &mut Text, tables: &LineTables) {
    match plain_counts(alloc, tables) {
        Ok((runs, connections)) => {
            text.show(b"plain tables: runs ", runs);
            text.show(b", connections ", connections);
            text.put(b"\n");
        }
        Err(_) => text.lose(),
    }
}

fn plain_counts(alloc: Global, tables: &LineTables) -> Result<(usize, usize), OutOfMemory> {
    let copy = tables.copy()?;
    let plain = copy.plain()?;
    counts_of_copy(alloc, &plain)
}

fn counts_of_copy(alloc: Global, plain: &Tables) -> Result<(usize, usize), OutOfMemory> {
    let copy = plain.copy(alloc)?;
    Ok((copy.runs.len(), copy.connections.len()))
}
