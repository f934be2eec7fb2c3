//! Cuts of sections.
ghost use Rattle.std.specs.Prelude.{◌≡◌, length, IfSome};
ghost use Rattle.plan_model.specs.Cut.{IsSoundCut};

use line_tables::LineTables;
use plan_model::{Cut, CutRow};
use rail_model::{Name, OutOfMemory};
use section_cut::{AllStairways, all_cuts, cut_among, cut_of, stairways};
use small_lines::Text;
use std::alloc::Global;

// The cut of the section of a name, whose rows get this stamp, if it is there.
pub(crate) fn cut_in(
    alloc: Global,
    text: &mut Text,
    tables: &LineTables,
    section: &[u8],
    stamp: u64,
) -> Option<Cut>
    ensures { IfSome result IsSoundCut }
{
    let Ok(name) = Name::read(section) else {
        return None;
    };
    match cut_of(alloc, tables, &name, stamp) {
        Ok(cut) => cut,
        Err(_) => {
            text.lose();
            None
        }
    }
}

// The names of a cut's connections, each before a comma; then for each train the place, start and
// end of each use, and its entry, stamp and name.
pub(crate) fn put_cut(text: &mut Text, cut: &Cut) {
    put_names(text, cut.connections.slice());
    text.put_line(b"cut");
    for row in cut.rows.slice() {
        put_row(text, row);
    }
}

// Names, each before a comma.
pub(crate) fn put_names(text: &mut Text, names: &[Name]) {
    for name in names {
        text.put(name.bytes());
        text.put(b",");
    }
}

fn put_row(text: &mut Text, row: &CutRow) {
    for one in row.uses.slice() {
        text.show(b"", one.block);
        text.show(b",", one.start);
        text.show(b",", one.end);
        text.put(b",");
    }
    text.show(b"", row.entry);
    text.show(b",", row.stamp);
    text.put(b",");
    text.put_line(row.name.bytes());
}

// The cut of the only section with stamp 7, by stairways that are made once.
pub(crate) fn write_cut_among(alloc: Global, text: &mut Text, tables: &LineTables) {
    if tables.sections() != 1 {
        return text.put_line(b"not one section");
    }
    match only_cut(alloc, tables) {
        Ok(cut) => put_cut(text, &cut),
        Err(_) => text.lose(),
    }
}

fn only_cut(alloc: Global, tables: &LineTables) -> Result<Cut, OutOfMemory>
    requires { length tables.now.sections ≡ 1 }
{
    let stairs = AllStairways::of(alloc, stairways(alloc, tables)?)?;
    cut_among(alloc, tables, &stairs, 0, 7)
}

// The cuts of all sections with stamp 7, each after its section's name.
pub(crate) fn write_all_cuts(alloc: Global, text: &mut Text, tables: &LineTables) {
    match all_cuts(alloc, tables, 7) {
        Ok(cuts) => {
            for cut in cuts.slice() {
                text.put_line(cut.section.name.bytes());
                put_cut(text, cut);
            }
        }
        Err(_) => text.lose(),
    }
}
