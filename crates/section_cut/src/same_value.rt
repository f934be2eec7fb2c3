//! Whether two cuts have one value: stamps are no part of it.
ghost use Rattle.std.specs.Prelude.{◌≡◌, ◌↔◌, IsTrue, true, map};
ghost use Rattle.plan_model.specs.Cut.{stamped_row, IsSameCut};
ghost use Rattle.section_cut.specs.Change.{HasSameRows};

use plan_model::{Cut, CutRow};
use rail_model::{Name, Section, Use, same_names};

// Whether two cuts are equal but for their stamps.
pub(crate) fn same_cut(a: &Cut, b: &Cut) -> bool
    ensures { IsTrue result ↔ IsSameCut a.now b.now }
{
    same_section(&a.section, &b.section)
        && same_names(a.connections.slice(), b.connections.slice())
        && same_rows(a.rows.slice(), b.rows.slice())
}

// Whether two rows are equal but for their stamps.
pub(crate) fn same_row(a: &CutRow, b: &CutRow) -> bool
    ensures { IsTrue result ↔ (stamped_row 0 a.now ≡ stamped_row 0 b.now) }
{
    a.name == b.name && a.entry == b.entry && same_uses(a.uses.slice(), b.uses.slice())
}

// Whether two lists of rows are equal but for their stamps.
fn same_rows(a: &[CutRow], b: &[CutRow]) -> bool
    ensures { IsTrue result ↔ (map (stamped_row 0) a.now ≡ map (stamped_row 0) b.now) }
{
    if a.len() != b.len() {
        return false;
    }
    for i in 0..a.len() {
        if !same_row(&a[i], &b[i]) {
            return false;
        }
    }
    true
}

// Whether two lists of uses are equal.
fn same_uses(a: &[Use], b: &[Use]) -> bool
    ensures { IsTrue result ↔ (a.now ≡ b.now) }
{
    a == b
}

// Whether two sections are equal.
fn same_section(a: &Section, b: &Section) -> bool
    ensures { IsTrue result ↔ (a.now ≡ b.now) }
{
    a.name == b.name
        && a.from_s == b.from_s
        && a.to_s == b.to_s
        && a.add_percent == b.add_percent
        && same_names(a.blocks.slice(), b.blocks.slice())
}

// Whether two sections have the same window and the same blocks. `false` says nothing: the slow way
// follows.
pub(crate) fn has_same_rows(a: &Section, b: &Section) -> bool
    ensures { result ≡ true → HasSameRows a.now b.now }
{
    a.from_s == b.from_s && a.to_s == b.to_s && same_names(a.blocks.slice(), b.blocks.slice())
}

// Whether two names are equal.
pub(crate) fn same_name(a: &Name, b: &Name) -> bool
    ensures { IsTrue result ↔ (a.now ≡ b.now) }
{
    a == b
}
