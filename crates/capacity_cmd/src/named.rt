//! What a command names.
ghost use Rattle.std.specs.Prelude.{◌≡◌, ◌<◌, ◌⊎◌, length, position, IfOk, IfSome, option_and_then};
ghost use Rattle.rail_model.specs.Name.{is_same, NamesRise};
ghost use Rattle.plan_model.specs.Members.{member_count};
ghost use Rattle.plan_model.specs.Cut.{IsSoundCut};
ghost use Rattle.plan_model.specs.Cut as section_cut;
ghost use Rattle.sentences.specs.Told.{IsOfSection};
ghost use Rattle.capacity_cmd.specs.Ends.{cut_named, row_named};
ghost use Rattle.capacity_cmd.specs.Stopped.{Gives};
ghost use Rattle.capacity_cmd.specs.declared.status.Cause.TheVariants as causes;
ghost use Rattle.capacity_cmd.specs.declared.stopped.Stopped.TheVariants as stopped;

use crate::stopped::Stopped;
use crate::{Cause, Told};
use line_tables::LineTables;
use plan_model::{Cut, CutRow};
use rail_model::{Name, OutOfMemory};
use section_cut::cut_of;
use sentences::told_of_section;
use std::alloc::Global;

// The cut of the section that is named. Where no section has that name, people are told so.
pub(crate) fn cut_named(
    alloc: Global,
    tables: &LineTables,
    section: Option<Name>,
    told: &mut Told,
) -> Result<Cut, Stopped<Cause>>
    ensures finds { Gives (cut_named tables.now section) result }
    ensures sound { IfOk result IsSoundCut }
    ensures told { (told.new ≡ told.old) ⊎ IsOfSection section told.new }
{
    match cut_of_word(alloc, tables, section)? {
        Some(cut) => Ok(cut),
        None => Err(no_section(alloc, tables, &section, told)),
    }
}

// Tells people of a section that isn't there.
fn no_section(
    alloc: Global,
    tables: &LineTables,
    section: &Option<Name>,
    told: &mut Told,
) -> Stopped<Cause>
    ensures why { result ≡ stopped.Refused causes.NoSection }
    ensures told { IsOfSection section.now told.new }
{
    *told = told_of_section(alloc, tables, *section);
    Stopped::Refused(Cause::NoSection)
}

// The cut of the section that a word names, if it names one.
fn cut_of_word(
    alloc: Global,
    tables: &LineTables,
    section: Option<Name>,
) -> Result<Option<Cut>, OutOfMemory>
    ensures same { IfOk result (λ cut. cut ≡ option_and_then (section_cut.cut_of tables.now) section) }
    ensures sound { IfOk result (λ cut. IfSome cut IsSoundCut) }
{
    match section {
        Some(section) => cut_of(alloc, tables, &section, 0),
        None => Ok(None),
    }
}

// The position of the train of a cut that a word names, if it names one.
pub(crate) fn row_named(cut: &Cut, run: Option<Name>) -> Option<usize>
    requires { IsSoundCut cut.now }
    ensures row { result ≡ row_named cut.now run }
    ensures there { IfSome result (λ row. row < member_count cut.now) }
{
    match run {
        Some(run) => row_of_name(cut.rows.slice(), &run),
        None => None,
    }
}

// The position of the row of a name, if there is one.
fn row_of_name(rows: &[CutRow], name: &Name) -> Option<usize>
    requires { NamesRise (λ r. r.name) rows.now }
    ensures row { result ≡ position (λ r. is_same r.name name.now) rows.now }
    ensures there { IfSome result (λ row. row < length rows.now) }
{
    match rows.binary_search_by(|row| row.name.bytes().cmp(name.bytes())) {
        Ok(row) => Some(row),
        Err(_) => None,
    }
}
