//! The command `delays`.
ghost use Rattle.std.specs.Prelude.{◌≡◌, ◌≤◌, length, replicate, true, Some, All, IfOk};
ghost use Rattle.delay_spread.specs.declared.spreading.TheConstants.{GREATEST_DELAY_S};
ghost use Rattle.plan_model.specs.declared.limits.TheConstants.{MEMBERS};
ghost use Rattle.plan_model.specs.Cut.{IsSoundCut};
ghost use Rattle.plan_model.specs.Members.{member_count};
ghost use Rattle.delay_spread.specs.Spreading.{IsSpread};
ghost use Rattle.path_fill.specs.Filling.{IsOrdered};
ghost use Rattle.capacity_cmd.specs.Ends.{EndsOnNamed, delays_in, are_members, delayed_named, with_delays, IsDelaysText, IsSpreadText, SetsDelay};
ghost use Rattle.capacity_cmd.specs.Stopped.{Makes};

use crate::given_delay::GivenDelay;
use crate::named::{cut_named, row_named};
use crate::no_plan::{crowded_text, head_text, is_crowded};
use crate::stopped::Stopped;
use crate::{Cause, Told};
use delay_spread::{Spread, spread, spread_rows};
use line_tables::LineTables;
use plan_model::Cut;
use rail_model::{List, Name, OutOfMemory};
use row_text::{Sheet, Text};
use sentences::told_of_run;
use std::alloc::Global;

// The rows of the delays that are spread over the section that is named, or why there are none.
pub(crate) fn delays_text(
    alloc: Global,
    tables: &LineTables,
    section: Option<Name>,
    given: &Option<List<GivenDelay>>,
    told: &mut Told,
) -> Result<Text, Stopped<Cause>>
    ensures { Makes
        (EndsOnNamed IsDelaysText (delayed_named tables.now section given.now)) result }
{
    let cut = cut_named(alloc, tables, section, told)?;
    text_on_cut(alloc, &cut, given, told)
}

// The rows for the cut of the section, or the refusal of delays of which one is given to a word that
// is no name.
fn text_on_cut(
    alloc: Global,
    cut: &Cut,
    given: &Option<List<GivenDelay>>,
    told: &mut Told,
) -> Result<Text, Stopped<Cause>>
    requires { IsSoundCut cut.now }
    ensures { Makes (EndsOnNamed IsDelaysText (with_delays given.now cut.now)) result }
{
    match given {
        Some(given) => text_of_given(alloc, cut, given.slice(), told),
        None => {
            *told = told_of_run(alloc, cut, None);
            Err(Stopped::Refused(Cause::NoMember))
        }
    }
}

// The rows for a cut and delays that are given to runs by their names, or the refusal of a run that
// is no member.
fn text_of_given(
    alloc: Global,
    cut: &Cut,
    given: &[GivenDelay],
    told: &mut Told,
) -> Result<Text, Stopped<Cause>>
    requires { IsSoundCut cut.now }
    ensures { Makes (EndsOnNamed IsDelaysText (with_delays (Some given.now) cut.now)) result }
{
    let mut delays = vec![in alloc; 0u32; cut.rows.len()]?;
    if set_delays(&mut delays, cut, given) {
        return Ok(delayed_text(alloc, cut, &delays)?);
    }
    *told = told_of_no_member(alloc, cut, given);
    Err(Stopped::Refused(Cause::NoMember))
}

// Sets the delay of each member to which one is given, and stops at the first that is given to no
// member.
fn set_delays(delays: &mut [u32], cut: &Cut, given: &[GivenDelay]) -> bool
    requires sound { IsSoundCut cut.now }
    requires none { delays.old ≡ replicate (member_count cut.now) 0 }
    ensures members { result ≡ are_members cut.now given.now }
    ensures set { result ≡ true → delays.new ≡ delays_in cut.now given.now }
    ensures limit { All (λ d. d ≤ GREATEST_DELAY_S) delays.new }
{
    for one in given {
        if !set_delay(delays, cut, one) {
            return false;
        }
    }
    true
}

// Sets the delay of one member, if it is one.
fn set_delay(delays: &mut [u32], cut: &Cut, one: &GivenDelay) -> bool
    requires sound { IsSoundCut cut.now }
    requires count { length delays.old ≡ member_count cut.now }
    ensures { SetsDelay cut.now one.now result delays.old delays.new }
{
    match row_named(cut, Some(one.run)) {
        Some(row) => {
            delays[row] = one.delay.seconds();
            true
        }
        None => false,
    }
}

// The text of a cut with the delays of its members.
fn delayed_text(alloc: Global, cut: &Cut, delays: &[u32]) -> Result<Text, OutOfMemory>
    requires sound { IsSoundCut cut.now }
    requires count { length delays.now ≡ member_count cut.now }
    requires limit { All (λ d. d ≤ GREATEST_DELAY_S) delays.now }
    ensures { IfOk result (IsDelaysText (cut.now, delays.now)) }
{
    if is_crowded(cut) {
        return crowded_text(alloc, cut);
    }
    match spread(alloc, cut, delays)? {
        Ok(spread) => spread_text(alloc, cut, delays, &spread),
        Err(disorder) => head_text(alloc, cut, &disorder.into_answer()),
    }
}

// The text of the delays that are spread; `_delays` are those that are given.
fn spread_text(
    alloc: Global,
    cut: &Cut,
    _delays: &[u32],
    spread: &Spread,
) -> Result<Text, OutOfMemory>
    requires sound { IsSoundCut cut.now }
    requires ordered { IsOrdered cut.now }
    requires spread { IsSpread cut.now _delays.now spread.now }
    ensures { IfOk result (IsSpreadText cut.now _delays.now) }
{
    let mut sheet = Sheet::new(alloc);
    spread_rows(&mut sheet, cut, spread)?;
    Text::of(sheet.into_text())
}

// The sentence about the first run to which a delay is given and that is no train of a cut.
fn told_of_no_member(alloc: Global, cut: &Cut, given: &[GivenDelay]) -> Told
    requires { IsSoundCut cut.now }
{
    for one in given {
        if row_named(cut, Some(one.run)).is_none() {
            return told_of_run(alloc, cut, Some(one.run));
        }
    }
    Told::nothing()
}
