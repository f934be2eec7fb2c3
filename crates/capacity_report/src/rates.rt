//! The rates of a compressed timetable.
ghost use Rattle.std.specs.Prelude.{◌≡◌, ◌<◌, ◌^◌};
ghost use Rattle.answer_parts.specs.Adding.{AddsRow};
ghost use Rattle.plan_model.specs.Answer as rates;
ghost use Rattle.capacity_report.specs.Answers as rows;

use occupancy_rate::{Fraction, consumption};
use plan_model::Plan;
use rail_model::{Name, OutOfMemory};
use row_text::Sheet;
use std::alloc::Global;

// Adds the row of the rates.
pub(crate) fn rate_row(
    alloc: Global,
    sheet: &mut Sheet,
    section: &Name,
    plan: &Plan,
) -> Result<(), OutOfMemory>
    requires { plan.now.from_s < plan.now.to_s }
    ensures { AddsRow result sheet.old sheet.new (rows.rate_row section.now plan.now) }
{
    answer_parts::rate_row(alloc, sheet, section, &rate_of(plan), &consumption_of(plan))
}

// The occupancy time rate.
fn rate_of(plan: &Plan) -> Fraction
    requires { plan.now.from_s < plan.now.to_s }
    ensures same { result ≡ rows.rate_of plan.now }
    ensures bounded { result.num < 2 ^ 100 }
{
    Fraction::of(
        u128::from(plan.occupancy),
        u128::from(plan.to_s - plan.from_s),
    )
}

// The capacity consumption.
fn consumption_of(plan: &Plan) -> Fraction
    requires { plan.now.from_s < plan.now.to_s }
    ensures same { result ≡ rows.consumption_of plan.now }
    ensures bounded { result.num < 2 ^ 100 }
{
    consumption(plan.occupancy, plan.add_percent, plan.to_s - plan.from_s)
}

// Whether the capacity consumption is at most 1.
pub(crate) fn is_within(plan: &Plan) -> bool
    requires { plan.now.from_s < plan.now.to_s }
    ensures { result ≡ rates.is_within (rows.consumption_of plan.now) }
{
    is_at_most_one(plan.occupancy, plan.add_percent, plan.to_s - plan.from_s)
}

// Whether the consumption by these numbers is at most 1. Its parts are compared as they are, since
// a fraction need not be reduced for that.
fn is_at_most_one(occupancy: u64, add_percent: u32, period_s: u32) -> bool
    requires { 0 < period_s }
    ensures { result ≡ rates.is_within (rates.consumption occupancy add_percent period_s) }
{
    u128::from(occupancy) * (100 + u128::from(add_percent)) <= 100 * u128::from(period_s)
}
