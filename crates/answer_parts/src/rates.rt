//! Rates, as fields of a row and as a row of their own.
ghost use Rattle.std.specs.Prelude.{◌≡◌, ◌<◌, ◌^◌, ◌++◌, codes, decimal, string_bytes};
ghost use Rattle.std.specs.Prelude.{OnOk, OnErr, IfOk};
ghost use Rattle.row_text.specs.SheetRows.{with_field};
ghost use Rattle.answer_parts.specs.Adding.{AddsFields, AddsRow};
ghost use Rattle.answer_parts.specs.Rows as rows;

use occupancy_rate::Fraction;
use rail_model::{Name, OutOfMemory};
use row_text::Sheet;
use std::alloc::{AllocError, Global};

/// Adds the row of a section's occupancy time rate and of its capacity consumption:
/// `rate,SECTION,OCCUPANCY_RATE,PERCENT,CONSUMPTION,PERCENT,VERDICT`. A row that is open is dropped
/// first. It takes memory; where that runs out, no row is added.
pub fn rate_row(
    alloc: Global,
    sheet: &mut Sheet,
    section: &Name,
    rate: &Fraction,
    consumption: &Fraction,
) -> Result<(), OutOfMemory>
    requires rate { rate.now.num < 2 ^ 100 }
    requires consumption { consumption.now.num < 2 ^ 100 }
    ensures { AddsRow result sheet.old sheet.new
        (rows.rate_row section.now rate.now consumption.now) }
{
    sheet.drop_row();
    sheet.push_field(b"rate")?;
    sheet.push_field(section.bytes())?;
    push_rate(alloc, sheet, rate)?;
    push_consumption(alloc, sheet, consumption)?;
    sheet.end_row()
}

/// Adds a capacity consumption to a row: as a rate, and whether it lies within the capacity,
/// `NUM/DEN,PERCENT,VERDICT`. It takes memory; where that runs out, the row that is open is
/// unknown.
pub fn push_consumption(
    alloc: Global,
    sheet: &mut Sheet,
    consumption: &Fraction,
) -> Result<(), OutOfMemory>
    requires { consumption.now.num < 2 ^ 100 }
    ensures { AddsFields result sheet.old sheet.new (rows.consumption_fields consumption.now) }
{
    push_rate(alloc, sheet, consumption)?;
    push_verdict(sheet, consumption)
}

// Adds a rate to a row: as a fraction, and in per cent, rounded up to two digits behind the point,
// `NUM/DEN,PERCENT`.
fn push_rate(alloc: Global, sheet: &mut Sheet, rate: &Fraction) -> Result<(), OutOfMemory>
    requires { rate.now.num < 2 ^ 100 }
    ensures { AddsFields result sheet.old sheet.new (rows.rate_fields rate.now) }
{
    let fraction = fraction_text(alloc, rate.num(), rate.den())?;
    sheet.push_field(fraction.as_bytes())?;
    let n = rate.hundredths_up();
    let percent = percent_text(alloc, n / 100, n % 100 / 10, n % 10)?;
    sheet.push_field(percent.as_bytes())
}

// NUM/DEN
fn fraction_text(alloc: Global, num: u128, den: u128) -> Result<String, AllocError>
    ensures { IfOk result (λ text. string_bytes text
        ≡ decimal num ++ (codes "/" ++ decimal den)) }
{
    format!(in alloc; "{num}/{den}")
}

// A whole number and two digits behind the point.
fn percent_text(
    alloc: Global,
    whole: u128,
    tenths: u128,
    hundredths: u128,
) -> Result<String, AllocError>
    ensures { IfOk result (λ text. string_bytes text
        ≡ decimal whole ++ (codes "." ++ (decimal tenths ++ decimal hundredths))) }
{
    format!(in alloc; "{whole}.{tenths}{hundredths}")
}

// Adds whether a consumption is within the capacity to a row.
fn push_verdict(sheet: &mut Sheet, consumption: &Fraction) -> Result<(), OutOfMemory>
    ensures ok { OnOk result (sheet.new
        ≡ with_field sheet.old (rows.verdict_text consumption.now)) }
    ensures err { OnErr result (sheet.new ≡ sheet.old) }
{
    if consumption.is_within() {
        return sheet.push_field(b"within");
    }
    sheet.push_field(b"over")
}
