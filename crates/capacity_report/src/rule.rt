//! The text of a rule.
ghost use Rattle.std.specs.Prelude.{◌≡◌};
ghost use Rattle.capacity_report.specs.Rows.{rule_text};

use rail_model::Rule;

/// The text of a rule that refuses an edit, as a field of a row.
pub fn rule_text(rule: Rule) -> &'static [u8]
    ensures { result.now ≡ rule_text rule }
{
    match rule {
        Rule::Range => b"range",
        Rule::Twice => b"twice",
        Rule::Unknown => b"unknown",
        Rule::Limit => b"limit",
        Rule::Count => b"count",
        Rule::InUse => b"in-use",
    }
}
