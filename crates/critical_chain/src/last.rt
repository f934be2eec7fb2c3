//! The train that ends its use of a block last.
ghost use Rattle.std.specs.Prelude.{◌≡◌, All, length, option_and_then};
ghost use Rattle.plan_model.specs.Cut.{IsBounded};
ghost use Rattle.plan_model.specs.Members.{member_count};
ghost use Rattle.plan_model.specs.Answer.{last_member};
ghost use Rattle.critical_chain.specs.Parts as parts;

use crate::moved::moved;
use plan_model::FitCut;

// A member that ends its use of a block, and when it does.
#[derive(Clone, Copy)]
pub(crate) struct Latest {
    member: u32,
    until: i64,
}

// The critical train where this block is the busiest.
pub(crate) fn critical_train(cut: &FitCut, entries: &[i64], busiest: Option<u32>) -> Option<u32>
    requires entries { length entries.now ≡ member_count cut.now }
    requires bounded { All IsBounded entries.now }
    ensures { result ≡ option_and_then (last_member cut.now entries.now) busiest }
{
    match busiest {
        Some(block) => last_at(cut, entries, block),
        None => None,
    }
}

// The first member by name that ends its use of a block last, if any uses it.
fn last_at(cut: &FitCut, entries: &[i64], block: u32) -> Option<u32>
    requires entries { length entries.now ≡ member_count cut.now }
    requires bounded { All IsBounded entries.now }
    ensures { result ≡ last_member cut.now entries.now block }
{
    let mut latest = None;
    for i in 0..cut.member_count() {
        if let Some(one) = cut.sound().use_at(i, block) {
            latest = later(latest, i, moved(cut, entries, i, one.end));
        }
    }
    member_of(latest)
}

fn member_of(latest: Option<Latest>) -> Option<u32>
    ensures { result ≡ parts.member_of latest }
{
    match latest {
        Some(latest) => Some(latest.member),
        None => None,
    }
}

// Of the latest so far and of one member more the one that ends later; of two that end at one
// moment, the first.
fn later(latest: Option<Latest>, member: u32, until: i64) -> Option<Latest>
    ensures { result ≡ parts.later latest member until }
{
    match latest {
        Some(latest) if latest.until >= until => Some(latest),
        _ => Some(Latest { member, until }),
    }
}
