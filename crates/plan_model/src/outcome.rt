//! What the calls of a board answer.
use crate::Answer;
use rail_model::Rule;

/// What one gets who asks for the answer of a section.
#[derive(Drop)]
pub enum Asked {
    /// The answer that was published last, at the edit of this number, which holds still.
    Ready { at: u64, answer: Answer },
    /// An answer was published last at the edit of the number `at`, and the edit of the number `by`
    /// was the last to touch the section after that.
    Stale { at: u64, by: u64 },
    /// No answer was published yet.
    NotYet,
    /// There is no section of this name.
    Unknown,
}

/// What came of the next task of a script.
#[derive(Drop)]
pub enum Stepped {
    /// Its edit was made, and has this number.
    Edited { at: u64 },
    /// Its edit was refused by this rule.
    Refused { rule: Rule },
    /// The answer was asked for.
    Asked(Asked),
    /// No task is left.
    Ended,
}

/// What is to be answered next.
#[derive(Drop)]
pub enum Next<R> {
    /// A reading of a section: of those of the share that are not current, the first by name.
    Reading(R),
    /// Every section of the share is current. So many tasks are left in all scripts.
    Idle { left: u64 },
}

/// Why an answer is not published.
#[derive(Clone, Copy)]
pub enum NotTaken {
    /// A later edit touches the section; the last one that does has this number.
    Stale { by: u64 },
    /// The section is current since its publication at the edit of this number.
    Current { at: u64 },
}
