//! Journals: what was done to a timetable and what was asked and answered of it, in order.
use crate::{Answer, Scripts};
use rail_model::{Edit, Name, Rule, Tables};

/// What is said to one who asks for the answer of a section.
#[derive(Clone, Copy)]
pub enum Reply {
    /// The answer that was published last, at the edit of this number, holds still.
    Ready { at: u64 },
    /// An answer was published last at the edit of the number `at`, and the edit of the number `by`
    /// was the last to touch the section after that.
    Stale { at: u64, by: u64 },
    /// No answer was published yet.
    NotYet,
    /// There is no section of this name.
    Unknown,
}

/// What an entry of a journal says. Planner 0 stands for a call outside the scripts.
#[derive(Drop)]
pub enum Act {
    /// The journal begins with these tables, after edits up to the number `at`, and with these
    /// scripts.
    Opened {
        tables: Tables,
        at: u64,
        scripts: Scripts,
    },
    /// A pass of this number was issued.
    Entered {
        number: u32,
    },
    /// An edit was made, and has the number `at`.
    Edited {
        planner: u32,
        at: u64,
        edit: Edit,
    },
    /// An edit was refused by this rule; the tables stayed.
    Refused {
        planner: u32,
        rule: Rule,
        edit: Edit,
    },
    /// The answer of a section was asked for, and this was replied.
    Asked {
        planner: u32,
        section: Name,
        reply: Reply,
    },
    /// The answer of a section was published: that of its cut after the edit of the number `at`.
    Published {
        section: Name,
        at: u64,
        answer: Answer,
    },
}

/// An entry of a journal: what was done, and the number of the pass by which it was done.
#[derive(Drop)]
pub struct Entry {
    pub pass: u32,
    pub act: Act,
}
