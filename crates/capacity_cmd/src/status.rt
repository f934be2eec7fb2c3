//! How a call ends, and why an input is refused.
ghost use Rattle.std.specs.Prelude.{◌≡◌};
ghost use Rattle.capacity_cmd.specs.declared.status.Status.TheVariants as status;

use rail_model::{Form, OutOfMemory, Rule};
use thiserror::Error;

/// Why an input is refused.
#[derive(Clone, Copy, Debug, PartialEq, Eq, Error)]
pub enum Cause {
    /// What is wrong with the form of the row.
    #[error("the row has a wrong form")]
    Form(Form),
    /// The rule that refuses the row's edit.
    #[error("the row breaks a rule of the tables")]
    Rule(Rule),
    /// The input has more than `INPUT_BYTES` bytes.
    #[error("the input is longer than 16,777,216 bytes")]
    TooLong,
    /// The named section isn't in the tables.
    #[error("no section has that name")]
    NoSection,
    /// The named run is no train of the section: it has no row in the section's cut.
    #[error("no train of the section has that name")]
    NoMember,
    /// The row may not stand at its place in the input: rows `planner` and `ask` stand in sessions
    /// alone, planners in the order of their numbers and at most `PLANNERS`, a question below a
    /// planner, and there are at most `TASKS` tasks.
    #[error("the row may not stand there")]
    Script,
}

/// How a call of the program ends.
#[derive(Clone, Copy, Debug, PartialEq, Eq)]
pub enum Status {
    /// The whole text of the command is written.
    Done,
    /// The input is refused at a row, counted from 1, or as a whole, with row 0. The row of the
    /// refusal is written.
    Refused { row: u64, cause: Cause },
    /// The words spell no command. Nothing is read, and nothing is written.
    BadWords,
    /// A read failed. Nothing is written.
    ReadFault,
    /// A write or a flush failed. A prefix of the text or of the refusal's row is written.
    WriteFault,
    /// Memory ran out. Nothing is written.
    OutOfMemory,
}

impl From<OutOfMemory> for Status {
    ghost from_gives = { λ _ ended. ended ≡ status.OutOfMemory };

    fn from(_: OutOfMemory) -> Self {
        Status::OutOfMemory
    }
}

impl Status {
    ghost use Rattle.capacity_cmd.specs.Outcome.{status_number};

    /// The number with which the program ends.
    pub fn number(self) -> u8
        ensures { result ≡ status_number self }
    {
        match self {
            Status::Done => 0,
            Status::Refused { .. } => 1,
            Status::BadWords => 2,
            Status::ReadFault => 3,
            Status::WriteFault => 4,
            Status::OutOfMemory => 5,
        }
    }
}
