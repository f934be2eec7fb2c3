//! The text of each command for an input that is not refused.
ghost use Rattle.std.specs.Prelude.{◌≡◌};
ghost use Rattle.capacity_cmd.specs.declared.limit.TheConstants.{INPUT_BYTES};
ghost use Rattle.capacity_cmd.specs.InputSoFar.{IsWithin};
ghost use Rattle.capacity_cmd.specs.Command.{workers_of};
ghost use Rattle.capacity_cmd.specs.Ends.{EndsOnAccepted};
ghost use Rattle.capacity_cmd.specs.Stopped.{Makes};
ghost use Rattle.plan_book.specs.declared.book.TheConstants.{PLANNERS};

use crate::accepted::Accepted;
use crate::check::check_text;
use crate::compress::compress_text;
use crate::cut::cut_text;
use crate::cycle::cycle_text;
use crate::delays::delays_text;
use crate::fill::fill_text;
use crate::headways::headways_text;
use crate::report::report_text;
use crate::session::text_alone;
use crate::stopped::Stopped;
use crate::{Cause, Command, Told};
use capacity_report::stairs_text;
use row_text::Text;
use std::alloc::Global;
use std::thread::Threads;

// The text of a command without workers for the tables of a line and for planners' scripts, or why
// the input as a whole is refused, and what people are told besides.
pub(crate) fn text_of(
    rt: &(impl Threads + Sync),
    alloc: Global,
    command: &Command,
    given: Accepted,
    told: &mut Told,
) -> Result<Text, Stopped<Cause>>
    requires within { IsWithin PLANNERS INPUT_BYTES given }
    requires alone { workers_of command.now ≡ 0 }
    ensures { Makes (EndsOnAccepted command.now given) result }
{
    let tables = &given.tables;
    match command {
        Command::Stairs => Ok(stairs_text(rt, alloc, tables)?),
        Command::Check => Ok(check_text(rt, alloc, tables)?),
        Command::Compress(section) => compress_text(rt, alloc, tables, *section, told),
        Command::Report => Ok(report_text(rt, alloc, tables)?),
        Command::Headways(section) => headways_text(rt, alloc, tables, *section, told),
        Command::Cut(section) => cut_text(alloc, tables, *section, told),
        Command::Cycle(section) => cycle_text(alloc, tables, *section, told),
        Command::Delays(section, delays) => delays_text(alloc, tables, *section, delays, told),
        Command::Fill(section, run) => fill_text(alloc, tables, *section, *run, told),
        Command::Session(_) => Ok(text_alone(rt, alloc, given)?),
    }
}
