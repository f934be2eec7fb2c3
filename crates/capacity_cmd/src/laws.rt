//! Laws of the definitions: each function does nothing, and its contract is the law.
ghost use Rattle.std.specs.Prelude.{◌≡◌, length};
ghost use Rattle.rail_outside.specs.InCall.{source_call, sink_call};
ghost use Rattle.made_line.specs.declared.counts.TheConstants as made;
ghost use Rattle.made_line.specs.Base.{base_edits};
ghost use Rattle.capacity_cmd.specs.SessionCall.{SessionWritesJournal};
ghost use Rattle.capacity_cmd.specs.Laws.{OutcomeIsOne, EndsOnAllLeft, SaysMadeLine, LastPublicationsAnswer, ReportIsOfLast, MadeIsOne};

use crate::{DELAY_DIGITS, GIVEN_DELAYS, INPUT_BYTES};
use conflict_finder::LISTED;
use delay_spread::GREATEST_DELAY_S;
use plan_book::{FIRST_NUMBER, PLANNERS, TASKS};
use plan_model::MEMBERS;
use rail_outside::{Sink, Source};
use row_text::{GREATEST_CLOCK_S, HOUR_DIGITS, NUMBER_DIGITS};
use session_run::WORKERS;

/// The promise of a session, in one place: a call with the words `session W` that ends with status
/// 0 has written a journal of the session and the report of the tables at its end, and flushed
/// them.
///
/// - The journal opens with the tables, the number of the last edit and the scripts that the input
///   says. The input is all that reads gave in the call, up to the end.
/// - Each entry is legal after those before it.
/// - The tasks of each planner are done, each once and in order, by the planner's own pass.
/// - Each answer is published by the pass of a worker. Where there are no workers, there is pass 0
///   alone.
/// - In the end every section is current.
pub fn session_writes_journal<S: Source, K: Sink>()
    ensures { SessionWritesJournal
        (source_call S.given S.left S.ended S.faults S.at_fault)
        (sink_call K.taken K.written K.flushed K.faults) }
{}

/// The words and the input of a call leave one outcome: one text or one refusal. Two things are left
/// open: which circuit `cycle` shows, where several allow no lesser period, and the text of a session
/// with workers.
pub fn outcome_is_one()
    ensures { OutcomeIsOne }
{}

/// Where a source tells the bytes that it has left, the outcome of a call is that of the command on
/// all of them.
pub fn ends_on_all_left<S: Source>()
    ensures { EndsOnAllLeft (source_call S.given S.left S.ended S.faults S.at_fault) }
{}

/// Reading the text that `made_line::made_input` writes gives back the line that `made N` stands
/// for: a session on that text is run on the tables, the number of the last edit of the base and
/// the scripts that `made N` runs its own session on.
pub fn made_text_says(n: u32)
    ensures says { SaysMadeLine n }
    ensures at { length (base_edits n) ≡ made.BASE_EDITS }
{}

/// In the end of a session each section was published, and the answer of its last publication is that
/// of its cut. So the report after the journal's rows has the heads of the last publications of all
/// sections, in the order of names, and their total.
pub fn report_is_of_last()
    ensures answers { LastPublicationsAnswer }
    ensures report { ReportIsOfLast }
{}

/// A number has one text of `made`, whatever the order in which the planners and workers of its
/// session come. The text tells what is counted of the base, that the 64 edits of the scripts were
/// made, and what is counted of the tables that they leave.
pub fn made_is_one()
    ensures { MadeIsOne }
{}

/// The limits of an input and of what is answered, by their numbers; those of a line's items are a
/// law of `rail_model`.
pub fn limits()
    ensures input_bytes { INPUT_BYTES ≡ 16777216 }
    ensures planners { PLANNERS ≡ 16 }
    ensures workers { WORKERS ≡ 16 }
    ensures workers_of_made { made.WORKERS ≡ 4 }
    ensures tasks { TASKS ≡ 256 }
    ensures first_number { FIRST_NUMBER ≡ 16777216 }
    ensures number_digits { NUMBER_DIGITS ≡ 9 }
    ensures hour_digits { HOUR_DIGITS ≡ 5 }
    ensures greatest_clock { GREATEST_CLOCK_S ≡ 359999999 }
    ensures given_delays { GIVEN_DELAYS ≡ 64 }
    ensures delay_digits { DELAY_DIGITS ≡ 5 }
    ensures greatest_delay { GREATEST_DELAY_S ≡ 86400 }
    ensures members { MEMBERS ≡ 768 }
    ensures listed { LISTED ≡ 10000 }
{}
