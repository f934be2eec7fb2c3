//! The reply to an input: the text to write, and the status that says so.
ghost use Rattle.std.specs.Prelude.{◌≡◌, ◌⊎◌, ◌≤◌, length, IfOk};
ghost use Rattle.session_run.specs.declared.threads.TheConstants.{WORKERS};
ghost use Rattle.capacity_cmd.specs.declared.command.Command.TheVariants as command;
ghost use Rattle.capacity_cmd.specs.declared.status.Cause.TheVariants as causes;
ghost use Rattle.capacity_cmd.specs.Command.{workers_of};
ghost use Rattle.capacity_cmd.specs.Outcome.{Refuses, EndsInText, cause_text};
ghost use Rattle.capacity_cmd.specs.Ends.{IsMadeText, EndsOnAccepted, EndsOn};
ghost use Rattle.capacity_cmd.specs.Outcome as outcome;
ghost use Rattle.capacity_cmd.specs.InputSoFar.{IsWithin};
ghost use Rattle.plan_book.specs.declared.book.TheConstants.{PLANNERS};
ghost use Rattle.sentences.specs.Told.{IsOfRow};
ghost use Rattle.capacity_cmd.specs.Reply.{Says, IsCallReply};
ghost use Rattle.capacity_cmd.specs.Given.{GivesOrRefuses};

use crate::accepted::Accepted;
use crate::input::accepted_of_text;
use crate::limit::INPUT_BYTES;
use crate::made::made_text;
use crate::refusal::Refusal;
use crate::session::text_on_threads;
use crate::stopped::Stopped;
use crate::texts::text_of;
use crate::{Cause, Command, Status, Told};
use capacity_report::rule_text;
use plan_book::TASKS;
use rail_model::{Form, OutOfMemory};
use rail_outside::Gate;
use row_text::{Sheet, Text};
use sentences::{Fault, told_of_row};
use std::alloc::Global;
use std::sync::Wait;
use std::thread::Threads;

// What a call writes to its sink, and the status with which it ends.
#[derive(Drop)]
pub(crate) struct CallReply {
    pub(crate) text: Text,
    pub(crate) status: Status,
}

// What an input that isn't too long gives to a command, or the reply that refuses it.
pub(crate) fn given_or_reply(
    alloc: Global,
    command: &Command,
    input: &[u8],
    told: &mut Told,
) -> Result<Result<Accepted, CallReply>, OutOfMemory>
    requires { length input.now ≤ INPUT_BYTES }
    ensures { IfOk result (GivesOrRefuses command.now (EndsOn command.now input.now)) }
{
    let planners = command.planners();
    match accepted_of_text(alloc, planners, input) {
        Ok(given) => Ok(Ok(given)),
        Err(Stopped::Refused(refused)) => {
            let reply = refusal_told(alloc, input, planners, refused, told)?;
            Ok(Err(reply))
        }
        Err(Stopped::OutOfMemory) => Err(OutOfMemory),
    }
}

// The refusal of a row, and what people are told of it.
fn refusal_told(
    alloc: Global,
    input: &[u8],
    planners: usize,
    refused: Refusal,
    told: &mut Told,
) -> Result<CallReply, OutOfMemory>
    ensures says { IfOk result (Says (Refuses refused.row refused.cause)) }
    ensures told { (told.new ≡ told.old) ⊎ IsOfRow refused.row told.new }
{
    if let Some(fault) = fault_of(planners, refused.cause) {
        *told = told_of_row(alloc, input, refused.row, fault);
    }
    refusal(alloc, refused.row, refused.cause)
}

// What a sentence says of a row that is refused for a cause, for a command that takes the scripts
// of so many planners. No row is refused for the last three.
fn fault_of(planners: usize, cause: Cause) -> Option<Fault> {
    match cause {
        Cause::Form(form) => Some(Fault::Form(form)),
        Cause::Rule(rule) => Some(Fault::Rule(rule)),
        Cause::Script => Some(Fault::Script {
            planners,
            tasks: TASKS,
        }),
        Cause::TooLong | Cause::NoSection | Cause::NoMember => None,
    }
}

// The reply of a command without workers to an input that is not refused.
pub(crate) fn reply_alone(
    rt: &(impl Threads + Sync),
    alloc: Global,
    command: &Command,
    given: Accepted,
    told: &mut Told,
) -> Result<CallReply, OutOfMemory>
    requires within { IsWithin PLANNERS INPUT_BYTES given }
    requires alone { workers_of command.now ≡ 0 }
    ensures { IfOk result (IsCallReply (EndsOnAccepted command.now given)) }
{
    match text_of(rt, alloc, command, given, told) {
        Ok(text) => Ok(CallReply {
            text,
            status: Status::Done,
        }),
        Err(Stopped::Refused(cause)) => refusal(alloc, 0, cause),
        Err(Stopped::OutOfMemory) => Err(OutOfMemory),
    }
}

// The reply of a session with workers to an input that is not refused.
pub(crate) fn reply_on_threads<R: Threads + Wait + Sync, G: Gate>(
    rt: &R,
    alloc: Global,
    given: Accepted,
    workers: u32,
    gate: &G,
) -> Result<CallReply, OutOfMemory>
    requires within { IsWithin PLANNERS INPUT_BYTES given }
    requires some { 1 ≤ workers }
    requires most { workers ≤ WORKERS }
    ensures { IfOk result (IsCallReply (EndsOnAccepted (command.Session workers) given)) }
{
    Ok(CallReply {
        text: text_on_threads(rt, alloc, given, workers, gate)?,
        status: Status::Done,
    })
}

// The reply to one who asks for a line to be made from a number.
pub(crate) fn made_reply<R: AllocGlobal + Threads + Wait + Sync, G: Gate>(
    rt: &R,
    n: u32,
    gate: &G,
) -> Result<CallReply, OutOfMemory>
    ensures { IfOk result (IsCallReply (EndsInText (IsMadeText n))) }
{
    Ok(CallReply {
        text: Text::of(made_text(rt, rt.alloc(), n, gate)?)?,
        status: Status::Done,
    })
}

// The refusal of a row.
pub(crate) fn refusal(alloc: Global, row: u64, cause: Cause) -> Result<CallReply, OutOfMemory>
    ensures { IfOk result (Says (Refuses row cause)) }
{
    Ok(CallReply {
        text: Text::of(refusal_text(alloc, row, cause)?)?,
        status: Status::Refused { row, cause },
    })
}

fn refusal_text(alloc: Global, row: u64, cause: Cause) -> Result<Vec<u8>, OutOfMemory>
    ensures { IfOk result (λ text. text.items ≡ outcome.outcome_text (outcome.Refuses row cause)) }
{
    let mut sheet = Sheet::new(alloc);
    sheet.push_field(b"refused")?;
    sheet.push_count(row)?;
    sheet.push_field(cause_text(cause))?;
    sheet.end_row()?;
    Ok(sheet.into_text())
}

// The text of a cause in the row of a refusal.
fn cause_text(cause: Cause) -> &'static [u8]
    ensures { result.now ≡ cause_text cause }
{
    match cause {
        Cause::Form(form) => form_text(form),
        Cause::Rule(rule) => rule_text(rule),
        Cause::TooLong => b"too-long",
        Cause::NoSection => b"no-section",
        Cause::NoMember => b"no-member",
        Cause::Script => b"script",
    }
}

fn form_text(form: Form) -> &'static [u8]
    ensures { result.now ≡ cause_text (causes.Form form) }
{
    match form {
        Form::Kind => b"kind",
        Form::Fields => b"fields",
        Form::Number => b"number",
        Form::BadName => b"name",
        Form::Order => b"order",
    }
}
