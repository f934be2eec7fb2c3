//! A call of the program: its words, its source and its sink.
ghost use Rattle.std.specs.Prelude.{◌≡◌, ◌≢◌, ◌≤◌, ◌⊎◌, ◌↔◌, map, IsTrue, IfOk, IfErr, MatchResult};
ghost use Rattle.std.specs.String.{string_bytes};
ghost use Rattle.rail_outside.specs.InCall.{source_call, sink_call, IsReadToEnd, ReadFailed, NoReadFailed, ShowsNoWriteFailed};
ghost use Rattle.session_run.specs.declared.threads.TheConstants.{WORKERS};
ghost use Rattle.capacity_cmd.specs.declared.command.Command.TheVariants as command;
ghost use Rattle.capacity_cmd.specs.declared.limit.TheConstants.{INPUT_BYTES};
ghost use Rattle.capacity_cmd.specs.declared.status.Status.TheVariants as status;
ghost use Rattle.capacity_cmd.specs.Command.{command_of, made_of, workers_of, workers_asked, IsAlone};
ghost use Rattle.capacity_cmd.specs.Outcome.{EndsInText};
ghost use Rattle.capacity_cmd.specs.Ends.{IsMadeText};
ghost use Rattle.capacity_cmd.specs.Reply.{IsCallReply};
ghost use Rattle.capacity_cmd.specs.Given.{GivesOrRefuses};
ghost use Rattle.capacity_cmd.specs.Promise.{IsEnd, WritesOutcome, RunsCommand, Answers};

use crate::accepted::Accepted;
use crate::command::{command_of, made_of, workers_asked};
use crate::limit::INPUT_BYTES;
use crate::reply::{CallReply, given_or_reply, made_reply, refusal, reply_alone, reply_on_threads};
use crate::send::send;
use crate::{Cause, Command, Status, Told};
use rail_model::OutOfMemory;
use rail_outside::{Gate, Sink, Source, Taken, take_all};
use sentences::told_of_words;
use std::alloc::Global;
use std::sync::Wait;
use std::thread::Threads;

/// Whether a call with these words waits for nobody: `made` and a session with workers have threads
/// that wait for one another, and no other call has.
pub fn alone(words: &[String]) -> bool
    ensures { IsTrue result ↔ IsAlone (map string_bytes words.now) }
{
    made_of(words).is_none() && workers_asked(words) == 0
}

/// Runs a command, or makes a line and counts it. The words are those after the program's name. A
/// session with workers has a thread for each planner and each worker, where one can be made; its
/// planners and workers wait for one another, and pass the gate at the points of their work.
/// Nothing is read of the source where a line is made. The program itself calls `run_telling`; this
/// is for tests and other programs.
pub fn run<R: AllocGlobal + Threads + Wait + Sync, S: Source, K: Sink, G: Gate>(
    rt: &R,
    words: &[String],
    source: &mut S,
    sink: &mut K,
    gate: &G,
) -> Status
    ensures { Answers
        (map string_bytes words.now)
        result
        (source_call S.given S.left S.ended S.faults S.at_fault source.old source.new)
        (sink_call K.taken K.written K.flushed K.faults sink.old sink.new) }
{
    run_telling(rt, words, source, sink, gate, &mut Told::nothing())
}

/// Runs a command as `run` does, and tells people what is wrong with the words, why a row is refused,
/// which named section isn't there, which named run is no train of it, and what the answer of
/// `compress` leaves out. A command that waits for nobody is run by a call that can't wait.
pub fn run_telling<R: AllocGlobal + Threads + Wait + Sync, S: Source, K: Sink, G: Gate>(
    rt: &R,
    words: &[String],
    source: &mut S,
    sink: &mut K,
    gate: &G,
    told: &mut Told,
) -> Status
    ensures { Answers
        (map string_bytes words.now)
        result
        (source_call S.given S.left S.ended S.faults S.at_fault source.old source.new)
        (sink_call K.taken K.written K.flushed K.faults sink.old sink.new) }
{
    match made_of(words) {
        Some(n) => run_made(rt, n, sink, gate),
        None => run_spelled(rt, words, source, sink, gate, told),
    }
}

// Runs the command that the words spell.
fn run_spelled<R: AllocGlobal + Threads + Wait + Sync, S: Source, K: Sink, G: Gate>(
    rt: &R,
    words: &[String],
    source: &mut S,
    sink: &mut K,
    gate: &G,
    told: &mut Told,
) -> Status
    ensures { made_of (map string_bytes words.now) ≡ None → Answers
        (map string_bytes words.now)
        result
        (source_call S.given S.left S.ended S.faults S.at_fault source.old source.new)
        (sink_call K.taken K.written K.flushed K.faults sink.old sink.new) }
{
    let workers = workers_asked(words);
    if workers == 0 {
        return run_spelled_alone(rt, words, source, sink, told);
    }
    match session_reply(rt, workers, source, gate, told) {
        Ok(reply) => send(sink, reply),
        Err(status) => status,
    }
}

// Makes a line from a number, and writes what is counted of it.
fn run_made<R: AllocGlobal + Threads + Wait + Sync, K: Sink, G: Gate>(
    rt: &R,
    n: u32,
    sink: &mut K,
    gate: &G,
) -> Status
    ensures ends { (result ≡ status.Done)
        ⊎ (result ≡ status.WriteFault) ⊎ (result ≡ status.OutOfMemory) }
    ensures writes { WritesOutcome
        (EndsInText (IsMadeText n))
        result
        (sink_call K.taken K.written K.flushed K.faults sink.old sink.new) }
    ensures complete { ShowsNoWriteFailed
        (sink_call K.taken K.written K.flushed K.faults sink.old sink.new)
        → (result ≡ status.Done) ⊎ (result ≡ status.OutOfMemory) }
{
    match made_reply(rt, n, gate) {
        Ok(reply) => send(sink, reply),
        Err(OutOfMemory) => Status::OutOfMemory,
    }
}

/// Runs a command that waits for nobody: it takes memory and may start threads, but no handle to
/// wait. The words are those after the program's name. The program itself calls
/// `run_alone_telling`; this is for tests and other programs.
pub fn run_alone<R: AllocGlobal + Threads + Sync, S: Source, K: Sink>(
    rt: &R,
    words: &[String],
    source: &mut S,
    sink: &mut K,
) -> Status
    requires { IsAlone (map string_bytes words.now) }
    ensures { Answers
        (map string_bytes words.now)
        result
        (source_call S.given S.left S.ended S.faults S.at_fault source.old source.new)
        (sink_call K.taken K.written K.flushed K.faults sink.old sink.new) }
{
    run_alone_telling(rt, words, source, sink, &mut Told::nothing())
}

/// Runs a command as `run_alone` does, and tells people the same things as `run_telling`.
pub fn run_alone_telling<R: AllocGlobal + Threads + Sync, S: Source, K: Sink>(
    rt: &R,
    words: &[String],
    source: &mut S,
    sink: &mut K,
    told: &mut Told,
) -> Status
    requires { IsAlone (map string_bytes words.now) }
    ensures { Answers
        (map string_bytes words.now)
        result
        (source_call S.given S.left S.ended S.faults S.at_fault source.old source.new)
        (sink_call K.taken K.written K.flushed K.faults sink.old sink.new) }
{
    run_spelled_alone(rt, words, source, sink, told)
}

// Runs the command that the words spell, which is one without workers.
fn run_spelled_alone<R: AllocGlobal + Threads + Sync, S: Source, K: Sink>(
    rt: &R,
    words: &[String],
    source: &mut S,
    sink: &mut K,
    told: &mut Told,
) -> Status
    requires { workers_asked (command_of (map string_bytes words.now)) ≡ 0 }
    ensures { made_of (map string_bytes words.now) ≡ None → Answers
        (map string_bytes words.now)
        result
        (source_call S.given S.left S.ended S.faults S.at_fault source.old source.new)
        (sink_call K.taken K.written K.flushed K.faults sink.old sink.new) }
{
    match command_of(rt.alloc(), words) {
        Ok(None) => {
            *told = told_of_words(rt.alloc(), words);
            Status::BadWords
        }
        Ok(Some(command)) => run_command(rt, &command, source, sink, told),
        Err(OutOfMemory) => Status::OutOfMemory,
    }
}

// Runs a command without workers.
fn run_command<R: AllocGlobal + Threads + Sync, S: Source, K: Sink>(
    rt: &R,
    command: &Command,
    source: &mut S,
    sink: &mut K,
    told: &mut Told,
) -> Status
    requires { workers_of command.now ≡ 0 }
    ensures { RunsCommand
        command.now
        result
        (source_call S.given S.left S.ended S.faults S.at_fault source.old source.new)
        (sink_call K.taken K.written K.flushed K.faults sink.old sink.new) }
{
    match reply_from(rt, command, source, told) {
        Ok(reply) => send(sink, reply),
        Err(status) => status,
    }
}

// Reads the input and makes the reply of a command without workers, or says why there is none.
fn reply_from<R: AllocGlobal + Threads + Sync, S: Source>(
    rt: &R,
    command: &Command,
    source: &mut S,
    told: &mut Told,
) -> Result<CallReply, Status>
    requires { workers_of command.now ≡ 0 }
    ensures replies { IfOk result (IsCallReply (IsEnd command.now
        (source_call S.given S.left S.ended S.faults S.at_fault source.old source.new))) }
    ensures whole_input { IfOk result (λ reply. reply.status ≡ status.Done → IsReadToEnd
        (source_call S.given S.left S.ended S.faults S.at_fault source.old source.new)) }
    ensures why { IfErr result (λ why. (why ≡ status.ReadFault) ⊎ (why ≡ status.OutOfMemory)) }
    ensures fault { result ≡ Err status.ReadFault → ReadFailed
        (source_call S.given S.left S.ended S.faults S.at_fault source.old source.new)
        INPUT_BYTES }
    ensures no_fault { result ≢ Err status.ReadFault → NoReadFailed
        (source_call S.given S.left S.ended S.faults S.at_fault source.old source.new) }
{
    match input_from(rt.alloc(), command, source, told)? {
        Ok(given) => Ok(reply_alone(rt, rt.alloc(), command, given, told)?),
        Err(refused) => Ok(refused),
    }
}

// Reads the input and makes the reply of a session with workers, or says why there is none.
fn session_reply<R: AllocGlobal + Threads + Wait + Sync, S: Source, G: Gate>(
    rt: &R,
    workers: u32,
    source: &mut S,
    gate: &G,
    told: &mut Told,
) -> Result<CallReply, Status>
    requires some { 1 ≤ workers }
    requires most { workers ≤ WORKERS }
    ensures replies { IfOk result (IsCallReply (IsEnd (command.Session workers)
        (source_call S.given S.left S.ended S.faults S.at_fault source.old source.new))) }
    ensures whole_input { IfOk result (λ reply. reply.status ≡ status.Done → IsReadToEnd
        (source_call S.given S.left S.ended S.faults S.at_fault source.old source.new)) }
    ensures why { IfErr result (λ why. (why ≡ status.ReadFault) ⊎ (why ≡ status.OutOfMemory)) }
    ensures fault { result ≡ Err status.ReadFault → ReadFailed
        (source_call S.given S.left S.ended S.faults S.at_fault source.old source.new)
        INPUT_BYTES }
    ensures no_fault { result ≢ Err status.ReadFault → NoReadFailed
        (source_call S.given S.left S.ended S.faults S.at_fault source.old source.new) }
{
    let command = Command::Session(workers);
    match input_from(rt.alloc(), &command, source, told)? {
        Ok(given) => Ok(reply_on_threads(rt, rt.alloc(), given, workers, gate)?),
        Err(refused) => Ok(refused),
    }
}

// Reads the input and says what it gives to a command, or the reply that refuses it. The status of
// an error is that of a failed read or of memory that ran out.
fn input_from<S: Source>(
    alloc: Global,
    command: &Command,
    source: &mut S,
    told: &mut Told,
) -> Result<Result<Accepted, CallReply>, Status>
    ensures found { IfOk result (GivesOrRefuses command.now (IsEnd command.now
        (source_call S.given S.left S.ended S.faults S.at_fault source.old source.new))) }
    ensures whole_input { IfOk result (λ found. MatchResult found
        (λ _. IsReadToEnd
        (source_call S.given S.left S.ended S.faults S.at_fault source.old source.new))
        (λ reply. reply.status ≡ status.Done → IsReadToEnd
        (source_call S.given S.left S.ended S.faults S.at_fault source.old source.new))) }
    ensures why { IfErr result (λ why. (why ≡ status.ReadFault) ⊎ (why ≡ status.OutOfMemory)) }
    ensures fault { result ≡ Err status.ReadFault → ReadFailed
        (source_call S.given S.left S.ended S.faults S.at_fault source.old source.new)
        INPUT_BYTES }
    ensures no_fault { result ≢ Err status.ReadFault → NoReadFailed
        (source_call S.given S.left S.ended S.faults S.at_fault source.old source.new) }
{
    match take_all(alloc, source, INPUT_BYTES)? {
        Ok(input) => Ok(given_or_reply(alloc, command, input.slice(), told)?),
        Err(Taken::TooLong) => Ok(Err(refusal(alloc, 0, Cause::TooLong)?)),
        Err(Taken::Failed) => Err(Status::ReadFault),
    }
}
