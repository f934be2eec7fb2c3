//! A call with some words, and how the process ends after it.
ghost use Rattle.std.specs.Prelude.{◌≡◌};
ghost use Rattle.rail_outside.specs.InCall.{source_call, sink_call};
ghost use Rattle.capacity.specs.Call.{IsCall, EndsAsCall};

use crate::sentence::explain;
use capacity_cmd::{Status, Told, alone, run_alone_telling, run_telling};
use rail_model::ask_for_room;
use rail_outside::{NoWords, OpenGate, Sink, Source, Words};
use std::process::{ExitCode, Termination};
use std::sync::Wait;
use std::thread::Threads;

// Room that is asked for at once: what reading gives back is used again for what comes after it,
// and each thread may ask for less than this (`rail_model::ask_for_room` says why).
const ROOM: usize = 31 * 1_048_576;

// How the process ends. It is made here alone and can't be dropped, so `main` has to end with what
// a call gave it.
pub(crate) struct Ended {
    code: ExitCode,
}

impl Termination for Ended {
    fn report<R: Eprint>(self, _rt: &R) -> ExitCode
        ensures { result ≡ self.code }
    {
        match self {
            Ended { code } => code,
        }
    }
}

// Makes a call, and says on standard error why it isn't done.
pub(crate) fn end_of_call<
    R: AllocGlobal + Eprint + Threads + Wait + Sync,
    W: Words,
    S: Source,
    K: Sink,
>(rt: &R, words: &W, source: &mut S, sink: &mut K) -> Ended
    ensures { EndsAsCall
        result
        (W.told words.now)
        (W.not_text words.now)
        (source_call S.given S.left S.ended S.faults S.at_fault source.old source.new)
        (sink_call K.taken K.written K.flushed K.faults sink.old sink.new) }
{
    ask_for_room(rt.alloc(), ROOM);
    let mut told = Told::nothing();
    let status = call(rt, words, source, sink, &mut told);
    // What can't be said on standard error is said by the exit code.
    let _ = explain(rt, status, told.text());
    Ended {
        code: ExitCode::from(status.number()),
    }
}

// Makes a call, and tells why a row is refused. Words that ask for no session with workers are
// run by a call that can't wait. A word that isn't UTF-8 is no word of a command.
fn call<R: AllocGlobal + Threads + Wait + Sync, W: Words, S: Source, K: Sink>(
    rt: &R,
    words: &W,
    source: &mut S,
    sink: &mut K,
    told: &mut Told,
) -> Status
    ensures { IsCall
        result
        (W.told words.now)
        (W.not_text words.now)
        (source_call S.given S.left S.ended S.faults S.at_fault source.old source.new)
        (sink_call K.taken K.written K.flushed K.faults sink.old sink.new) }
{
    match words.take(rt.alloc()) {
        Ok(words) if alone(&words) => run_alone_telling(rt, &words, source, sink, told),
        Ok(words) => run_telling(rt, &words, source, sink, &OpenGate, told),
        Err(NoWords::NotText) => Status::BadWords,
        Err(NoWords::OutOfMemory) => Status::OutOfMemory,
    }
}
