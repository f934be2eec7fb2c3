//! Writing a reply.
ghost use Rattle.rail_outside.specs.InCall.{sink_call};
ghost use Rattle.capacity_cmd.specs.Reply.{IsSent};

use crate::Status;
use crate::reply::CallReply;
use rail_outside::{Sink, send_each};

// Writes the whole text of a reply and flushes it, and says its status, unless a write fails.
pub(crate) fn send<K: Sink>(sink: &mut K, reply: CallReply) -> Status
    ensures { IsSent
        (sink_call K.taken K.written K.flushed K.faults sink.old sink.new)
        reply
        result }
{
    match send_each(sink, reply.text.pieces()) {
        Ok(()) => reply.status,
        Err(_) => Status::WriteFault,
    }
}
