//! What is said to one message, and the writing of it.
ghost use Rattle.std.specs.Prelude.{◌≡◌, ◌≤◌, IfErr, IfOk, OnOk};
ghost use Rattle.std.specs.Io.KnownBytes.{Appends};
ghost use Rattle.lsp_read.specs.Message.{message_of};
ghost use Rattle.lsp_serve.specs.Said.{said_bytes};
ghost use Rattle.lsp_read.specs.lsp_session.Entry.{IsTakenAs};
ghost use Rattle.lsp_serve.specs.Turns.{Handles, Responds, StopsResponding, StopsSaying};

use crate::end::End;
use crate::push_frame;
use devices::{NoMemory, Sink, write_all};
use lsp_read::{Checker, Enter, Reply, Session, read_message};
use lsp_write::write_reply;
use std::alloc::Global;

// The frame of what is said, if anything is.
fn said_bytes(alloc: Global, said: &Option<Reply>) -> Result<Vec<u8>, NoMemory>
    ensures { IfOk result (λ bytes. bytes.items ≡ said_bytes said.now) }
{
    let mut bytes = Vec::new(alloc);
    if let Some(reply) = said {
        let content = write_reply(alloc, reply)?;
        push_frame(alloc, &mut bytes, content.as_slice())?;
    }
    Ok(bytes)
}

// Writes what is said. All memory is taken before the first write.
fn write_said<K: Sink>(alloc: Global, said: &Option<Reply>, out: &mut K) -> Result<(), End>
    ensures whole { OnOk result (Appends (K.held out.old) (K.held out.new) (said_bytes said.now)) }
    ensures stop { IfErr result (λ end. StopsSaying end (said_bytes said.now) (K.held out.old) (K.held out.new) (K.faults out.old) (K.faults out.new)) }
    ensures later { K.faults out.old ≤ K.faults out.new }
{
    match said_bytes(alloc, said) {
        Err(NoMemory) => Err(End::NoMemory),
        Ok(bytes) => match write_all(out, bytes.as_slice()) {
            Ok(()) => Ok(()),
            Err(_) => Err(End::WriteFault),
        },
    }
}

// Handles the message that a content is.
fn handle_message<C: Checker + Enter>(
    alloc: Global,
    session: &mut Session<C>,
    content: &[u8],
) -> Result<Option<Reply>, NoMemory>
    ensures { IfOk result (Handles C.shows (IsTakenAs C.enters C.refuses) session.old session.new (message_of content.now)) }
{
    let received = read_message(alloc, content)?;
    let message = session.take(received)?;
    let said = session.step(message)?;
    Ok(said)
}

/// Handles the message that a content is, and writes what is said to it. The error is `WriteFault` or `NoMemory`.
pub(crate) fn respond<C: Checker + Enter, K: Sink>(
    alloc: Global,
    session: &mut Session<C>,
    content: &[u8],
    out: &mut K,
) -> Result<(), End>
    ensures done { OnOk result (Responds C.shows (IsTakenAs C.enters C.refuses) session.old session.new (message_of content.now) (K.held out.old) (K.held out.new)) }
    ensures stop { IfErr result (λ end. StopsResponding end C.shows (IsTakenAs C.enters C.refuses) session.old session.new (message_of content.now)
        (K.held out.old) (K.held out.new) (K.faults out.old) (K.faults out.new)) }
    ensures later { K.faults out.old ≤ K.faults out.new }
{
    match handle_message(alloc, session, content) {
        Err(NoMemory) => Err(End::NoMemory),
        Ok(said) => write_said(alloc, &said, out),
    }
}
