//! The loop.
ghost use Rattle.std.specs.Prelude.{◌≡◌, ◌≤◌, ℕ, List, None, IfErr, OnOk};
ghost use Rattle.lsp_serve.specs.Reading.{coming};
ghost use Rattle.lsp_serve.specs.Served.{Served};
ghost use Rattle.lsp_serve.specs.Turns.{StopsTurn, TakesTurn};
ghost use Rattle.lsp_read.specs.lsp_session.Entry.{IsTakenAs};
ghost use Rattle.lsp_read.specs.lsp_session.Session.{document_of};
ghost use Rattle.lsp_read.specs.lsp_session.declared.stage.Stage.TheVariants.{Fresh};

use crate::Frames;
use crate::end::{End, end_of, exit_at};
use crate::respond::respond;
use devices::{NoMemory, Sink, Source};
use lsp_read::{Checker, Enter, Session};
use std::alloc::Global;

// Reads the next message, and writes what is said to it.
fn take_turn<C: Checker + Enter, S: Source, K: Sink>(
    alloc: Global,
    session: &mut Session<C>,
    frames: &mut Frames,
    source: &mut S,
    out: &mut K,
) -> Result<(), End>
    ensures done { OnOk result (TakesTurn C.shows (IsTakenAs C.enters C.refuses) session.old session.new
        (coming frames.old (S.left source.old)) (coming frames.new (S.left source.new))
        (record { read_faults = S.faults source.old; held = K.held out.old; write_faults = K.faults out.old })
        (record { read_faults = S.faults source.new; held = K.held out.new; write_faults = K.faults out.new })) }
    ensures stop { IfErr result (λ end. StopsTurn end C.shows (IsTakenAs C.enters C.refuses) session.old session.new
        (coming frames.old (S.left source.old)) (coming frames.new (S.left source.new))
        (record { read_faults = S.faults source.old; held = K.held out.old; write_faults = K.faults out.old })
        (record { read_faults = S.faults source.new; held = K.held out.new; write_faults = K.faults out.new })) }
    ensures read_later { S.faults source.old ≤ S.faults source.new }
    ensures write_later { K.faults out.old ≤ K.faults out.new }
{
    match frames.next(source) {
        Ok(Some(content)) => respond(alloc, session, content.as_slice(), out),
        Ok(None) => Err(End::EndOfInput),
        Err(error) => Err(end_of(error)),
    }
}

// Takes turns until the server ends.
fn serve_all<C: Checker + Enter, S: Source, K: Sink>(
    alloc: Global,
    session: &mut Session<C>,
    frames: &mut Frames,
    source: &mut S,
    out: &mut K,
) -> End
    requires fresh { session.old.stage ≡ Fresh }
    requires none { (uri : List ℕ) → document_of uri session.old ≡ None }
    ensures { Served C.shows (IsTakenAs C.enters C.refuses) session.old.checker
        (coming frames.old (S.left source.old))
        (record { read_faults = S.faults source.old; held = K.held out.old; write_faults = K.faults out.old })
        (record { read_faults = S.faults source.new; held = K.held out.new; write_faults = K.faults out.new })
        result }
{
    'serving: for _turn in 0..u64::MAX {
        match take_turn(alloc, session, frames, source, out) {
            Ok(()) => {}
            Err(end) => return end,
        }
        match exit_at(session.stage()) {
            None => {}
            Some(end) => return end,
        }
    }
    End::NoMemory
}

/// Serves a new session: reads messages from a source, and writes to a sink what is said to them, until the client asks to exit, the input
/// ends, or something fails. Reports are those of the checker, which is entered at the root of the workspace when the client begins.
///
/// A message is answered before the next one is read, so there is never a request to cancel. `specs/Served.antt` says what was done by then.
pub fn serve<C: Checker + Enter + Drop, S: Source, K: Sink>(
    alloc: Global,
    checker: C,
    source: &mut S,
    out: &mut K,
) -> End
    ensures { Served C.shows (IsTakenAs C.enters C.refuses) checker
        (S.left source.old)
        (record { read_faults = S.faults source.old; held = K.held out.old; write_faults = K.faults out.old })
        (record { read_faults = S.faults source.new; held = K.held out.new; write_faults = K.faults out.new })
        result }
{
    let mut session = Session::new(alloc, checker);
    match Frames::new(alloc) {
        Ok(mut frames) => serve_all(alloc, &mut session, &mut frames, source, out),
        Err(NoMemory) => End::NoMemory,
    }
}
