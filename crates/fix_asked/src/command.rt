//! The run of the command, over any files and streams.
ghost use Rattle.std.specs.Prelude.{◌≤◌, IfErr, IfOk};
ghost use Rattle.fix_asked.specs.Command as spec;
ghost use Rattle.fix_asked.specs.Noted as said;
ghost use Rattle.fix_run.specs.fix_words.Asked.{asked_of};

use crate::chosen::Chosen;
use crate::failure::{Failure, stopped};
use crate::note::{NEW_ALONE, Note, SAFE_ALONE, note_of};
use crate::settled::{Settled, refused, settle};
use config_file::{FileStore, FileWriter, NoMemory, Sink, Source, Stop, Words, write_all};
use fix_run::{Asked, Done, Fixer, HELP, Request, Status, fix, read_asked};
use std::alloc::Global;

// A run over files, or over the input.
fn fix_request<F: FileStore, W: FileWriter, S: Source, K: Sink, M: Fixer + Chosen + Drop>(
    alloc: Global,
    request: &Request,
    files: &mut F,
    writer: &mut W,
    src: &mut S,
    out: &mut K,
) -> Result<Done, Failure>
    ensures done { IfOk result (λ done. spec.HasFixedFor (λ c wide. M.answers (M.by c wide)) request.now
        (record {
          content = F.content files.old;
          files_before = F.faults files.old;
          files_now = F.faults files.new;
          left = S.left src.old;
          input_before = S.faults src.old;
          input_now = S.faults src.new;
        })
        (record { held = K.held out.old; faults = K.faults out.old; written = W.content writer.old; write_faults = W.faults writer.old })
        (record { held = K.held out.new; faults = K.faults out.new; written = W.content writer.new; write_faults = W.faults writer.new })
        done.status done.lines.items) }
    ensures failed { IfErr result (spec.HasFailedFor (λ c wide. M.answers (M.by c wide)) request.now
        (record {
          content = F.content files.old;
          files_before = F.faults files.old;
          files_now = F.faults files.new;
          left = S.left src.old;
          input_before = S.faults src.old;
          input_now = S.faults src.new;
        })
        (record { held = K.held out.old; faults = K.faults out.old; written = W.content writer.old; write_faults = W.faults writer.old })
        (record { held = K.held out.new; faults = K.faults out.new; written = W.content writer.new; write_faults = W.faults writer.new })) }
{
    let Settled { choices, config } = match settle(alloc, request, files) {
        Ok(settled) => settled,
        Err(failure) => return Err(failure),
    };
    let fixer = M::by_choices(choices.choices, request.with_unsafe);
    let patterns = &config.excluded_paths;
    match fix(alloc, &fixer, patterns, request, files, writer, src, out) {
        Ok(done) => Ok(done),
        Err(stop) => Err(stopped(stop)),
    }
}

// Writes the help.
fn help<K: Sink>(alloc: Global, out: &mut K) -> Result<Done, Failure>
    ensures done { IfOk result (λ done. spec.HasHelped (K.held out.old) (K.held out.new) done.status done.lines.items) }
    ensures failed { IfErr result (spec.HasNotHelped (K.held out.old) (K.held out.new) (K.faults out.old) (K.faults out.new)) }
{
    match write_all(out, HELP.as_bytes()) {
        Ok(()) => Ok(Done {
            status: Status::Clean,
            lines: Vec::new(alloc),
        }),
        Err(_) => Err(Failure::Stop(Stop::WriteFault)),
    }
}

// All of a run but the lines on the error sink.
fn work<F: FileStore, W: FileWriter, S: Source, K: Sink, M: Fixer + Chosen + Drop>(
    alloc: Global,
    asked: Asked,
    files: &mut F,
    writer: &mut W,
    src: &mut S,
    out: &mut K,
) -> Result<Done, Failure>
    ensures done { IfOk result (λ done. spec.HasDone (λ c wide. M.answers (M.by c wide)) asked
        (record {
          content = F.content files.old;
          files_before = F.faults files.old;
          files_now = F.faults files.new;
          left = S.left src.old;
          input_before = S.faults src.old;
          input_now = S.faults src.new;
        })
        (record { held = K.held out.old; faults = K.faults out.old; written = W.content writer.old; write_faults = W.faults writer.old })
        (record { held = K.held out.new; faults = K.faults out.new; written = W.content writer.new; write_faults = W.faults writer.new })
        done.status done.lines.items) }
    ensures failed { IfErr result (spec.HasFailed (λ c wide. M.answers (M.by c wide)) asked
        (record {
          content = F.content files.old;
          files_before = F.faults files.old;
          files_now = F.faults files.new;
          left = S.left src.old;
          input_before = S.faults src.old;
          input_now = S.faults src.new;
        })
        (record { held = K.held out.old; faults = K.faults out.old; written = W.content writer.old; write_faults = W.faults writer.old })
        (record { held = K.held out.new; faults = K.faults out.new; written = W.content writer.new; write_faults = W.faults writer.new })) }
{
    match asked {
        Asked::Fix(request) => {
            fix_request::<F, W, S, K, M>(alloc, &request, files, writer, src, out)
        }
        Asked::Help => help(alloc, out),
        Asked::Refused(fault) => Err(refused(alloc, &fault)),
    }
}

// Writes lines, each of which has its line feed. A failed write changes nothing else.
fn say<E: Sink>(err: &mut E, lines: &[u8])
    ensures said { said.HasSaid lines.now (E.held err.old) (E.held err.new) (E.faults err.old) (E.faults err.new) }
    ensures later { E.faults err.old ≤ E.faults err.new }
{
    let _ = write_all(err, lines);
}

// Writes the note on what is written.
fn say_before<E: Sink>(err: &mut E, note: Option<Note>)
    ensures { said.HasBegun note (E.held err.old) (E.held err.new) (E.faults err.old) (E.faults err.new) }
{
    match note {
        Some(Note::NewAlone) => say(err, NEW_ALONE.as_bytes()),
        Some(Note::SafeAlone) | None => {}
    }
}

// Writes the note on safe fixes.
fn say_after<E: Sink>(err: &mut E, note: Option<Note>)
    ensures { said.HasEnded note (E.held err.old) (E.held err.new) (E.faults err.old) (E.faults err.new) }
{
    match note {
        Some(Note::SafeAlone) => say(err, SAFE_ALONE.as_bytes()),
        Some(Note::NewAlone) | None => {}
    }
}

/// Does what the words after the program's name ask for, of which the first is `fix`: reads the files that they name, or the input, makes
/// the fixes that the classes allow, and prints the differences to `out`, or writes the files or the text that is made of the input. A line
/// about each file of which nothing is made goes to `err`, or the one about a failure; a failure there changes nothing else. A note
/// goes there before files are written, or in the end where `--unsafe` is not there.
pub fn run<F: FileStore, W: FileWriter, S: Source, K: Sink, E: Sink, M: Fixer + Chosen + Drop>(
    alloc: Global,
    words: &Words,
    files: &mut F,
    writer: &mut W,
    src: &mut S,
    out: &mut K,
    err: &mut E,
) -> Result<Status, Failure>
    ensures done { IfOk result (λ status. spec.HasRun (λ c wide. M.answers (M.by c wide)) (asked_of words.now)
        (record {
          content = F.content files.old;
          files_before = F.faults files.old;
          files_now = F.faults files.new;
          left = S.left src.old;
          input_before = S.faults src.old;
          input_now = S.faults src.new;
        })
        (record { held = K.held out.old; faults = K.faults out.old; written = W.content writer.old; write_faults = W.faults writer.old })
        (record { held = K.held out.new; faults = K.faults out.new; written = W.content writer.new; write_faults = W.faults writer.new })
        (λ lines. said.HasSaidFor (asked_of words.now) lines (E.held err.old) (E.held err.new) (E.faults err.old) (E.faults err.new))
        status) }
    ensures failed { IfErr result (spec.HasFailed (λ c wide. M.answers (M.by c wide)) (asked_of words.now)
        (record {
          content = F.content files.old;
          files_before = F.faults files.old;
          files_now = F.faults files.new;
          left = S.left src.old;
          input_before = S.faults src.old;
          input_now = S.faults src.new;
        })
        (record { held = K.held out.old; faults = K.faults out.old; written = W.content writer.old; write_faults = W.faults writer.old })
        (record { held = K.held out.new; faults = K.faults out.new; written = W.content writer.new; write_faults = W.faults writer.new })) }
    ensures line { IfErr result (λ failure. said.HasSaidFailure (asked_of words.now) failure (E.held err.old) (E.held err.new) (E.faults err.old) (E.faults err.new)) }
{
    let asked = match read_asked(alloc, words) {
        Ok(asked) => asked,
        Err(NoMemory) => {
            let failure = Failure::Stop(Stop::NoMemory);
            say(err, failure.line());
            return Err(failure);
        }
    };
    let note = note_of(&asked);
    say_before(err, note);
    match work::<F, W, S, K, M>(alloc, asked, files, writer, src, out) {
        Ok(done) => {
            say(err, done.lines.as_slice());
            say_after(err, note);
            Ok(done.status)
        }
        Err(failure) => {
            say(err, failure.line());
            Err(failure)
        }
    }
}
