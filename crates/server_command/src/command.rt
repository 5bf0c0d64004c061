//! The run of the program, over any files, source and sinks.
ghost use Rattle.std.specs.Io.KnownBytes.{Appends};
ghost use Rattle.server_command.specs.Asked.{asks_for_help, linter_words};
ghost use Rattle.server_command.specs.Command.{HasHelped, HasRun, HasRunFor};
ghost use Rattle.server_command.specs.Outcomes.{line_of};
ghost use Rattle.refused_word.specs.devices.Faults.{Rose};
ghost use Rattle.refused_word.specs.devices.Parts.{AppendsPart};

use crate::asked::asks_for_help;
use crate::help::HELP;
use crate::outcome::Outcome;
use crate::workspace::first_linter;
use lsp_serve::serve;
use refused_word::{FileStore, NoMemory, Sink, Source, Stop, Words, write_all};
use std::alloc::Global;

// Writes the help.
fn write_help<K: Sink>(out: &mut K) -> Outcome
    ensures { HasHelped HELP.now (K.held out.old) (K.held out.new) (K.faults out.old) (K.faults out.new) result }
{
    match write_all(out, HELP.as_bytes()) {
        Ok(()) => Outcome::Printed,
        Err(_) => Outcome::Failed(Stop::WriteFault),
    }
}

// Serves with the linter that the words choose.
fn serve_words<F: FileStore + Drop, S: Source, K: Sink>(
    alloc: Global,
    words: &Words,
    files: F,
    src: &mut S,
    out: &mut K,
) -> Outcome
    ensures { HasRunFor F.content F.faults (linter_words words.now)
        (record {
          files = files;
          input = S.left src.old;
          old = record { read_faults = S.faults src.old; held = K.held out.old; write_faults = K.faults out.old };
          new = record { read_faults = S.faults src.new; held = K.held out.new; write_faults = K.faults out.new };
        })
        result }
{
    match first_linter(alloc, words, files) {
        Ok(Ok(checker)) => Outcome::Served(serve(alloc, checker, src, out)),
        Ok(Err(line)) => Outcome::Refused(line),
        Err(NoMemory) => Outcome::Failed(Stop::NoMemory),
    }
}

// All of a run but the line on the error sink.
fn work<F: FileStore + Drop, S: Source, K: Sink>(
    alloc: Global,
    words: &Words,
    files: F,
    src: &mut S,
    out: &mut K,
) -> Outcome
    ensures { HasRun F.content F.faults (asks_for_help words.now) HELP.now (linter_words words.now)
        (record {
          files = files;
          input = S.left src.old;
          old = record { read_faults = S.faults src.old; held = K.held out.old; write_faults = K.faults out.old };
          new = record { read_faults = S.faults src.new; held = K.held out.new; write_faults = K.faults out.new };
        })
        result }
{
    match asks_for_help(words) {
        true => write_help(out),
        false => serve_words(alloc, words, files, src, out),
    }
}

/// Does what the words after the program's name ask for, where the first one is `server`: serves from `src` to `out`, or prints to `out`.
/// Why it ended goes to `err` where it did not end in good order, and a failure there changes nothing else.
pub fn run<F: FileStore + Drop, S: Source, K: Sink, E: Sink>(
    alloc: Global,
    words: &Words,
    files: F,
    src: &mut S,
    out: &mut K,
    err: &mut E,
) -> Outcome
    ensures run { HasRun F.content F.faults (asks_for_help words.now) HELP.now (linter_words words.now)
        (record {
          files = files;
          input = S.left src.old;
          old = record { read_faults = S.faults src.old; held = K.held out.old; write_faults = K.faults out.old };
          new = record { read_faults = S.faults src.new; held = K.held out.new; write_faults = K.faults out.new };
        })
        result }
    ensures line { AppendsPart (E.held err.old) (E.held err.new) (line_of result) }
    ensures whole_line { ¬ (Rose (E.faults err.old) (E.faults err.new)) → Appends (E.held err.old) (E.held err.new) (line_of result) }
{
    let outcome = work(alloc, words, files, src, out);
    let _ = write_all(err, outcome.line());
    outcome
}
