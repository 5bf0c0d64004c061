//! The run of the program, over any source and sinks.
ghost use Rattle.std.specs.Prelude.{◌≡◌, ◌<◌, ◌^◌, length, IfSome};
ghost use Rattle.std.specs.Str.{IsUtf8};
ghost use Rattle.std.specs.Io.KnownBytes.{Appends};
ghost use Rattle.squawk_run.specs.devices.Faults.{Rose};
ghost use Rattle.squawk_run.specs.devices.Parts.{AppendsPart};
ghost use Rattle.migration_gate.specs.GateWords.{AreTaken};
ghost use Rattle.squawk_run.specs.Ends.{IsDone, KeptFor, ReadFor, SinkCause, SourceCause, WordsFor};
ghost use Rattle.migration_gate.specs.Outcome.{HasBundle, JudgedFor};
ghost use Rattle.migration_gate.specs.Statuses.{end_of, line_of};

use crate::config::linter_of;
use crate::judge::judge_input;
use crate::status::{GateStatus, say};
use squawk_linter::NoMemory;
use squawk_run::{Sink, Source, Words, read_input};
use std::alloc::Global;

/// All of a run but the line on the error sink.
fn work<S: Source, K: Sink>(alloc: Global, words: &Words, src: &mut S, out: &mut K) -> GateStatus
    ensures words { WordsFor (end_of result) (AreTaken words.now) }
    ensures unread { result ≡ GateStatus.BadArguments → src.new ≡ src.old }
    ensures read { ReadFor (end_of result) (S.left src.old) (S.left src.new) }
    ensures judged { IfSome (S.left src.old) (λ t. JudgedFor result words.now t (K.held out.old) (K.held out.new)) }
    ensures kept { KeptFor (end_of result) (K.held out.old) (K.held out.new) }
    ensures source { SourceCause (end_of result) (S.faults src.old) (S.faults src.new) }
    ensures sink { SinkCause (end_of result) (K.faults out.old) (K.faults out.new) }
{
    let mut linter = match linter_of(alloc, words) {
        Ok(Some(linter)) => linter,
        Ok(None) => return GateStatus::BadArguments,
        Err(NoMemory) => return GateStatus::NoMemory,
    };
    match read_input(alloc, src) {
        Ok(input) => judge_input(alloc, &mut linter, input.as_slice(), out),
        Err(stop) => GateStatus::from(stop),
    }
}

/// Reads the words, then all of the input, which is a bundle of migration files, and judges the files with the rules and the settings that
/// the words choose. The printed verdict goes to `out`, and the line of the status to `err`, where a failure changes no status.
///
/// The clauses say by each status what the words are (`words`), what was read (`read`, `unread`), what the verdict is, what it means and that it
/// was written (`judged`), where nothing was written (`kept`), which failure a fault means (`source`, `sink`), and what the error sink
/// gets (`line`, `whole_line`). Where nothing fails, a bundle is judged (`complete`); only running out of memory is free.
pub fn gate_run<S: Source, K: Sink, E: Sink>(
    alloc: Global,
    words: &Words,
    src: &mut S,
    out: &mut K,
    err: &mut E,
) -> GateStatus
    ensures words { WordsFor (end_of result) (AreTaken words.now) }
    ensures unread { result ≡ GateStatus.BadArguments → src.new ≡ src.old }
    ensures read { ReadFor (end_of result) (S.left src.old) (S.left src.new) }
    ensures judged { IfSome (S.left src.old) (λ t. JudgedFor result words.now t (K.held out.old) (K.held out.new)) }
    ensures kept { KeptFor (end_of result) (K.held out.old) (K.held out.new) }
    ensures source { SourceCause (end_of result) (S.faults src.old) (S.faults src.new) }
    ensures sink { SinkCause (end_of result) (K.faults out.old) (K.faults out.new) }
    ensures line { AppendsPart (E.held err.old) (E.held err.new) (line_of result) }
    ensures whole_line { ¬ (Rose (E.faults err.old) (E.faults err.new))
        → Appends (E.held err.old) (E.held err.new) (line_of result) }
    ensures complete { AreTaken words.now → ¬ (Rose (S.faults src.old) (S.faults src.new))
        → ¬ (Rose (K.faults out.old) (K.faults out.new))
        → IfSome (S.left src.old) (λ t. IsUtf8 t → length t < 2 ^ 32 → HasBundle t → IsDone (end_of result)) }
{
    let status = work(alloc, words, src, out);
    say(err, &status);
    status
}
