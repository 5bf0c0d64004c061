//! The run of the program, over any source and sinks.
ghost use Rattle.std.specs.Prelude.{◌≡◌, IfSome};
ghost use Rattle.std.specs.Str.{IsUtf8};
ghost use Rattle.std.specs.Io.KnownBytes.{Appends};
ghost use Rattle.squawk_run.specs.devices.Faults.{Rose};
ghost use Rattle.squawk_run.specs.devices.Parts.{AppendsPart};
ghost use Rattle.squawk_run.specs.Ends.{IsDone, KeptFor, ReadFor, SinkCause, SourceCause, WordsFor};
ghost use Rattle.squawk_linter.specs.sql_tree.Statement.{IsValid};
ghost use Rattle.squawk_run.specs.declared.status.Status.TheVariants as Status;
ghost use Rattle.squawk_run.specs.TextChoices.{AreTaken};
ghost use Rattle.squawk_run.specs.Statuses.{end_of, line_of};
ghost use Rattle.squawk_diag.specs.Outcome.{AnsweredFor};

use crate::answer::answer_input;
use crate::choose::linter_of;
use squawk_linter::NoMemory;
use squawk_run::{Sink, Source, Status, Words, read_input, say};
use std::alloc::Global;

/// All of a run but the line on the error sink.
fn work<S: Source, K: Sink>(alloc: Global, words: &Words, src: &mut S, out: &mut K) -> Status
    ensures words { WordsFor (end_of result) (AreTaken words.now) }
    ensures unread { result ≡ Status.BadArguments → src.new ≡ src.old }
    ensures read { ReadFor (end_of result) (S.left src.old) (S.left src.new) }
    ensures answered { IfSome (S.left src.old) (λ t. AnsweredFor result words.now t (K.held out.old) (K.held out.new)) }
    ensures kept { KeptFor (end_of result) (K.held out.old) (K.held out.new) }
    ensures source { SourceCause (end_of result) (S.faults src.old) (S.faults src.new) }
    ensures sink { SinkCause (end_of result) (K.faults out.old) (K.faults out.new) }
{
    let mut linter = match linter_of(alloc, words) {
        Ok(Some(linter)) => linter,
        Ok(None) => return Status::BadArguments,
        Err(NoMemory) => return Status::NoMemory,
    };
    match read_input(alloc, src) {
        Ok(input) => answer_input(alloc, &mut linter, input.as_slice(), out),
        Err(stop) => Status::from(stop),
    }
}

/// Reads the words, then all of the input, lints it as they say, and writes its diagnostics to `out`, as one line of JSON. The line of
/// the status goes to `err`, and a failure there changes no status.
///
/// The clauses say by each status what the words are (`words`), what was read (`read`, `unread`), what the input is and what was
/// written of it (`answered`), where nothing was written (`kept`), which failure a fault means (`source`, `sink`), and what the
/// error sink gets (`line`, `whole_line`). Where nothing fails, a valid text is answered (`complete`); only running out of memory is
/// free.
pub fn diag_run<S: Source, K: Sink, E: Sink>(
    alloc: Global,
    words: &Words,
    src: &mut S,
    out: &mut K,
    err: &mut E,
) -> Status
    ensures words { WordsFor (end_of result) (AreTaken words.now) }
    ensures unread { result ≡ Status.BadArguments → src.new ≡ src.old }
    ensures read { ReadFor (end_of result) (S.left src.old) (S.left src.new) }
    ensures answered { IfSome (S.left src.old) (λ t. AnsweredFor result words.now t (K.held out.old) (K.held out.new)) }
    ensures kept { KeptFor (end_of result) (K.held out.old) (K.held out.new) }
    ensures source { SourceCause (end_of result) (S.faults src.old) (S.faults src.new) }
    ensures sink { SinkCause (end_of result) (K.faults out.old) (K.faults out.new) }
    ensures line { AppendsPart (E.held err.old) (E.held err.new) (line_of result) }
    ensures whole_line { ¬ (Rose (E.faults err.old) (E.faults err.new))
        → Appends (E.held err.old) (E.held err.new) (line_of result) }
    ensures complete { AreTaken words.now → ¬ (Rose (S.faults src.old) (S.faults src.new))
        → ¬ (Rose (K.faults out.old) (K.faults out.new))
        → IfSome (S.left src.old) (λ t. IsUtf8 t → IsValid t → IsDone (end_of result)) }
{
    let status = work(alloc, words, src, out);
    say(err, &status);
    status
}
