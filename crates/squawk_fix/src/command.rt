//! The run of the program, over any source and sinks.
ghost use Rattle.std.specs.Prelude.{◌≡◌, ℕ, IfSome};
ghost use Rattle.std.specs.Str.{IsUtf8};
ghost use Rattle.squawk_run.specs.devices.Faults.{Rose};
ghost use Rattle.squawk_run.specs.Ends.{IsDone, KeptFor, ReadFor, SinkCause, SourceCause, WordsFor};
ghost use Rattle.law_next_fix.specs.sql_tree.Statement.{IsValid};
ghost use Rattle.squawk_run.specs.declared.status.Status.TheVariants as Status;
ghost use Rattle.squawk_run.specs.Statuses.{end_of};
ghost use Rattle.squawk_run.specs.TextChoices.{AreTaken};
ghost use Rattle.squawk_fix.specs.Lines.{Says};
ghost use Rattle.squawk_fix.specs.Outcome.{AnsweredFor};

use crate::answer::{Ended, answer_input, unfixed};
use crate::choose::linter_of;
use squawk_run::{NoMemory, Sink, Source, Status, Words, read_input, say, say_count};
use std::alloc::Global;

/// All of a run but the line on the error sink.
fn work<S: Source, K: Sink>(alloc: Global, words: &Words, src: &mut S, out: &mut K) -> Ended
    ensures words { WordsFor (end_of result.status) (AreTaken words.now) }
    ensures unread { result.status ≡ Status.BadArguments → src.new ≡ src.old }
    ensures read { ReadFor (end_of result.status) (S.left src.old) (S.left src.new) }
    ensures answered { IfSome (S.left src.old)
        (λ t. AnsweredFor result.status words.now t (K.held out.old) (K.held out.new) (λ n. n ≡ result.applied)) }
    ensures kept { KeptFor (end_of result.status) (K.held out.old) (K.held out.new) }
    ensures source { SourceCause (end_of result.status) (S.faults src.old) (S.faults src.new) }
    ensures sink { SinkCause (end_of result.status) (K.faults out.old) (K.faults out.new) }
{
    let mut linter = match linter_of(alloc, words) {
        Ok(Some(linter)) => linter,
        Ok(None) => {
            return Ended {
                status: Status::BadArguments,
                applied: 0,
            };
        }
        Err(NoMemory) => return unfixed(Status::NoMemory),
    };
    match read_input(alloc, src) {
        Ok(input) => answer_input(alloc, &mut linter, input.as_slice(), out),
        Err(stop) => unfixed(Status::from(stop)),
    }
}

/// Writes the line of an end: how many fixes were made, or why no text was fixed.
fn say_end<E: Sink>(err: &mut E, ended: &Ended)
    ensures { Says ended.now.status (E.held err.old) (E.held err.new) (Rose (E.faults err.old) (E.faults err.new)) ended.now.applied }
{
    match ended.status {
        Status::Clean | Status::Found => say_count(err, "fixed: ", ended.applied),
        _ => say(err, &ended.status),
    }
}

/// Reads the words, then all of the input, fixes it as they say, and writes the fixed text to `out`. The line `fixed: N` goes to `err`,
/// N being how many fixes were made, or else the line of the status; a failure there changes no status.
///
/// The clauses say by each status what the words are (`words`), what was read (`read`, `unread`), what the input is, what was written of
/// it and what was counted (`answered`), where nothing was written (`kept`), which failure a fault means (`source`, `sink`), and what the
/// error sink gets (`line`, and of the count `answered`). Where nothing fails, a valid text is fixed (`complete`); only running out of
/// memory is free.
pub fn fix_run<S: Source, K: Sink, E: Sink>(
    alloc: Global,
    words: &Words,
    src: &mut S,
    out: &mut K,
    err: &mut E,
) -> Status
    ensures words { WordsFor (end_of result) (AreTaken words.now) }
    ensures unread { result ≡ Status.BadArguments → src.new ≡ src.old }
    ensures read { ReadFor (end_of result) (S.left src.old) (S.left src.new) }
    ensures answered { IfSome (S.left src.old)
        (λ t. AnsweredFor result words.now t (K.held out.old) (K.held out.new)
        (Says result (E.held err.old) (E.held err.new) (Rose (E.faults err.old) (E.faults err.new)))) }
    ensures kept { KeptFor (end_of result) (K.held out.old) (K.held out.new) }
    ensures source { SourceCause (end_of result) (S.faults src.old) (S.faults src.new) }
    ensures sink { SinkCause (end_of result) (K.faults out.old) (K.faults out.new) }
    ensures line { (applied : ℕ) × Says result (E.held err.old) (E.held err.new) (Rose (E.faults err.old) (E.faults err.new)) applied }
    ensures complete { AreTaken words.now → ¬ (Rose (S.faults src.old) (S.faults src.new))
        → ¬ (Rose (K.faults out.old) (K.faults out.new))
        → IfSome (S.left src.old) (λ t. IsUtf8 t → IsValid t → IsDone (end_of result)) }
{
    let ended = work(alloc, words, src, out);
    say_end(err, &ended);
    ended.status
}
