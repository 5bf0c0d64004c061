//! The run of the program, over any source and sinks.
ghost use Rattle.std.specs.Prelude.{◌≡◌, ◌⊎◌, IfSome, IsSome};
ghost use Rattle.std.specs.Str.{IsUtf8};
ghost use Rattle.std.specs.Io.KnownBytes.{Appends};
ghost use Rattle.squawk_run.specs.devices.Faults.{Rose};
ghost use Rattle.squawk_run.specs.devices.Parts.{AppendsPart};
ghost use Rattle.squawk_run.specs.squawk_words.Choices.{IsAccepted};
ghost use Rattle.squawk_linter.specs.sql_tree.Statement.{IsValid};
ghost use Rattle.squawk_run.specs.Statuses.{line_of};
ghost use Rattle.squawk_cli.specs.Modes.{given_text, groups_to_make};
ghost use Rattle.squawk_cli.specs.CleanRun.{CleanFor};
ghost use Rattle.squawk_cli.specs.Headline.{HeadlineFor};
ghost use Rattle.squawk_cli.specs.Outcome.{WordsFor, ReadFor, InputFor, WrittenFor, KeptFor, SourceCause, SinkCause, IsDone, EndForMade};

use crate::config::read_words;
use crate::input::lint_input;
use crate::modes::{text_for, write_found};
use law_made_texts::laws::made_is_valid;
use squawk_linter::clean::clean_answers;
use squawk_linter::laws::headline;
use squawk_print_locks::WriteError;
use squawk_run::{Sink, Source, Status, Words, say};
use std::alloc::Global;

/// All of a run but the line on the error sink.
fn work<S: Source, K: Sink>(alloc: Global, words: &Words, src: &mut S, out: &mut K) -> Status
    ensures words { WordsFor result words.now }
    ensures unread { (result ≡ Status.BadArguments) ⊎ IsSome (groups_to_make words.now) → src.new ≡ src.old }
    ensures read { ReadFor result words.now (S.left src.old) (S.left src.new) }
    ensures input { IfSome (given_text words.now (S.left src.old)) (λ t. InputFor result words.now t) }
    ensures written { IfSome (given_text words.now (S.left src.old)) (λ t. WrittenFor result words.now t (K.held out.old) (K.held out.new)) }
    ensures kept { KeptFor result (K.held out.old) (K.held out.new) }
    ensures source { SourceCause result (S.faults src.old) (S.faults src.new) }
    ensures sink { SinkCause result (K.faults out.old) (K.faults out.new) }
{
    let (mut linter, locks, generate) = match read_words(alloc, words) {
        Ok(Some(config)) => (config.linter, config.locks, config.generate),
        Ok(None) => return Status::BadArguments,
        Err(_) => return Status::NoMemory,
    };
    let text = match text_for(alloc, generate, src) {
        Ok(text) => text,
        Err(stop) => return Status::from(stop),
    };
    let found = match lint_input(alloc, &mut linter, locks, text.as_slice()) {
        Ok(found) => found,
        Err(refused) => return refused,
    };
    match write_found(alloc, generate, out, &found) {
        Ok(()) => {
            if found.is_clean() {
                Status::Clean
            } else {
                Status::Found
            }
        }
        Err(WriteError::Fault) => Status::WriteFault,
        Err(WriteError::NoMemory) => Status::NoMemory,
    }
}

/// Reads the words, then all of the input, lints it as they say, and writes the printed reports to `out`. The line of
/// the status goes to `err`, and a failure there changes no status.
///
/// Where the words have `--locks`, the work that the text does under locks follows the printed reports, a line for each, and
/// at last a line that says whether the text is plain.
///
/// Where the words have `--generate`, a made text is linted and nothing is read, and in place of the printed reports a
/// summary of them is written: how many each rule has, and how many there are.
///
/// The clauses say by each status what the words and the text are (`words`, `input`), what was read and written (`read`,
/// `unread`, `written`, `kept`), which failure a fault stands for (`source`, `sink`), and what the error sink gets
/// (`line`, `whole_line`). What is reported of index builds and of added constraints, `headline` says by the statements of
/// the text alone. What it means for the printed work that nothing is reported, `clean` says. Where nothing fails, a valid
/// text is linted (`complete`); only running out of memory is free. A made text is always linted: only a failed write or
/// running out of memory ends its run otherwise (`made`). Of a made text all of it holds also where a source does not tell its
/// bytes.
pub fn run<S: Source, K: Sink, E: Sink>(
    alloc: Global,
    words: &Words,
    src: &mut S,
    out: &mut K,
    err: &mut E,
) -> Status
    ensures words { WordsFor result words.now }
    ensures unread { (result ≡ Status.BadArguments) ⊎ IsSome (groups_to_make words.now) → src.new ≡ src.old }
    ensures read { ReadFor result words.now (S.left src.old) (S.left src.new) }
    ensures input { IfSome (given_text words.now (S.left src.old)) (λ t. InputFor result words.now t) }
    ensures written { IfSome (given_text words.now (S.left src.old)) (λ t. WrittenFor result words.now t (K.held out.old) (K.held out.new)) }
    ensures headline { IfSome (given_text words.now (S.left src.old)) (λ t. HeadlineFor result words.now t (K.held out.old) (K.held out.new)) }
    ensures clean { IfSome (given_text words.now (S.left src.old)) (λ t. CleanFor result words.now t (K.held out.old) (K.held out.new)) }
    ensures made { IsSome (groups_to_make words.now) → EndForMade result }
    ensures kept { KeptFor result (K.held out.old) (K.held out.new) }
    ensures source { SourceCause result (S.faults src.old) (S.faults src.new) }
    ensures sink { SinkCause result (K.faults out.old) (K.faults out.new) }
    ensures line { AppendsPart (E.held err.old) (E.held err.new) (line_of result) }
    ensures whole_line { ¬ (Rose (E.faults err.old) (E.faults err.new))
        → Appends (E.held err.old) (E.held err.new) (line_of result) }
    ensures complete { IsAccepted words.now → ¬ (Rose (S.faults src.old) (S.faults src.new))
        → ¬ (Rose (K.faults out.old) (K.faults out.new))
        → IfSome (given_text words.now (S.left src.old)) (λ t. IsUtf8 t → IsValid t → IsDone result) }
{
    headline();
    clean_answers();
    made_is_valid();
    let status = work(alloc, words, src, out);
    say(err, &status);
    status
}
