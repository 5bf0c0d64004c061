//! The run of the command, over any files and streams.
ghost use Rattle.std.specs.Prelude.{IfErr, IfOk};
ghost use Rattle.fix_asked.specs.Command.{HasFailed, HasRun};
ghost use Rattle.fix_asked.specs.Noted.{HasSaidFailure, HasSaidFor};
ghost use Rattle.fix_command.specs.Fixes.{fixes_by};
ghost use Rattle.fix_asked.specs.fix_words.Asked.{asked_of};
ghost use Rattle.fix_text.specs.fix_class.Laws.{ConcurrentFixesAreAlone, SafeFixesCutNames, TimeoutFixesSpareOutsideWork};

use crate::fixer::FixLinter;
use fix_asked::{Failure, FileStore, FileWriter, Sink, Source, Status, Words};
use fix_text::classes_tell;
use std::alloc::Global;

/// Does what the words after the program's name ask for, of which the first is `fix`: reads the files that they name, or the input, makes
/// the fixes that the classes allow, and prints the differences to `out`, or writes the files or the text that is made of the input. A line
/// about each file of which nothing is made goes to `err`, or the one about a failure; a failure there changes nothing else. A note
/// goes there before files are written, or in the end where `--unsafe` is not there.
///
/// Of the classes: a safe fix cuts a name (`safe`); where an index is to be built, dropped or rebuilt CONCURRENTLY no transaction is open and no
/// timeout was set (`concurrent`); and no timeout is offered to a text that works on an index (`timeouts`).
pub fn run<F: FileStore, W: FileWriter, S: Source, K: Sink, E: Sink>(
    alloc: Global,
    words: &Words,
    files: &mut F,
    writer: &mut W,
    src: &mut S,
    out: &mut K,
    err: &mut E,
) -> Result<Status, Failure>
    ensures done { IfOk result (λ status. HasRun fixes_by (asked_of words.now)
        (record {
          content = F.content files.old;
          files_before = F.faults files.old;
          files_now = F.faults files.new;
          left = S.left src.old;
          input_before = S.faults src.old;
          input_now = S.faults src.new;
        })
        (record { held = K.held out.old; faults = K.faults out.old; written = W.content writer.old; write_faults = W.faults writer.old })
        (record { held = K.held out.new; faults = K.faults out.new; written = W.content writer.new; write_faults = W.faults writer.new })
        (λ lines. HasSaidFor (asked_of words.now) lines (E.held err.old) (E.held err.new) (E.faults err.old) (E.faults err.new))
        status) }
    ensures failed { IfErr result (HasFailed fixes_by (asked_of words.now)
        (record {
          content = F.content files.old;
          files_before = F.faults files.old;
          files_now = F.faults files.new;
          left = S.left src.old;
          input_before = S.faults src.old;
          input_now = S.faults src.new;
        })
        (record { held = K.held out.old; faults = K.faults out.old; written = W.content writer.old; write_faults = W.faults writer.old })
        (record { held = K.held out.new; faults = K.faults out.new; written = W.content writer.new; write_faults = W.faults writer.new })) }
    ensures safe { SafeFixesCutNames }
    ensures concurrent { ConcurrentFixesAreAlone }
    ensures timeouts { TimeoutFixesSpareOutsideWork }
    ensures line { IfErr result (λ failure. HasSaidFailure (asked_of words.now) failure (E.held err.old) (E.held err.new) (E.faults err.old) (E.faults err.new)) }
{
    classes_tell();
    fix_asked::run::<F, W, S, K, E, FixLinter>(alloc, words, files, writer, src, out, err)
}
