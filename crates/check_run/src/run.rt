//! A run: what comes of the files or of the input, and what is written of it.
ghost use Rattle.std.specs.Prelude.{All, IfErr, IfOk, OnOk};
ghost use Rattle.std.specs.Io.KnownBytes.{Appends};
ghost use Rattle.checked_file.specs.Sound.{IsSound};
ghost use Rattle.check_run.specs.Runs.{AreAnswers, AreFileAnswers, AreLeft, HasRun, HasStopped, IsInputAnswer, StopsWriting};

use crate::files::check_files;
use crate::filter::Filter;
use crate::input::{check_input, reads_input};
use crate::lint::Lint;
use crate::printer::Printer;
use crate::progress::Progress;
use check_words::{Request, Stop};
use checked_file::{Checked, NoMemory, Status, worst};
use file_choice::chosen;
use sql_files::{FileStore, Sink, Source, Words, expanded, write_all};
use std::alloc::Global;

// What comes of the input alone.
fn check_one<S: Source, L: Lint>(
    alloc: Global,
    linter: &mut L,
    src: &mut S,
    name: &str,
) -> Result<Vec<Checked>, NoMemory>
    ensures checked { IfOk result (λ all. IsInputAnswer (L.answers linter.old) (S.left src.old) (S.faults src.old) (S.faults src.new) name.now all.items) }
    ensures sound { IfOk result (λ all. All IsSound all.items) }
{
    let file = check_input(alloc, linter, src, name)?;
    let mut all = Vec::new(alloc);
    all.push(file)?;
    Ok(all)
}

// What comes of the files that words stand for and no pattern leaves out.
fn check_named<F: FileStore, L: Lint, G: Progress>(
    alloc: Global,
    linter: &mut L,
    files: &mut F,
    patterns: &Words,
    words: &Words,
    progress: &mut G,
) -> Result<Vec<Checked>, NoMemory>
    ensures checked { IfOk result (λ all. AreFileAnswers (L.answers linter.old) (F.content files.old) (F.faults files.old) (F.faults files.new) patterns.now words.now all.items) }
    ensures sound { IfOk result (λ all. All IsSound all.items) }
{
    let named = expanded(alloc, files, words)?;
    let names = chosen(alloc, patterns, &named)?;
    let checked = check_files(alloc, linter, files, &names, progress);
    progress.end();
    checked
}

// What comes of the files or of the input.
fn check_asked<F: FileStore, S: Source, L: Lint, G: Progress>(
    alloc: Global,
    request: &Request,
    patterns: &Words,
    linter: &mut L,
    files: &mut F,
    src: &mut S,
    progress: &mut G,
) -> Result<Vec<Checked>, NoMemory>
    ensures checked { IfOk result (λ all. AreAnswers (L.answers linter.old)
        (record {
          content = F.content files.old;
          files_before = F.faults files.old;
          files_now = F.faults files.new;
          left = S.left src.old;
          input_before = S.faults src.old;
          input_now = S.faults src.new;
        })
        patterns.now request.now all.items) }
    ensures sound { IfOk result (λ all. All IsSound all.items) }
{
    if reads_input(&request.files) {
        check_one(alloc, linter, src, request.stdin_name.as_str())
    } else {
        check_named(alloc, linter, files, patterns, &request.files, progress)
    }
}

// What is left of the files or of the input.
fn check_left<F: FileStore, S: Source, L: Lint, V: Filter, G: Progress>(
    alloc: Global,
    request: &Request,
    patterns: &Words,
    linter: &mut L,
    filter: &V,
    files: &mut F,
    src: &mut S,
    progress: &mut G,
) -> Result<Vec<Checked>, NoMemory>
    ensures left { IfOk result (λ all. AreLeft (AreAnswers (L.answers linter.old)
        (record {
          content = F.content files.old;
          files_before = F.faults files.old;
          files_now = F.faults files.new;
          left = S.left src.old;
          input_before = S.faults src.old;
          input_now = S.faults src.new;
        })
        patterns.now request.now)
        (V.leaves filter.now) all.items) }
    ensures sound { IfOk result (λ all. All IsSound all.items) }
{
    let checked = check_asked(alloc, request, patterns, linter, files, src, progress)?;
    filter.apply(alloc, checked)
}

// Writes what came of files.
fn write_checked<P: Printer, K: Sink>(
    alloc: Global,
    printer: &P,
    files: &[Checked],
    out: &mut K,
) -> Result<(), Stop>
    requires { All IsSound files.now }
    ensures whole { OnOk result (Appends (K.held out.old) (K.held out.new) (P.printed printer.now files.now)) }
    ensures stop { IfErr result (λ stop. StopsWriting stop (P.printed printer.now files.now) (K.held out.old) (K.held out.new) (K.faults out.old) (K.faults out.new)) }
{
    match printer.print(alloc, files) {
        Err(NoMemory) => Err(Stop::NoMemory),
        Ok(bytes) => match write_all(out, bytes.as_slice()) {
            Ok(()) => Ok(()),
            Err(_) => Err(Stop::WriteFault),
        },
    }
}

/// Checks what a request asks for: the files that its words stand for, or the input; writes to `out` what the filter leaves of what comes
/// of them, and gives the greatest status of that. Of the files those are left out whose names match one of the patterns, and one that is
/// named twice counts at its first place.
///
/// Each file has its answer, whatever came of the others. All memory is taken before the first write, so a run that lacks it writes
/// nothing. The error is `WriteFault` or `NoMemory`.
pub fn check<F: FileStore, S: Source, K: Sink, L: Lint, V: Filter, P: Printer, G: Progress>(
    alloc: Global,
    request: &Request,
    patterns: &Words,
    linter: &mut L,
    filter: &V,
    printer: &P,
    files: &mut F,
    src: &mut S,
    out: &mut K,
    progress: &mut G,
) -> Result<Status, Stop>
    ensures done { IfOk result (HasRun (AreLeft (AreAnswers (L.answers linter.old)
        (record {
          content = F.content files.old;
          files_before = F.faults files.old;
          files_now = F.faults files.new;
          left = S.left src.old;
          input_before = S.faults src.old;
          input_now = S.faults src.new;
        })
        patterns.now request.now)
        (V.leaves filter.now))
        (P.printed printer.now) (K.held out.old) (K.held out.new)) }
    ensures stopped { IfErr result (HasStopped (AreLeft (AreAnswers (L.answers linter.old)
        (record {
          content = F.content files.old;
          files_before = F.faults files.old;
          files_now = F.faults files.new;
          left = S.left src.old;
          input_before = S.faults src.old;
          input_now = S.faults src.new;
        })
        patterns.now request.now)
        (V.leaves filter.now))
        (P.printed printer.now) (K.held out.old) (K.held out.new) (K.faults out.old) (K.faults out.new)) }
{
    let left = match check_left(
        alloc, request, patterns, linter, filter, files, src, progress,
    ) {
        Ok(left) => left,
        Err(NoMemory) => return Err(Stop::NoMemory),
    };
    let status = worst(left.as_slice());
    match write_checked(alloc, printer, left.as_slice(), out) {
        Ok(()) => Ok(status),
        Err(stop) => Err(stop),
    }
}
