//! What comes of the files that words stand for, or of the input.
ghost use Rattle.std.specs.Prelude.{◌≡◌, All, IfOk};
ghost use Rattle.fix_run.specs.Outcomes as spec;
ghost use Rattle.fix_run.specs.Inputs.{input_content, input_name, reads_input};
ghost use Rattle.fix_run.specs.Runs.{AllOutcomes, FilesOutcomes, InputOutcomes};
ghost use Rattle.fix_words.specs.squawk_run.Stops.{IsReadStop};

use crate::files::{Files, fix_files, keep, no_files};
use crate::fixer::Fixer;
use crate::outcome::{FileOutcome, of_bytes, unread};
use fix_output::{FileStore, NoMemory, Source};
use fix_words::{Stop, read_input};
use gate_files::{Order, Refusal, Words, chosen, named_files};
use std::alloc::Global;

// What the input is called.
const NAME: &str = "stdin";

/// Whether the input is to be fixed, and no file: where no file is named, or `-` alone.
pub fn reads_input(files: &Words) -> bool
    ensures { result ≡ reads_input files.now }
{
    match files.len() {
        0 => true,
        1 => files.get(0) == "-",
        _ => false,
    }
}

// Why an input was not read to its end. The stop `NoMemory` ends the run.
fn refusal_of(stop: Stop) -> Result<Refusal, NoMemory>
    requires { IsReadStop stop }
    ensures by { IfOk result (spec.IsStoppedBy stop) }
    ensures unplaced { IfOk result spec.IsUnplaced }
{
    match stop {
        Stop::TooLong => Ok(Refusal::TooLong),
        Stop::ReadFault => Ok(Refusal::Unreadable),
        Stop::NoMemory => Err(NoMemory),
        Stop::BadArguments | Stop::NotUtf8 | Stop::WriteFault => unreachable!(),
    }
}

// What comes of an input that was not read to its end.
fn of_stop(alloc: Global, stop: Stop) -> Result<FileOutcome, NoMemory>
    requires { IsReadStop stop }
    ensures came { IfOk result (spec.IsOfStop input_name stop) }
    ensures sound { IfOk result spec.IsSoundOutcome }
{
    let refusal = refusal_of(stop)?;
    unread(alloc, NAME, refusal)
}

// What comes of the input.
fn input_came<S: Source, M: Fixer>(
    alloc: Global,
    fixer: &M,
    src: &mut S,
) -> Result<FileOutcome, NoMemory>
    ensures came { IfOk result (spec.IsOutcome (M.answers fixer.now) (input_content (S.left src.old)) (S.faults src.old) (S.faults src.new) input_name) }
    ensures sound { IfOk result spec.IsSoundOutcome }
{
    match read_input(alloc, src) {
        Ok(bytes) => of_bytes(alloc, fixer, NAME, bytes.as_slice()),
        Err(stop) => of_stop(alloc, stop),
    }
}

// What comes of the input alone.
fn fix_input<S: Source, M: Fixer>(alloc: Global, fixer: &M, src: &mut S) -> Result<Files, NoMemory>
    ensures come { IfOk result (λ all. InputOutcomes (M.answers fixer.now) (S.left src.old) (S.faults src.old) (S.faults src.new) all.fixed.items all.unread.items) }
    ensures sound { IfOk result (λ all. All spec.IsSound all.unread.items) }
    ensures sound_files { IfOk result (λ all. All spec.IsSoundFile all.fixed.items) }
{
    let came = input_came(alloc, fixer, src)?;
    let mut all = no_files(alloc);
    keep(&mut all, came)?;
    Ok(all)
}

// What comes of the files that words stand for and no pattern leaves out.
fn fix_named<F: FileStore, M: Fixer>(
    alloc: Global,
    fixer: &M,
    files: &mut F,
    patterns: &Words,
    words: &Words,
) -> Result<Files, NoMemory>
    ensures come { IfOk result (λ all. FilesOutcomes (M.answers fixer.now) (F.content files.old) (F.faults files.old) (F.faults files.new) patterns.now words.now all.fixed.items all.unread.items) }
    ensures sound { IfOk result (λ all. All spec.IsSound all.unread.items) }
    ensures sound_files { IfOk result (λ all. All spec.IsSoundFile all.fixed.items) }
{
    let named = named_files(alloc, files, Order::Given, words)?;
    let names = chosen(alloc, patterns, &named)?;
    fix_files(alloc, fixer, files, &names)
}

/// What comes of the files that words stand for, or of the input. The error comes when memory runs out.
pub(crate) fn fix_requested<F: FileStore, S: Source, M: Fixer>(
    alloc: Global,
    fixer: &M,
    patterns: &Words,
    words: &Words,
    files: &mut F,
    src: &mut S,
) -> Result<Files, NoMemory>
    ensures come { IfOk result (λ all. AllOutcomes (M.answers fixer.now)
        (record {
          content = F.content files.old;
          files_before = F.faults files.old;
          files_now = F.faults files.new;
          left = S.left src.old;
          input_before = S.faults src.old;
          input_now = S.faults src.new;
        })
        patterns.now words.now all.fixed.items all.unread.items) }
    ensures sound { IfOk result (λ all. All spec.IsSound all.unread.items) }
    ensures sound_files { IfOk result (λ all. All spec.IsSoundFile all.fixed.items) }
{
    if reads_input(words) {
        fix_input(alloc, fixer, src)
    } else {
        fix_named(alloc, fixer, files, patterns, words)
    }
}
