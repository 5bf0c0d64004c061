//! From the bytes of an input to the written verdict.
ghost use Rattle.std.specs.Prelude.{◌≡◌, ◌<◌, ◌^◌, All, length};
ghost use Rattle.squawk_linter.specs.law_clean.Clean.{HasDefaults};
ghost use Rattle.migration_gate.specs.Verdict.{names_of, shown, texts_of};
ghost use Rattle.migration_gate.specs.PrintedVerdict.{printed_verdict};
ghost use Rattle.squawk_run.specs.Ends.{KeptFor, SinkCause};
ghost use Rattle.migration_gate.specs.Outcome.{JudgedAs, ShownAs, WroteAs, status_of};
ghost use Rattle.migration_gate.specs.Statuses.{end_of};

use crate::status::GateStatus;
use crate::{BundleError, GateFile, Verdict, gate, print_verdict, read_bundle};
use squawk_linter::{Linter, NoMemory};
use squawk_run::{Failed, Sink, text_in, write_all};
use std::alloc::Global;

fn status_of(verdict: &Verdict) -> GateStatus
    ensures { result ≡ status_of (shown verdict.now) }
{
    match verdict {
        Verdict::Accepted { .. } => GateStatus::Accepted,
        Verdict::Rejected { .. } => GateStatus::Rejected,
    }
}

/// Writes the verdict on files.
fn write_verdict<K: Sink>(
    alloc: Global,
    files: &[GateFile<'_>],
    verdict: &Verdict,
    out: &mut K,
) -> GateStatus
    requires { length files.now < 2 ^ 32 }
    ensures wrote { WroteAs result (shown verdict.now) (printed_verdict (names_of files.now) (shown verdict.now)) (K.held out.old) (K.held out.new) }
    ensures kept { KeptFor (end_of result) (K.held out.old) (K.held out.new) }
    ensures sink { SinkCause (end_of result) (K.faults out.old) (K.faults out.new) }
{
    match print_verdict(alloc, files, verdict) {
        Err(NoMemory) => GateStatus::NoMemory,
        Ok(bytes) => match write_all(out, &bytes) {
            Ok(()) => status_of(verdict),
            Err(Failed) => GateStatus::WriteFault,
        },
    }
}

/// Judges files and writes the verdict.
fn judge_files<K: Sink>(
    alloc: Global,
    linter: &mut Linter,
    files: &[GateFile<'_>],
    out: &mut K,
) -> GateStatus
    requires rules { HasDefaults linter.old.rules }
    requires few { length files.now < 2 ^ 32 }
    requires short { All (λ t. length t < 2 ^ 32) (texts_of files.now) }
    ensures shown { ShownAs result linter.old (texts_of files.now) (names_of files.now) (K.held out.old) (K.held out.new) }
    ensures kept { KeptFor (end_of result) (K.held out.old) (K.held out.new) }
    ensures sink { SinkCause (end_of result) (K.faults out.old) (K.faults out.new) }
{
    match gate(linter, alloc, files) {
        Ok(verdict) => write_verdict(alloc, files, &verdict, out),
        Err(NoMemory) => GateStatus::NoMemory,
    }
}

/// Judges the files of a bundle and writes the verdict.
fn judge_text<K: Sink>(alloc: Global, linter: &mut Linter, text: &str, out: &mut K) -> GateStatus
    requires rules { HasDefaults linter.old.rules }
    requires short { length text.now < 2 ^ 32 }
    ensures judged { JudgedAs result linter.old text.now (K.held out.old) (K.held out.new) }
    ensures kept { KeptFor (end_of result) (K.held out.old) (K.held out.new) }
    ensures sink { SinkCause (end_of result) (K.faults out.old) (K.faults out.new) }
{
    match read_bundle(alloc, text) {
        Ok(files) => judge_files(alloc, linter, files.as_slice(), out),
        Err(BundleError::Bad { at }) => GateStatus::BadBundle { at },
        Err(BundleError::NoMemory) => GateStatus::NoMemory,
    }
}

/// Judges the files of an input and writes the verdict. The input is tested in place and not copied.
pub(crate) fn judge_input<K: Sink>(
    alloc: Global,
    linter: &mut Linter,
    input: &[u8],
    out: &mut K,
) -> GateStatus
    requires rules { HasDefaults linter.old.rules }
    requires short { length input.now < 2 ^ 32 }
    ensures judged { JudgedAs result linter.old input.now (K.held out.old) (K.held out.new) }
    ensures kept { KeptFor (end_of result) (K.held out.old) (K.held out.new) }
    ensures sink { SinkCause (end_of result) (K.faults out.old) (K.faults out.new) }
{
    match text_in(input) {
        Ok(text) => judge_text(alloc, linter, text, out),
        Err(stop) => GateStatus::from(stop),
    }
}
