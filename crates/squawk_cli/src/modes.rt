//! What `--generate` and `--locks` change of a run: which text is linted, and what is written of what is found in it.
ghost use Rattle.std.specs.Prelude.{◌≡◌, ◌<◌, ◌≤◌, ◌^◌, length, IfOk, IfErr, IfSome, IsSome, OnOk, Err};
ghost use Rattle.std.specs.Io.KnownBytes.{Appends};
ghost use Rattle.squawk_run.specs.devices.Faults.{Rose};
ghost use Rattle.squawk_run.specs.devices.Parts.{AppendsPart};
ghost use Rattle.squawk_print_locks.specs.squawk_print.declared.write.WriteError.TheVariants as WriteError;
ghost use Rattle.squawk_run.specs.declared.status.Status.TheVariants as Status;
ghost use Rattle.squawk_run.specs.Statuses.{of_stop};
ghost use Rattle.squawk_run.specs.Stops.{IsReadStop};
ghost use Rattle.squawk_cli.specs.Modes.{printed_findings, text_by, shown_by};
ghost use Rattle.squawk_cli.specs.Outcome.{ReadBy, SourceCause};

use crate::findings::Findings;
use law_made_texts::{made_text, write_summary};
use squawk_linter::NoMemory;
use squawk_print_locks::{WriteError, write_violations, write_works_after_reports};
use squawk_run::{Sink, Source, Stop, read_input};
use std::alloc::Global;

/// The made text of so many groups, for which nothing is read, or else all of the input.
pub(crate) fn text_for<S: Source>(
    alloc: Global,
    generate: Option<u32>,
    src: &mut S,
) -> Result<Vec<u8>, Stop>
    requires few { IfSome generate (λ n. n ≤ 100000) }
    ensures text { IfOk result (λ text. IfSome (text_by generate (S.left src.old)) (λ t. t ≡ text.items)) }
    ensures short { IfOk result (λ text. length text.items < 2 ^ 32) }
    ensures read { IfOk result (λ _. ReadBy generate Status.Clean (S.left src.old) (S.left src.new)) }
    ensures unread { IsSome generate → src.new ≡ src.old }
    ensures stop { IfErr result IsReadStop }
    ensures stop_read { IfErr result (λ stop. ReadBy generate (of_stop stop) (S.left src.old) (S.left src.new)) }
    ensures stop_source { IfErr result (λ stop. SourceCause (of_stop stop) (S.faults src.old) (S.faults src.new)) }
{
    match generate {
        Some(groups) => match made_text(alloc, groups) {
            Ok(text) => Ok(text),
            Err(NoMemory) => Err(Stop::NoMemory),
        },
        None => read_input(alloc, src),
    }
}

/// Writes the printed reports, and after them the locks that were asked for.
fn write_printed<K: Sink>(alloc: Global, out: &mut K, found: &Findings) -> Result<(), WriteError>
    ensures whole { OnOk result (Appends (K.held out.old) (K.held out.new) (printed_findings found.now.violations found.now.locks)) }
    ensures part { AppendsPart (K.held out.old) (K.held out.new) (printed_findings found.now.violations found.now.locks) }
    ensures fault { result ≡ Err WriteError.Fault → Rose (K.faults out.old) (K.faults out.new) }
    ensures no_memory { result ≡ Err WriteError.NoMemory → out.new ≡ out.old }
{
    let reports = found.violations.as_slice();
    match &found.locks {
        Some(locks) => write_works_after_reports(
            alloc,
            out,
            reports,
            locks.works.as_slice(),
            locks.plain,
        ),
        None => write_violations(alloc, out, reports),
    }
}

/// Writes the summary of the reports where made groups were asked for, or else the printed form of all that was found.
pub(crate) fn write_found<K: Sink>(
    alloc: Global,
    generate: Option<u32>,
    out: &mut K,
    found: &Findings,
) -> Result<(), WriteError>
    ensures whole { OnOk result (Appends (K.held out.old) (K.held out.new) (shown_by generate found.now)) }
    ensures part { AppendsPart (K.held out.old) (K.held out.new) (shown_by generate found.now) }
    ensures fault { result ≡ Err WriteError.Fault → Rose (K.faults out.old) (K.faults out.new) }
    ensures no_memory { result ≡ Err WriteError.NoMemory → out.new ≡ out.old }
{
    match generate {
        Some(_) => write_summary(alloc, out, found.violations.as_slice()),
        None => write_printed(alloc, out, found),
    }
}
