//! Reports and work under locks, written one after the other.
ghost use Rattle.std.specs.Prelude.{◌≡◌, ◌≤◌, ◌++◌, OnOk, Err};
ghost use Rattle.std.specs.Io.KnownBytes.{Appends};
ghost use Rattle.squawk_print.specs.devices.Faults.{Rose};
ghost use Rattle.squawk_print.specs.devices.Parts.{AppendsPart};
ghost use Rattle.squawk_print.specs.declared.write.WriteError.TheVariants as WriteError;
ghost use Rattle.squawk_print.specs.Printed.{printed};
ghost use Rattle.squawk_print_locks.specs.PrintedLocks.{printed_locks};

use crate::lines::print_locks;
use lock_machine::Work;
use squawk_print::{Failed, NoMemory, Sink, Violation, WriteError, write_all, write_violations};
use std::alloc::Global;

/// Writes reports, and then the lines.
fn write_both<K: Sink>(
    alloc: Global,
    out: &mut K,
    violations: &[Violation],
    lines: &[u8],
) -> Result<(), WriteError>
    ensures whole { OnOk result (Appends (K.held out.old) (K.held out.new)
        (printed violations.now ++ lines.now)) }
    ensures part { AppendsPart (K.held out.old) (K.held out.new) (printed violations.now ++ lines.now) }
    ensures later { K.faults out.old ≤ K.faults out.new }
    ensures fault { result ≡ Err WriteError.Fault → Rose (K.faults out.old) (K.faults out.new) }
    ensures no_memory { result ≡ Err WriteError.NoMemory → out.new ≡ out.old }
{
    write_violations(alloc, out, violations)?;
    match write_all(out, lines) {
        Ok(()) => Ok(()),
        Err(Failed) => Err(WriteError::Fault),
    }
}

/// Writes reports as [`write_violations`] does, after them a line for each work, in order, and at last one that says whether
/// the text is plain.
///
/// All memory is taken before the first write: that of the reports' pieces, and that of all lines of works.
pub fn write_works_after_reports<K: Sink>(
    alloc: Global,
    out: &mut K,
    violations: &[Violation],
    works: &[Work],
    plain: bool,
) -> Result<(), WriteError>
    ensures whole { OnOk result (Appends (K.held out.old) (K.held out.new)
        (printed violations.now ++ printed_locks works.now plain)) }
    ensures part { AppendsPart (K.held out.old) (K.held out.new)
        (printed violations.now ++ printed_locks works.now plain) }
    ensures later { K.faults out.old ≤ K.faults out.new }
    ensures fault { result ≡ Err WriteError.Fault → Rose (K.faults out.old) (K.faults out.new) }
    ensures no_memory { result ≡ Err WriteError.NoMemory → out.new ≡ out.old }
{
    match print_locks(alloc, works, plain) {
        Err(NoMemory) => Err(WriteError::NoMemory),
        Ok(lines) => write_both(alloc, out, violations, &lines),
    }
}
