//! Reports written in pieces.
ghost use Rattle.std.specs.Prelude.{◌≡◌, ◌+◌, ◌<◌, ◌≤◌, [], ◌++◌, length, vec_capacity, IfOk, OnOk};
ghost use Rattle.std.specs.Io.KnownBytes.{Appends};
ghost use Rattle.std.specs.List.{All};
ghost use Rattle.devices.specs.Faults.{HasCause, Rose};
ghost use Rattle.devices.specs.Parts.{AppendsPart};
ghost use Rattle.squawk_print.specs.Printed as spec;
ghost use Rattle.squawk_print.specs.Written.{AppendsBut, last_line};

use crate::report::{push_count, push_violation};
use crate::room::most_room;
use devices::{Failed, Sink, write_all};
use lint_base::{NoMemory, Violation};
use std::alloc::Global;

/// How many bytes a piece has at least, but for the last one.
const PIECE: usize = 65536;

/// Why reports were not written to their end.
#[derive(Clone, Copy, Debug, PartialEq, Eq)]
pub enum WriteError {
    /// A write failed. The sink holds a prefix of the printed form.
    Fault,
    /// Memory ran out. Nothing was written.
    NoMemory,
}

/// Writes what is kept as a piece, and keeps nothing of it.
fn write_chunk<K: Sink>(sink: &mut K, kept: &mut Vec<u8>) -> Result<(), Failed>
    ensures whole { OnOk result (Appends (K.held sink.old) (K.held sink.new) kept.old.items) }
    ensures part { AppendsPart (K.held sink.old) (K.held sink.new) kept.old.items }
    ensures cause { HasCause (K.faults sink.old) (K.faults sink.new) result }
    ensures emptied { OnOk result (kept.new.items ≡ []) }
    ensures capacity { vec_capacity kept.new ≡ vec_capacity kept.old }
{
    write_all(sink, kept)?;
    kept.clear();
    Ok(())
}

/// Writes what is kept where that is long enough for a piece.
fn make_way<K: Sink>(sink: &mut K, kept: &mut Vec<u8>) -> Result<(), Failed>
    ensures whole { OnOk result (AppendsBut (K.held sink.old) (K.held sink.new) kept.new.items
        kept.old.items) }
    ensures part { AppendsPart (K.held sink.old) (K.held sink.new) kept.old.items }
    ensures cause { HasCause (K.faults sink.old) (K.faults sink.new) result }
    ensures short { OnOk result (length kept.new.items < PIECE) }
    ensures capacity { vec_capacity kept.new ≡ vec_capacity kept.old }
{
    if kept.len() < PIECE {
        Ok(())
    } else {
        write_chunk(sink, kept)
    }
}

/// Prints a report after what is kept.
fn write_one<K: Sink>(sink: &mut K, kept: &mut Vec<u8>, violation: &Violation) -> Result<(), Failed>
    requires { PIECE + length (spec.printed_violation violation.now) ≤ vec_capacity kept.old }
    ensures whole { OnOk result (AppendsBut (K.held sink.old) (K.held sink.new) kept.new.items
        (kept.old.items ++ spec.printed_violation violation.now)) }
    ensures part { AppendsPart (K.held sink.old) (K.held sink.new)
        (kept.old.items ++ spec.printed_violation violation.now) }
    ensures cause { HasCause (K.faults sink.old) (K.faults sink.new) result }
    ensures capacity { vec_capacity kept.old ≤ vec_capacity kept.new }
{
    make_way(sink, kept)?;
    match push_violation(kept, violation) {
        Ok(()) => Ok(()),
        Err(NoMemory) => unreachable!(),
    }
}

fn write_each<K: Sink>(
    sink: &mut K,
    kept: &mut Vec<u8>,
    violations: &[Violation],
) -> Result<(), Failed>
    requires { All (λ v. PIECE + length (spec.printed_violation v) ≤ vec_capacity kept.old)
        violations.now }
    ensures whole { OnOk result (AppendsBut (K.held sink.old) (K.held sink.new) kept.new.items
        (kept.old.items ++ spec.printed_each violations.now)) }
    ensures part { AppendsPart (K.held sink.old) (K.held sink.new)
        (kept.old.items ++ spec.printed_each violations.now) }
    ensures cause { HasCause (K.faults sink.old) (K.faults sink.new) result }
    ensures capacity { vec_capacity kept.old ≤ vec_capacity kept.new }
{
    'writing: for violation in violations {
        write_one(sink, kept, violation)?;
    }
    Ok(())
}

/// Prints the last line after what is kept, and writes it all.
fn write_last<K: Sink>(sink: &mut K, kept: &mut Vec<u8>, count: usize) -> Result<(), Failed>
    requires { PIECE + length (last_line count) ≤ vec_capacity kept.old }
    ensures whole { OnOk result (Appends (K.held sink.old) (K.held sink.new)
        (kept.old.items ++ last_line count)) }
    ensures part { AppendsPart (K.held sink.old) (K.held sink.new)
        (kept.old.items ++ last_line count) }
    ensures cause { HasCause (K.faults sink.old) (K.faults sink.new) result }
{
    make_way(sink, kept)?;
    match push_count(kept, count) {
        Ok(()) => write_all(sink, kept),
        Err(NoMemory) => unreachable!(),
    }
}

fn write_through<K: Sink>(
    sink: &mut K,
    kept: &mut Vec<u8>,
    violations: &[Violation],
) -> Result<(), Failed>
    requires empty { kept.old.items ≡ [] }
    requires each { All (λ v. PIECE + length (spec.printed_violation v) ≤ vec_capacity kept.old)
        violations.now }
    requires last { PIECE + length (last_line (length violations.now)) ≤ vec_capacity kept.old }
    ensures whole { OnOk result (Appends (K.held sink.old) (K.held sink.new)
        (spec.printed violations.now)) }
    ensures part { AppendsPart (K.held sink.old) (K.held sink.new) (spec.printed violations.now) }
    ensures cause { HasCause (K.faults sink.old) (K.faults sink.new) result }
{
    write_each(sink, kept, violations)?;
    write_last(sink, kept, violations.len())
}

/// An empty list with room for a piece and, after it, for any of the reports or for the last line.
fn buffer_for(alloc: Global, violations: &[Violation]) -> Result<Vec<u8>, NoMemory>
    ensures empty { IfOk result (λ kept. kept.items ≡ []) }
    ensures each { IfOk result (λ kept.
        All (λ v. PIECE + length (spec.printed_violation v) ≤ vec_capacity kept) violations.now) }
    ensures last { IfOk result (λ kept. PIECE + length (last_line (length violations.now))
        ≤ vec_capacity kept) }
{
    let most = most_room(violations).ok_or(NoMemory)?;
    let room = most.checked_add(PIECE).ok_or(NoMemory)?;
    Ok(Vec::with_capacity(alloc, room)?)
}

/// Prints reports, one after the other, and then their count, as `print_violations` does, and writes that in pieces.
///
/// All memory is taken before the first write: that of a piece of fixed size and of the longest report, whatever their
/// number.
pub fn write_violations<K: Sink>(
    alloc: Global,
    sink: &mut K,
    violations: &[Violation],
) -> Result<(), WriteError>
    ensures whole { OnOk result (Appends (K.held sink.old) (K.held sink.new)
        (spec.printed violations.now)) }
    ensures part { AppendsPart (K.held sink.old) (K.held sink.new) (spec.printed violations.now) }
    ensures later { K.faults sink.old ≤ K.faults sink.new }
    ensures fault { result ≡ Err WriteError.Fault → Rose (K.faults sink.old) (K.faults sink.new) }
    ensures no_memory { result ≡ Err WriteError.NoMemory → sink.new ≡ sink.old }
{
    match buffer_for(alloc, violations) {
        Err(NoMemory) => Err(WriteError::NoMemory),
        Ok(mut kept) => match write_through(sink, &mut kept, violations) {
            Ok(()) => Ok(()),
            Err(Failed) => Err(WriteError::Fault),
        },
    }
}
