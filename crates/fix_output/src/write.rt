//! Files that are written.
ghost use Rattle.std.specs.Prelude.{◌≡◌, ◌≤◌, true, IfErr, OnErr, OnOk};
ghost use Rattle.devices.specs.Contents.{KeepsContents};
ghost use Rattle.devices.specs.Writes.{IsRefusal};
ghost use Rattle.fix_output.specs.Differences.{is_changed};
ghost use Rattle.fix_output.specs.Writing as spec;

use crate::file::{FixedFile, is_changed};
use devices::{FileWriter, WriteError};
use std::alloc::Global;

/// Why files are not written.
#[derive(Clone, Copy, Debug, PartialEq, Eq)]
pub enum WriteStop {
    /// The write of the file of this number failed, from 0 on.
    Fault(usize),
    /// Memory ran out.
    NoMemory,
}

// Writes a file, if it is changed.
fn write_if<W: FileWriter>(
    alloc: Global,
    writer: &mut W,
    file: &FixedFile,
) -> Result<(), WriteError>
    ensures written { OnOk result (spec.IsWrittenIf (is_changed file.now) file.now (W.content writer.old) (W.content writer.new)) }
    ensures kept { OnErr result (KeepsContents (W.content writer.old) (W.content writer.new)) }
    ensures changed { OnErr result (is_changed file.now ≡ true) }
    ensures refused { IfErr result (λ e. IsRefusal e (W.faults writer.old) (W.faults writer.new)) }
    ensures later { W.faults writer.old ≤ W.faults writer.new }
{
    if is_changed(file) {
        writer.replace(alloc, file.name.as_str(), file.new.as_str().as_bytes())
    } else {
        Ok(())
    }
}

// Why the file of this number was not written.
fn stop_at(error: WriteError, number: usize) -> WriteStop
    ensures { result ≡ spec.stop_at error number }
{
    match error {
        WriteError::Fault => WriteStop::Fault(number),
        WriteError::NoMemory => WriteStop::NoMemory,
    }
}

/// Writes those files that are changed, each as a whole. After a failure those before the one that failed are written, and no other.
pub fn write_changed<W: FileWriter>(
    alloc: Global,
    writer: &mut W,
    files: &[FixedFile],
) -> Result<(), WriteStop>
    ensures written { OnOk result (spec.AreWritten files.now (W.content writer.old) (W.content writer.new)) }
    ensures stopped { IfErr result (λ stop. spec.HasStopped stop files.now (W.content writer.old) (W.content writer.new) (W.faults writer.old) (W.faults writer.new)) }
    ensures later { W.faults writer.old ≤ W.faults writer.new }
{
    for i in 0..files.len() {
        match write_if(alloc, writer, &files[i]) {
            Ok(()) => {}
            Err(error) => return Err(stop_at(error, i)),
        }
    }
    Ok(())
}
