//! What is printed or written.
ghost use Rattle.std.specs.Prelude.{◌≡◌, IfErr, IfOk, OnOk};
ghost use Rattle.std.specs.Io.KnownBytes.{Appends};
ghost use Rattle.fix_output.specs.Writing.{AreWritten};
ghost use Rattle.fix_run.specs.Giving as spec;
ghost use Rattle.fix_run.specs.Stops.{IsAny};

use crate::asked::reads_input;
use crate::stop::{FixStop, failed_at};
use fix_output::{
    FileWriter, FixedFile, NoMemory, Sink, WriteStop, push_diffs, write_all, write_changed,
};
use fix_words::{Request, Stop};
use std::alloc::Global;

/// What becomes of what is made.
#[derive(Clone, Copy, Debug, PartialEq, Eq)]
pub(crate) enum Delivery {
    /// The differences are printed.
    Print,
    /// The text that is made of the input is printed.
    Input,
    /// The files are written.
    Files,
}

/// What becomes of what is made for a request.
pub(crate) fn delivery_of(request: &Request) -> Delivery
    ensures { result ≡ spec.delivery_of request.now }
{
    if !request.write {
        Delivery::Print
    } else if reads_input(&request.files) {
        Delivery::Input
    } else {
        Delivery::Files
    }
}

// The text that is made of the first of these.
fn first_text(files: &[FixedFile]) -> &str
    ensures { result.now ≡ spec.first_text files.entry.now }
{
    match files.first() {
        Some(file) => file.new.as_str(),
        None => "",
    }
}

// The differences of files.
fn diffs(alloc: Global, files: &[FixedFile]) -> Result<Vec<u8>, NoMemory>
    ensures { IfOk result (λ bytes. spec.AreDiffs files.now bytes.items) }
{
    let mut bytes = Vec::new(alloc);
    push_diffs(&mut bytes, alloc, files)?;
    Ok(bytes)
}

// Writes bytes to a sink.
fn print_bytes<K: Sink>(bytes: &[u8], out: &mut K) -> Result<(), FixStop>
    ensures whole { OnOk result (Appends (K.held out.old) (K.held out.new) bytes.now) }
    ensures stop { IfErr result (IsAny (λ s. spec.StopsWriting s bytes.now (K.held out.old) (K.held out.new) (K.faults out.old) (K.faults out.new))) }
{
    match write_all(out, bytes) {
        Ok(()) => Ok(()),
        Err(_) => Err(FixStop::Any(Stop::WriteFault)),
    }
}

// Prints the differences of files.
fn print_diffs<K: Sink>(alloc: Global, files: &[FixedFile], out: &mut K) -> Result<(), FixStop>
    ensures whole { OnOk result (spec.HasDiffsThat files.now (Appends (K.held out.old) (K.held out.new))) }
    ensures stop { IfErr result (IsAny (λ s. spec.StopsDiffs s files.now (K.held out.old) (K.held out.new) (K.faults out.old) (K.faults out.new))) }
{
    match diffs(alloc, files) {
        Ok(bytes) => print_bytes(bytes.as_slice(), out),
        Err(NoMemory) => Err(FixStop::Any(Stop::NoMemory)),
    }
}

// Writes files.
fn write_files<W: FileWriter>(
    alloc: Global,
    files: &[FixedFile],
    writer: &mut W,
) -> Result<(), FixStop>
    ensures whole { OnOk result (AreWritten files.now (W.content writer.old) (W.content writer.new)) }
    ensures stop { IfErr result (λ stop. spec.StopsFiles stop files.now (W.content writer.old) (W.content writer.new) (W.faults writer.old) (W.faults writer.new)) }
{
    match write_changed(alloc, writer, files) {
        Ok(()) => Ok(()),
        Err(WriteStop::Fault(number)) => Err(failed_at(alloc, files, number)),
        Err(WriteStop::NoMemory) => Err(FixStop::Any(Stop::NoMemory)),
    }
}

/// Prints or writes what is made of files.
pub(crate) fn give<W: FileWriter, K: Sink>(
    alloc: Global,
    delivery: Delivery,
    files: &[FixedFile],
    writer: &mut W,
    out: &mut K,
) -> Result<(), FixStop>
    ensures given { OnOk result (spec.IsGiven delivery files.now
        (record { held = K.held out.old; faults = K.faults out.old; written = W.content writer.old; write_faults = W.faults writer.old })
        (record { held = K.held out.new; faults = K.faults out.new; written = W.content writer.new; write_faults = W.faults writer.new })) }
    ensures cut { IfErr result (spec.IsCut delivery files.now
        (record { held = K.held out.old; faults = K.faults out.old; written = W.content writer.old; write_faults = W.faults writer.old })
        (record { held = K.held out.new; faults = K.faults out.new; written = W.content writer.new; write_faults = W.faults writer.new })) }
{
    match delivery {
        Delivery::Print => print_diffs(alloc, files, out),
        Delivery::Input => print_bytes(first_text(files).as_bytes(), out),
        Delivery::Files => write_files(alloc, files, writer),
    }
}
