//! The run of the command, over any sinks.
ghost use Rattle.std.specs.Prelude.{IfErr, OnOk};
ghost use Rattle.std.specs.Io.KnownBytes.{Appends, Keeps};
ghost use Rattle.refused_word.specs.squawk_run.declared.stop.Stop.TheVariants as stop;
ghost use Rattle.refused_word.specs.devices.Faults.{HasCause, Rose};
ghost use Rattle.refused_word.specs.devices.Parts.{AppendsPart};
ghost use Rattle.explain_command.specs.Command.{HasWritten, StoppedFor};
ghost use Rattle.explain_command.specs.Failures.{IsStop, line_of};

use crate::choice::text_of;
use crate::failure::Failure;
use refused_word::{Sink, Stop, Words, write_all};
use std::alloc::Global;

// Writes a text.
fn write_text<K: Sink>(text: &str, out: &mut K) -> Result<(), Failure>
    ensures ok { OnOk result (Appends (K.held out.old) (K.held out.new) text.now) }
    ensures stop { IfErr result (IsStop stop.WriteFault) }
    ensures part { AppendsPart (K.held out.old) (K.held out.new) text.now }
    ensures cause { HasCause (K.faults out.old) (K.faults out.new) result }
{
    match write_all(out, text.as_bytes()) {
        Ok(()) => Ok(()),
        Err(_) => Err(Failure::Stop(Stop::WriteFault)),
    }
}

// Writes a line, which has its line feed. A failed write changes nothing else.
fn say<E: Sink>(err: &mut E, line: &[u8])
    ensures part { AppendsPart (E.held err.old) (E.held err.new) line.now }
    ensures whole { ¬ (Rose (E.faults err.old) (E.faults err.new)) → Appends (E.held err.old) (E.held err.new) line.now }
{
    let _ = write_all(err, line);
}

// All of a run but the line on the error sink.
fn explain<K: Sink>(alloc: Global, words: &Words, out: &mut K) -> Result<(), Failure>
    ensures done { OnOk result (HasWritten words.now (K.held out.old) (K.held out.new)) }
    ensures stopped { IfErr result (StoppedFor words.now (K.held out.old) (K.held out.new) (K.faults out.old) (K.faults out.new)) }
{
    match text_of(alloc, words) {
        Ok(text) => write_text(text, out),
        Err(failure) => Err(failure),
    }
}

/// Writes to `out` the text that the words after the program's name ask for: the first is `explain`, and the name of a rule or of a hazard may follow. Why
/// nothing more was written goes to `err`, and a failure there changes nothing else. The failures are words that are refused, and the stops
/// `WriteFault` and `NoMemory`.
pub fn run<K: Sink, E: Sink>(
    alloc: Global,
    words: &Words,
    out: &mut K,
    err: &mut E,
) -> Result<(), Failure>
    ensures done { OnOk result (HasWritten words.now (K.held out.old) (K.held out.new)) }
    ensures stopped { IfErr result (StoppedFor words.now (K.held out.old) (K.held out.new) (K.faults out.old) (K.faults out.new)) }
    ensures line { IfErr result (λ failure. AppendsPart (E.held err.old) (E.held err.new) (line_of failure)) }
    ensures whole_line { IfErr result (λ failure. ¬ (Rose (E.faults err.old) (E.faults err.new)) → Appends (E.held err.old) (E.held err.new) (line_of failure)) }
    ensures no_line { OnOk result (Keeps (E.held err.old) (E.held err.new)) }
{
    match explain(alloc, words, out) {
        Ok(()) => Ok(()),
        Err(failure) => {
            say(err, failure.line());
            Err(failure)
        }
    }
}
