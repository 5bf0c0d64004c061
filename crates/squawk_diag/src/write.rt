//! Writing diagnostics to a sink.
ghost use Rattle.std.specs.Prelude.{◌≡◌, IfOk, string_bytes};
ghost use Rattle.squawk_run.specs.Ends.{KeptFor, SinkCause};
ghost use Rattle.squawk_run.specs.Statuses.{end_of};
ghost use Rattle.squawk_diag.specs.Written.{WroteAs, printed, status_by};

use diag_report::{Diagnostic, write_json};
use squawk_linter::NoMemory;
use squawk_run::{Failed, Sink, Status, write_all};
use std::alloc::Global;

fn status_by(diagnostics: &[Diagnostic]) -> Status
    ensures { result ≡ status_by diagnostics.now }
{
    if diagnostics.is_empty() {
        Status::Clean
    } else {
        Status::Found
    }
}

fn printed(alloc: Global, diagnostics: &[Diagnostic]) -> Result<String, NoMemory>
    ensures { IfOk result (λ line. string_bytes line ≡ printed diagnostics.now) }
{
    let mut line = write_json(alloc, diagnostics)?;
    line.push('\n')?;
    Ok(line)
}

/// Writes diagnostics as one line of JSON. All memory is taken before the first write, so a run that lacks it writes nothing.
pub fn write_diagnostics<K: Sink>(alloc: Global, diagnostics: &[Diagnostic], out: &mut K) -> Status
    ensures wrote { WroteAs result diagnostics.now (K.held out.old) (K.held out.new) }
    ensures kept { KeptFor (end_of result) (K.held out.old) (K.held out.new) }
    ensures sink { SinkCause (end_of result) (K.faults out.old) (K.faults out.new) }
{
    match printed(alloc, diagnostics) {
        Err(NoMemory) => Status::NoMemory,
        Ok(line) => match write_all(out, line.as_str().as_bytes()) {
            Ok(()) => status_by(diagnostics),
            Err(Failed) => Status::WriteFault,
        },
    }
}
