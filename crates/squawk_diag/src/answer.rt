//! From the bytes of an input to its written diagnostics.
ghost use Rattle.std.specs.Prelude.{◌<◌, ◌^◌, length};
ghost use Rattle.squawk_run.specs.Ends.{KeptFor, SinkCause};
ghost use Rattle.squawk_run.specs.Statuses.{end_of};
ghost use Rattle.squawk_diag.specs.Outcome.{AnsweredAs};

use crate::text::diagnose;
use crate::write::write_diagnostics;
use squawk_linter::{LintError, Linter};
use squawk_run::{Sink, Status, text_in};
use std::alloc::Global;

/// Writes the diagnostics of a text.
fn answer_text<K: Sink>(alloc: Global, linter: &mut Linter, text: &str, out: &mut K) -> Status
    requires { length text.now < 2 ^ 32 }
    ensures answered { AnsweredAs result linter.old text.now (K.held out.old) (K.held out.new) }
    ensures kept { KeptFor (end_of result) (K.held out.old) (K.held out.new) }
    ensures sink { SinkCause (end_of result) (K.faults out.old) (K.faults out.new) }
{
    match diagnose(linter, alloc, text) {
        Ok(diagnostics) => write_diagnostics(alloc, diagnostics.as_slice(), out),
        Err(LintError::TooLong) => unreachable!(),
        Err(LintError::Unterminated { at }) => Status::Unterminated { at },
        Err(LintError::Syntax { at }) => Status::Syntax { at },
        Err(LintError::NoMemory) => Status::NoMemory,
    }
}

/// Writes the diagnostics of an input, which is not copied.
pub(crate) fn answer_input<K: Sink>(
    alloc: Global,
    linter: &mut Linter,
    input: &[u8],
    out: &mut K,
) -> Status
    requires { length input.now < 2 ^ 32 }
    ensures answered { AnsweredAs result linter.old input.now (K.held out.old) (K.held out.new) }
    ensures kept { KeptFor (end_of result) (K.held out.old) (K.held out.new) }
    ensures sink { SinkCause (end_of result) (K.faults out.old) (K.faults out.new) }
{
    match text_in(input) {
        Ok(text) => answer_text(alloc, linter, text, out),
        Err(_) => Status::NotUtf8,
    }
}
