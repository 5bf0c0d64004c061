//! From the bytes of an input to its written fixed text.
ghost use Rattle.std.specs.Prelude.{◌≡◌, ◌<◌, ◌^◌, length};
ghost use Rattle.squawk_run.specs.Ends.{KeptFor, SinkCause};
ghost use Rattle.squawk_run.specs.Statuses.{end_of};
ghost use Rattle.squawk_fix.specs.Outcome.{AnsweredAs, WroteAs, status_by};

use crate::fixed::{Fixed, fix_all};
use law_next_fix::{LintError, Linter};
use squawk_run::{Failed, Sink, Status, Violation, text_in, write_all};
use std::alloc::Global;

/// How a run ended, and how many fixes it made. The count is 0 where no text was fixed.
#[derive(Clone, Copy)]
pub(crate) struct Ended {
    pub status: Status,
    pub applied: u64,
}

/// The end of a run that fixed no text.
pub(crate) fn unfixed(status: Status) -> Ended
    ensures { result ≡ record { status = status; applied = 0 } }
{
    Ended { status, applied: 0 }
}

fn status_by(left: &[Violation]) -> Status
    ensures { result ≡ status_by left.now }
{
    if left.is_empty() {
        Status::Clean
    } else {
        Status::Found
    }
}

/// Writes a text that was fixed.
fn write_fixed<K: Sink>(fixed: &Fixed, out: &mut K) -> Status
    ensures wrote { WroteAs result fixed.now (K.held out.old) (K.held out.new) }
    ensures kept { KeptFor (end_of result) (K.held out.old) (K.held out.new) }
    ensures sink { SinkCause (end_of result) (K.faults out.old) (K.faults out.new) }
{
    match write_all(out, fixed.text.as_str().as_bytes()) {
        Ok(()) => status_by(fixed.left.as_slice()),
        Err(Failed) => Status::WriteFault,
    }
}

/// Fixes a text, and writes what it became.
fn answer_text<K: Sink>(alloc: Global, linter: &mut Linter, text: &str, out: &mut K) -> Ended
    requires { length text.now < 2 ^ 32 }
    ensures answered { AnsweredAs result.status linter.old text.now (K.held out.old) (K.held out.new) (λ n. n ≡ result.applied) }
    ensures kept { KeptFor (end_of result.status) (K.held out.old) (K.held out.new) }
    ensures sink { SinkCause (end_of result.status) (K.faults out.old) (K.faults out.new) }
{
    match fix_all(linter, alloc, text) {
        Ok(fixed) => Ended {
            status: write_fixed(&fixed, out),
            applied: fixed.applied,
        },
        Err(LintError::TooLong) => unreachable!(),
        Err(LintError::Unterminated { at }) => unfixed(Status::Unterminated { at }),
        Err(LintError::Syntax { at }) => unfixed(Status::Syntax { at }),
        Err(LintError::NoMemory) => unfixed(Status::NoMemory),
    }
}

/// Fixes an input, which is not copied before the first fix, and writes what it became.
pub(crate) fn answer_input<K: Sink>(
    alloc: Global,
    linter: &mut Linter,
    input: &[u8],
    out: &mut K,
) -> Ended
    requires { length input.now < 2 ^ 32 }
    ensures answered { AnsweredAs result.status linter.old input.now (K.held out.old) (K.held out.new) (λ n. n ≡ result.applied) }
    ensures kept { KeptFor (end_of result.status) (K.held out.old) (K.held out.new) }
    ensures sink { SinkCause (end_of result.status) (K.faults out.old) (K.faults out.new) }
{
    match text_in(input) {
        Ok(text) => answer_text(alloc, linter, text, out),
        Err(_) => unfixed(Status::NotUtf8),
    }
}
