//! From the bytes of an input to what is found in it.
ghost use Rattle.std.specs.Prelude.{◌<◌, ◌^◌, length, IfOk, IfErr};
ghost use Rattle.std.specs.Str.{IsUtf8};
ghost use Rattle.squawk_cli.specs.Findings.{AreFoundIn};
ghost use Rattle.squawk_cli.specs.Outcome.{RefusalFits};

use crate::findings::{Findings, find};
use squawk_linter::{LintError, Linter};
use squawk_run::{Status, text_in};
use std::alloc::Global;

fn lint_short(
    alloc: Global,
    linter: &mut Linter,
    locks: bool,
    text: &str,
) -> Result<Findings, Status>
    requires { length text.now < 2 ^ 32 }
    ensures found { IfOk result (λ f. AreFoundIn locks text.now linter.old.rules linter.old.settings f) }
    ensures refusal { IfErr result (λ s. IsUtf8 text.now → RefusalFits s text.now) }
{
    match find(alloc, linter, locks, text) {
        Ok(found) => Ok(found),
        Err(LintError::TooLong) => unreachable!(),
        Err(LintError::Unterminated { at }) => Err(Status::Unterminated { at }),
        Err(LintError::Syntax { at }) => Err(Status::Syntax { at }),
        Err(LintError::NoMemory) => Err(Status::NoMemory),
    }
}

/// Lints an input, and finds its locks where they are asked for. It is tested in place and not copied.
pub(crate) fn lint_input(
    alloc: Global,
    linter: &mut Linter,
    locks: bool,
    input: &[u8],
) -> Result<Findings, Status>
    requires { length input.now < 2 ^ 32 }
    ensures utf8 { IfOk result (λ _. IsUtf8 input.now) }
    ensures found { IfOk result (λ f. AreFoundIn locks input.now linter.old.rules linter.old.settings f) }
    ensures refusal { IfErr result (λ s. RefusalFits s input.now) }
{
    match text_in(input) {
        Ok(text) => lint_short(alloc, linter, locks, text),
        Err(stop) => Err(Status::from(stop)),
    }
}
