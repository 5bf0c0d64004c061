//! Why a text can't be read.

ghost use Rattle.std.specs.Prelude.{◌≡◌, ◌<◌, ◌^◌, IfOk, IfSome, MatchOption, length};
ghost use Rattle.std.specs.Str.{IsCharBoundary};
ghost use Rattle.check_run.specs.source_file.Refusals.{place_of};
ghost use Rattle.law_reports.specs.sql_read.Cause.{IsCause, IsTreeOf};
ghost use Rattle.file_answer.specs.Faults.{IsFault, IsReadable};

use crate::backslash::first_backslash;
use check_run::Refusal;
use law_reports::sql_read::sql_tree::Parse;
use law_reports::sql_read::{LintError, NoMemory, TextSize, parse};
use std::alloc::Global;

/// Why a text can't be read, by what its reader says. The error comes where that is that memory ran out.
#[tactic(auto, using(crate::proofs::Places::open_in, crate::proofs::Places::syntax_in))]
pub(crate) fn refusal_of(text: &str, error: LintError) -> Result<Refusal, NoMemory>
    requires short { length text.now < 2 ^ 32 }
    requires cause { IsCause text.now error }
    ensures fault { IfOk result (IsFault text.now) }
    ensures placed { IfOk result (λ fault. IsCharBoundary text.now (place_of fault)) }
{
    match error {
        LintError::TooLong => unreachable!(),
        LintError::Unterminated { at } => Ok(Refusal::Unterminated {
            at: TextSize::new(at),
        }),
        LintError::Syntax { at } => Ok(Refusal::Syntax {
            at: TextSize::new(at),
        }),
        LintError::NoMemory => Err(NoMemory),
    }
}

// The fault of a text that has a tree; nothing where it has none.
fn fault_in_tree(text: &str, file: &Parse<'_>) -> Option<Refusal>
    requires { IsTreeOf text.now file.now }
    ensures fault { MatchOption result (IsReadable text.now) (IsFault text.now) }
    ensures placed { IfSome result (λ fault. IsCharBoundary text.now (place_of fault)) }
{
    match first_backslash(file) {
        Some(at) => Some(Refusal::Syntax { at }),
        None => None,
    }
}

/// Why a text can't be read; nothing where it can. The error comes when memory runs out.
pub(crate) fn fault_of(alloc: Global, text: &str) -> Result<Option<Refusal>, NoMemory>
    requires { length text.now < 2 ^ 32 }
    ensures fault { IfOk result (λ found. MatchOption found (IsReadable text.now) (IsFault text.now)) }
    ensures placed { IfOk result (λ found. IfSome found (λ fault. IsCharBoundary text.now (place_of fault))) }
{
    match parse(alloc, text) {
        Ok(file) => Ok(fault_in_tree(text, &file)),
        Err(error) => {
            let fault = refusal_of(text, error)?;
            Ok(Some(fault))
        }
    }
}
