//! Reports whose fix adds CONCURRENTLY.

ghost use Rattle.std.specs.Prelude.{◌≡◌, IfOk};
ghost use Rattle.pass_concurrent.specs.Concurrently as spec;

use lint_pass::{Fix, NoMemory, Parse, Rule, Text, TextRange, Violation, insertion_fix};
use std::alloc::Global;

const TITLE: &str = "Add `concurrently`";

const INSERTED: &str = " concurrently";

/// The fix that adds CONCURRENTLY after a token.
fn concurrently_after(alloc: Global, p: &Parse<'_>, token: u32) -> Result<Fix, NoMemory>
    ensures { IfOk result (λ fix. fix ≡ spec.concurrently_after p.now token) }
{
    let at = p.span_range(token, token).end();
    insertion_fix(alloc, Text::plain(TITLE), Text::plain(INSERTED), at)
}

/// What is reported on a range, with the fix after a token.
pub(crate) fn plain_report(
    alloc: Global,
    code: Rule,
    message: Text,
    help: Text,
    p: &Parse<'_>,
    text_range: TextRange,
    token: u32,
) -> Result<Violation, NoMemory>
    ensures { IfOk result (λ v. v ≡ spec.plain_report code message help p.now text_range token) }
{
    let fix = concurrently_after(alloc, p, token)?;
    Ok(Violation {
        code,
        message,
        text_range,
        note: None,
        help: Some(help),
        fix: Some(fix),
    })
}
