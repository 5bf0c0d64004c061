//! The report of a name that is twice in a list.

ghost use Rattle.std.specs.Prelude.{◌≡◌, false, ◌<◌, length, string_bytes, IfOk};
ghost use Rattle.std.specs.List.{list_all};
ghost use Rattle.lint_pass.specs.lint_transaction.Names as given;
ghost use Rattle.pass_name.specs.BanDuplicateColumnAssignments as spec;

use crate::deletions::{deletions, have_parts};
use crate::members::{ListKind, Member};
use lint_pass::{Fix, NoMemory, Parse, Rule, Text, Violation, name_at};
use std::alloc::Global;

fn message(alloc: Global, kind: ListKind, name: &str) -> Result<Text, NoMemory>
    ensures { IfOk result (λ text. text ≡ spec.message kind name.now) }
{
    let text = match kind {
        ListKind::Columns => format!(in alloc; "column `{name}` is specified more than once")?,
        ListKind::Written => {
            format!(in alloc; "multiple assignments to the same column `{name}`")?
        }
    };
    Ok(Text::made(text))
}

fn title(alloc: Global, name: &str) -> Result<Text, NoMemory>
    ensures { IfOk result (λ text. text ≡ spec.title name.now) }
{
    Ok(Text::made(format!(in alloc; "Delete all but the last assignment to `{name}`")?))
}

/// The full text of a member's name.
fn full_name(alloc: Global, p: &Parse<'_>, m: Member) -> Result<String, NoMemory>
    ensures { IfOk result (λ name. string_bytes name ≡ given.name_at p.now m.name) }
{
    name_at(p, m.name).folded(alloc)
}

/// The report of a name.
#[tactic(auto, unfolding(crate::specs::BanDuplicateColumnAssignments::report))]
pub(crate) fn report(
    alloc: Global,
    kind: ListKind,
    p: &Parse<'_>,
    fix: Option<Fix>,
    m: Member,
) -> Result<Violation, NoMemory>
    ensures { IfOk result (λ v. v ≡ spec.report kind p.now fix m) }
{
    let name = full_name(alloc, p, m)?;
    Ok(Violation {
        code: Rule::BanDuplicateColumnAssignments,
        message: message(alloc, kind, name.as_str())?,
        text_range: p.span_range(m.name, m.name),
        note: None,
        help: None,
        fix,
    })
}

/// Whether each name is partial.
pub(crate) fn are_partial(members: &[Member]) -> bool
    ensures all { result ≡ list_all (λ m. m.partial) members.now }
    ensures some { result ≡ false → 0 < length members.now }
{
    let mut rest = members;
    while let Some((m, later)) = rest.split_first() {
        if !m.partial {
            return false;
        }
        rest = later;
    }
    true
}

/// The fix that deletes the parts of the earlier names, where each has one.
#[tactic(auto, unfolding(crate::specs::BanDuplicateColumnAssignments::fix_of))]
pub(crate) fn fix_of(
    alloc: Global,
    p: &Parse<'_>,
    earlier: &[Member],
    last: Member,
) -> Result<Option<Fix>, NoMemory>
    ensures { IfOk result (λ fix. fix ≡ spec.fix_of p.now earlier.now last) }
{
    if !have_parts(earlier) {
        return Ok(None);
    }
    let name = full_name(alloc, p, last)?;
    let title = title(alloc, name.as_str())?;
    let edits = deletions(alloc, p, earlier)?;
    Ok(Some(Fix { title, edits }))
}
