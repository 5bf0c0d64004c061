//! Whether a file passes.

ghost use Rattle.std.specs.Prelude.{◌≡◌, ◌++◌, ◌<◌, ◌^◌, IfOk, OnOk, None, length, is_some};
ghost use Rattle.std.specs.Str.{IsUtf8};
ghost use Rattle.squawk_linter.specs.sql_tree.Statement.{IsTree};
ghost use Rattle.squawk_linter.specs.lint_ignore.Comment.{ignore_of};
ghost use Rattle.squawk_linter.specs.Reports.{cleared};
ghost use Rattle.migration_gate.specs.Judged.{IsJudged, IsToldOf, SameButFlag};
ghost use Rattle.migration_gate.specs.Passing as spec;
ghost use Rattle.migration_gate.specs.Passing.{first_found, first_ignore, why_in};
ghost use Rattle.migration_gate.specs.Run.{in_file};

use crate::{GateWork, Why};
use squawk_linter::sql_read::parse;
use squawk_linter::{
    LintError, Linter, NoMemory, Parse, Violation, Work, ignore_rule_info, is_plain, lock_work,
};
use std::alloc::Global;

/// Whether token `i` is an ignore comment.
fn is_ignore(p: &Parse<'_>, i: usize) -> bool
    requires { i < length p.now.toks }
    ensures { result ≡ is_some (ignore_of p.now i) }
{
    ignore_rule_info(p, i).is_some()
}

/// The start of the first ignore comment.
fn first_ignore(p: &Parse<'_>) -> Option<u32>
    ensures { result ≡ first_ignore p.now.text p.now.toks }
{
    for i in 0..p.tokens().len() {
        if is_ignore(p, i) {
            return Some(p.tokens()[i].start);
        }
    }
    None
}

fn ignored(at: Option<u32>) -> Option<Why>
    ensures { result ≡ spec.ignored at }
{
    match at {
        None => None,
        Some(at) => Some(Why::Ignored { at }),
    }
}

fn unplain(is_plain: bool) -> Option<Why>
    ensures { result ≡ spec.unplain is_plain }
{
    if is_plain { None } else { Some(Why::NotPlain) }
}

/// The first report.
fn first_found(found: &[Violation]) -> Option<Why>
    ensures { result ≡ first_found found.now }
{
    match found {
        [] => None,
        [first, ..] => Some(Why::Found {
            at: first.text_range.start().raw(),
            rule: first.code,
        }),
    }
}

/// Why a text of this tree does not pass, where it does not. What takes no memory is tried first. The flag of the linter may be cleared, and
/// is cleared for the text where that passes.
fn why_in(linter: &mut Linter, alloc: Global, p: &Parse<'_>) -> Result<Option<Why>, NoMemory>
    ensures why { IfOk result (λ w. w ≡ why_in linter.old.rules linter.old.settings p.now) }
    ensures cleared { IfOk result (λ w. w ≡ None → linter.new.settings ≡ cleared p.now linter.old.settings) }
    ensures rules { linter.new.rules ≡ linter.old.rules }
    ensures settings { SameButFlag linter.old.settings linter.new.settings }
{
    if let Some(w) = ignored(first_ignore(p)) {
        return Ok(Some(w));
    }
    if let Some(w) = unplain(is_plain(p)) {
        return Ok(Some(w));
    }
    let found = linter.lint(alloc, p)?;
    Ok(first_found(found.as_slice()))
}

/// Adds the works of a file.
fn push_works(to: &mut Vec<GateWork>, file: u32, works: &[Work]) -> Result<(), NoMemory>
    ensures { OnOk result (to.new.items ≡ to.old.items ++ in_file file works.now) }
{
    for work in works {
        to.push(GateWork { file, work: *work })?;
    }
    Ok(())
}

/// Why a text of this tree does not pass; where it does, adds its works. The flag of the linter may be cleared.
fn judge_tree(
    linter: &mut Linter,
    alloc: Global,
    p: &Parse<'_>,
    file: u32,
    works: &mut Vec<GateWork>,
) -> Result<Option<Why>, NoMemory>
    ensures told { IfOk result (IsJudged linter.old.rules linter.old.settings p.now file works.old.items works.new.items) }
    ensures rules { linter.new.rules ≡ linter.old.rules }
    ensures settings { SameButFlag linter.old.settings linter.new.settings }
{
    match why_in(linter, alloc, p)? {
        Some(why) => Ok(Some(why)),
        None => {
            let listed = lock_work(alloc, p, &linter.settings)?;
            push_works(works, file, listed.as_slice())?;
            Ok(None)
        }
    }
}

/// The same; the linter is as before.
fn judge_kept(
    linter: &mut Linter,
    alloc: Global,
    p: &Parse<'_>,
    file: u32,
    works: &mut Vec<GateWork>,
) -> Result<Option<Why>, NoMemory>
    ensures told { IfOk result (IsJudged linter.old.rules linter.old.settings p.now file works.old.items works.new.items) }
    ensures linter { linter.new ≡ linter.old }
    ensures tree { IsTree p.now }
    ensures utf8 { IsUtf8 p.now.text }
{
    let _text = p.text();
    let assumed = linter.settings.assume_in_transaction;
    let told = judge_tree(linter, alloc, p, file, works);
    linter.settings.assume_in_transaction = assumed;
    told
}

/// Why a text does not pass; where it does, adds its works.
pub(crate) fn judge(
    linter: &mut Linter,
    alloc: Global,
    text: &str,
    file: u32,
    works: &mut Vec<GateWork>,
) -> Result<Option<Why>, NoMemory>
    requires short { length text.now < 2 ^ 32 }
    ensures told { IfOk result (IsToldOf linter.old.rules linter.old.settings text.now file works.old.items works.new.items) }
    ensures linter { linter.new ≡ linter.old }
{
    match parse(alloc, text) {
        Ok(p) => judge_kept(linter, alloc, &p, file, works),
        Err(LintError::Unterminated { at }) => Ok(Some(Why::Unterminated { at })),
        Err(LintError::Syntax { at }) => Ok(Some(Why::Syntax { at })),
        Err(LintError::TooLong) => unreachable!(),
        Err(LintError::NoMemory) => Err(NoMemory),
    }
}
