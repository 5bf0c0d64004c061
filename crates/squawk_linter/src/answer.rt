//! The answer of a linter, made of the reports of a pass.
ghost use Rattle.std.specs.Prelude.{◌≡◌, ◌<◌, ◌^◌, [], ℕ, List, All, filter, length, IfOk};
ghost use Rattle.std.specs.List.{list_any};
ghost use Rattle.sql_read.specs.sql_token.Token.{Text};
ghost use Rattle.sql_read.specs.sql_tree.Statement.{IsTree};
ghost use Rattle.fix_edit.specs.lint_ignore.declared.ignore.Ignore.{Ignore};
ghost use Rattle.fix_edit.specs.lint_ignore.Found.{found_in, lists_of};
ghost use Rattle.fix_edit.specs.lint_ignore.Index.{IsIndexOf};
ghost use Rattle.fix_edit.specs.lint_pass.Ranges.{AllLieIn};
ghost use Rattle.squawk_linter.specs.ByStart.{by_key};
ghost use Rattle.squawk_linter.specs.Reports.{gathered, has_bare_file_ignore, is_left, reports_from, start_of, unused_of, with_unknown_names};

use fix_edit::{
    Found, Ignore, IgnoreIndex, IgnoreKind, IgnorePiece, Reports, Rule, RuleSet, Violation,
    find_ignores, unused_pieces,
};
use sql_read::NoMemory;
use sql_read::sql_tree::Parse;
use std::alloc::Global;

// Whether a bare file ignore is among some ignore comments.
fn has_bare_file_ignore(ignores: &[Ignore]) -> bool
    ensures { result ≡ has_bare_file_ignore ignores.now }
{
    ignores.iter().any(|ignore| ignore.kind == IgnoreKind::File && ignore.ignore_all)
}

// The reports of names that cover none of some reports, where these are wanted.
fn unused_of(
    alloc: Global,
    file: &Parse<'_>,
    ignores: &[Ignore],
    pieces: &[IgnorePiece],
    all: &[Violation],
    rules: &RuleSet,
) -> Result<Reports, NoMemory>
    requires ignores { ignores.now ≡ (found_in file.now).ignores }
    requires pieces { pieces.now ≡ (found_in file.now).pieces }
    ensures { IfOk result (λ unused. unused ≡ unused_of file.now all.now rules.now) }
{
    let mut unused = Reports::new(alloc);
    if rules.contains(Rule::UnusedIgnore) && !has_bare_file_ignore(ignores) {
        unused_pieces(alloc, file, ignores, pieces, all, rules, &mut unused)?;
    }
    Ok(unused)
}

// What is found before any ignore comment is: some reports.
fn found_before(alloc: Global, reports: Reports) -> Found
    ensures { lists_of result ≡ record { reports = reports; ignores = []; pieces = [] } }
{
    Found {
        reports,
        ignores: Vec::new(alloc),
        pieces: Vec::new(alloc),
    }
}

// Those of some reports that no ignore comment covers, in their order.
fn uncovered(alloc: Global, index: &IgnoreIndex, all: Reports) -> Result<Reports, NoMemory>
    ensures { IfOk result (λ kept. (text : Text) (ignores : List Ignore) → IsIndexOf index.now text ignores
        → kept ≡ filter (is_left text ignores) all) }
{
    let mut kept = Reports::new(alloc);
    for report in all.into_items() {
        if !index.contains(report.text_range, report.code) {
            kept.push(report)?;
        }
    }
    Ok(kept)
}

// The reports of the answer, in the order in which they are made. Where the text has no ignore
// comment these are the given ones, and no line is looked for.
fn gathered(
    alloc: Global,
    file: &Parse<'_>,
    text: &str,
    rules: &RuleSet,
    found: Reports,
) -> Result<Reports, NoMemory>
    requires text { text.now ≡ file.now.text }
    requires short { length text.now < 2 ^ 32 }
    ensures { IfOk result (λ all. all ≡ gathered file.now (with_unknown_names file.now found) rules.now) }
{
    let mut found = found_before(alloc, found);
    find_ignores(alloc, file, &mut found)?;
    let Found {
        reports,
        ignores,
        pieces,
    } = found;
    if ignores.is_empty() {
        return Ok(reports);
    }
    let ignores = ignores.as_slice();
    let unused = unused_of(
        alloc,
        file,
        ignores,
        pieces.as_slice(),
        reports.items(),
        rules,
    )?;
    let index = IgnoreIndex::new(alloc, text, ignores)?;
    let mut kept = uncovered(alloc, &index, reports)?;
    kept.append(unused)?;
    Ok(kept)
}

// Some reports in the order of their starts, equal starts as they were.
fn by_start(mut reports: Vec<Violation>) -> Result<Vec<Violation>, NoMemory>
    ensures { IfOk result (λ sorted. (n : ℕ) → All (λ v. start_of v < n) reports.items → sorted.items ≡ by_key start_of n reports.items) }
{
    reports.sort_by_key(|v| v.text_range.start().raw())?;
    Ok(reports)
}

/// The answer for some reports of a tree, whose text is `text`. The error comes when memory runs out.
pub(crate) fn answer(
    alloc: Global,
    file: &Parse<'_>,
    text: &str,
    rules: &RuleSet,
    found: Reports,
) -> Result<Vec<Violation>, NoMemory>
    requires text { text.now ≡ file.now.text }
    requires tree { IsTree file.now }
    requires lie { AllLieIn file.now found }
    ensures { IfOk result (λ v. v.items ≡ reports_from file.now found rules.now) }
{
    let all = gathered(alloc, file, text, rules, found)?;
    by_start(all.into_items())
}
