//! What passes add to a list of reports, where a caller runs them itself.

ghost use Rattle.std.specs.Prelude.{◌≡◌, IfOk, false};

use crate::at_start::AtStart;
use crate::shown::{is_shown, reports_shown};
use case_format::{NoMemory, TextBuilder, TextRange, TextSize};
use squawk_cli::sql_read::parse;
use squawk_cli::{
    Linter, LinterSettings, Names, Parse, Pass, Reports, RequireConcurrentIndexCreation, Rule,
    RuleSet, Text, Violation,
};
use std::alloc::Global;
use std::test::Fail;

// The settings of these tests, under which no transaction is assumed.
fn settings(alloc: Global) -> Result<LinterSettings, Fail>
    ensures { IfOk result (λ settings. settings.assume_in_transaction ≡ false) }
{
    Ok(LinterSettings {
        pg_version: [15, 0, 0],
        assume_in_transaction: false,
        non_volatile: Names::standard(alloc)?,
    })
}

// What a pass adds to an empty list, under the rules of the default set.
fn run_of<P: Pass>(alloc: Global, text: &str, pass: &P) -> Result<Reports, Fail> {
    let settings = settings(alloc)?;
    let p = parse(alloc, text)?;
    let mut out = Reports::new(alloc);
    pass.run(alloc, &p, &RuleSet::all_default(), &settings, &mut out)?;
    Ok(out)
}

/// A text with one index build to report.
const BUILD: &str = "BEGIN; CREATE TABLE t (id int); COMMIT; CREATE INDEX i ON t (id);";

#[test]
fn a_list_goes_on_after_a_pass(rt: HostRuntime) -> Result<(), Fail> {
    let mut out = run_of(rt.alloc(), BUILD, &RequireConcurrentIndexCreation)?;
    assert_eq!(rt; out.items().len(), 1);
    let start = TextSize::new(0);
    out.push(Violation::for_range(
        Rule::BanDropTable,
        Text::fixed("more"),
        TextRange::new(start, start),
    ))?;
    assert_eq!(rt; out.items().len(), 2);
    let want = "40..65 require-concurrent-index-creation 0..0 ban-drop-table ";
    is_shown(&rt, &reports_shown(rt.alloc(), out.items()), BUILD, want);
    Ok(())
}

/// What the pass on the start of a text reports.
const START: &str = "0..0 ban-drop-table ";

// A pass may have a `run` of its own.
#[test]
fn a_pass_runs_by_itself(rt: HostRuntime) -> Result<(), Fail> {
    assert!(rt; AtStart.rules().contains(Rule::BanDropTable));
    let out = run_of(rt.alloc(), BUILD, &AtStart)?;
    is_shown(&rt, &reports_shown(rt.alloc(), out.items()), BUILD, START);
    Ok(())
}

// The reports of a tree by the pass on its start, in place of the linter's own ones.
fn starts_of(alloc: Global, linter: &mut Linter, p: &Parse<'_>) -> Result<TextBuilder, NoMemory> {
    let reports = linter.lint_with(alloc, p, &AtStart)?;
    Ok(reports_shown(alloc, reports.as_slice()))
}

// A linter lints with such a pass too.
#[test]
fn a_linter_runs_such_a_pass(rt: HostRuntime) -> Result<(), Fail> {
    let mut linter = Linter::with_default_rules(settings(rt.alloc())?);
    let p = parse(rt.alloc(), BUILD)?;
    let answer = starts_of(rt.alloc(), &mut linter, &p)?;
    is_shown(&rt, &answer, BUILD, START);
    Ok(())
}
