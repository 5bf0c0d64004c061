//! What a linter answers for a tree.

ghost use Rattle.std.specs.Prelude.{◌≡◌, ◌<◌};

use crate::mark::Mark;
use crate::shown::{is_shown, messages_shown, reports_shown};
use case_format::{NoMemory, TextBuilder};
use squawk_cli::sql_read::parse;
use squawk_cli::{
    BanDropDatabase, Linter, LinterSettings, Names, NoPass, Pair, Parse, Rule, StepPass, Steps,
    Violation, lint_text, placed,
};
use std::alloc::Global;
use std::marker::Brand;
use std::process::Abort;
use std::sync::ledger::{Blank, Ledger};
use std::test::Fail;

/// Whether a transaction is assumed, a text, its reports, and whether a transaction is assumed afterwards. Of a report it is
/// where it begins and ends, and its rule.
type Row = (bool, &'static str, &'static str, bool);

const ANSWERS: &[Row] = &[
    (
        false,
        "CREATE INDEX ON t (a); ALTER TABLE t ADD UNIQUE (a);",
        "0..22 require-concurrent-index-creation 37..51 constraint-missing-not-valid ",
        false,
    ),
    (
        true,
        "CREATE TABLE t (id int); CREATE INDEX ON t (id);",
        "",
        true,
    ),
    (
        true,
        "CREATE TABLE t (id int); CREATE INDEX ON t (id); -- squawk-disable-assume-in-transaction",
        "25..48 require-concurrent-index-creation ",
        false,
    ),
];

/// The rules of these tests.
const RULES: &[Rule] = &[
    Rule::RequireConcurrentIndexCreation,
    Rule::ConstraintMissingNotValid,
    Rule::BanDropDatabase,
    Rule::BanDropTable,
];

fn settings_of(alloc: Global, assume: bool) -> Result<LinterSettings, Fail> {
    Ok(LinterSettings {
        pg_version: [15, 0, 0],
        assume_in_transaction: assume,
        non_volatile: Names::standard(alloc)?,
    })
}

fn linter_of(alloc: Global, assume: bool) -> Result<Linter, Fail> {
    Ok(Linter::from(RULES, settings_of(alloc, assume)?))
}

// A linter has answered as the row says.
fn has_answered(rt: &impl Abort, row: &Row, answer: &TextBuilder, after: &Linter) {
    is_shown(rt, answer, row.1, row.2);
    assert!(rt;
        after.settings.assume_in_transaction == row.3,
        "at {:?}",
        row.1
    );
}

// The call for texts answers so.
fn by_text(rt: &impl Abort, alloc: Global, row: &Row) -> Result<(), Fail> {
    let mut linter = linter_of(alloc, row.0)?;
    let reports = lint_text(&mut linter, alloc, row.1)?;
    has_answered(rt, row, &reports_shown(alloc, reports.as_slice()), &linter);
    Ok(())
}

// What the second of two calls for a tree answers.
fn of_tree_again(
    alloc: Global,
    linter: &mut Linter,
    p: &Parse<'_>,
) -> Result<TextBuilder, NoMemory> {
    linter.lint(alloc, p)?;
    let reports = linter.lint(alloc, p)?;
    Ok(reports_shown(alloc, reports.as_slice()))
}

// So does that call for its tree.
fn by_tree_again(rt: &impl Abort, alloc: Global, row: &Row) -> Result<(), Fail> {
    let mut linter = linter_of(alloc, row.0)?;
    let p = parse(alloc, row.1)?;
    let answer = of_tree_again(alloc, &mut linter, &p)?;
    has_answered(rt, row, &answer, &linter);
    Ok(())
}

// The reports of a tree by a pass in place of the linter's own ones.
fn found_by<P: StepPass>(
    alloc: Global,
    linter: &mut Linter,
    p: &Parse<'_>,
    pass: &P,
) -> Result<Vec<Violation>, NoMemory> {
    placed(p, pass);
    linter.lint_with(alloc, p, pass)
}

fn of_pass<P: StepPass>(
    alloc: Global,
    linter: &mut Linter,
    p: &Parse<'_>,
    pass: &P,
) -> Result<TextBuilder, NoMemory> {
    let reports = found_by(alloc, linter, p, pass)?;
    Ok(reports_shown(alloc, reports.as_slice()))
}

// The reports of a text by a pass are these.
fn by_pass<P: StepPass>(
    rt: &impl Abort,
    alloc: Global,
    text: &str,
    pass: &P,
    want: &str,
) -> Result<(), Fail> {
    let mut linter = linter_of(alloc, false)?;
    let p = parse(alloc, text)?;
    let answer = of_pass(alloc, &mut linter, &p, pass)?;
    is_shown(rt, &answer, text, want);
    Ok(())
}

// The reports of a tree by the call that counts the steps of the walk, over a new ledger.
fn counted_by<L: Ledger>(
    blank: Blank,
    alloc: Global,
    linter: &mut Linter,
    p: &Parse<'_>,
) -> Result<TextBuilder, Fail>
    requires name { blank.name ≡ L.name }
    requires parts { blank.parts ≡ L.parts }
    requires some { 0 < blank.parts }
{
    let mut steps = Steps::<L>::new(blank);
    let reports = linter.lint_counted(alloc, p, &mut steps)?;
    Ok(reports_shown(alloc, reports.as_slice()))
}

fn counted(alloc: Global, text: &str) -> Result<TextBuilder, Fail> {
    let mut linter = linter_of(alloc, false)?;
    let p = parse(alloc, text)?;
    counted_by::<Brand>(Blank::new(1), alloc, &mut linter, &p)
}

#[test]
fn answers(rt: HostRuntime) -> Result<(), Fail> {
    for row in ANSWERS {
        by_text(&rt, rt.alloc(), row)?;
    }
    Ok(())
}

#[test]
fn answers_for_trees(rt: HostRuntime) -> Result<(), Fail> {
    for row in ANSWERS {
        by_tree_again(&rt, rt.alloc(), row)?;
    }
    Ok(())
}

#[test]
fn no_pass(rt: HostRuntime) -> Result<(), Fail> {
    let text = "-- squawk-ignore foo\nCREATE INDEX ON t (a);";
    by_pass(&rt, rt.alloc(), text, &NoPass, "17..20 unused-ignore ")
}

// The reports of a text by the pass of these tests under the default rules, with their messages.
fn marked(alloc: Global, text: &str) -> Result<TextBuilder, Fail> {
    let mut linter = Linter::with_default_rules(settings_of(alloc, false)?);
    let p = parse(alloc, text)?;
    let reports = found_by(alloc, &mut linter, &p, &Mark)?;
    Ok(messages_shown(alloc, reports.as_slice()))
}

#[test]
fn marks(rt: HostRuntime) -> Result<(), Fail> {
    let text = "-- squawk-ignore ban-drop-table\nSELECT 1;\nSELECT 2;";
    let answer = marked(rt.alloc(), text)?;
    is_shown(&rt, &answer, text, "42..51 ban-drop-table mark ");
    Ok(())
}

/// A text in which two passes report at one place.
const DROPS: &str = "DROP DATABASE d; SELECT 1; DROP DATABASE e;";

// Reports at one place are in the order of their passes, and all of them by their places.
#[test]
fn bans_before_marks(rt: HostRuntime) -> Result<(), Fail> {
    let both = Pair {
        first: BanDropDatabase,
        second: Mark,
    };
    let want =
        "0..16 ban-drop-database 0..16 ban-drop-table 17..26 ban-drop-table 27..43 ban-drop-database 27..43 ban-drop-table ";
    by_pass(&rt, rt.alloc(), DROPS, &both, want)
}

#[test]
fn marks_before_bans(rt: HostRuntime) -> Result<(), Fail> {
    let both = Pair {
        first: Mark,
        second: BanDropDatabase,
    };
    let want =
        "0..16 ban-drop-table 0..16 ban-drop-database 17..26 ban-drop-table 27..43 ban-drop-table 27..43 ban-drop-database ";
    by_pass(&rt, rt.alloc(), DROPS, &both, want)
}

/// Texts, and their reports by the call that counts.
const COUNTED: &[(&str, &str)] = &[
    (
        "BEGIN; CREATE TABLE t (id int); CREATE INDEX i ON t (id); COMMIT;",
        "",
    ),
    (
        "BEGIN;\nCREATE INDEX i ON t (id);\nCOMMIT;",
        "7..32 require-concurrent-index-creation ",
    ),
];

#[test]
fn counts(rt: HostRuntime) -> Result<(), Fail> {
    for (text, want) in COUNTED {
        is_shown(&rt, &counted(rt.alloc(), text)?, text, want);
    }
    Ok(())
}
