//! Which reports the ignore comments of a text cover.

use lint_track::{Found, IGNORE_FILE_TEXT, IGNORE_LINE_TEXT, IgnoreIndex, Rule, find_ignores};
use sql_read::{TextRange, TextSize, parse};
use std::alloc::Global;
use std::process::Abort;
use std::test::Fail;

/// A text, and the debug text of the index of its ignore comments.
const TEXTS: &[(&str, &str)] = &[
    ("", "IgnoreIndex:\n"),
    (
        "-- squawk-ignore ban-drop-table",
        "IgnoreIndex:\n  0: {BanDropTable}\n",
    ),
    (
        "-- squawk-ignore ban-drop-table, renaming-table\n-- squawk-ignore-file ban-drop-column\n/* squawk-ignore require-timeout-settings */\n-- squawk-ignore foo",
        "IgnoreIndex:\n  0: {RenamingTable, BanDropTable}\n  2: {RequireTimeoutSettings, RequireLockTimeout, RequireStatementTimeout}\n  3: {}\n",
    ),
    (
        "/* squawk-ignore ban-drop-table */ /* squawk-ignore renaming-table */",
        "IgnoreIndex:\n  0: {RenamingTable, BanDropTable}\n",
    ),
];

const ONE: &str = "-- squawk-ignore ban-drop-table\nBEGIN a b c ;\nBEGIN a b c ;";

/// A text, the byte at which a report begins, its rule, and whether it is covered.
const COVERED: &[(&str, u32, Rule, bool)] = &[
    (ONE, 0, Rule::BanDropTable, true),
    (ONE, 32, Rule::BanDropTable, true),
    (ONE, 46, Rule::BanDropTable, false),
    (ONE, 32, Rule::BanDropColumn, false),
    (
        "BEGIN;\n-- squawk-ignore ban-drop-table",
        0,
        Rule::BanDropTable,
        false,
    ),
    (
        "BEGIN;\n-- squawk-ignore ban-drop-table",
        7,
        Rule::BanDropTable,
        true,
    ),
    (
        "BEGIN;\n\n-- squawk-ignore-file ban-drop-table",
        0,
        Rule::BanDropTable,
        true,
    ),
    (
        "BEGIN;\n\n-- squawk-ignore-file ban-drop-table",
        0,
        Rule::UnusedIgnore,
        false,
    ),
    (
        "BEGIN;\n\n-- squawk-ignore-file",
        0,
        Rule::UnusedIgnore,
        true,
    ),
    ("-- squawk-ignore\nBEGIN;", 17, Rule::BanDropTable, false),
];

fn index_of(alloc: Global, text: &str) -> Result<IgnoreIndex, Fail> {
    let p = parse(alloc, text)?;
    let mut found = Found::new(alloc);
    find_ignores(alloc, &p, &mut found)?;
    Ok(IgnoreIndex::new(alloc, p.text(), &found.ignores)?)
}

fn is_text(rt: &impl Abort, of: &str, text: &str, want: &str) {
    assert_eq!(rt; text, want, "at {of:?}");
}

#[test]
fn debug_texts(rt: HostRuntime) -> Result<(), Fail> {
    for row in TEXTS {
        let index = index_of(rt.alloc(), row.0)?;
        let shown = format!(in rt.alloc(); "{index:?}")?;
        is_text(&rt, row.0, shown.as_str(), row.1);
    }
    Ok(())
}

#[test]
fn covered(rt: HostRuntime) -> Result<(), Fail> {
    for row in COVERED {
        let index = index_of(rt.alloc(), row.0)?;
        let at = TextSize::new(row.1);
        let is_covered = index.contains(TextRange::new(at, at), row.2);
        assert_eq!(rt; is_covered, row.3, "at {} of {:?}", row.1, row.0);
    }
    Ok(())
}

#[test]
fn prefixes(rt: HostRuntime) {
    assert_eq!(rt; IGNORE_LINE_TEXT, "squawk-ignore");
    assert_eq!(rt; IGNORE_FILE_TEXT, "squawk-ignore-file");
}
