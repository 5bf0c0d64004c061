//! Fixes that are made in a text, those that are not, and what a refusal prints.

ghost use Rattle.std.specs.Prelude.{◌≤◌};

use crate::shown::is_shown;
use case_format::{TextBuilder, TextRange, TextSize};
use squawk_cli::{Edit, Fix, FixError, Text, apply_fix};
use std::alloc::Global;
use std::process::Abort;
use std::test::Fail;

/// An edit: where its range begins and ends, and what it puts there; where it has no text it deletes.
type Change = (u32, u32, Option<&'static str>);

/// A text, edits, and the edited text, or why they are not made.
type Row = (&'static str, &'static [Change], &'static str);

const FIXED: &[Row] = &[
    ("0123456789", &[], "0123456789"),
    ("", &[(0, 0, Some("a"))], "a"),
    (
        "BEGIN;",
        &[(6, 6, Some("\nCOMMIT;\n"))],
        "BEGIN;\nCOMMIT;\n",
    ),
    (
        "REINDEX TABLE foo;",
        &[(13, 13, Some(" concurrently"))],
        "REINDEX TABLE concurrently foo;",
    ),
    (
        "CLUSTER t USING i;",
        &[(0, 17, Some("repack (concurrently) t using index i"))],
        "repack (concurrently) t using index i;",
    ),
    (
        "create table users (id smallint, count int2, version smallserial);",
        &[
            (23, 31, Some("bigint")),
            (39, 43, Some("int8")),
            (53, 64, Some("bigserial")),
        ],
        "create table users (id bigint, count int8, version bigserial);",
    ),
    (
        "CREATE TABLE t (c varchar(100)not null);",
        &[(18, 30, Some("text"))],
        "CREATE TABLE t (c textnot null);",
    ),
    (
        "update t set a = 1, b = 2, a = 3;",
        &[(13, 20, None)],
        "update t set b = 2, a = 3;",
    ),
    (
        "aéb",
        &[(0, 1, None), (1, 3, Some("è")), (3, 3, None)],
        "èb",
    ),
    (
        "0123456789",
        &[(5, 9, None), (7, 8, None)],
        "overlap in edit 1",
    ),
    ("é", &[(1, 2, None)], "bad range in edit 0"),
    ("é", &[(0, 1, Some("e"))], "bad range in edit 0"),
    ("abc", &[(2, 4, None)], "bad range in edit 0"),
    ("abc", &[(4, 4, Some("d"))], "bad range in edit 0"),
    (
        "aé",
        &[(0, 1, None), (2, 2, Some("b"))],
        "bad range in edit 1",
    ),
    ("éa", &[(2, 3, None), (1, 2, None)], "bad range in edit 1"),
    (
        "abcd",
        &[(1, 3, None), (2, 4, None), (9, 9, None)],
        "overlap in edit 1",
    ),
    (
        "abcd",
        &[(0, 1, None), (1, 3, None), (2, 2, Some("x"))],
        "overlap in edit 2",
    ),
];

/// Each refusal, and what it prints.
const PRINTED: &[(FixError, &str)] = &[
    (FixError::BadRange { edit: 0 }, "bad range in edit 0"),
    (
        FixError::Overlap { edit: 4294967295 },
        "overlap in edit 4294967295",
    ),
    (FixError::TooLong, "text too long"),
    (FixError::NoMemory, "out of memory"),
];

fn edit_of(start: u32, end: u32, text: Option<&'static str>) -> Edit
    requires { start ≤ end }
{
    let range = TextRange::new(TextSize::new(start), TextSize::new(end));
    match text {
        Some(text) => Edit::replace(range, Text::fixed(text)),
        None => Edit::delete(range),
    }
}

fn fix_of(rt: &impl Abort, alloc: Global, changes: &[Change]) -> Result<Fix, Fail> {
    let mut edits = Vec::new(alloc);
    for (start, end, text) in changes {
        assert!(rt; *start <= *end);
        edits.push(edit_of(*start, *end, *text))?;
    }
    Ok(Fix {
        title: Text::fixed("t"),
        edits,
    })
}

// The edited text, or why the edits are not made.
fn fixed(rt: &impl Abort, alloc: Global, text: &str, fix: &Fix) -> TextBuilder {
    let mut out = TextBuilder::new(alloc);
    assert!(rt; text.len() < 4294967296 && fix.edits.len() < 4294967296);
    match apply_fix(alloc, text, fix) {
        Ok(edited) => out.add(edited.as_str()),
        Err(why) => out.display("", &why),
    }
    out
}

fn is_fixed(rt: &impl Abort, alloc: Global, row: &Row) -> Result<(), Fail> {
    let fix = fix_of(rt, alloc, row.1)?;
    is_shown(rt, &fixed(rt, alloc, row.0, &fix), row.0, row.2);
    Ok(())
}

#[test]
fn fixes_are_made_or_refused(rt: HostRuntime) -> Result<(), Fail> {
    for row in FIXED {
        is_fixed(&rt, rt.alloc(), row)?;
    }
    Ok(())
}

#[test]
fn refusals_are_printed(rt: HostRuntime) -> Result<(), Fail> {
    for (why, printed) in PRINTED {
        assert_eq!(rt; format!(in rt.alloc(); "{why}")?.as_str(), *printed);
    }
    Ok(())
}
