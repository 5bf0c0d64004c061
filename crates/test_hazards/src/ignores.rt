//! Names of hazards in ignore comments.

use crate::shown::{joined, settings, shown, shown_reports};
use hazard_find::{Finding, Found, HazardSet, find, find_ignores};
use hazard_ignore::{HazardIgnores, without_hazard_names};
use sql_read::parse;
use std::alloc::Global;
use std::process::Abort;
use std::test::Fail;

/// A text, and what is reported of it beside the rules' own: names in ignore comments, and then findings.
const IGNORES: &[(&str, &str)] = &[
    ("-- squawk-ignore table-rewrite\nVACUUM FULL t;", ""),
    (
        "-- squawk-ignore table-rewrit\nVACUUM FULL t;",
        "17..29 unused-ignore; 30..44 table-rewrite",
    ),
    (
        "-- squawk-ignore json-column\nVACUUM FULL t;",
        "17..28 unused-ignore; 29..43 table-rewrite",
    ),
    (
        "-- squawk-ignore table-rewrite\n\nVACUUM FULL t;",
        "17..30 unused-ignore; 32..46 table-rewrite",
    ),
    (
        "-- squawk-ignore-file table-rewrite\n\nVACUUM FULL t; VACUUM FULL u;",
        "",
    ),
    ("-- squawk-ignore-file\n\nVACUUM FULL t;", ""),
    ("-- squawk-ignore\nVACUUM FULL t;", "17..31 table-rewrite"),
    (
        "-- squawk-ignore json-column, table-rewrite\nALTER TABLE t ADD z json, SET LOGGED;",
        "",
    ),
];

/// The findings that no comment covers.
fn uncovered(
    alloc: Global,
    ignores: &HazardIgnores,
    found: Vec<Finding>,
) -> Result<Vec<Finding>, Fail> {
    let mut left = Vec::new(alloc);
    for finding in found {
        if !ignores.covers(&finding) {
            left.push(finding)?;
        }
    }
    Ok(left)
}

/// What is reported of a text.
fn reported(alloc: Global, text: &str) -> Result<String, Fail> {
    let set = settings(alloc, false, 15);
    let all = HazardSet::all_default();
    let file = parse(alloc, text)?;
    let mut names = Found::new(alloc);
    find_ignores(alloc, &file, &mut names)?;
    let ignores = HazardIgnores::new(alloc, &file)?;
    let found = find(alloc, &file, &set, &all)?;
    let unknown = without_hazard_names(alloc, names.reports.into_items())?;
    let unused = ignores.unused(alloc, found.as_slice(), &all)?;
    let left = uncovered(alloc, &ignores, found)?;
    let first = shown_reports(alloc, unknown.as_slice())?;
    let second = shown_reports(alloc, unused.as_slice())?;
    let third = shown(alloc, left.as_slice())?;
    joined(alloc, first.as_str(), second.as_str(), third.as_str())
}

/// Whether each row is reported.
fn are_reported(rt: &impl Abort, alloc: Global, rows: &[(&str, &str)]) -> Result<(), Fail> {
    for (text, want) in rows {
        let line = reported(alloc, text)?;
        assert_eq!(rt; line.as_str(), *want, "at {text:?}");
    }
    Ok(())
}

#[test]
fn ignores_followed(rt: HostRuntime) -> Result<(), Fail> {
    are_reported(&rt, rt.alloc(), IGNORES)
}
