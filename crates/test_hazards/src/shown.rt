//! What is found in a text, as one line.

use hazard_find::{Finding, HazardSet, LinterSettings, Names, Violation, find};
use sql_read::parse;
use std::alloc::Global;
use std::process::Abort;
use std::test::Fail;

/// The settings of a run that are of matter here.
pub(crate) fn settings(alloc: Global, assume_in_transaction: bool, major: i32) -> LinterSettings {
    LinterSettings {
        pg_version: [major, 0, 0],
        assume_in_transaction,
        non_volatile: Names::new(alloc),
    }
}

/// The range and the name of each finding.
pub(crate) fn shown(alloc: Global, findings: &[Finding]) -> Result<String, Fail> {
    let mut line = String::new(alloc);
    for f in findings {
        if !line.is_empty() {
            line.push_str("; ")?;
        }
        let start = f.range.start().raw();
        let end = f.range.end().raw();
        line.push_str(format!(in alloc; "{start}..{end} {}", f.hazard)?.as_str())?;
    }
    Ok(line)
}

/// The range and the name of the rule of each report.
pub(crate) fn shown_reports(alloc: Global, reports: &[Violation]) -> Result<String, Fail> {
    let mut line = String::new(alloc);
    for v in reports {
        if !line.is_empty() {
            line.push_str("; ")?;
        }
        let start = v.text_range.start().raw();
        let end = v.text_range.end().raw();
        line.push_str(format!(in alloc; "{start}..{end} {}", v.code.name())?.as_str())?;
    }
    Ok(line)
}

/// Three lines as one, without those that are empty.
pub(crate) fn joined(
    alloc: Global,
    first: &str,
    second: &str,
    third: &str,
) -> Result<String, Fail> {
    let mut line = String::new(alloc);
    for part in [first, second, third] {
        if !line.is_empty() && !part.is_empty() {
            line.push_str("; ")?;
        }
        line.push_str(part)?;
    }
    Ok(line)
}

/// Whether this is found in a text.
pub(crate) fn is_found(
    rt: &impl Abort,
    alloc: Global,
    set: &LinterSettings,
    enabled: &HazardSet,
    text: &str,
    want: &str,
) -> Result<(), Fail> {
    let file = parse(alloc, text)?;
    let findings = find(alloc, &file, set, enabled)?;
    let line = shown(alloc, findings.as_slice())?;
    assert_eq!(rt; line.as_str(), want, "at {text:?}");
    Ok(())
}

/// Whether each row is found, with all hazards, by a version below 19 and outside of a transaction.
pub(crate) fn are_found(rt: &impl Abort, alloc: Global, rows: &[(&str, &str)]) -> Result<(), Fail> {
    let set = settings(alloc, false, 15);
    let all = HazardSet::all_default();
    for (text, want) in rows {
        is_found(rt, alloc, &set, &all, text, want)?;
    }
    Ok(())
}
