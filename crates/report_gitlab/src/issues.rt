//! The issue of a finding.
ghost use Rattle.std.specs.Prelude.{◌≡◌, ◌==◌, ◌≤◌, IfOk, length, position, string_bytes};
ghost use Rattle.std.specs.Str.{IsCharBoundary};
ghost use Rattle.serde_json.specs.View.{view};
ghost use Rattle.json_value.specs.source_file.File.{IsRangeIn};
ghost use Rattle.json_value.specs.source_file.Line.{rest_of};
ghost use Rattle.json_value.specs.source_file.Refusals.{place_of};
ghost use Rattle.report_gitlab.specs.Issues.{described, fingerprint, fingerprinted, issue_object, location_object, refusal_issue, report_fingerprint, report_issue, severity_of, statement_text};

use json_value::{Level, Refusal, SourceFile};
use lint_report::Report;
use serde_json::{Value, json};
use sha2::{Digest, Sha256};
use std::alloc::{AllocError, Global};

// The severity of a level.
fn severity_of(level: Level) -> &'static str
    ensures { result.now ≡ severity_of level }
{
    match level {
        Level::Warning => "minor",
        Level::Error => "major",
    }
}

// What a fingerprint is taken of.
fn fingerprinted(alloc: Global, file: &str, name: &str, part: &[u8]) -> Result<Vec<u8>, AllocError>
    ensures { IfOk result (λ all. all.items ≡ fingerprinted file.now name.now part.now) }
{
    let mut all = Vec::from_slice(alloc, file.as_bytes())?;
    all.extend_from_slice(&[0])?;
    all.extend_from_slice(name.as_bytes())?;
    all.extend_from_slice(&[0])?;
    all.extend_from_slice(part)?;
    Ok(all)
}

// The fingerprint of a finding, by the file's name, that of the rule or hazard, and the statement.
#[tactic(auto, unfolding(crate::specs::Issues::fingerprint))]
fn fingerprint(alloc: Global, file: &str, name: &str, part: &[u8]) -> Result<String, AllocError>
    ensures { IfOk result (λ text. string_bytes text ≡ fingerprint file.now name.now part.now) }
{
    let all = fingerprinted(alloc, file, name, part)?;
    hex::encode(alloc, Sha256::digest(all.as_slice()))
}

// The text of the statement that a report is in.
fn statement_of<'a>(text: &'a str, report: &Report) -> &'a [u8]
    requires { IsRangeIn text.now report.now.statement }
    ensures { result.now ≡ statement_text text.now report.now }
{
    let start = report.statement.start().raw() as usize;
    let end = report.statement.end().raw() as usize;
    &text.as_bytes()[start..end]
}

/// The fingerprint of a report of a file, by the file's name, that of the report's rule or hazard, and the text of its statement: from the
/// first token to the last, so that white space and comments around it change nothing. The error comes when memory runs out.
pub fn report_fingerprint(
    alloc: Global,
    file: &str,
    text: &str,
    report: &Report,
) -> Result<String, AllocError>
    requires { IsRangeIn text.now report.now.statement }
    ensures { IfOk result (λ print. string_bytes print ≡ report_fingerprint file.now text.now report.now) }
{
    fingerprint(alloc, file, report.code.name(), statement_of(text, report))
}

// A line of a file.
fn location_value(alloc: Global, path: &str, line: usize) -> Result<Value, AllocError>
    ensures { IfOk result (λ value. view value ≡ location_object path.now line) }
{
    json!(in alloc; {"lines": {"begin": (line as u64)}, "path": path})
}

// A finding, by its fingerprint and its place.
fn described_value(
    alloc: Global,
    level: Level,
    name: &str,
    message: &str,
    fingerprint: &str,
    location: Value,
) -> Result<Value, AllocError>
    ensures { IfOk result (λ value. view value ≡ described level name.now message.now fingerprint.now (view location)) }
{
    let severity = severity_of(level);
    json!(in alloc; {
        "check_name": name,
        "description": message,
        "fingerprint": fingerprint,
        "location": location,
        "severity": severity
    })
}

// A finding on a line.
fn issue_value(
    alloc: Global,
    file: &SourceFile<'_>,
    line: usize,
    level: Level,
    name: &str,
    message: &str,
    part: &[u8],
) -> Result<Value, AllocError>
    ensures { IfOk result (λ value. view value ≡ issue_object file.now line level name.now message.now part.now) }
{
    let fingerprint = fingerprint(alloc, file.name(), name, part)?;
    let location = location_value(alloc, file.name(), line)?;
    described_value(alloc, level, name, message, fingerprint.as_str(), location)
}

/// A report as an issue. The error comes when memory runs out.
pub(crate) fn report_issue(
    alloc: Global,
    file: &SourceFile<'_>,
    report: &Report,
) -> Result<Value, AllocError>
    requires { IsRangeIn file.now.text report.now.statement }
    ensures { IfOk result (λ value. view value ≡ report_issue file.now report.now) }
{
    let line = file.line(report.text_range.start());
    let name = report.code.name();
    let message = report.message.as_str();
    let statement = statement_of(file.text(), report);
    issue_value(alloc, file, line, Level::Warning, name, message, statement)
}

// The place of the first line feed.
fn first_line_feed(bytes: &[u8]) -> Option<usize>
    ensures { result ≡ position (λ byte. byte == 10) bytes.now }
{
    bytes.iter().position(|byte| *byte == b'\n')
}

// What is on the line from a place on.
fn rest_of_line(text: &[u8], at: usize) -> &[u8]
    requires { at ≤ length text.now }
    ensures { result.now ≡ rest_of text.now at }
{
    let rest = &text[at..];
    match first_line_feed(rest) {
        None => rest,
        Some(end) => &rest[..end],
    }
}

/// Why a file could not be linted, as an issue. The error comes when memory runs out.
pub(crate) fn refusal_issue(
    alloc: Global,
    file: &SourceFile<'_>,
    refusal: &Refusal,
) -> Result<Value, AllocError>
    requires { IsCharBoundary file.now.text (place_of refusal.now) }
    ensures { IfOk result (λ value. view value ≡ refusal_issue file.now refusal.now) }
{
    let line = file.line(refusal.place());
    let name = refusal.name();
    let message = refusal.message();
    let rest = rest_of_line(file.text().as_bytes(), refusal.place().raw() as usize);
    issue_value(alloc, file, line, Level::Error, name, message, rest)
}
