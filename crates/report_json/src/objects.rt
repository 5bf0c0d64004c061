//! The object of a finding.
ghost use Rattle.std.specs.Prelude.{◌≡◌, IfOk};
ghost use Rattle.std.specs.Str.{IsCharBoundary};
ghost use Rattle.serde_json.specs.View.{view};
ghost use Rattle.json_value.specs.source_file.File.{IsRangeIn};
ghost use Rattle.json_value.specs.source_file.Refusals as refusals;
ghost use Rattle.report_json.specs.Objects.{edit_object, edits_data, finding_object, fix_data, placed_object, range_object, refusal_object, report_object};

use json_value::{Level, Place, Refusal, SourceFile, hint_for, hint_value, text_value};
use lint_report::{Edit, Report, ReportFix, TextRange};
use serde_json::{Value, json};
use std::alloc::{AllocError, Global};

// A range. Its places are bytes, counted from 0.
fn range_value(alloc: Global, range: TextRange) -> Result<Value, AllocError>
    ensures { IfOk result (λ value. view value ≡ range_object range) }
{
    json!(in alloc; {"end": (range.end().raw()), "start": (range.start().raw())})
}

// An edit. Its places are bytes, counted from 0.
fn edit_value(alloc: Global, edit: &Edit) -> Result<Value, AllocError>
    ensures { IfOk result (λ value. view value ≡ edit_object edit.now) }
{
    let start = edit.text_range.start().raw();
    let end = edit.text_range.end().raw();
    let text = text_value(alloc, &edit.text)?;
    json!(in alloc; {"end": end, "start": start, "text": text})
}

// Edits, in order.
fn edits_value(alloc: Global, edits: &[Edit]) -> Result<Value, AllocError>
    ensures { IfOk result (λ value. view value ≡ edits_data edits.now) }
{
    let mut list = Vec::new(alloc);
    for edit in edits {
        list.push(edit_value(alloc, edit)?)?;
    }
    Ok(Value::Array(list))
}

// A fix with its class, or null.
fn fix_value(alloc: Global, fix: &Option<ReportFix>) -> Result<Value, AllocError>
    ensures { IfOk result (λ value. view value ≡ fix_data fix.now) }
{
    let Some(fix) = fix else {
        return Ok(Value::Null);
    };
    let class = fix.class.name();
    let edits = edits_value(alloc, fix.fix.edits.as_slice())?;
    let title = fix.fix.title.as_str();
    json!(in alloc; {"class": class, "edits": edits, "title": title})
}

/// What a finding says beside its message, and its bytes.
struct Details {
    note: Value,
    help: Value,
    fix: Value,
    range: Value,
    statement: Value,
}

// A finding between two places of a file of this name.
fn placed_value(
    alloc: Global,
    file: &str,
    first: Place,
    last: Place,
    level: &str,
    name: &str,
    message: &str,
    details: Details,
) -> Result<Value, AllocError>
    ensures { IfOk result (λ value. view value ≡ placed_object file.now first last level.now name.now message.now
        (view details.note) (view details.help) (view details.fix) (view details.range) (view details.statement)) }
{
    let Details {
        note,
        help,
        fix,
        range,
        statement,
    } = details;
    json!(in alloc; {
        "column": (first.column as u64),
        "column_end": (last.column as u64),
        "file": file,
        "fix": fix,
        "help": help,
        "level": level,
        "line": (first.line as u64),
        "line_end": (last.line as u64),
        "message": message,
        "note": note,
        "range": range,
        "rule_name": name,
        "statement": statement
    })
}

// A finding of a file.
fn finding_value(
    alloc: Global,
    file: &SourceFile<'_>,
    range: TextRange,
    level: &str,
    name: &str,
    message: &str,
    details: Details,
) -> Result<Value, AllocError>
    requires range { IsRangeIn file.now.text range }
    requires bytes { view details.range ≡ range_object range }
    ensures { IfOk result (λ value. view value ≡ finding_object file.now range level.now name.now message.now
        (view details.note) (view details.help) (view details.fix) (view details.statement)) }
{
    let first = file.place(range.start());
    let last = file.place(range.end());
    placed_value(
        alloc,
        file.name(),
        first,
        last,
        level,
        name,
        message,
        details,
    )
}

/// A report as a value. The error comes when memory runs out.
pub fn report_value(
    alloc: Global,
    file: &SourceFile<'_>,
    report: &Report,
) -> Result<Value, AllocError>
    requires { IsRangeIn file.now.text report.now.text_range }
    ensures { IfOk result (λ value. view value ≡ report_object file.now report.now) }
{
    let details = Details {
        note: text_value(alloc, &report.note)?,
        help: text_value(alloc, &report.help)?,
        fix: fix_value(alloc, &report.fix)?,
        range: range_value(alloc, report.text_range)?,
        statement: range_value(alloc, report.statement)?,
    };
    let level = Level::Warning.word();
    let name = report.code.name();
    let message = report.message.as_str();
    finding_value(
        alloc,
        file,
        report.text_range,
        level,
        name,
        message,
        details,
    )
}

/// Why a file could not be linted, as a value. The error comes when memory runs out.
pub fn refusal_value(
    alloc: Global,
    file: &SourceFile<'_>,
    refusal: &Refusal,
) -> Result<Value, AllocError>
    requires { IsCharBoundary file.now.text (refusals.place_of refusal.now) }
    ensures { IfOk result (λ value. view value ≡ refusal_object file.now refusal.now) }
{
    let at = refusal.place();
    let range = TextRange::new(at, at);
    let details = Details {
        note: Value::Null,
        help: hint_value(alloc, hint_for(file.text(), refusal))?,
        fix: Value::Null,
        range: range_value(alloc, range)?,
        statement: Value::Null,
    };
    let level = Level::Error.word();
    let name = refusal.name();
    let message = refusal.message();
    finding_value(alloc, file, range, level, name, message, details)
}
