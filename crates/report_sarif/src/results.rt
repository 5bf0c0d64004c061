//! The result of a finding.
ghost use Rattle.std.specs.Prelude.{◌≡◌, IfOk};
ghost use Rattle.std.specs.Str.{IsCharBoundary};
ghost use Rattle.serde_json.specs.View.{view};
ghost use Rattle.json_value.specs.source_file.File.{IsRangeIn};
ghost use Rattle.json_value.specs.source_file.Levels.{word_of};
ghost use Rattle.json_value.specs.source_file.Refusals as refusals;
ghost use Rattle.report_sarif.specs.Results.{locations, refusal_result, report_result, result_object, result_properties};

use crate::fixes::{fixes_value, one, text_object};
use crate::places::{physical_location, region};
use json_value::{Level, Refusal, SourceFile, hint_for, hint_value, text_value};
use lint_report::{Report, TextRange};
use serde_json::{Value, json};
use std::alloc::{AllocError, Global};

// Where a finding is.
fn locations(alloc: Global, file: &SourceFile<'_>, range: TextRange) -> Result<Value, AllocError>
    requires { IsRangeIn file.now.text range }
    ensures { IfOk result (λ value. view value ≡ locations file.now range) }
{
    let place = physical_location(alloc, file, range)?;
    let location = json!(in alloc; {"physicalLocation": place})?;
    one(alloc, location)
}

// The property bag of a finding.
fn result_properties(
    alloc: Global,
    help: Value,
    note: Value,
    statement: Value,
) -> Result<Value, AllocError>
    ensures { IfOk result (λ value. view value ≡ result_properties (view help) (view note) (view statement)) }
{
    json!(in alloc; {"help": help, "note": note, "statement": statement})
}

/// What a finding says beside its message.
struct Details {
    fixes: Value,
    properties: Value,
}

// A finding.
fn result_value(
    alloc: Global,
    file: &SourceFile<'_>,
    range: TextRange,
    level: Level,
    name: &str,
    message: &str,
    details: Details,
) -> Result<Value, AllocError>
    requires { IsRangeIn file.now.text range }
    ensures { IfOk result (λ value. view value ≡ result_object file.now range (word_of level) name.now message.now (view details.fixes) (view details.properties)) }
{
    let Details { fixes, properties } = details;
    let locations = locations(alloc, file, range)?;
    let message = text_object(alloc, message)?;
    let level = level.word();
    json!(in alloc; {
        "fixes": fixes,
        "level": level,
        "locations": locations,
        "message": message,
        "properties": properties,
        "ruleId": name
    })
}

/// A report as a result. The error comes when memory runs out.
pub(crate) fn report_result(
    alloc: Global,
    file: &SourceFile<'_>,
    report: &Report,
) -> Result<Value, AllocError>
    requires range { IsRangeIn file.now.text report.now.text_range }
    requires statement { IsRangeIn file.now.text report.now.statement }
    ensures { IfOk result (λ value. view value ≡ report_result file.now report.now) }
{
    let help = text_value(alloc, &report.help)?;
    let note = text_value(alloc, &report.note)?;
    let statement = region(alloc, file, report.statement)?;
    let details = Details {
        fixes: fixes_value(alloc, file, &report.fix)?,
        properties: result_properties(alloc, help, note, statement)?,
    };
    let name = report.code.name();
    let message = report.message.as_str();
    result_value(
        alloc,
        file,
        report.text_range,
        Level::Warning,
        name,
        message,
        details,
    )
}

/// Why a file could not be linted, as a result. The error comes when memory runs out.
pub(crate) fn refusal_result(
    alloc: Global,
    file: &SourceFile<'_>,
    refusal: &Refusal,
) -> Result<Value, AllocError>
    requires { IsCharBoundary file.now.text (refusals.place_of refusal.now) }
    ensures { IfOk result (λ value. view value ≡ refusal_result file.now refusal.now) }
{
    let at = refusal.place();
    let help = hint_value(alloc, hint_for(file.text(), refusal))?;
    let details = Details {
        fixes: Value::Array(Vec::new(alloc)),
        properties: result_properties(alloc, help, Value::Null, Value::Null)?,
    };
    let name = refusal.name();
    let message = refusal.message();
    result_value(
        alloc,
        file,
        TextRange::new(at, at),
        Level::Error,
        name,
        message,
        details,
    )
}
