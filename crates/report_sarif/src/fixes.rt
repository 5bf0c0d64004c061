//! Fixes.
ghost use Rattle.std.specs.Prelude.{◌≡◌, false, true, IfOk, MatchOption};
ghost use Rattle.serde_json.specs.View.{view};
ghost use Rattle.json_value.specs.source_file.File.{IsRangeIn};
ghost use Rattle.report_sarif.specs.Places.{is_range_in};
ghost use Rattle.report_sarif.specs.Results.{are_in_text, changes, fix_object, fix_properties, fixes, one, replacement, replacements, text_object};

use crate::places::{artifact_location, is_range_in, region};
use json_value::SourceFile;
use lint_base::Edit;
use lint_report::{FixClass, ReportFix};
use serde_json::{Value, json};
use std::alloc::{AllocError, Global};

/// An object with a text.
pub(crate) fn text_object(alloc: Global, text: &str) -> Result<Value, AllocError>
    ensures { IfOk result (λ value. view value ≡ text_object text.now) }
{
    json!(in alloc; {"text": text})
}

/// An array of one value.
pub(crate) fn one(alloc: Global, value: Value) -> Result<Value, AllocError>
    ensures { IfOk result (λ array. view array ≡ one (view value)) }
{
    let mut list = Vec::new(alloc);
    list.push(value)?;
    Ok(Value::Array(list))
}

// An edit.
fn replacement(alloc: Global, file: &SourceFile<'_>, edit: &Edit) -> Result<Value, AllocError>
    requires { IsRangeIn file.now.text edit.now.text_range }
    ensures { IfOk result (λ value. view value ≡ replacement file.now.text edit.now) }
{
    let deleted = region(alloc, file, edit.text_range)?;
    match &edit.text {
        None => json!(in alloc; {"deletedRegion": deleted}),
        Some(text) => {
            let inserted = text_object(alloc, text.as_str())?;
            json!(in alloc; {"deletedRegion": deleted, "insertedContent": inserted})
        }
    }
}

// An edit, where it is in the text.
fn checked_replacement(
    alloc: Global,
    file: &SourceFile<'_>,
    edit: &Edit,
) -> Result<Option<Value>, AllocError>
    ensures { IfOk result (λ found. MatchOption found (is_range_in file.now.text edit.now.text_range ≡ false)
        (λ value. (is_range_in file.now.text edit.now.text_range ≡ true) × (view value ≡ replacement file.now.text edit.now))) }
{
    if !is_range_in(file.text(), edit.text_range) {
        return Ok(None);
    }
    let value = replacement(alloc, file, edit)?;
    Ok(Some(value))
}

// Edits in order, where each is in the text.
fn replacements(
    alloc: Global,
    file: &SourceFile<'_>,
    edits: &[Edit],
) -> Result<Option<Value>, AllocError>
    ensures { IfOk result (λ found. MatchOption found (are_in_text file.now.text edits.now ≡ false)
        (λ value. (are_in_text file.now.text edits.now ≡ true) × (view value ≡ replacements file.now.text edits.now))) }
{
    let mut list = Vec::new(alloc);
    for edit in edits {
        match checked_replacement(alloc, file, edit)? {
            None => return Ok(None),
            Some(value) => list.push(value)?,
        }
    }
    Ok(Some(Value::Array(list)))
}

// What changes in a file, by its edits as values.
fn changes_value(alloc: Global, name: &str, edits: Value) -> Result<Value, AllocError>
    ensures { IfOk result (λ value. view value ≡ changes name.now (view edits)) }
{
    let artifact = artifact_location(alloc, name)?;
    let change = json!(in alloc; {"artifactLocation": artifact, "replacements": edits})?;
    one(alloc, change)
}

// The property bag of a fix.
fn fix_properties(alloc: Global, class: FixClass) -> Result<Value, AllocError>
    ensures { IfOk result (λ value. view value ≡ fix_properties class) }
{
    json!(in alloc; {"class": (class.name())})
}

// A fix, by its edits as values.
fn fix_value(
    alloc: Global,
    file: &SourceFile<'_>,
    fix: &ReportFix,
    edits: Value,
) -> Result<Value, AllocError>
    requires { view edits ≡ replacements file.now.text fix.now.fix.edits }
    ensures { IfOk result (λ value. view value ≡ fix_object file.now fix.now) }
{
    let changes = changes_value(alloc, file.name(), edits)?;
    let description = text_object(alloc, fix.fix.title.as_str())?;
    let properties = fix_properties(alloc, fix.class)?;
    json!(in alloc; {"artifactChanges": changes, "description": description, "properties": properties})
}

/// The fix of a report, where it has one whose edits are in the text.
pub(crate) fn fixes_value(
    alloc: Global,
    file: &SourceFile<'_>,
    fix: &Option<ReportFix>,
) -> Result<Value, AllocError>
    ensures { IfOk result (λ value. view value ≡ fixes file.now fix.now) }
{
    let Some(fix) = fix else {
        return Ok(Value::Array(Vec::new(alloc)));
    };
    match replacements(alloc, file, fix.fix.edits.as_slice())? {
        None => Ok(Value::Array(Vec::new(alloc))),
        Some(edits) => {
            let value = fix_value(alloc, file, fix, edits)?;
            one(alloc, value)
        }
    }
}
