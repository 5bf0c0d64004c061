//! Writing diagnostics.
ghost use Rattle.std.specs.Prelude.{◌≡◌, Some, IfOk, OnOk, codes, map, option_map, string_bytes};
ghost use Rattle.serde_json.specs.Data.{Data, string};
ghost use Rattle.serde_json.specs.Read.{read};
ghost use Rattle.serde_json.specs.View.{view, items_of, items_view, members_view};
ghost use Rattle.diag_json.specs.Json.{diagnostic_json, edit_json, fix_json, json, json_text, new_text_json, position_json, range_json};
ghost use Rattle.diag_json.specs.Putting.{common_members, put_if};

use crate::diagnostic::{DiagEdit, DiagFix, Diagnostic};
use lint_base::{NoMemory, Text};
use serde_json::{Map, Value, json};
use std::alloc::{AllocError, Global};
use text_utf16::Pos;

/// The number by which editors know a warning.
const WARNING: u64 = 2;

#[tactic(auto, unfolding(crate::specs::Json::position_json))]
fn position_value(alloc: Global, pos: Pos) -> Result<Value, AllocError>
    ensures { IfOk result (λ v. view v ≡ position_json pos) }
{
    json!(in alloc; {"character": pos.col, "line": pos.line})
}

#[tactic(auto, unfolding(crate::specs::Json::range_json))]
fn range_value(alloc: Global, start: Pos, end: Pos) -> Result<Value, AllocError>
    ensures { IfOk result (λ v. view v ≡ range_json start end) }
{
    let end = position_value(alloc, end)?;
    let start = position_value(alloc, start)?;
    json!(in alloc; {"end": end, "start": start})
}

fn text_value(alloc: Global, text: &Option<Text>) -> Result<Value, AllocError>
    ensures { IfOk result (λ v. view v ≡ new_text_json text.now) }
{
    match text {
        Some(text) => Value::try_from_str(alloc, text.as_str()),
        None => Ok(Value::Null),
    }
}

#[tactic(auto, unfolding(crate::specs::Json::edit_json))]
fn edit_value(alloc: Global, edit: &DiagEdit) -> Result<Value, AllocError>
    ensures { IfOk result (λ v. view v ≡ edit_json edit.now) }
{
    let text = text_value(alloc, &edit.text)?;
    let range = range_value(alloc, edit.start, edit.end)?;
    json!(in alloc; {"newText": text, "range": range})
}

fn edit_values(alloc: Global, edits: &[DiagEdit]) -> Result<Vec<Value>, AllocError>
    ensures { IfOk result (λ vs. items_view vs.items ≡ items_of (map edit_json edits.now)) }
{
    let mut values = Vec::with_capacity(alloc, edits.len())?;
    for edit in edits {
        values.push(edit_value(alloc, edit)?)?;
    }
    Ok(values)
}

#[tactic(auto, unfolding(crate::specs::Json::fix_json))]
fn fix_value(alloc: Global, fix: &DiagFix) -> Result<Value, AllocError>
    ensures { IfOk result (λ v. view v ≡ fix_json fix.now) }
{
    let edits = edit_values(alloc, fix.edits.as_slice())?;
    json!(in alloc; {"edits": edits, "title": fix.title.as_str()})
}

/// Puts a text where there is one.
fn put_text(
    map: &mut Map<String, Value>,
    alloc: Global,
    key: &str,
    text: &Option<Text>,
) -> Result<(), AllocError>
    ensures { OnOk result (members_view map.new.entries ≡ put_if key.now (option_map string text.now) (members_view map.old.entries)) }
{
    if let Some(text) = text {
        serde_json::put(map, alloc, key, Value::try_from_str(alloc, text.as_str())?)?;
    }
    Ok(())
}

/// Puts a fix where there is one.
fn put_fix(
    map: &mut Map<String, Value>,
    alloc: Global,
    fix: &Option<DiagFix>,
) -> Result<(), AllocError>
    ensures { OnOk result (members_view map.new.entries ≡ put_if (codes "fix") (option_map fix_json fix.now) (members_view map.old.entries)) }
{
    if let Some(fix) = fix {
        serde_json::put(map, alloc, "fix", fix_value(alloc, fix)?)?;
    }
    Ok(())
}

/// The members that each diagnostic has.
#[tactic(auto, unfolding(crate::specs::Putting::common_members))]
fn common_members(alloc: Global, diagnostic: &Diagnostic) -> Result<Map<String, Value>, AllocError>
    ensures { IfOk result (λ m. members_view m.entries ≡ common_members diagnostic.now) }
{
    let mut map = Map::new(alloc);
    let range = range_value(alloc, diagnostic.start, diagnostic.end)?;
    serde_json::put(
        &mut map,
        alloc,
        "source",
        Value::try_from_str(alloc, "squawk")?,
    )?;
    serde_json::put(&mut map, alloc, "severity", Value::from(WARNING))?;
    serde_json::put(&mut map, alloc, "range", range)?;
    serde_json::put(
        &mut map,
        alloc,
        "message",
        Value::try_from_str(alloc, diagnostic.message.as_str())?,
    )?;
    serde_json::put(
        &mut map,
        alloc,
        "code",
        Value::try_from_str(alloc, diagnostic.rule.name())?,
    )?;
    Ok(map)
}

#[tactic(auto, using(crate::proofs::Put::put_all))]
fn diagnostic_value(alloc: Global, diagnostic: &Diagnostic) -> Result<Value, AllocError>
    ensures { IfOk result (λ v. view v ≡ diagnostic_json diagnostic.now) }
{
    let mut map = common_members(alloc, diagnostic)?;
    put_text(&mut map, alloc, "note", &diagnostic.note)?;
    put_text(&mut map, alloc, "help", &diagnostic.help)?;
    put_fix(&mut map, alloc, &diagnostic.fix)?;
    Ok(Value::Object(map))
}

fn diagnostic_values(alloc: Global, diagnostics: &[Diagnostic]) -> Result<Vec<Value>, AllocError>
    ensures { IfOk result (λ vs. items_view vs.items ≡ items_of (map diagnostic_json diagnostics.now)) }
{
    let mut values = Vec::with_capacity(alloc, diagnostics.len())?;
    for diagnostic in diagnostics {
        values.push(diagnostic_value(alloc, diagnostic)?)?;
    }
    Ok(values)
}

/// The JSON text of some diagnostics, without spaces. The error comes when memory runs out.
pub fn write_json(alloc: Global, diagnostics: &[Diagnostic]) -> Result<String, NoMemory>
    ensures text { IfOk result (λ s. string_bytes s ≡ json_text diagnostics.now) }
    ensures value { IfOk result (λ s. read (string_bytes s) ≡ Some (json diagnostics.now)) }
{
    let values = diagnostic_values(alloc, diagnostics)?;
    Ok(Value::Array(values).to_string(alloc)?)
}
