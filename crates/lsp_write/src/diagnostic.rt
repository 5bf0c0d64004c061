//! Reports as diagnostics of the protocol.
ghost use Rattle.std.specs.Prelude.{◌≡◌, ◌++◌, IfOk, OnOk, codes, map, option_map, string_bytes};
ghost use Rattle.diag_json.specs.Json.{list_json};
ghost use Rattle.diag_json.specs.Putting.{put_if};
ghost use Rattle.serde_json.specs.Data.{string};
ghost use Rattle.serde_json.specs.View.{items_of, items_view, members_view, view};
ghost use Rattle.lsp_write.specs.Diagnostic.{address_of, code_of, diagnostic_by, diagnostic_json, integer_json, linked, published_json, published_params, unlinked, unversioned};

use crate::place::range_value;
use diag_json::Rule;
use lsp_session::{Code, Report};
use serde_json::{Map, Value, json};
use std::alloc::{AllocError, Global};

/// Where each rule has a page of its name.
const PAGES: &str = "https://squawkhq.com/docs/";

/// The number by which the protocol knows an error.
const ERROR: u64 = 1;

/// The number by which it knows a warning.
const WARNING: u64 = 2;

/// The address of a rule's page.
pub(crate) fn address_of(alloc: Global, rule: Rule) -> Result<String, AllocError>
    ensures { IfOk result (λ s. string_bytes s ≡ address_of rule) }
{
    let mut page = String::from_str(alloc, PAGES)?;
    page.push_str(rule.name())?;
    Ok(page)
}

/// The name of what a report is about.
pub(crate) fn code_of(code: Option<Code>) -> &'static str
    ensures { result.now ≡ code_of code }
{
    match code {
        Some(code) => code.name(),
        None => "syntax",
    }
}

/// A warning that links to the page of a rule.
fn linked(alloc: Global, report: &Report, rule: Rule) -> Result<Value, AllocError>
    ensures { IfOk result (λ v. view v ≡ linked rule report.now) }
{
    let page = address_of(alloc, rule)?;
    let range = range_value(alloc, report.start, report.end)?;
    json!(in alloc; {
        "code": (code_of(report.code)),
        "codeDescription": {"href": page},
        "message": (report.message.as_str()),
        "range": range,
        "severity": WARNING,
        "source": "lavkheto"
    })
}

/// A report that links to nothing.
fn unlinked(alloc: Global, report: &Report, severity: u64) -> Result<Value, AllocError>
    ensures { IfOk result (λ v. view v ≡ unlinked severity report.now) }
{
    let range = range_value(alloc, report.start, report.end)?;
    json!(in alloc; {
        "code": (code_of(report.code)),
        "message": (report.message.as_str()),
        "range": range,
        "severity": severity,
        "source": "lavkheto"
    })
}

/// A report as a diagnostic.
#[tactic(auto, unfolding(crate::specs::Diagnostic::diagnostic_json))]
pub(crate) fn diagnostic_value(alloc: Global, report: &Report) -> Result<Value, AllocError>
    ensures { IfOk result (λ v. view v ≡ diagnostic_json report.now) }
{
    match report.code {
        Some(Code::Rule(rule)) => linked(alloc, report, rule),
        Some(Code::Hazard(_)) => unlinked(alloc, report, WARNING),
        None => unlinked(alloc, report, ERROR),
    }
}

fn diagnostic_values(alloc: Global, reports: &[Report]) -> Result<Vec<Value>, AllocError>
    ensures { IfOk result (λ vs. items_view vs.items ≡ items_of (map diagnostic_json reports.now)) }
{
    let mut values = Vec::with_capacity(alloc, reports.len())?;
    for report in reports {
        values.push(diagnostic_value(alloc, report)?)?;
    }
    Ok(values)
}

/// Puts a version where there is one.
fn put_version(
    map: &mut Map<String, Value>,
    alloc: Global,
    version: Option<i64>,
) -> Result<(), AllocError>
    ensures { OnOk result (members_view map.new.entries ≡ put_if (codes "version") (option_map integer_json version) (members_view map.old.entries)) }
{
    if let Some(version) = version {
        serde_json::put(map, alloc, "version", Value::from(version))?;
    }
    Ok(())
}

/// The members of a notification but for its version.
fn unversioned(
    alloc: Global,
    uri: &str,
    reports: &[Report],
) -> Result<Map<String, Value>, AllocError>
    ensures { IfOk result (λ m. members_view m.entries ≡ unversioned uri.now reports.now) }
{
    let mut map = Map::new(alloc);
    let diagnostics = Value::Array(diagnostic_values(alloc, reports)?);
    serde_json::put(&mut map, alloc, "diagnostics", diagnostics)?;
    serde_json::put(&mut map, alloc, "uri", Value::try_from_str(alloc, uri)?)?;
    Ok(map)
}

#[tactic(auto, using(crate::proofs::Put::put_params))]
fn published_params(
    alloc: Global,
    uri: &str,
    version: Option<i64>,
    reports: &[Report],
) -> Result<Value, AllocError>
    ensures { IfOk result (λ v. view v ≡ published_params uri.now version reports.now) }
{
    let mut map = unversioned(alloc, uri, reports)?;
    put_version(&mut map, alloc, version)?;
    Ok(Value::Object(map))
}

/// The notification that a document has these reports.
#[tactic(auto, unfolding(crate::specs::Diagnostic::published_json))]
pub(crate) fn published(
    alloc: Global,
    uri: &str,
    version: Option<i64>,
    reports: &[Report],
) -> Result<Value, AllocError>
    ensures { IfOk result (λ v. view v ≡ published_json uri.now version reports.now) }
{
    let params = published_params(alloc, uri, version, reports)?;
    json!(in alloc; {
        "jsonrpc": "2.0",
        "method": "textDocument/publishDiagnostics",
        "params": params
    })
}
