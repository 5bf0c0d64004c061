//! Remedies as code actions of the protocol.
ghost use Rattle.std.specs.Prelude.{◌≡◌, ◌++◌, IfOk, OnOk, map};
ghost use Rattle.serde_json.specs.View.{items_of, items_view, view};
ghost use Rattle.lsp_write.specs.Action.{action_if, action_json, actions_json, actions_of, change_json, edit_json};

use crate::diagnostic::diagnostic_value;
use crate::place::{meets, range_value};
use diag_json::Pos;
use lsp_session::{Change, Remedy, Report};
use serde_json::{Value, json};
use std::alloc::{AllocError, Global};

#[tactic(auto, unfolding(crate::specs::Action::change_json))]
fn change_value(alloc: Global, change: &Change) -> Result<Value, AllocError>
    ensures { IfOk result (λ v. view v ≡ change_json change.now) }
{
    let range = range_value(alloc, change.start, change.end)?;
    let text = match &change.text {
        Some(text) => text.as_str(),
        None => "",
    };
    json!(in alloc; {"newText": text, "range": range})
}

fn change_values(alloc: Global, changes: &[Change]) -> Result<Vec<Value>, AllocError>
    ensures { IfOk result (λ vs. items_view vs.items ≡ items_of (map change_json changes.now)) }
{
    let mut values = Vec::with_capacity(alloc, changes.len())?;
    for change in changes {
        values.push(change_value(alloc, change)?)?;
    }
    Ok(values)
}

/// The changes of one document.
#[tactic(auto, unfolding(crate::specs::Action::edit_json))]
fn edit_value(alloc: Global, uri: &str, changes: &[Change]) -> Result<Value, AllocError>
    ensures { IfOk result (λ v. view v ≡ edit_json uri.now changes.now) }
{
    let list = change_values(alloc, changes)?;
    json!(in alloc; {"changes": {(uri): list}})
}

#[tactic(auto, unfolding(crate::specs::Action::action_json))]
fn action_value(
    alloc: Global,
    uri: &str,
    report: &Report,
    remedy: &Remedy,
) -> Result<Value, AllocError>
    ensures { IfOk result (λ v. view v ≡ action_json uri.now report.now remedy.now) }
{
    let edit = edit_value(alloc, uri, remedy.changes.as_slice())?;
    let about = diagnostic_value(alloc, report)?;
    json!(in alloc; {
        "diagnostics": [about],
        "edit": edit,
        "isPreferred": (remedy.is_preferred),
        "kind": "quickfix",
        "title": (remedy.title.as_str())
    })
}

/// Adds the code action of a remedy, if there is one.
fn push_action(
    list: &mut Vec<Value>,
    alloc: Global,
    uri: &str,
    report: &Report,
    remedy: &Option<Remedy>,
) -> Result<(), AllocError>
    ensures { OnOk result (map view list.new.items ≡ map view list.old.items ++ action_if uri.now report.now remedy.now) }
{
    if let Some(remedy) = remedy {
        list.push(action_value(alloc, uri, report, remedy)?)?;
    }
    Ok(())
}

/// Adds the code actions of a report, where it meets a part.
fn push_actions(
    list: &mut Vec<Value>,
    alloc: Global,
    uri: &str,
    report: &Report,
    start: Pos,
    end: Pos,
) -> Result<(), AllocError>
    ensures { OnOk result (map view list.new.items ≡ map view list.old.items ++ actions_of uri.now start end report.now) }
{
    if meets(report, start, end) {
        push_action(list, alloc, uri, report, &report.fix)?;
        push_action(list, alloc, uri, report, &report.ignore)?;
    }
    Ok(())
}

/// The code actions of those reports that a part meets.
pub(crate) fn actions(
    alloc: Global,
    uri: &str,
    reports: &[Report],
    start: Pos,
    end: Pos,
) -> Result<Value, AllocError>
    ensures { IfOk result (λ v. view v ≡ actions_json uri.now reports.now start end) }
{
    let mut list = Vec::new(alloc);
    for report in reports {
        push_actions(&mut list, alloc, uri, report, start, end)?;
    }
    Ok(Value::Array(list))
}
