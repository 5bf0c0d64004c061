//! Positions and ranges as JSON, and which of them meet.
ghost use Rattle.std.specs.Prelude.{◌≡◌, IfOk};
ghost use Rattle.diag_json.specs.Json.{position_json, range_json};
ghost use Rattle.serde_json.specs.View.{view};
ghost use Rattle.lsp_write.specs.Action.{is_at_or_before, meets};

use diag_json::Pos;
use lsp_session::Report;
use serde_json::{Value, json};
use std::alloc::{AllocError, Global};

#[tactic(auto, unfolding(diag_json::specs::Json::position_json))]
fn position_value(alloc: Global, pos: Pos) -> Result<Value, AllocError>
    ensures { IfOk result (λ v. view v ≡ position_json pos) }
{
    json!(in alloc; {"character": pos.col, "line": pos.line})
}

#[tactic(auto, unfolding(diag_json::specs::Json::range_json))]
pub(crate) fn range_value(alloc: Global, start: Pos, end: Pos) -> Result<Value, AllocError>
    ensures { IfOk result (λ v. view v ≡ range_json start end) }
{
    let end = position_value(alloc, end)?;
    let start = position_value(alloc, start)?;
    json!(in alloc; {"end": end, "start": start})
}

fn is_at_or_before(a: Pos, b: Pos) -> bool
    ensures { result ≡ is_at_or_before a b }
{
    a.line < b.line || (a.line == b.line && a.col <= b.col)
}

/// Whether a report and a part have a place in common. Their ends belong to them.
pub(crate) fn meets(report: &Report, start: Pos, end: Pos) -> bool
    ensures { result ≡ meets report.now start end }
{
    is_at_or_before(report.start, end) && is_at_or_before(start, report.end)
}
