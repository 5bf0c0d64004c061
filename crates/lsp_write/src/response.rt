//! Answers as responses of JSON-RPC.
ghost use Rattle.std.specs.Prelude.{◌≡◌, IfOk};
ghost use Rattle.serde_json.specs.View.{view};
ghost use Rattle.lsp_write.specs.Response.{capabilities, capabilities_json, error_json, id_json, number_of, response_json, result_json, sync_json, words_of};

use crate::action::actions;
use crate::hover::hover_value;
use lsp_session::{Answer, Id, Refusal};
use serde_json::{Value, json};
use std::alloc::{AllocError, Global};

/// The number by which the protocol knows that each change has the whole text.
const WHOLE_TEXTS: u64 = 1;

/// The number that the protocol has for a refusal.
fn number_of(refusal: Refusal) -> i64
    ensures { result ≡ number_of refusal }
{
    match refusal {
        Refusal::NotJson => -32700,
        Refusal::BadRequest => -32600,
        Refusal::NoMethod => -32601,
        Refusal::BadParams => -32602,
        Refusal::NotInitialized => -32002,
    }
}

/// The number that the protocol has for a request that was well formed, and failed: `RequestFailed`.
const FAILED_NUMBER: i64 = -32803;

/// What a refusal says to a reader.
fn words_of(refusal: Refusal) -> &'static str
    ensures { result.now ≡ words_of refusal }
{
    match refusal {
        Refusal::NotJson => "not JSON",
        Refusal::BadRequest => "invalid request",
        Refusal::NoMethod => "unknown method",
        Refusal::BadParams => "invalid parameters",
        Refusal::NotInitialized => "not initialized",
    }
}

fn id_value(alloc: Global, id: &Id) -> Result<Value, AllocError>
    ensures { IfOk result (λ v. view v ≡ id_json id.now) }
{
    match id {
        Id::Null => Ok(Value::Null),
        Id::Number(number) => Ok(Value::from(*number)),
        Id::Text(text) => Value::try_from_str(alloc, text.as_str()),
    }
}

/// The response that has the result of a request.
#[tactic(auto, unfolding(crate::specs::Response::result_json))]
fn result_value(alloc: Global, id: &Id, outcome: Value) -> Result<Value, AllocError>
    ensures { IfOk result (λ v. view v ≡ result_json id.now (view outcome)) }
{
    let id = id_value(alloc, id)?;
    json!(in alloc; {"id": id, "jsonrpc": "2.0", "result": outcome})
}

/// The response that refuses a request.
#[tactic(auto, unfolding(crate::specs::Response::error_json))]
fn error_value(alloc: Global, id: &Id, code: i64, message: &str) -> Result<Value, AllocError>
    ensures { IfOk result (λ v. view v ≡ error_json id.now code message.now) }
{
    let id = id_value(alloc, id)?;
    json!(in alloc; {"error": {"code": code, "message": message}, "id": id, "jsonrpc": "2.0"})
}

#[tactic(auto, unfolding(crate::specs::Response::sync_json))]
fn sync_value(alloc: Global) -> Result<Value, AllocError>
    ensures { IfOk result (λ v. view v ≡ sync_json) }
{
    json!(in alloc; {"change": WHOLE_TEXTS, "openClose": true})
}

#[tactic(auto, unfolding(crate::specs::Response::capabilities))]
fn capabilities(alloc: Global) -> Result<Value, AllocError>
    ensures { IfOk result (λ v. view v ≡ capabilities) }
{
    let sync = sync_value(alloc)?;
    json!(in alloc; {
        "codeActionProvider": {"codeActionKinds": ["quickfix"]},
        "hoverProvider": true,
        "positionEncoding": "utf-16",
        "textDocumentSync": sync
    })
}

#[tactic(auto, unfolding(crate::specs::Response::capabilities_json))]
fn capabilities_value(alloc: Global) -> Result<Value, AllocError>
    ensures { IfOk result (λ v. view v ≡ capabilities_json) }
{
    let can = capabilities(alloc)?;
    json!(in alloc; {"capabilities": can, "serverInfo": {"name": "lavkheto"}})
}

/// The response to a request.
pub(crate) fn response_value(alloc: Global, id: &Id, answer: &Answer) -> Result<Value, AllocError>
    ensures { IfOk result (λ v. view v ≡ response_json id.now answer.now) }
{
    match answer {
        Answer::Capabilities => result_value(alloc, id, capabilities_value(alloc)?),
        Answer::Done => result_value(alloc, id, Value::Null),
        Answer::Remedies {
            uri,
            reports,
            start,
            end,
        } => {
            let list = actions(alloc, uri.as_str(), reports.as_slice(), *start, *end)?;
            result_value(alloc, id, list)
        }
        Answer::Explanation { reports, at } => {
            result_value(alloc, id, hover_value(alloc, reports.as_slice(), *at)?)
        }
        Answer::Refused(refusal) => {
            error_value(alloc, id, number_of(*refusal), words_of(*refusal))
        }
        Answer::Failed { why } => error_value(alloc, id, FAILED_NUMBER, why.as_str()),
    }
}
