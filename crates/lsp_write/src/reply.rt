//! Replies as JSON.
ghost use Rattle.std.specs.Prelude.{◌≡◌, Some, IfOk};
ghost use Rattle.serde_json.specs.Read.{read};
ghost use Rattle.serde_json.specs.View.{view};
ghost use Rattle.lsp_write.specs.Reply.{reply_json, reply_text};

use crate::diagnostic::published;
use crate::response::response_value;
use diag_json::NoMemory;
use lsp_session::Reply;
use serde_json::Value;
use std::alloc::{AllocError, Global};

fn reply_value(alloc: Global, reply: &Reply) -> Result<Value, AllocError>
    ensures { IfOk result (λ v. view v ≡ reply_json reply.now) }
{
    match reply {
        Reply::Answer { id, answer } => response_value(alloc, id, answer),
        Reply::Reports {
            uri,
            version,
            reports,
        } => published(alloc, uri.as_str(), *version, reports.as_slice()),
    }
}

/// The JSON text of what the server says, without spaces. The error comes when memory runs out.
#[tactic(auto, unfolding(crate::specs::Reply::reply_text), using(crate::proofs::Shape::no_float, crate::proofs::Shape::not_deep))]
pub fn write_reply(alloc: Global, reply: &Reply) -> Result<Vec<u8>, NoMemory>
    ensures text { IfOk result (λ bytes. bytes.items ≡ reply_text reply.now) }
    ensures value { IfOk result (λ bytes. read bytes.items ≡ Some (reply_json reply.now)) }
{
    let value = reply_value(alloc, reply)?;
    Ok(value.to_vec(alloc)?)
}
