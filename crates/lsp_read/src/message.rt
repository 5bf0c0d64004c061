//! The message that some bytes are.
ghost use Rattle.std.specs.Prelude.{◌≡◌, codes, IfOk, option_map};
ghost use Rattle.std.specs.Str.{is_utf8};
ghost use Rattle.serde_json.specs.Find.{get};
ghost use Rattle.serde_json.specs.Read.{read};
ghost use Rattle.serde_json.specs.View.{view};
ghost use Rattle.lsp_read.specs.Message.{id_of, message_if, message_in, message_of, request_by, with_method, without_method};

use crate::method::{call_of, notice_of};
use crate::params::text_at;
use crate::text::{text_made, text_of};
use lsp_session::{Id, Message, NoMemory, Refusal};
use serde_json::Value;
use std::alloc::{AllocError, Global};

fn id_of(alloc: Global, value: &Value) -> Result<Option<Id>, AllocError>
    ensures { IfOk result (λ id. id ≡ id_of (view value.now)) }
{
    match value {
        Value::Number(number) => match number.as_i64() {
            Some(number) => Ok(Some(Id::Number(number))),
            None => Ok(None),
        },
        Value::String(text) => Ok(Some(Id::Text(text_made(alloc, text.as_str())?))),
        _ => Ok(None),
    }
}

fn request_by(
    alloc: Global,
    id: Option<Id>,
    method: &str,
    params: Option<&Value>,
) -> Result<Message, AllocError>
    ensures { IfOk result (λ m. m ≡ request_by id method.now (option_map (λ v. view v.now) params.entry)) }
{
    match id {
        Some(id) => Ok(Message::Request {
            id,
            call: call_of(alloc, method, params)?,
        }),
        None => Ok(Message::Unreadable(Refusal::BadRequest)),
    }
}

fn with_method(alloc: Global, value: &Value, method: &str) -> Result<Message, AllocError>
    ensures { IfOk result (λ m. m ≡ with_method (get (codes "id") (view value.now)) method.now (get (codes "params") (view value.now))) }
{
    match value.get("id") {
        Some(id) => request_by(alloc, id_of(alloc, id)?, method, value.get("params")),
        None => Ok(Message::Notice(notice_of(alloc, method, value.get("params"))?)),
    }
}

#[tactic(auto, unfolding(crate::specs::Message::without_method))]
fn without_method(value: &Value) -> Message
    ensures { result ≡ without_method (view value.now) }
{
    let has_outcome = value.get("result").is_some() || value.get("error").is_some();
    if value.get("id").is_some() && has_outcome {
        Message::Response
    } else {
        Message::Unreadable(Refusal::BadRequest)
    }
}

/// The message that a JSON value is.
#[tactic(auto, unfolding(crate::specs::Message::message_in))]
fn message_in(alloc: Global, value: &Value) -> Result<Message, AllocError>
    ensures { IfOk result (λ m. m ≡ message_in (view value.now)) }
{
    match text_at(value, "method") {
        Some(method) => with_method(alloc, value, method),
        None => Ok(without_method(value)),
    }
}

/// The message that a text is.
fn message_if(alloc: Global, text: &str) -> Result<Message, NoMemory>
    ensures { IfOk result (λ m. m ≡ message_if (read text.now)) }
{
    match Value::from_str(alloc, text) {
        Ok(value) => Ok(message_in(alloc, &value)?),
        Err(refused) => {
            if refused.is_memory() {
                Err(NoMemory)
            } else {
                Ok(Message::Unreadable(Refusal::NotJson))
            }
        }
    }
}

/// Reads the content of a message. The error comes when memory runs out, and for no other reason: what is no JSON or no message is
/// [`Message::Unreadable`].
///
/// The forms are those of JSON-RPC 2.0 and of the Language Server Protocol 3.17. A member `jsonrpc` is not asked for. A
/// `textDocument/didChange` whose last change has a `range` changes nothing, since the server asks for whole texts. The root of the
/// workspace is that of the first folder, or else of `rootUri`, or else `rootPath`; a URI of another scheme than `file`, in lower case,
/// of another host or of bytes that are not UTF-8 names none. An empty text is as none.
#[tactic(auto, unfolding(crate::specs::Message::message_of))]
pub fn read_message(alloc: Global, content: &[u8]) -> Result<Message, NoMemory>
    ensures { IfOk result (λ m. m ≡ message_of content.now) }
{
    match text_of(content) {
        Some(text) => message_if(alloc, text),
        None => Ok(Message::Unreadable(Refusal::NotJson)),
    }
}
