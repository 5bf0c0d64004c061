//! What the methods of requests and notifications ask for and tell.
ghost use Rattle.std.specs.Prelude.{◌≡◌, IfOk, option_map};
ghost use Rattle.serde_json.specs.View.{view};
ghost use Rattle.lsp_read.specs.Method.{actions_in, call_of, call_with, changed_by, closed_by, hover_in, notice_of, notice_with, opened_by, place_in};
ghost use Rattle.lsp_read.specs.Params.{changed_in, opened_in, uri_in};
ghost use Rattle.lsp_read.specs.PartValue.{document_value, place_value};

use crate::params::{DocumentRead, changed_in, opened_in, part_in, uri_in};
use crate::place::position_at;
use crate::root::root_of;
use crate::text::text_made;
use lsp_session::{Call, Document, Notice, Pos};
use serde_json::Value;
use std::alloc::{AllocError, Global};

fn document_made(alloc: Global, read: DocumentRead<'_>) -> Result<Document, AllocError>
    ensures { IfOk result (λ document. document ≡ document_value read.entry) }
{
    Ok(Document {
        version: read.version,
        text: text_made(alloc, read.text)?,
    })
}

#[tactic(auto, unfolding(crate::specs::Method::actions_in))]
fn actions_in(alloc: Global, params: &Value) -> Result<Call, AllocError>
    ensures { IfOk result (λ call. call ≡ actions_in (view params.now)) }
{
    match part_in(params) {
        Some(part) => Ok(Call::Actions {
            uri: text_made(alloc, part.uri)?,
            start: part.start,
            end: part.end,
        }),
        None => Ok(Call::Misread),
    }
}

/// A place of a document.
#[derive(Clone, Copy)]
struct PlaceRead<'v> {
    uri: &'v str,
    at: Pos,
}

#[tactic(auto, unfolding(crate::specs::Method::place_in))]
fn place_in(params: &Value) -> Option<PlaceRead<'_>>
    ensures { option_map place_value result ≡ place_in (view params.now) }
{
    let uri = uri_in(params)?;
    let at = position_at(params, "position")?;
    Some(PlaceRead { uri, at })
}

#[tactic(auto, unfolding(crate::specs::Method::hover_in))]
fn hover_in(alloc: Global, params: &Value) -> Result<Call, AllocError>
    ensures { IfOk result (λ call. call ≡ hover_in (view params.now)) }
{
    match place_in(params) {
        Some(place) => Ok(Call::Hover {
            uri: text_made(alloc, place.uri)?,
            at: place.at,
        }),
        None => Ok(Call::Misread),
    }
}

/// What a request of this method asks for.
#[tactic(auto, unfolding(crate::specs::Method::call_of))]
pub(crate) fn call_of(
    alloc: Global,
    method: &str,
    params: Option<&Value>,
) -> Result<Call, AllocError>
    ensures { IfOk result (λ call. call ≡ call_of method.now (option_map (λ v. view v.now) params.entry)) }
{
    if method == "initialize" {
        return Ok(Call::Initialize {
            root: root_of(alloc, params)?,
        });
    }
    if method == "shutdown" {
        return Ok(Call::Shutdown);
    }
    if method == "textDocument/codeAction" {
        return actions_with(alloc, params);
    }
    if method == "textDocument/hover" {
        return hover_with(alloc, params);
    }
    Ok(Call::Unknown)
}

fn actions_with(alloc: Global, params: Option<&Value>) -> Result<Call, AllocError>
    ensures { IfOk result (λ call. call ≡ call_with (option_map (λ v. view v.now) params.entry) actions_in) }
{
    match params {
        Some(params) => actions_in(alloc, params),
        None => Ok(Call::Misread),
    }
}

fn hover_with(alloc: Global, params: Option<&Value>) -> Result<Call, AllocError>
    ensures { IfOk result (λ call. call ≡ call_with (option_map (λ v. view v.now) params.entry) hover_in) }
{
    match params {
        Some(params) => hover_in(alloc, params),
        None => Ok(Call::Misread),
    }
}

fn opened(alloc: Global, params: &Value) -> Result<Notice, AllocError>
    ensures { IfOk result (λ notice. notice ≡ opened_by (uri_in (view params.now)) (opened_in (view params.now))) }
{
    match (uri_in(params), opened_in(params)) {
        (Some(uri), Some(document)) => Ok(Notice::Opened {
            uri: text_made(alloc, uri)?,
            document: document_made(alloc, document)?,
        }),
        (Some(_), None) | (None, _) => Ok(Notice::Other),
    }
}

fn changed(alloc: Global, params: &Value) -> Result<Notice, AllocError>
    ensures { IfOk result (λ notice. notice ≡ changed_by (uri_in (view params.now)) (changed_in (view params.now))) }
{
    match (uri_in(params), changed_in(params)) {
        (Some(uri), Some(document)) => Ok(Notice::Changed {
            uri: text_made(alloc, uri)?,
            document: document_made(alloc, document)?,
        }),
        (Some(_), None) | (None, _) => Ok(Notice::Other),
    }
}

fn closed(alloc: Global, params: &Value) -> Result<Notice, AllocError>
    ensures { IfOk result (λ notice. notice ≡ closed_by (uri_in (view params.now))) }
{
    match uri_in(params) {
        Some(uri) => Ok(Notice::Closed {
            uri: text_made(alloc, uri)?,
        }),
        None => Ok(Notice::Other),
    }
}

#[tactic(auto, unfolding(crate::specs::Method::notice_with))]
fn notice_with(alloc: Global, method: &str, params: &Value) -> Result<Notice, AllocError>
    ensures { IfOk result (λ notice. notice ≡ notice_with method.now (view params.now)) }
{
    if method == "textDocument/didOpen" {
        return opened(alloc, params);
    }
    if method == "textDocument/didChange" {
        return changed(alloc, params);
    }
    if method == "textDocument/didClose" {
        return closed(alloc, params);
    }
    Ok(Notice::Other)
}

/// What a notification of this method tells.
#[tactic(auto, unfolding(crate::specs::Method::notice_of))]
pub(crate) fn notice_of(
    alloc: Global,
    method: &str,
    params: Option<&Value>,
) -> Result<Notice, AllocError>
    ensures { IfOk result (λ notice. notice ≡ notice_of method.now (option_map (λ v. view v.now) params.entry)) }
{
    if method == "exit" {
        return Ok(Notice::Exit);
    }
    match params {
        Some(params) => notice_with(alloc, method, params),
        None => Ok(Notice::Other),
    }
}
