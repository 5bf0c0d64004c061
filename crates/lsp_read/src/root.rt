//! The root of the workspace that a client names.
ghost use Rattle.std.specs.Prelude.{◌≡◌, IfOk, option_and_then, option_map};
ghost use Rattle.serde_json.specs.View.{view};
ghost use Rattle.lsp_read.specs.Root.{absolute, after, decoded, folder_in, named_at, path_in, root_at, root_in, without_host};

use crate::params::text_at;
use crate::text::{text_made, text_of};
use lsp_session::Text;
use percent_encoding::percent_decode;
use serde_json::Value;
use std::alloc::{AllocError, Global};

#[tactic(auto, unfolding(crate::specs::Root::after))]
fn after<'a>(front: &[u8], bytes: &'a [u8]) -> Option<&'a [u8]>
    ensures { option_map (λ s. s.now) result ≡ after front.now bytes.entry.now }
{
    bytes.strip_prefix(front)
}

#[tactic(auto, unfolding(crate::specs::Root::without_host))]
fn without_host(bytes: &[u8]) -> &[u8]
    ensures { result.now ≡ without_host bytes.entry.now }
{
    match after(b"localhost", bytes) {
        Some(rest) => rest,
        None => bytes,
    }
}

#[tactic(auto, unfolding(crate::specs::Root::absolute))]
fn absolute(path: &[u8]) -> Option<&[u8]>
    ensures { option_map (λ s. s.now) result ≡ absolute path.entry.now }
{
    match after(b"/", path) {
        Some(_) => Some(path),
        None => None,
    }
}

#[tactic(auto, unfolding(crate::specs::Root::path_in))]
fn path_in(uri: &[u8]) -> Option<&[u8]>
    ensures { option_map (λ s. s.now) result ≡ path_in uri.entry.now }
{
    let rest = after(b"file://", uri)?;
    absolute(without_host(rest))
}

#[tactic(auto, unfolding(crate::specs::Root::decoded))]
fn decoded(alloc: Global, path: &[u8]) -> Result<Option<Text>, AllocError>
    ensures { IfOk result (λ text. text ≡ decoded path.now) }
{
    let mut bytes = Vec::new(alloc);
    percent_decode(path).append_to(&mut bytes)?;
    match text_of(bytes.as_slice()) {
        Some(text) => Ok(Some(text_made(alloc, text)?)),
        None => Ok(None),
    }
}

#[tactic(auto, unfolding(crate::specs::Root::root_at))]
fn root_at(alloc: Global, uri: &str) -> Result<Option<Text>, AllocError>
    ensures { IfOk result (λ root. root ≡ root_at uri.now) }
{
    match path_in(uri.as_bytes()) {
        Some(path) => decoded(alloc, path),
        None => Ok(None),
    }
}

/// The text that a member is, where it is not empty.
#[tactic(auto, unfolding(crate::specs::Root::named_at))]
fn named_at<'v>(value: &'v Value, key: &str) -> Option<&'v str>
    ensures { option_map (λ s. s.now) result ≡ named_at key.now (view value.now) }
{
    let text = text_at(value, key)?;
    if text.is_empty() { None } else { Some(text) }
}

#[tactic(auto, unfolding(crate::specs::Root::folder_in))]
fn folder_in(params: &Value) -> Option<&str>
    ensures { option_map (λ s. s.now) result ≡ folder_in (view params.now) }
{
    let folders = params.get("workspaceFolders")?;
    let first = folders.get(0usize)?;
    named_at(first, "uri")
}

fn path_made(alloc: Global, path: Option<&str>) -> Result<Option<Text>, AllocError>
    ensures { IfOk result (λ root. root ≡ option_map (λ s. s.now) path.entry) }
{
    match path {
        Some(path) => Ok(Some(text_made(alloc, path)?)),
        None => Ok(None),
    }
}

#[tactic(auto, unfolding(crate::specs::Root::root_in))]
fn root_in(alloc: Global, params: &Value) -> Result<Option<Text>, AllocError>
    ensures { IfOk result (λ root. root ≡ root_in (view params.now)) }
{
    match (folder_in(params), named_at(params, "rootUri")) {
        (Some(folder), _) => root_at(alloc, folder),
        (None, Some(uri)) => root_at(alloc, uri),
        (None, None) => path_made(alloc, named_at(params, "rootPath")),
    }
}

/// The root that the parameters of `initialize` name: a path, whose bytes are those of the URI after its escapes are read.
pub(crate) fn root_of(alloc: Global, params: Option<&Value>) -> Result<Option<Text>, AllocError>
    ensures { IfOk result (λ root. root ≡ option_and_then root_in (option_map (λ v. view v.now) params.entry)) }
{
    match params {
        Some(params) => root_in(alloc, params),
        None => Ok(None),
    }
}
