//! The parameters of methods.
ghost use Rattle.std.specs.Prelude.{◌≡◌, codes, option_map};
ghost use Rattle.serde_json.specs.Find.{get};
ghost use Rattle.serde_json.specs.View.{view};
ghost use Rattle.lsp_read.specs.Params.{changed_in, last_change, opened_in, part_in, text_at, uri_in, version_of, whole_text};
ghost use Rattle.lsp_read.specs.PartValue.{document_value, part_value};

use crate::place::position_at;
use lsp_session::Pos;
use serde_json::Value;

/// A part of a document.
#[derive(Clone, Copy)]
pub(crate) struct PartRead<'v> {
    pub(crate) uri: &'v str,
    pub(crate) start: Pos,
    pub(crate) end: Pos,
}

/// What a document is.
#[derive(Clone, Copy)]
pub(crate) struct DocumentRead<'v> {
    pub(crate) version: Option<i64>,
    pub(crate) text: &'v str,
}

#[tactic(auto, unfolding(crate::specs::Params::text_at))]
pub(crate) fn text_at<'v>(value: &'v Value, key: &str) -> Option<&'v str>
    ensures { option_map (λ s. s.now) result ≡ text_at key.now (view value.now) }
{
    value.get(key)?.as_str()
}

/// The name of the document that parameters speak of.
#[tactic(auto, unfolding(crate::specs::Params::uri_in))]
pub(crate) fn uri_in(params: &Value) -> Option<&str>
    ensures { option_map (λ s. s.now) result ≡ uri_in (view params.now) }
{
    text_at(params.get("textDocument")?, "uri")
}

/// The part that a request for code actions is about.
#[tactic(auto, unfolding(crate::specs::Params::part_in))]
pub(crate) fn part_in(params: &Value) -> Option<PartRead<'_>>
    ensures { option_map part_value result ≡ part_in (view params.now) }
{
    let uri = uri_in(params)?;
    let range = params.get("range")?;
    let start = position_at(range, "start")?;
    let end = position_at(range, "end")?;
    Some(PartRead { uri, start, end })
}

#[tactic(auto, unfolding(crate::specs::Params::version_of))]
fn version_of(document: &Value) -> Option<i64>
    ensures { result ≡ version_of (view document.now) }
{
    document.get("version")?.as_i64()
}

/// The document that is opened.
#[tactic(auto, unfolding(crate::specs::Params::opened_in))]
pub(crate) fn opened_in(params: &Value) -> Option<DocumentRead<'_>>
    ensures { option_map document_value result ≡ opened_in (view params.now) }
{
    let document = params.get("textDocument")?;
    let text = text_at(document, "text")?;
    Some(DocumentRead {
        version: version_of(document),
        text,
    })
}

/// The text that a change gives to a whole document.
fn whole_text(change: &Value) -> Option<&str>
    ensures { option_map (λ s. s.now) result ≡ whole_text (view change.now) (get (codes "range") (view change.now)) }
{
    match change.get("range") {
        Some(_) => None,
        None => text_at(change, "text"),
    }
}

/// The last of some changes.
#[tactic(auto, unfolding(crate::specs::Params::last_change), using(crate::proofs::Items::last_by_place))]
fn last_change(params: &Value) -> Option<&Value>
    ensures { option_map (λ v. view v.now) result ≡ last_change (view params.now) }
{
    let changes = params.get("contentChanges")?;
    let count = changes.as_array()?.len();
    changes.get(count.saturating_sub(1))
}

/// The document that is changed.
#[tactic(auto, unfolding(crate::specs::Params::changed_in))]
pub(crate) fn changed_in(params: &Value) -> Option<DocumentRead<'_>>
    ensures { option_map document_value result ≡ changed_in (view params.now) }
{
    let document = params.get("textDocument")?;
    let change = last_change(params)?;
    let text = whole_text(change)?;
    Some(DocumentRead {
        version: version_of(document),
        text,
    })
}
