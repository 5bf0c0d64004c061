//! The fix that deletes parts of a SET clause.

ghost use Rattle.std.specs.Prelude.{◌≡◌, take, drop, IfOk};
ghost use Rattle.std.specs.List.{flat_map, list_all};
ghost use Rattle.pass_name.specs.BanDuplicateColumnAssignments as spec;

use crate::members::{Member, Removable};
use lint_pass::{Edit, NoMemory, Parse, TextRange, TextSize};
use sql_token::{Tok, TokKind};
use std::alloc::Global;

fn is_comma(text: &str, tok: Tok) -> bool
    ensures { result ≡ spec.is_comma text.now tok }
{
    match tok.kind {
        TokKind::Punct => text.as_bytes().get(tok.start as usize) == Some(&b','),
        _ => false,
    }
}

fn is_comment(kind: TokKind) -> bool
    ensures { result ≡ spec.is_comment kind }
{
    match kind {
        TokKind::LineComment | TokKind::BlockComment => true,
        _ => false,
    }
}

/// What follows the first comma.
#[tactic(auto, unfolding(crate::specs::BanDuplicateColumnAssignments::after_comma))]
fn after_comma<'a>(text: &str, toks: &'a [Tok]) -> &'a [Tok]
    ensures { result.now ≡ spec.after_comma text.now toks.now }
{
    let mut rest = toks;
    while let Some((tok, later)) = rest.split_first() {
        if is_comma(text, *tok) {
            return later;
        }
        rest = later;
    }
    rest
}

/// Where the first comment begins.
#[tactic(auto, unfolding(crate::specs::BanDuplicateColumnAssignments::first_comment))]
fn first_comment(toks: &[Tok]) -> Option<u32>
    ensures { result ≡ spec.first_comment toks.now }
{
    let mut rest = toks;
    while let Some((tok, later)) = rest.split_first() {
        if is_comment(tok.kind) {
            return Some(tok.start);
        }
        rest = later;
    }
    None
}

/// The first tokens, at most `count` of them.
#[tactic(auto, using(std::proofs::lemmas::List::take_all))]
fn first_tokens(toks: &[Tok], count: usize) -> &[Tok]
    ensures { result.now ≡ take count toks.now }
{
    if count < toks.len() {
        &toks[..count]
    } else {
        toks
    }
}

/// The tokens after the first ones.
#[tactic(auto, using(std::proofs::lemmas::List::drop_all))]
fn later_tokens(toks: &[Tok], count: usize) -> &[Tok]
    ensures { result.now ≡ drop count toks.now }
{
    if count < toks.len() {
        &toks[count..]
    } else {
        &[]
    }
}

/// The tokens between a part and the next one.
fn between<'a>(p: &'a Parse<'_>, part: Removable) -> &'a [Tok]
    ensures { result.now ≡ spec.between p.now part }
{
    later_tokens(
        first_tokens(p.tokens(), part.next as usize),
        part.last as usize + 1,
    )
}

/// Deletes a part with its comma, and with the blanks after it, but no comment after the comma.
#[tactic(auto, unfolding(crate::specs::BanDuplicateColumnAssignments::deletion_of))]
fn deletion(p: &Parse<'_>, part: Removable) -> Edit
    ensures { result ≡ spec.deletion_of p.now part }
{
    let start = p.span_range(part.first, part.first).start();
    let next = p.span_range(part.next, part.next).start();
    let end = match first_comment(after_comma(p.text(), between(p, part))) {
        Some(comment) => TextSize::new(comment),
        None => next,
    };
    Edit::delete(TextRange::new(start, start.max(end)))
}

/// Whether each name has a part that can be deleted.
pub(crate) fn have_parts(members: &[Member]) -> bool
    ensures { result ≡ list_all spec.has_part members.now }
{
    let mut rest = members;
    while let Some((m, later)) = rest.split_first() {
        if m.part.is_none() {
            return false;
        }
        rest = later;
    }
    true
}

/// The deletions of the parts of these names.
pub(crate) fn deletions(
    alloc: Global,
    p: &Parse<'_>,
    members: &[Member],
) -> Result<Vec<Edit>, NoMemory>
    ensures { IfOk result (λ edits. edits.items ≡ flat_map (λ m. spec.deletions_of p.now m.part) members.now) }
{
    let mut edits = Vec::new(alloc);
    for m in members {
        if let Some(part) = m.part {
            edits.push(deletion(p, part))?;
        }
    }
    Ok(edits)
}
