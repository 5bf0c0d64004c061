//! The tokens of a whole text.

ghost use Rattle.std.specs.Prelude.{◌≡◌, ◌++◌, [], ◌∷◌, ◌<◌, ◌^◌, ◌≤◌, ◌+◌, ℕ, List, length, slice_index, vec_len, vec_capacity, true, IfOk, IfErr, IfSome, IfNone};
ghost use Rattle.sql_token.specs.Token.{At, Leads, Lexed, NeverCloses, OpenAt};
ghost use Rattle.sql_token.specs.Token as spec;
ghost use Rattle.sql_token.specs.declared.token.Tok.{Tok};
ghost use Rattle.sql_token.specs.declared.token.TokKind.TheVariants.{Blank};
ghost use Rattle.sql_lex.specs.Signs.{LeadsToSigns, SignsFrom};
ghost use Rattle.sql_lex.specs.Stop.{IsStop};
ghost use Rattle.sql_lex.specs.Cause.{IsCause, OkOrNoMemory, IsOpenOrNoMemory};

use crate::class::{is_blank, is_in_run};
use crate::error::LexError;
use crate::op::begins_sign;
use crate::scan::{plain_kind, run_before, token_at};
use sql_token::{Tok, TokKind};
use std::alloc::Global;

fn is_operator(kind: TokKind) -> bool
    ensures { result ≡ true → kind ≡ TokKind.Op }
{
    matches!(kind, TokKind::Op)
}

/// The place of the last byte that neither a word nor white space goes on over, or 0 where there is none.
fn last_stop(text: &[u8]) -> usize
    ensures { 0 < result → IsStop text.now result }
{
    let mut at = text.len();
    while 0 < at {
        at -= 1;
        if !is_in_run(text[at]) {
            return at;
        }
    }
    0
}

/// The end of the white space at this place.
fn blank_end(text: &[u8], at: usize, stop: usize) -> usize
    requires before { at < stop }
    requires stop { IsStop text.now stop }
    requires blank { spec.is_blank (slice_index text.now at) ≡ true }
    ensures found { At text.now at Blank result }
    ensures within { (at < result) × (result ≤ length text.now) }
{
    run_before(TokKind::Blank, text, at + 1, stop)
}

/// The token at this place, where its first bytes tell that it is a word or a mark.
#[inline(always)]
fn plain_token(text: &[u8], at: usize, stop: usize) -> Option<(TokKind, usize)>
    requires before { at < stop }
    requires stop { IsStop text.now stop }
    ensures found { IfSome result (λ t. At text.now at t.0 t.1) }
    ensures within { IfSome result (λ t. (at < t.1) × (t.1 ≤ length text.now)) }
{
    match plain_kind(&text[at..]) {
        Some(TokKind::Word) => Some((TokKind::Word, run_before(TokKind::Word, text, at + 1, stop))),
        Some(TokKind::Punct) => Some((TokKind::Punct, at + 1)),
        _ => None,
    }
}

/// The end of the stretch of the text from this place on, up to `stop`, that has no more bytes than there is room for tokens.
fn room_end(toks: &Vec<Tok>, from: usize, stop: usize) -> usize
    ensures within { from < result → result ≤ stop }
    ensures room { vec_len toks.now + result ≤ vec_capacity toks.now + from }
{
    from + stop.saturating_sub(from).min(toks.capacity() - toks.len())
}

/// Puts the token from this place to that one after the others.
fn push_token(toks: &mut Vec<Tok>, kind: TokKind, at: usize, end: usize)
    requires { (at < 2 ^ 32) × (end < 2 ^ 32) × (vec_len toks.old < vec_capacity toks.old) }
    ensures items { toks.new.items ≡ toks.old.items ++ record { kind = kind; start = at; end = end } ∷ [] }
    ensures len { vec_len toks.new ≡ vec_len toks.old + 1 }
    ensures capacity { vec_capacity toks.new ≡ vec_capacity toks.old }
{
    toks.push_reserved(Tok {
        kind,
        start: at as u32,
        end: end as u32,
    });
}

/// Puts the tokens from this place on after the others, until there is no more room or one comes that its first bytes
/// don't tell. Gives the end of the last one.
#[inline(always)]
fn push_plain(text: &[u8], toks: &mut Vec<Tok>, from: usize, stop: usize) -> usize
    requires short { length text.now < 2 ^ 32 }
    requires stop { 0 < stop → IsStop text.now stop }
    requires lead { (from ≤ length text.now) × Leads text.now 0 toks.old.items from }
    ensures { (from ≤ result) × (result ≤ length text.now) × Leads text.now 0 toks.new.items result }
{
    let room_end = room_end(toks, from, stop);
    let mut at = from;
    // A token takes a byte at least, so there is room for each one that begins here. In front of `stop` the end of a run is
    // found without looking for the end of the text.
    while at < room_end {
        let mut start = at;
        if is_blank(text[at]) {
            start = blank_end(text, at, stop);
            push_token(toks, TokKind::Blank, at, start);
            if start >= room_end {
                return start;
            }
        }
        let Some((kind, end)) = plain_token(text, start, stop) else {
            return start;
        };
        push_token(toks, kind, start, end);
        at = end;
    }
    at
}

/// Whether the last of these tokens is an operator.
fn ends_in_operator(toks: &[Tok]) -> bool
    ensures { result ≡ true → LeadsToSigns toks.now }
{
    match toks {
        [.., last] => is_operator(last.kind),
        [] => false,
    }
}

/// The token at this place, which may be a sign that an operator in front lost.
fn any_token(text: &[u8], at: usize, is_after_operator: bool) -> Option<(TokKind, usize)>
    requires begins { at < length text.now }
    requires signs { is_after_operator ≡ true → (0 < at) × SignsFrom text.now at }
    ensures found { IfSome result (λ t. At text.now at t.0 t.1) }
    ensures within { IfSome result (λ t. (at < t.1) × (t.1 ≤ length text.now)) }
    ensures none { IfNone result (NeverCloses text.now at) }
{
    if is_after_operator && begins_sign(&text[at..]) {
        return Some((TokKind::Op, at + 1));
    }
    token_at(text, at)
}

/// Puts the token at this place after the others, and gives its end.
#[inline(never)]
fn push_any(text: &[u8], toks: &mut Vec<Tok>, at: usize) -> Result<usize, LexError>
    requires short { length text.now < 2 ^ 32 }
    requires begins { at < length text.now }
    requires lead { Leads text.now 0 toks.old.items at }
    ensures ok { IfOk result (λ end. (at < end) × (end ≤ length text.now) × Leads text.now 0 toks.new.items end) }
    ensures err { IfErr result (λ e. IsCause text.now e) }
{
    match any_token(text, at, ends_in_operator(toks)) {
        None => Err(LexError::Unterminated { at: at as u32 }),
        Some((kind, end)) => {
            toks.push(Tok {
                kind,
                start: at as u32,
                end: end as u32,
            })?;
            Ok(end)
        }
    }
}

fn tokens(alloc: Global, text: &[u8]) -> Result<Vec<Tok>, LexError>
    requires { length text.now < 2 ^ 32 }
    ensures ok { IfOk result (λ toks. Lexed text.now toks.items) }
    ensures err { IfErr result (λ e. IsCause text.now e) }
{
    let mut toks = Vec::new(alloc);
    let stop = last_stop(text);
    let mut at = 0;
    while at < text.len() {
        at = push_plain(text, &mut toks, at, stop);
        if at < text.len() {
            at = push_any(text, &mut toks, at)?;
        }
    }
    Ok(toks)
}

/// The tokens of the text, all of it, or the place in bytes of the first token that never closes.
pub fn lex(alloc: Global, text: &str) -> Result<Vec<Tok>, LexError>
    requires { length text.now < 2 ^ 32 }
    ensures ok { IfOk result (λ toks. Lexed text.now toks.items) }
    ensures err { IfErr result (λ e. IsCause text.now e) }
    // Running out of memory is the one other answer.
    ensures lexed { (toks : List Tok) → Lexed text.now toks → OkOrNoMemory result (λ v. v.items ≡ toks) }
    ensures open { (at : ℕ) → OpenAt text.now at → IsOpenOrNoMemory result at }
{
    tokens(alloc, text.as_bytes())
}
