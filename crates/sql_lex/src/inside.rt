//! The terminals of a span of tokens.

ghost use Rattle.std.specs.Prelude.{◌≡◌, ◌<◌, ◌^◌, length, IfOk};
ghost use Rattle.sql_token.specs.Token.{Lexed};
ghost use Rattle.sql_lex.specs.Cursor.{IsWalk};
ghost use Rattle.sql_lex.specs.Inside as spec;

use crate::statements::terminal_of;
use sql_token::{Span, Terminal, Tok};
use std::alloc::Global;
use text_pos::NoMemory;

/// The terminals of these tokens from the one with this number on.
fn terminals_after(
    alloc: Global,
    text: &[u8],
    toks: &[Tok],
    first: usize,
) -> Result<Vec<Terminal>, NoMemory>
    requires { IsWalk (length text.now) toks.now first }
    ensures { IfOk result (λ v. v.items ≡ spec.terminals_after text.now toks.now first) }
{
    let mut found = Vec::new(alloc);
    let mut number = first;
    while number < toks.len() {
        let tok = toks[number];
        if tok.kind.is_significant() {
            found.push(terminal_of(text, tok, number as u32))?;
        }
        number += 1;
    }
    Ok(found)
}

/// The terminals of a span of the tokens of the text: those of its significant tokens, with their numbers among all
/// tokens.
#[tactic(auto, using(crate::proofs::Insides::is_walk_inside), unfolding(crate::specs::Inside::terminals_in))]
pub fn terminals_in(
    alloc: Global,
    text: &str,
    toks: &[Tok],
    span: Span,
) -> Result<Vec<Terminal>, NoMemory>
    requires lexed { Lexed text.now toks.now }
    requires short { length text.now < 2 ^ 32 }
    requires inside { spec.IsSpan toks.now span }
    ensures { IfOk result (λ v. v.items ≡ spec.terminals_in text.now toks.now span) }
{
    let end = span.last as usize + 1;
    terminals_after(alloc, text.as_bytes(), &toks[..end], span.first as usize)
}
