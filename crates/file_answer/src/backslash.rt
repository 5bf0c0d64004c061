//! Backslashes outside of strings, quoted names and comments.

ghost use Rattle.std.specs.Prelude.{◌≡◌, ◌<◌, IfSome, length, slice_index};
ghost use Rattle.std.specs.List.{position};
ghost use Rattle.std.specs.Str.{IsCharBoundary};
ghost use Rattle.file_answer.specs.Backslash as spec;

use law_reports::sql_read::sql_tree::Parse;
use law_reports::sql_read::{TextSize, Tok, TokKind};

fn is_other(kind: TokKind) -> bool
    ensures { result ≡ spec.is_other kind }
{
    matches!(kind, TokKind::Other)
}

// The byte at a place, or 0 past the end.
fn byte(text: &str, at: u32) -> u8
    ensures { result ≡ slice_index text.now at }
{
    match text.as_bytes().get(at as usize) {
        Some(b) => *b,
        None => 0,
    }
}

fn is_backslash(text: &str, tok: &Tok) -> bool
    ensures { result ≡ spec.is_backslash text.now tok.now }
{
    is_other(tok.kind) && byte(text, tok.start) == b'\\'
}

// The number of the first token that is a backslash.
fn first_number(p: &Parse<'_>) -> Option<usize>
    ensures number { result ≡ position (spec.is_backslash p.now.text) p.now.toks }
    ensures within { IfSome result (λ n. n < length p.now.toks) }
{
    let text = p.text();
    p.tokens().iter().position(|tok| is_backslash(text, tok))
}

fn start_of(p: &Parse<'_>, n: usize) -> u32
    requires { n < length p.now.toks }
    ensures { result ≡ spec.start_of p.now n }
{
    p.tokens()[n].start
}

/// The place of the first token that is a backslash.
#[tactic(auto, using(crate::proofs::Backslashes::boundary, crate::proofs::Backslashes::first, crate::proofs::Backslashes::none))]
pub(crate) fn first_backslash(p: &Parse<'_>) -> Option<TextSize>
    ensures place { result ≡ spec.first_backslash p.now }
    ensures boundary { IfSome result (IsCharBoundary p.now.text) }
{
    match first_number(p) {
        Some(n) => Some(TextSize::new(start_of(p, n))),
        None => None,
    }
}
