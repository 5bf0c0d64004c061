//! Comments on lines of their own that already tell the linter to leave reports of the next line.
ghost use Rattle.std.specs.Prelude.{◌≡◌, ◌<◌, ◌+◌, ◌++◌, ◌^◌, All, IfOk, IfSome, IsTrue, OnOk, codes, drop, length, nat_eq};
ghost use Rattle.std.specs.List.{starts_with};
ghost use Rattle.std.specs.Str.{IsCharBoundary};
ghost use Rattle.lsp_shown.specs.Notes as spec;
ghost use Rattle.lsp_shown.specs.Tokens.{TokenIn};

use lsp_session::{NoMemory, Pos, PosIndex, TextSize};
use sql_token::{Tok, TokKind};
use std::alloc::Global;

// Whether a token is the first one on its line, by the one before it.
fn begins_line(index: &PosIndex<'_>, before: &Option<Tok>, token: &Tok) -> bool
    requires before { IfSome before.now (TokenIn index.now) }
    requires token { TokenIn index.now token.now }
    ensures { result ≡ spec.begins_line index.now before.now token.now }
{
    match before {
        None => true,
        Some(before) => {
            let line = index.pos(TextSize::new(before.start)).line;
            matches!(before.kind, TokKind::Blank)
                && line < index.pos(TextSize::new(token.start)).line
        }
    }
}

// Whether these words come at a place, and names behind them.
fn opens_names(text: &str, at: u32) -> bool
    requires { IsCharBoundary text.now at }
    ensures value { result ≡ starts_with nat_eq (drop at text.now) (codes "-- squawk-ignore ") }
    ensures place { IsTrue result → IsCharBoundary text.now (at + 17) }
{
    text.as_bytes()[at as usize..].starts_with("-- squawk-ignore ".as_bytes())
}

// Whether a token is a line comment that begins so.
fn has_names(text: &str, token: &Tok) -> bool
    requires { IsCharBoundary text.now token.now.start }
    ensures value { result ≡ spec.has_names text.now token.now }
    ensures place { IsTrue result → IsCharBoundary text.now (token.now.start + 17) }
{
    matches!(token.kind, TokKind::LineComment) && opens_names(text, token.start)
}

// Adds the place where the names of a token begin, if it is such a comment on a line of its own.
fn push_note(
    found: &mut Vec<Pos>,
    index: &PosIndex<'_>,
    text: &str,
    before: &Option<Tok>,
    token: &Tok,
) -> Result<(), NoMemory>
    requires short { length text.now < 2 ^ 32 }
    requires of_text { index.now ≡ text.now }
    requires before { IfSome before.now (TokenIn text.now) }
    requires token { TokenIn text.now token.now }
    ensures { OnOk result (found.new.items ≡ found.old.items ++ spec.note_if text.now before.now token.now) }
{
    if has_names(text, token) && begins_line(index, before, token) {
        found.push(index.pos(TextSize::new(token.start + 17)))?;
    }
    Ok(())
}

/// Where the names begin of those line comments of a text that are on lines of their own and begin with `-- squawk-ignore `, in their order.
/// The error comes when memory runs out.
pub fn notes_in(
    alloc: Global,
    index: &PosIndex<'_>,
    text: &str,
    tokens: &[Tok],
) -> Result<Vec<Pos>, NoMemory>
    requires short { length text.now < 2 ^ 32 }
    requires of_text { index.now ≡ text.now }
    requires tokens { All (TokenIn text.now) tokens.now }
    ensures { IfOk result (λ found. found.items ≡ spec.notes_in text.now tokens.now) }
{
    let mut found = Vec::new(alloc);
    let mut before = None;
    for token in tokens {
        push_note(&mut found, index, text, &before, token)?;
        before = Some(*token);
    }
    Ok(found)
}
