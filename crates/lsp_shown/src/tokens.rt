//! Tokens that go over several lines.
ghost use Rattle.std.specs.Prelude.{◌≡◌, ◌++◌, All, IfOk, OnOk};
ghost use Rattle.lsp_shown.specs.Tokens as spec;
ghost use Rattle.lsp_shown.specs.Tokens.{TokenIn};

use crate::ignore::Lines;
use lsp_session::{NoMemory, PosIndex, TextSize};
use sql_token::{Tok, TokKind};
use std::alloc::Global;

// Whether a token of this kind may have a line feed inside, and no comment can be put there.
fn is_closed(kind: TokKind) -> bool
    ensures { result ≡ spec.is_closed kind }
{
    matches!(
        kind,
        TokKind::BlockComment | TokKind::Quoted | TokKind::Str | TokKind::UName | TokKind::Dollar
    )
}

fn lines_of(index: &PosIndex<'_>, token: &Tok) -> Lines
    requires { TokenIn index.now token.now }
    ensures { result ≡ spec.lines_of index.now token.now }
{
    Lines {
        first: index.pos(TextSize::new(token.start)).line,
        last: index.pos(TextSize::new(token.end)).line,
    }
}

// Adds lines where there are several.
fn push_several(found: &mut Vec<Lines>, lines: Lines) -> Result<(), NoMemory>
    ensures { OnOk result (found.new.items ≡ found.old.items ++ spec.several lines) }
{
    if lines.first < lines.last {
        found.push(lines)?;
    }
    Ok(())
}

// Adds the lines of a token that goes over several.
fn push_token(found: &mut Vec<Lines>, index: &PosIndex<'_>, token: &Tok) -> Result<(), NoMemory>
    requires { TokenIn index.now token.now }
    ensures { OnOk result (found.new.items ≡ found.old.items ++ spec.long_if index.now token.now) }
{
    if is_closed(token.kind) {
        push_several(found, lines_of(index, token))?;
    }
    Ok(())
}

/// The lines of those tokens of a text that go over several and into which no comment can be put, in their order. The error comes when
/// memory runs out.
pub fn long_tokens(
    alloc: Global,
    index: &PosIndex<'_>,
    tokens: &[Tok],
) -> Result<Vec<Lines>, NoMemory>
    requires { All (TokenIn index.now) tokens.now }
    ensures { IfOk result (λ found. found.items ≡ spec.long_tokens index.now tokens.now) }
{
    let mut found = Vec::new(alloc);
    for token in tokens {
        push_token(&mut found, index, token)?;
    }
    Ok(found)
}
