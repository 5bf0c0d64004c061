//! The statements of a text, as those are joined that are one.

ghost use Rattle.std.specs.Prelude.{◌≡◌, ◌++◌, ◌<◌, ◌^◌, [], IfOk, OnOk, length};
ghost use Rattle.law_reports.specs.sql_read.sql_token.Token.{Lexed};
ghost use Rattle.file_answer.specs.Joined as spec;

use law_reports::sql_read::{Keyword, NoMemory, Span, Statements, Terminal, Tok, span_of};
use std::alloc::Global;

fn begins_end(terminals: &[Terminal]) -> bool
    ensures { result ≡ spec.begins_end terminals.now }
{
    match terminals {
        [first, ..] => first.is_keyword(Keyword::END),
        [] => false,
    }
}

fn begins_body(terminals: &[Terminal]) -> bool
    ensures { result ≡ spec.begins_body terminals.now }
{
    match terminals {
        [first, rest @ ..] => first.is_keyword(Keyword::ATOMIC) && !begins_end(rest),
        [] => false,
    }
}

// Whether some of these terminals are BEGIN ATOMIC, before a statement of a body.
#[tactic(auto, unfolding(crate::specs::Joined::has_body))]
fn has_body(terminals: &[Terminal]) -> bool
    ensures { result ≡ spec.has_body terminals.now }
{
    let mut left = terminals;
    'left: while let [first, rest @ ..] = left {
        if first.is_keyword(Keyword::BEGIN) && begins_body(rest) {
            return true;
        }
        left = rest;
    }
    false
}

// Whether a statement of which so much was read goes on after these terminals.
fn goes_on(begun: Option<Span>, terminals: &[Terminal]) -> bool
    ensures { result ≡ spec.goes_on begun terminals.now }
{
    match begun {
        None => has_body(terminals),
        Some(_) => !begins_end(terminals),
    }
}

// What was read of a statement, with these terminals.
fn through(begun: Option<Span>, terminals: &[Terminal]) -> Span
    ensures { result ≡ spec.through begun terminals.now }
{
    let all = span_of(terminals);
    match begun {
        None => all,
        Some(begun) => Span {
            first: begun.first,
            last: all.last,
        },
    }
}

// Puts the statement of which so much was read after the others, where there is one.
fn end(spans: &mut Vec<Span>, begun: Option<Span>) -> Result<(), NoMemory>
    ensures { OnOk result (spans.new.items ≡ spans.old.items ++ spec.joined begun []) }
{
    if let Some(begun) = begun {
        spans.push(begun)?;
    }
    Ok(())
}

/// The statements of a text, each by the numbers of its first token and of its last one. The error comes when memory runs out.
pub(crate) fn spans_of(alloc: Global, text: &str, toks: &[Tok]) -> Result<Vec<Span>, NoMemory>
    requires lexed { Lexed text.now toks.now }
    requires short { length text.now < 2 ^ 32 }
    ensures { IfOk result (λ spans. spans.items ≡ spec.spans_of text.now toks.now) }
{
    let mut spans = Vec::new(alloc);
    let mut statement = Vec::new(alloc);
    let mut begun = None;
    let mut walk = Statements::new(text, toks);
    'statements: while walk.next_into(&mut statement)? {
        let span = through(begun, statement.as_slice());
        if goes_on(begun, statement.as_slice()) {
            begun = Some(span);
        } else {
            begun = None;
            spans.push(span)?;
        }
    }
    end(&mut spans, begun)?;
    Ok(spans)
}
