//! Where the statements of a text begin and end.

ghost use Rattle.std.specs.Prelude.{◌≡◌, ◌<◌, ◌^◌, length, map, IfOk};
ghost use Rattle.sql_token.specs.Depth.{span_of, statements};
ghost use Rattle.sql_token.specs.Terminal.{terminals};
ghost use Rattle.sql_token.specs.Token.{Lexed};

use crate::statements::Statements;
use sql_token::{Span, Tok, span_of};
use std::alloc::Global;
use text_pos::NoMemory;

/// The statements of the text whose tokens these are, sound or not, each by the numbers of its
/// first significant token and of its last one.
pub fn cut(alloc: Global, text: &str, toks: &[Tok]) -> Result<Vec<Span>, NoMemory>
    requires lexed { Lexed text.now toks.now }
    requires short { length text.now < 2 ^ 32 }
    ensures { IfOk result (λ v. v.items ≡ map span_of (statements (terminals text.now toks.now))) }
{
    let mut spans = Vec::new(alloc);
    let mut statement = Vec::new(alloc);
    let mut walk = Statements::new(text, toks);
    'statements: while walk.next_into(&mut statement)? {
        spans.push(span_of(&statement))?;
    }
    Ok(spans)
}
