//! Spans of terminals.

ghost use Rattle.std.specs.Prelude.{◌≡◌};
ghost use Rattle.sql_token.specs.Depth.{span_of};

use crate::terminal::Terminal;
use crate::token::Span;

/// From the first token to the last one; tokens 0 to 0 where there is none.
pub fn span_of(terminals: &[Terminal]) -> Span
    ensures { result ≡ span_of terminals.now }
{
    match terminals {
        [] => Span { first: 0, last: 0 },
        [first, ..] => Span {
            first: first.number,
            last: terminals[terminals.len() - 1].number,
        },
    }
}
