//! The elements of a table's list, and the constraints of a domain, by a span of the tokens of a text.

ghost use Rattle.std.specs.Prelude.{◌≡◌, ◌<◌, ◌^◌, length, IfOk};
ghost use Rattle.sql_lex.specs.Inside.{IsSpan, terminals_in};
ghost use Rattle.sql_tree.specs.sql_token.Token.{Lexed};
ghost use Rattle.sql_tree.specs.Column.{elements, domain_constraints};

use crate::column::read_domain_constraints;
use crate::element::read_elements;
use sql_lex::terminals_in;
use sql_tree::{Constraint, Elem, NoMemory, Span, Tok};
use sqlite_items::Items;
use std::alloc::Global;

/// The elements of a table's list, by its tokens, the brackets among them. There are none where the first significant
/// token is no round bracket.
///
/// What an element holds are numbers among all tokens of the text.
pub fn read_elems(
    alloc: Global,
    text: &str,
    toks: &[Tok],
    list: Span,
) -> Result<Items<Elem>, NoMemory>
    requires lexed { Lexed text.now toks.now }
    requires short { length text.now < 2 ^ 32 }
    requires inside { IsSpan toks.now list }
    ensures { IfOk result (λ elems. elems ≡ elements (terminals_in text.now toks.now list)) }
{
    let terminals = terminals_in(alloc, text, toks, list)?;
    read_elements(alloc, &terminals)
}

/// The constraints of a domain, by the tokens after its path and the word AS, without the semicolon. `Ok(None)` where no
/// token is significant, or where a DEFAULT has no expression.
pub fn read_domain(
    alloc: Global,
    text: &str,
    toks: &[Tok],
    tail: Span,
) -> Result<Option<Items<Constraint>>, NoMemory>
    requires lexed { Lexed text.now toks.now }
    requires short { length text.now < 2 ^ 32 }
    requires inside { IsSpan toks.now tail }
    ensures { IfOk result (λ constraints. constraints ≡ domain_constraints (terminals_in text.now toks.now tail)) }
{
    let terminals = terminals_in(alloc, text, toks, tail)?;
    read_domain_constraints(alloc, &terminals)
}
