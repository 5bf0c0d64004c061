//! SET and TRUNCATE (PostgreSQL manual, SET, TRUNCATE).

ghost use Rattle.std.specs.Prelude.{◌≡◌};
ghost use Rattle.sql_tree.specs.Tails as spec;

use sql_form::path_first;
use sql_token::{Keyword, Span, Symbol, Terminal};

#[tactic(auto, unfolding(sql_tree::specs::Tails::begins_value))]
fn begins_value(terminals: &[Terminal]) -> bool
    ensures { result ≡ spec.begins_value terminals.now }
{
    match terminals {
        [] => false,
        [first, ..] => first.is_keyword(Keyword::TO)
            || matches!(first.symbol, Symbol::Equals | Symbol::EqualsOperator),
    }
}

/// The path of the parameter that is set, by what follows SET and SESSION or LOCAL; `None` where no parameter is set.
#[tactic(auto, unfolding(sql_tree::specs::Tails::parameter))]
pub fn parameter(terminals: &[Terminal]) -> Option<Span>
    ensures { result ≡ spec.parameter terminals.now }
{
    let (path, rest) = path_first(terminals)?;
    if begins_value(rest) { Some(path) } else { None }
}

/// The number of the last terminal, where it is the word CASCADE.
#[tactic(auto, unfolding(sql_tree::specs::Tails::last_cascade, sql_token::specs::Terminal::is_keyword))]
pub fn last_cascade(terminals: &[Terminal]) -> Option<u32>
    ensures { result ≡ spec.last_cascade terminals.now }
{
    if terminals.is_empty() {
        return None;
    }
    let last = terminals[terminals.len() - 1];
    if last.is_keyword(Keyword::CASCADE) {
        Some(last.number)
    } else {
        None
    }
}
