//! VACUUM (PostgreSQL manual, VACUUM).

ghost use Rattle.std.specs.Prelude.{◌≡◌};
ghost use Rattle.sql_tree.specs.Tails as spec;

use crate::options::{OptionTest, after_flag, after_options, any_option};
use sql_form::{begins_with, inside_list};
use sql_token::{Keyword, Span, Terminal};

/// Whether VACUUM is full, by what follows the word.
#[tactic(auto, unfolding(sql_tree::specs::Tails::is_full_vacuum))]
pub fn is_full_vacuum(terminals: &[Terminal]) -> bool
    ensures { result ≡ spec.is_full_vacuum terminals.now }
{
    begins_with(Keyword::FULL, after_options(terminals))
        || any_option(OptionTest::Full, inside_list(terminals))
}

fn some_span(terminals: &[Terminal]) -> Option<Span>
    ensures { result ≡ spec.some_span terminals.now }
{
    match terminals {
        [] => None,
        [first, ..] => Some(Span {
            first: first.number,
            last: terminals[terminals.len() - 1].number,
        }),
    }
}

fn after_either(word: Keyword, other: Keyword, terminals: &[Terminal]) -> &[Terminal]
    ensures { result.now ≡ spec.after_either word other terminals.now }
{
    match terminals {
        [first, rest @ ..] if first.is_keyword(word) || first.is_keyword(other) => rest,
        _ => terminals,
    }
}

/// The tables of VACUUM, by what follows the word; `None` where it names none.
#[tactic(auto, unfolding(sql_tree::specs::Tails::vacuum_tables))]
pub fn vacuum_tables(terminals: &[Terminal]) -> Option<Span>
    ensures { result ≡ spec.vacuum_tables terminals.now }
{
    let after_full = after_flag(Keyword::FULL, after_options(terminals));
    let after_freeze = after_flag(Keyword::FREEZE, after_full);
    let after_verbose = after_flag(Keyword::VERBOSE, after_freeze);
    some_span(after_either(Keyword::ANALYZE, Keyword::ANALYSE, after_verbose))
}
