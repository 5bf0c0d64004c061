//! Options in brackets, and words that may be.

ghost use Rattle.std.specs.Prelude.{◌≡◌};
ghost use Rattle.sql_tree.specs.Tails as spec;
ghost use Rattle.sql_tail.specs.Options.{test_of};

use sql_form::{Mark, Parts, begins_list, begins_with, closing};
use sql_token::{Keyword, Symbol, Terminal};

/// What an option is tested for.
#[derive(Clone, Copy)]
pub(crate) enum OptionTest {
    /// CONCURRENTLY, whatever its value.
    Concurrent,
    /// CONCURRENTLY with a value.
    Valued,
    /// FULL that is not turned off.
    Full,
}

/// What follows the bracket list that may come first.
#[tactic(auto, unfolding(sql_tree::specs::Tails::after_options))]
pub(crate) fn after_options(terminals: &[Terminal]) -> &[Terminal]
    ensures { result.now ≡ spec.after_options terminals.now }
{
    if begins_list(terminals) {
        &terminals[closing(terminals)..]
    } else {
        terminals
    }
}

/// What follows this word, which may come first.
#[tactic(auto, unfolding(sql_tree::specs::Tails::after_flag))]
pub(crate) fn after_flag(word: Keyword, terminals: &[Terminal]) -> &[Terminal]
    ensures { result.now ≡ spec.after_flag word terminals.now }
{
    match terminals {
        [first, rest @ ..] if first.is_keyword(word) => rest,
        _ => terminals,
    }
}

#[tactic(auto, unfolding(sql_tree::specs::Tails::is_on))]
fn is_on(value: Terminal) -> bool
    ensures { result ≡ spec.is_on value }
{
    value.is_keyword(Keyword::TRUE)
        || value.is_keyword(Keyword::ON)
        || matches!(value.symbol, Symbol::One)
}

#[tactic(auto, unfolding(sql_tree::specs::Tails::is_full))]
fn is_full(option: &[Terminal]) -> bool
    ensures { result ≡ spec.is_full option.now }
{
    match option {
        [name] => name.is_keyword(Keyword::FULL),
        [name, value] => name.is_keyword(Keyword::FULL) && is_on(*value),
        _ => false,
    }
}

#[tactic(auto, unfolding(sql_tree::specs::Tails::is_concurrent, sql_tree::specs::Tails::is_valued))]
fn passes(test: OptionTest, option: &[Terminal]) -> bool
    ensures { result ≡ test_of test option.now }
{
    match test {
        OptionTest::Concurrent => begins_with(Keyword::CONCURRENTLY, option),
        OptionTest::Valued => begins_with(Keyword::CONCURRENTLY, option) && option.len() > 1,
        OptionTest::Full => is_full(option),
    }
}

/// Whether one of the options, which are there with commas between them, passes the test.
#[tactic(auto, unfolding(sql_tree::specs::Tails::any_option))]
pub(crate) fn any_option(test: OptionTest, inside: &[Terminal]) -> bool
    ensures { result ≡ spec.any_option (test_of test) inside.now }
{
    let mut parts = Parts::new(Mark::Comma, inside);
    while let Some(part) = parts.next_part() {
        if passes(test, part) {
            return true;
        }
    }
    false
}
