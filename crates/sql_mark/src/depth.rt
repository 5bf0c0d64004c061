//! What is at depth 0 of a list of terminals.

ghost use Rattle.std.specs.Prelude.{◌≡◌, ◌≤◌, length};
ghost use Rattle.std.specs.Option.{option_copied};
ghost use Rattle.sql_token.specs.Depth as spec;
ghost use Rattle.sql_tree.specs.Split as split;

use sql_token::{Keyword, Symbol, Terminal};

/// Whether the key word is at depth 0, counted from the start of the list.
#[tactic(auto, unfolding(sql_token::specs::Depth::has_keyword))]
pub fn has_keyword(word: Keyword, terminals: &[Terminal]) -> bool
    ensures { result ≡ spec.has_keyword word terminals.now }
{
    let mut left = terminals;
    let mut opened = 0usize;
    let mut closed = 0usize;
    while let [first, rest @ ..] = left {
        if opened == closed && first.is_keyword(word) {
            return true;
        }
        if first.is_opener() {
            opened += 1;
        }
        if first.is_closer() {
            closed += 1;
        }
        left = rest;
    }
    false
}

/// How many terminals come up to where as many closers as openers have come: all of a bracket list that comes first.
pub fn closing(terminals: &[Terminal]) -> usize
    ensures value { result ≡ split.closing 0 0 terminals.now }
    ensures within { result ≤ length terminals.now }
{
    let mut left = terminals;
    let mut count = 0usize;
    let mut opened = 0usize;
    let mut closed = 0usize;
    while let [first, rest @ ..] = left {
        if first.is_opener() {
            opened += 1;
        }
        if first.is_closer() {
            closed += 1;
        }
        count += 1;
        left = rest;
        if opened == closed {
            break;
        }
    }
    count
}

/// Whether the key word comes first.
pub fn begins_with(word: Keyword, terminals: &[Terminal]) -> bool
    ensures { result ≡ split.begins_with word terminals.now }
{
    match terminals {
        [] => false,
        [first, ..] => first.is_keyword(word),
    }
}

/// Whether these two key words come first.
pub(crate) fn begins_with_both(word: Keyword, other: Keyword, after: &[Terminal]) -> bool
    ensures { result ≡ split.begins_with_both word other after.now }
{
    match after {
        [] => false,
        [first, rest @ ..] => first.is_keyword(word) && begins_with(other, rest),
    }
}

/// Whether a round bracket opens the list.
pub fn begins_list(terminals: &[Terminal]) -> bool
    ensures { result ≡ split.begins_list terminals.now }
{
    match terminals {
        [] => false,
        [first, ..] => matches!(first.symbol, Symbol::OpenRound),
    }
}

/// What follows the bracket list `( .. )` that comes first.
#[tactic(auto, unfolding(sql_tree::specs::Split::after_list))]
pub fn after_list<'a>(terminals: &'a [Terminal]) -> Option<&'a [Terminal]>
    ensures { option_copied result ≡ split.after_list terminals.entry.now }
{
    if begins_list(terminals) {
        Some(&terminals[closing(terminals)..])
    } else {
        None
    }
}
