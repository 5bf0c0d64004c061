//! LOCK (PostgreSQL manual, LOCK).

ghost use Rattle.std.specs.Prelude.{◌≡◌, map};
ghost use Rattle.sql_tree.specs.Tails as spec;

use sql_form::{after_word, after_words};
use sql_token::{Keyword, Terminal};
use sql_tree::LockMode;
use sql_tree::other_forms::LOCK_MODES;

type LockModes = &'static [(LockMode, &'static [Keyword])];

fn ends(terminals: &[Terminal]) -> bool
    ensures { result ≡ spec.ends terminals.now }
{
    match terminals {
        [] => true,
        [only] => only.is_keyword(Keyword::NOWAIT),
        _ => false,
    }
}

/// Whether these words and MODE come first, and then nothing or NOWAIT.
#[tactic(auto, unfolding(sql_tree::specs::Tails::is_mode))]
fn is_mode(words: &[Keyword], terminals: &[Terminal]) -> bool
    ensures { result ≡ spec.is_mode words.now terminals.now }
{
    let Some(after) = after_words(words, terminals) else {
        return false;
    };
    match after_word(Keyword::MODE, after) {
        Some(rest) => ends(rest),
        None => false,
    }
}

fn first_mode(modes: LockModes, terminals: &[Terminal]) -> Option<LockMode>
    ensures { result ≡ spec.mode_by (map (λ r. (r.0, r.1.now)) modes.entry.now) terminals.now }
{
    let mut rest = modes;
    while let [row, more @ ..] = rest {
        if is_mode(row.1, terminals) {
            return Some(row.0);
        }
        rest = more;
    }
    None
}

#[tactic(auto, unfolding(sql_tree::specs::Tails::mode_of))]
fn mode_of(terminals: &[Terminal]) -> Option<LockMode>
    ensures { result ≡ spec.mode_of terminals.now }
{
    first_mode(&LOCK_MODES, terminals)
}

/// The mode that LOCK names at its end, between IN and MODE, by what follows the word.
pub fn lock_mode(terminals: &[Terminal]) -> Option<LockMode>
    ensures { result ≡ spec.lock_mode terminals.now }
{
    let mut left = terminals;
    while let [first, rest @ ..] = left {
        if first.is_keyword(Keyword::IN) {
            if let Some(mode) = mode_of(rest) {
                return Some(mode);
            }
        }
        left = rest;
    }
    None
}
