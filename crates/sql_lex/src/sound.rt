//! Which statements may be read at all.

ghost use Rattle.std.specs.Prelude.{◌≡◌, true, []};
ghost use Rattle.sql_token.specs.Sound as spec;
ghost use Rattle.sql_token.specs.Terminal.{is_round};
ghost use Rattle.sql_lex.specs.Stack.{StandsAnywhere, nests};

use crate::brackets::Brackets;
use sql_token::{Keyword, Symbol, Terminal, same_keyword};

#[tactic(auto, unfolding(sql_token::specs::Sound::begins_atomic))]
fn begins_atomic(terminal: Terminal, rest: &[Terminal]) -> bool
    ensures { result ≡ spec.begins_atomic terminal rest.now }
{
    match rest {
        [] => false,
        [next, ..] => { terminal.is_keyword(Keyword::BEGIN) && next.is_keyword(Keyword::ATOMIC) }
    }
}

fn has_same_kind(round: bool, terminal: Terminal) -> bool
    ensures { result ≡ spec.same round (is_round terminal) }
{
    if round {
        terminal.is_round()
    } else {
        !terminal.is_round()
    }
}

/// Whether this may be anywhere in a statement that may be read.
#[tactic(auto, unfolding(sql_token::specs::Terminal::is_unicode_name, sql_token::specs::Terminal::is_opener, sql_token::specs::Terminal::is_closer, sql_token::specs::Terminal::is_keyword))]
fn stands_anywhere(terminal: Terminal) -> bool
    ensures { result ≡ true → StandsAnywhere terminal }
{
    match terminal.symbol {
        Symbol::Keyword(found) => !same_keyword(found, Keyword::BEGIN),
        Symbol::UName
        | Symbol::OpenRound
        | Symbol::CloseRound
        | Symbol::OpenSquare
        | Symbol::CloseSquare => false,
        _ => true,
    }
}

/// Goes terminal by terminal with a stack of the open brackets.
fn nests(statement: &[Terminal]) -> bool
    ensures { result ≡ nests [] statement.now }
{
    let mut brackets = Brackets::new();
    let mut left = statement;
    while let [terminal, rest @ ..] = left {
        if stands_anywhere(*terminal) {
            left = rest;
            continue;
        }
        if terminal.is_unicode_name() {
            return false;
        }
        if terminal.is_opener() {
            if brackets.len() >= 128 {
                return false;
            }
            brackets.push(terminal.is_round());
        } else if terminal.is_closer() {
            match brackets.pop() {
                None => return false,
                Some(round) => {
                    if !has_same_kind(round, *terminal) {
                        return false;
                    }
                }
            }
        } else if brackets.len() == 0 && begins_atomic(*terminal, rest) {
            return false;
        }
        left = rest;
    }
    brackets.len() == 0
}

/// Whether the statement may be read: closers match openers in kind, at most 128 brackets are open
/// at once and none at the end, and it has no identifier with Unicode escapes and no adjacent
/// words BEGIN ATOMIC outside brackets.
#[tactic(auto, using(crate::proofs::Stacks::sound_nests))]
pub fn is_sound(statement: &[Terminal]) -> bool
    ensures { result ≡ spec.is_sound statement.now }
{
    nests(statement)
}
