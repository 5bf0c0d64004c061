//! REINDEX (PostgreSQL manual, REINDEX).

ghost use Rattle.std.specs.Prelude.{◌≡◌};
ghost use Rattle.sql_tree.specs.Tails as spec;

use crate::options::{OptionTest, after_flag, after_options, any_option};
use crate::paths::whole_path;
use sql_form::{begins_with, inside_list};
use sql_token::{Keyword, Symbol, Terminal};
use sql_tree::{Body, ReindexTarget};

fn target_word(word: Keyword) -> Option<ReindexTarget>
    ensures { result ≡ spec.target_word word }
{
    match word {
        Keyword::INDEX => Some(ReindexTarget::Index),
        Keyword::TABLE => Some(ReindexTarget::Table),
        Keyword::SCHEMA => Some(ReindexTarget::Schema),
        Keyword::DATABASE => Some(ReindexTarget::Database),
        Keyword::SYSTEM => Some(ReindexTarget::System),
        _ => None,
    }
}

fn target_symbol(symbol: Symbol) -> Option<ReindexTarget>
    ensures { result ≡ spec.target_symbol symbol }
{
    match symbol {
        Symbol::Keyword(word) => target_word(word),
        _ => None,
    }
}

/// What is rebuilt, by its word and what follows.
#[tactic(auto, unfolding(sql_tree::specs::Tails::reindex_object))]
fn reindex_object(inside: &[Terminal], terminals: &[Terminal]) -> Option<Body>
    ensures { result ≡ spec.reindex_object inside.now terminals.now }
{
    match terminals {
        [] => None,
        [word, rest @ ..] => {
            let target = target_symbol(word.symbol)?;
            let path = whole_path(after_flag(Keyword::CONCURRENTLY, rest))?;
            Some(Body::Reindex {
                target,
                word: word.number,
                concurrent: begins_with(Keyword::CONCURRENTLY, rest)
                    || any_option(OptionTest::Concurrent, inside),
                valued: any_option(OptionTest::Valued, inside),
                path,
            })
        }
    }
}

/// What REINDEX rebuilds, by what follows the word; `None` where that is not `[( options )]`, the word of an object,
/// `[CONCURRENTLY]` and `[path]`, and no more.
#[tactic(auto, unfolding(sql_tree::specs::Tails::reindex))]
pub fn reindex(terminals: &[Terminal]) -> Option<Body>
    ensures { result ≡ spec.reindex terminals.now }
{
    reindex_object(inside_list(terminals), after_options(terminals))
}
