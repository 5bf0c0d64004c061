//! Marks of queries and of statements that write.

ghost use Rattle.std.specs.Prelude.{◌≡◌};
ghost use Rattle.sql_tree.specs.Split as spec;
ghost use Rattle.sql_mark.specs.Marks.{write_test};

use crate::depth::{begins_with, begins_with_both};
use sql_token::{Keyword, Symbol, Terminal};

/// A mark of queries and of statements that write.
#[derive(Clone, Copy, Debug, PartialEq, Eq)]
pub enum WriteMark {
    /// `=`
    Equals,
    /// DO UPDATE SET.
    DoUpdateSet,
    /// THEN UPDATE SET.
    ThenUpdateSet,
    /// THEN INSERT.
    ThenInsert,
    /// The end of a SET clause: FROM, WHERE or RETURNING.
    ClauseEnd,
    /// The end of a SET clause of MERGE: the same, or WHEN directly before MATCHED or NOT MATCHED.
    MergeClauseEnd,
    /// The word that ends the targets of a SELECT.
    TargetListEnd,
}

pub(crate) fn is_equals(symbol: Symbol) -> bool
    ensures { result ≡ spec.is_equals_symbol symbol }
{
    matches!(symbol, Symbol::Equals)
}

pub(crate) fn is_clause_end(t: Terminal) -> bool
    ensures { result ≡ spec.is_clause_end t }
{
    t.is_keyword(Keyword::FROM) || t.is_keyword(Keyword::WHERE) || t.is_keyword(Keyword::RETURNING)
}

fn is_matched(after: &[Terminal]) -> bool
    ensures { result ≡ spec.is_matched after.now }
{
    begins_with(Keyword::MATCHED, after) || begins_with_both(Keyword::NOT, Keyword::MATCHED, after)
}

fn is_target_list_end(word: Keyword) -> bool
    ensures { result ≡ spec.is_target_list_end word }
{
    match word {
        Keyword::INTO | Keyword::FROM | Keyword::WHERE | Keyword::GROUP | Keyword::HAVING => true,
        Keyword::WINDOW | Keyword::UNION | Keyword::INTERSECT | Keyword::EXCEPT => true,
        Keyword::ORDER | Keyword::LIMIT | Keyword::OFFSET | Keyword::FETCH | Keyword::FOR => true,
        _ => false,
    }
}

fn ends_targets(symbol: Symbol) -> bool
    ensures { result ≡ spec.ends_targets symbol }
{
    match symbol {
        Symbol::Keyword(word) => is_target_list_end(word),
        _ => false,
    }
}

/// Whether a mark of a statement that writes begins here.
#[tactic(auto, unfolding(sql_tree::specs::Split::do_update_set, sql_tree::specs::Split::then_update_set, sql_tree::specs::Split::then_insert, sql_tree::specs::Split::clause_end, sql_tree::specs::Split::merge_clause_end, sql_tree::specs::Split::target_list_end, sql_tree::specs::Split::equals))]
pub(crate) fn begins_write(
    mark: WriteMark,
    _earlier: Option<Terminal>,
    first: Terminal,
    after: &[Terminal],
) -> bool
    ensures { result ≡ write_test mark _earlier first after.now }
{
    match mark {
        WriteMark::Equals => is_equals(first.symbol),
        WriteMark::DoUpdateSet => {
            first.is_keyword(Keyword::DO) && begins_with_both(Keyword::UPDATE, Keyword::SET, after)
        }
        WriteMark::ThenUpdateSet => {
            first.is_keyword(Keyword::THEN)
                && begins_with_both(Keyword::UPDATE, Keyword::SET, after)
        }
        WriteMark::ThenInsert => {
            first.is_keyword(Keyword::THEN) && begins_with(Keyword::INSERT, after)
        }
        WriteMark::ClauseEnd => is_clause_end(first),
        WriteMark::MergeClauseEnd => {
            is_clause_end(first) || (first.is_keyword(Keyword::WHEN) && is_matched(after))
        }
        WriteMark::TargetListEnd => ends_targets(first.symbol),
    }
}
