//! Marks at which the pieces of ALTER actions begin.

ghost use Rattle.std.specs.Prelude.{◌≡◌};
ghost use Rattle.sql_tree.specs.ActionPieces as pieces;

use crate::depth::begins_with;
use crate::words::is_of_class;
use sql_token::{Keyword, Terminal};
use sql_tree::forms::WordClass;

/// A word of an option that comes right after neither NO nor a dot.
#[tactic(auto, unfolding(sql_tree::specs::ActionPieces::sequence_option))]
pub(crate) fn begins_sequence_option(
    earlier: Option<Terminal>,
    first: Terminal,
    after: &[Terminal],
) -> bool
    ensures { result ≡ pieces.sequence_option earlier first after.now }
{
    match earlier {
        None => false,
        Some(t) => {
            is_of_class(WordClass::SequenceOption, first)
                && !(t.is_keyword(Keyword::NO) || t.is_dot())
        }
    }
}

/// SET, or RESTART not right after SET.
#[tactic(auto, unfolding(sql_tree::specs::ActionPieces::identity_option))]
pub(crate) fn begins_identity_option(
    earlier: Option<Terminal>,
    first: Terminal,
    after: &[Terminal],
) -> bool
    ensures { result ≡ pieces.identity_option earlier first after.now }
{
    match earlier {
        None => false,
        Some(t) => {
            first.is_keyword(Keyword::SET)
                || (first.is_keyword(Keyword::RESTART) && !t.is_keyword(Keyword::SET))
        }
    }
}

/// TO, USING or WITH CHECK.
#[tactic(auto, unfolding(sql_tree::specs::ActionPieces::policy_part))]
pub(crate) fn begins_policy_part(
    earlier: Option<Terminal>,
    first: Terminal,
    after: &[Terminal],
) -> bool
    ensures { result ≡ pieces.policy_part earlier first after.now }
{
    match earlier {
        None => false,
        Some(_) => {
            first.is_keyword(Keyword::TO)
                || first.is_keyword(Keyword::USING)
                || (first.is_keyword(Keyword::WITH) && begins_with(Keyword::CHECK, after))
        }
    }
}
