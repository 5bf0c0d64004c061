//! The actions of a span of the tokens of a text.

ghost use Rattle.std.specs.Prelude.{◌≡◌, ◌<◌, ◌^◌, length, IfOk};
ghost use Rattle.sql_column.specs.sql_lex.Inside.{IsSpan, terminals_in};
ghost use Rattle.sql_tree.specs.sql_token.Token.{Lexed};
ghost use Rattle.sql_tree.specs.Action.{actions_alone};

use crate::actions::read_actions_of;
use crate::starts::begins_tail;
use sql_column::terminals_in;
use sql_tree::{Action, NoMemory, Span, StmtKind, Tok};
use sqlite_items::Items;
use std::alloc::Global;

/// The actions of an ALTER statement of this kind, by the tokens that its form leaves open, without the semicolon.
/// `Ok(None)` where they are none: where no token is significant, or none between two commas that part actions, or where
/// those of ALTER DEFAULT PRIVILEGES do not begin with GRANT or REVOKE.
///
/// What an action holds are numbers among all tokens of the text. Brackets need not match.
#[tactic(auto, unfolding(sql_tree::specs::Action::actions_alone))]
pub fn read_actions(
    alloc: Global,
    kind: StmtKind,
    text: &str,
    toks: &[Tok],
    span: Span,
) -> Result<Option<Items<Action>>, NoMemory>
    requires lexed { Lexed text.now toks.now }
    requires short { length text.now < 2 ^ 32 }
    requires inside { IsSpan toks.now span }
    ensures { IfOk result (λ actions. actions ≡ actions_alone kind (terminals_in text.now toks.now span)) }
{
    let terminals = terminals_in(alloc, text, toks, span)?;
    if begins_tail(kind, &terminals) {
        read_actions_of(alloc, kind, &terminals)
    } else {
        Ok(None)
    }
}
