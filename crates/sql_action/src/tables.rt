//! The rows that an ALTER action is read by.

ghost use Rattle.std.specs.Prelude.{◌≡◌, map};
ghost use Rattle.sql_tree.specs.ActionRows as spec;

use sql_tree::actions::{
    ADD, ALTER, CLUSTER, CONFIG, DETACH, DISABLE, DOMAIN, DROP, ENABLE, EXTENSION, FORCE, FUNCTION,
    GROUP, NO, OWNER, POLICY, PRIVILEGES, PUBLICATION, RENAME, RENAME_COLUMN, REPLICA, RESET,
    SCHEMA, SEQUENCE, SET, TYPE, VALIDATE,
};
use sql_tree::forms::ActionRows;
use sql_tree::{Keyword, StmtKind, Symbol};

#[tactic(auto, unfolding(sql_tree::specs::ActionRows::first_rows))]
fn first_rows(word: Keyword) -> ActionRows
    ensures { map (λ r. (r.0, r.1.now)) result.now ≡ spec.first_rows word }
{
    match word {
        Keyword::OWNER => &OWNER,
        Keyword::SET => &SCHEMA,
        Keyword::RENAME => &RENAME,
        _ => &[],
    }
}

/// The rows of one kind of statement.
#[tactic(auto, unfolding(sql_tree::specs::ActionRows::own_rows))]
pub(crate) fn own_rows(kind: StmtKind) -> ActionRows
    ensures { map (λ r. (r.0, r.1.now)) result.now ≡ spec.own_rows kind }
{
    match kind {
        StmtKind::AlterType => &TYPE,
        StmtKind::AlterDomain | StmtKind::AlterView => &DOMAIN,
        StmtKind::AlterSequence => &SEQUENCE,
        StmtKind::AlterFunction | StmtKind::AlterProcedure | StmtKind::AlterRoutine => &FUNCTION,
        StmtKind::AlterRole | StmtKind::AlterUser => &CONFIG,
        StmtKind::AlterDatabase | StmtKind::AlterSystem => &CONFIG,
        StmtKind::AlterExtension => &EXTENSION,
        StmtKind::AlterPolicy => &POLICY,
        StmtKind::AlterPublication => &PUBLICATION,
        StmtKind::AlterGroup => &GROUP,
        StmtKind::AlterDefaultPrivileges => &PRIVILEGES,
        _ => &[],
    }
}

#[tactic(auto, unfolding(sql_tree::specs::ActionRows::general_rows))]
fn general_rows(word: Keyword) -> ActionRows
    ensures { map (λ r. (r.0, r.1.now)) result.now ≡ spec.general_rows word }
{
    match word {
        Keyword::ADD => &ADD,
        Keyword::DROP => &DROP,
        Keyword::ALTER => &ALTER,
        Keyword::RENAME => &RENAME_COLUMN,
        Keyword::VALIDATE => &VALIDATE,
        Keyword::DETACH => &DETACH,
        Keyword::ENABLE => &ENABLE,
        Keyword::DISABLE => &DISABLE,
        Keyword::FORCE => &FORCE,
        Keyword::NO => &NO,
        Keyword::REPLICA => &REPLICA,
        Keyword::SET => &SET,
        Keyword::RESET => &RESET,
        Keyword::CLUSTER => &CLUSTER,
        _ => &[],
    }
}

/// The rows of every kind of statement that are read before all others, by the first symbol.
#[tactic(auto, unfolding(sql_tree::specs::ActionRows::first_rows_at))]
pub(crate) fn first_rows_at(symbol: Symbol) -> ActionRows
    ensures { map (λ r. (r.0, r.1.now)) result.now ≡ spec.first_rows_at symbol }
{
    match symbol {
        Symbol::Keyword(word) => first_rows(word),
        _ => &[],
    }
}

/// The rows of every kind of statement that are read after those of one kind, by the first symbol.
#[tactic(auto, unfolding(sql_tree::specs::ActionRows::general_rows_at))]
pub(crate) fn general_rows_at(symbol: Symbol) -> ActionRows
    ensures { map (λ r. (r.0, r.1.now)) result.now ≡ spec.general_rows_at symbol }
{
    match symbol {
        Symbol::Keyword(word) => general_rows(word),
        _ => &[],
    }
}
