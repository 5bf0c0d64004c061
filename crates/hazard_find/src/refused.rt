//! Statements that PostgreSQL refuses in a transaction block.

ghost use Rattle.std.specs.Prelude.{◌≡◌, ◌&&◌, not};
ghost use Rattle.hazard_find.specs.Refused as spec;

use crate::look::{begins, says};
use crate::timeouts::discards_all;
use hazard_base::Text;
use lint_ignore::{Action, ActionKind, Body, Keyword, Parse, ReindexTarget, Span, Stmt, StmtKind};
use lint_node::{same_action, same_kind};

const DROP_INDEX_CONCURRENTLY: &str = "`drop index concurrently` always fails inside a transaction";

const REINDEX_CONCURRENTLY: &str = "`reindex concurrently` always fails inside a transaction";

const REINDEX_SCHEMA: &str = "`reindex schema` always fails inside a transaction";

const REINDEX_DATABASE: &str = "`reindex database` always fails inside a transaction";

const REINDEX_SYSTEM: &str = "`reindex system` always fails inside a transaction";

const VACUUM: &str = "`vacuum` always fails inside a transaction";

const CLUSTER: &str = "`cluster` without a table always fails inside a transaction";

const COMMIT_PREPARED: &str = "`commit prepared` always fails inside a transaction";

const ROLLBACK_PREPARED: &str = "`rollback prepared` always fails inside a transaction";

const ALTER_SYSTEM: &str = "`alter system` always fails inside a transaction";

const ALTER_DATABASE_SET_TABLESPACE: &str =
    "`alter database set tablespace` always fails inside a transaction";

const DISCARD_ALL: &str = "`discard all` always fails inside a transaction";

const CREATE_DATABASE: &str = "`create database` always fails inside a transaction";

const DROP_DATABASE: &str = "`drop database` always fails inside a transaction";

const CREATE_TABLESPACE: &str = "`create tablespace` always fails inside a transaction";

const DROP_TABLESPACE: &str = "`drop tablespace` always fails inside a transaction";

fn refused_drop(kind: StmtKind, concurrently: bool) -> Option<Text>
    ensures { result ≡ spec.refused_drop kind concurrently }
{
    if same_kind(kind, StmtKind::DropIndex) && concurrently {
        Some(Text::plain(DROP_INDEX_CONCURRENTLY))
    } else {
        None
    }
}

fn refused_target(target: ReindexTarget) -> Option<Text>
    ensures { result ≡ spec.refused_target target }
{
    match target {
        ReindexTarget::Schema => Some(Text::plain(REINDEX_SCHEMA)),
        ReindexTarget::Database => Some(Text::plain(REINDEX_DATABASE)),
        ReindexTarget::System => Some(Text::plain(REINDEX_SYSTEM)),
        _ => None,
    }
}

fn refused_reindex(target: ReindexTarget, concurrently: bool) -> Option<Text>
    ensures { result ≡ spec.refused_reindex target concurrently }
{
    if concurrently {
        Some(Text::plain(REINDEX_CONCURRENTLY))
    } else {
        refused_target(target)
    }
}

fn refused_cluster(table: Option<Span>) -> Option<Text>
    ensures { result ≡ spec.refused_cluster table }
{
    match table {
        None => Some(Text::plain(CLUSTER)),
        Some(_) => None,
    }
}

/// COMMIT PREPARED and ROLLBACK PREPARED.
#[tactic(auto, unfolding(crate::specs::Refused::refused_end))]
fn refused_end(p: &Parse<'_>, s: &Stmt, plain: bool) -> Option<Text>
    ensures { result ≡ spec.refused_end p.now s.now plain }
{
    if plain {
        None
    } else if says(p, &[Keyword::COMMIT, Keyword::PREPARED], s) {
        Some(Text::plain(COMMIT_PREPARED))
    } else if says(p, &[Keyword::ROLLBACK, Keyword::PREPARED], s) {
        Some(Text::plain(ROLLBACK_PREPARED))
    } else {
        None
    }
}

/// Whether an action is SET TABLESPACE.
#[tactic(auto, unfolding(crate::specs::Refused::moves))]
pub(crate) fn moves(p: &Parse<'_>, a: &Action) -> bool
    ensures { result ≡ spec.moves p.now a.now }
{
    begins(p, &[Keyword::SET, Keyword::TABLESPACE], a.first, a.last)
}

#[tactic(auto, unfolding(crate::specs::Refused::any_moves))]
fn any_moves(p: &Parse<'_>, actions: &[Action]) -> bool
    ensures { result ≡ spec.any_moves p.now actions.now }
{
    actions.iter().any(|a| moves(p, a))
}

#[tactic(auto, unfolding(crate::specs::Refused::refused_alter))]
fn refused_alter(p: &Parse<'_>, kind: StmtKind, actions: &[Action]) -> Option<Text>
    ensures { result ≡ spec.refused_alter p.now kind actions.now }
{
    if same_kind(kind, StmtKind::AlterSystem) {
        Some(Text::plain(ALTER_SYSTEM))
    } else if same_kind(kind, StmtKind::AlterDatabase) && any_moves(p, actions) {
        Some(Text::plain(ALTER_DATABASE_SET_TABLESPACE))
    } else {
        None
    }
}

#[tactic(auto, unfolding(crate::specs::Refused::refused_kind))]
fn refused_kind(kind: StmtKind) -> Option<Text>
    ensures { result ≡ spec.refused_kind kind }
{
    match kind {
        StmtKind::CreateDatabase => Some(Text::plain(CREATE_DATABASE)),
        StmtKind::DropDatabase => Some(Text::plain(DROP_DATABASE)),
        StmtKind::CreateTablespace => Some(Text::plain(CREATE_TABLESPACE)),
        StmtKind::DropTablespace => Some(Text::plain(DROP_TABLESPACE)),
        _ => None,
    }
}

fn refused_kept(p: &Parse<'_>, s: &Stmt) -> Option<Text>
    ensures { result ≡ spec.refused_kept p.now s.now }
{
    if discards_all(p, s) {
        Some(Text::plain(DISCARD_ALL))
    } else {
        refused_kind(s.kind)
    }
}

/// The message for a statement that PostgreSQL refuses in a transaction.
#[tactic(auto, unfolding(crate::specs::Refused::refused))]
pub(crate) fn refused(p: &Parse<'_>, s: &Stmt) -> Option<Text>
    ensures { result ≡ spec.refused p.now s.now }
{
    match &s.body {
        Body::Drop { concurrently, .. } => refused_drop(s.kind, *concurrently),
        Body::Reindex {
            target,
            concurrent,
            valued,
            ..
        } => refused_reindex(*target, *concurrent && !*valued),
        Body::Vacuum { .. } => Some(Text::plain(VACUUM)),
        Body::Cluster { table, .. } => refused_cluster(*table),
        Body::End { plain, .. } => refused_end(p, s, *plain),
        Body::Alter { actions, .. } => refused_alter(p, s.kind, actions.as_slice()),
        Body::Kept => refused_kept(p, s),
        _ => None,
    }
}

fn is_concurrent(p: &Parse<'_>, word: Option<u32>) -> bool
    ensures { result ≡ spec.is_word_of p.now word }
{
    match word {
        Some(word) => begins(p, &[Keyword::CONCURRENTLY], word, word),
        None => false,
    }
}

/// Whether an action is DETACH PARTITION with CONCURRENTLY.
#[tactic(auto, unfolding(crate::specs::Refused::detaches))]
pub(crate) fn detaches(p: &Parse<'_>, a: &Action) -> bool
    ensures { result ≡ spec.detaches p.now a.now }
{
    same_action(a.kind, ActionKind::DetachPartition) && is_concurrent(p, a.word)
}
