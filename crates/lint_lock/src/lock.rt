//! The lock that a statement takes on its table (PostgreSQL manual, section 13.3.1).

ghost use Rattle.std.specs.Prelude.{◌≡◌, max, if◌then◌else◌};
ghost use Rattle.lint_lock.specs.Lock as spec;

use sql_tree::{
    Action, ActionKind, Body, ConKind, LockMode, Parse, Piece, PieceKind, Stmt, StmtKind,
};
use std::fmt;

/// A mode of a table-level lock, or `Unknown` where a statement is known to take none.
#[derive(Clone, Copy, Debug, PartialEq, Eq)]
pub enum LockKind {
    Unknown,
    AccessShare,
    RowShare,
    RowExclusive,
    ShareUpdateExclusive,
    Share,
    ShareRowExclusive,
    Exclusive,
    AccessExclusive,
}

fn in_mode(mode: LockMode) -> LockKind
    ensures { result ≡ spec.lock_in_mode mode }
{
    match mode {
        LockMode::AccessShare => LockKind::AccessShare,
        LockMode::RowShare => LockKind::RowShare,
        LockMode::RowExclusive => LockKind::RowExclusive,
        LockMode::ShareUpdateExclusive => LockKind::ShareUpdateExclusive,
        LockMode::Share => LockKind::Share,
        LockMode::ShareRowExclusive => LockKind::ShareRowExclusive,
        LockMode::Exclusive => LockKind::Exclusive,
        LockMode::AccessExclusive => LockKind::AccessExclusive,
    }
}

// ---- actions

/// Whether the one option of a column sets or resets options, or sets statistics.
fn is_light(pieces: &[Piece]) -> bool
    ensures { result ≡ spec.is_light pieces.now }
{
    match pieces {
        [piece] => matches!(
            piece.kind,
            PieceKind::SetOptions | PieceKind::ResetOptions | PieceKind::SetStatistics
        ),
        _ => false,
    }
}

fn is_foreign_key(a: &Action) -> bool
    ensures { result ≡ spec.is_foreign_key a.now.constraint }
{
    match &a.constraint {
        None => false,
        Some(constraint) => matches!(constraint.kind, ConKind::ForeignKey),
    }
}

/// The lock of an action of ALTER TABLE.
fn of_action(a: &Action) -> LockKind
    ensures { result ≡ spec.lock_of_action a.now }
{
    match a.kind {
        ActionKind::ClusterOn | ActionKind::ResetOptions | ActionKind::SetOptions => {
            LockKind::ShareUpdateExclusive
        }
        ActionKind::SetWithoutCluster | ActionKind::ValidateConstraint => {
            LockKind::ShareUpdateExclusive
        }
        ActionKind::AlterColumn if is_light(a.pieces.as_slice()) => LockKind::ShareUpdateExclusive,
        ActionKind::AddConstraint if is_foreign_key(a) => LockKind::ShareRowExclusive,
        ActionKind::EnableTrigger | ActionKind::DisableTrigger => LockKind::ShareRowExclusive,
        ActionKind::EnableAlwaysTrigger | ActionKind::EnableReplicaTrigger => {
            LockKind::ShareRowExclusive
        }
        _ => LockKind::AccessExclusive,
    }
}

/// The lock of the greater strength.
fn stronger(lock: LockKind, other: LockKind) -> LockKind
    ensures { spec.strength result ≡ max (spec.strength lock) (spec.strength other) }
{
    if lock.strength() < other.strength() {
        other
    } else {
        lock
    }
}

fn strongest(actions: &[Action]) -> LockKind
    ensures { result ≡ spec.strongest actions.now }
{
    let mut lock = LockKind::Unknown;
    for action in actions {
        lock = stronger(lock, of_action(action));
    }
    lock
}

// ---- statements

fn of_alter(body: &Body) -> LockKind
    ensures { result ≡ spec.strongest (spec.actions_by body.now) }
{
    match body {
        Body::Alter { actions, .. } => strongest(actions.as_slice()),
        _ => LockKind::Unknown,
    }
}

/// Whether CONCURRENTLY is there.
fn is_concurrent(body: &Body) -> bool
    ensures { result ≡ spec.is_concurrent body.now }
{
    match body {
        Body::Index { concurrently, .. } => concurrently.is_some(),
        Body::Drop { concurrently, .. } => *concurrently,
        Body::Reindex { concurrent, .. } => *concurrent,
        Body::Refresh { concurrently } => *concurrently,
        _ => false,
    }
}

fn locked(body: &Body) -> LockKind
    ensures { result ≡ spec.locked_by body.now }
{
    match body {
        Body::Locking { mode: Some(mode) } => in_mode(*mode),
        _ => LockKind::AccessExclusive,
    }
}

fn is_full(body: &Body) -> bool
    ensures { result ≡ spec.is_full body.now }
{
    match body {
        Body::Vacuum { full, .. } => *full,
        _ => false,
    }
}

/// The lock where CONCURRENTLY is there, or the other one.
fn if_concurrent(body: &Body, lock: LockKind, other: LockKind) -> LockKind
    ensures { result ≡ (if spec.is_concurrent body.now then lock else other) }
{
    if is_concurrent(body) { lock } else { other }
}

impl LockKind {
    /// The lock that a statement takes on its table; `Unknown` for a statement that is none of ALTER TABLE, CLUSTER, COMMENT
    /// ON, CREATE INDEX, DROP INDEX, DROP TABLE, DROP VIEW, LOCK, REFRESH, REINDEX, TRUNCATE and VACUUM.
    pub fn of(_p: &Parse<'_>, s: &Stmt) -> LockKind
        ensures { result ≡ spec.lock_of s.now }
    {
        match s.kind {
            StmtKind::AlterTable => of_alter(&s.body),
            StmtKind::Cluster | StmtKind::DropTable | StmtKind::DropView | StmtKind::Truncate => {
                LockKind::AccessExclusive
            }
            StmtKind::CommentOn => LockKind::ShareUpdateExclusive,
            StmtKind::CreateIndex => {
                if_concurrent(&s.body, LockKind::ShareUpdateExclusive, LockKind::Share)
            }
            StmtKind::DropIndex | StmtKind::Reindex => if_concurrent(
                &s.body,
                LockKind::ShareUpdateExclusive,
                LockKind::AccessExclusive,
            ),
            StmtKind::Refresh => {
                if_concurrent(&s.body, LockKind::Exclusive, LockKind::AccessExclusive)
            }
            StmtKind::Lock => locked(&s.body),
            StmtKind::Vacuum if is_full(&s.body) => LockKind::AccessExclusive,
            StmtKind::Vacuum => LockKind::ShareUpdateExclusive,
            _ => LockKind::Unknown,
        }
    }

    /// How strong it is among the modes, from 0 for `Unknown` to 8 for ACCESS EXCLUSIVE.
    pub fn strength(self) -> u8
        ensures { result ≡ spec.strength self }
    {
        match self {
            LockKind::Unknown => 0,
            LockKind::AccessShare => 1,
            LockKind::RowShare => 2,
            LockKind::RowExclusive => 3,
            LockKind::ShareUpdateExclusive => 4,
            LockKind::Share => 5,
            LockKind::ShareRowExclusive => 6,
            LockKind::Exclusive => 7,
            LockKind::AccessExclusive => 8,
        }
    }

    /// What waits while it is held; empty for `Unknown`.
    pub fn impact(self) -> &'static str
        ensures { result.now ≡ spec.impact self }
    {
        match self {
            LockKind::Unknown => "",
            LockKind::AccessExclusive => "reads, writes, schema changes",
            LockKind::Exclusive | LockKind::Share | LockKind::ShareRowExclusive => {
                "writes, schema changes"
            }
            _ => "schema changes",
        }
    }

    /// The mode in words, between backquotes; empty for `Unknown`.
    fn printed(self) -> &'static str
        ensures { result.now ≡ spec.printed self }
    {
        match self {
            LockKind::Unknown => "",
            LockKind::AccessShare => "`access share`",
            LockKind::RowShare => "`row share`",
            LockKind::RowExclusive => "`row exclusive`",
            LockKind::ShareUpdateExclusive => "`share update exclusive`",
            LockKind::Share => "`share`",
            LockKind::ShareRowExclusive => "`share row exclusive`",
            LockKind::Exclusive => "`exclusive`",
            LockKind::AccessExclusive => "`access exclusive`",
        }
    }
}

impl fmt::Display for LockKind {
    ghost use Rattle.std.specs.Prelude.{Some};
    ghost use Rattle.lint_lock.specs.Lock.{printed};

    ghost output = { λ lock. Some (printed lock) };

    fn fmt<W: fmt::Write>(&self, f: &mut fmt::Formatter<W>) -> fmt::Result {
        fmt::Display::fmt(&self.printed(), f)
    }
}
