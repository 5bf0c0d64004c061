//! The rows of all other statements whose first word alone doesn't tell their kind, or that have a form, by their first
//! words.

use crate::forms::Fact;
use crate::forms::Part::{
    self, Chain, Concurrently, Either, Flag, Into, MaybeList, Mods, Name, Path, Rest, Tell, Word,
};
use crate::kinds::StmtKind::{
    self, Begin, Cluster, CommentOn, Commit, ImportForeignSchema, Insert, Merge, Prepare,
    PrepareTransaction, Refresh, Reset, ResetRole, ResetSessionAuth, Rollback, SecurityLabel,
    Select, SelectInto, Set, SetConstraints, SetRole, SetSessionAuth, SetTransaction, Update,
};
use crate::nodes::LockMode;
use sql_token::Keyword as K;

/// START.
pub const START: [(StmtKind, &[Part], &[Part]); 1] = [(Begin, &[Word(K::TRANSACTION)], &[Rest])];

/// COMMIT.
pub const COMMIT: [(StmtKind, &[Part], &[Part]); 2] = [
    (Commit, &[Word(K::PREPARED)], &[Tell(Fact::NotPlain), Rest]),
    (Commit, &[], &[Either(K::WORK, K::TRANSACTION), Chain]),
];

/// END.
pub const END: [(StmtKind, &[Part], &[Part]); 1] = [(
    Commit,
    &[],
    &[Either(K::WORK, K::TRANSACTION), Chain],
)];

/// ROLLBACK.
pub const ROLLBACK: [(StmtKind, &[Part], &[Part]); 3] = [
    (
        Rollback,
        &[Word(K::PREPARED)],
        &[Tell(Fact::NotPlain), Rest],
    ),
    (
        Rollback,
        &[Either(K::WORK, K::TRANSACTION), Word(K::TO)],
        &[Tell(Fact::NotPlain), Rest],
    ),
    (Rollback, &[], &[Either(K::WORK, K::TRANSACTION), Chain]),
];

/// ABORT.
pub const ABORT: [(StmtKind, &[Part], &[Part]); 1] = [(
    Rollback,
    &[],
    &[Either(K::WORK, K::TRANSACTION), Chain],
)];

/// SELECT.
pub const SELECT: [(StmtKind, &[Part], &[Part]); 2] = [
    (
        SelectInto,
        &[Into, Mods, Flag(K::TABLE, Fact::Nothing), Path],
        &[Rest],
    ),
    (Select, &[], &[Rest]),
];

/// INSERT.
pub const INSERT: [(StmtKind, &[Part], &[Part]); 1] = [(Insert, &[], &[Word(K::INTO), Path, Rest])];

/// UPDATE.
pub const UPDATE: [(StmtKind, &[Part], &[Part]); 1] = [(
    Update,
    &[],
    &[Flag(K::ONLY, Fact::Nothing), Path, Rest],
)];

/// MERGE.
pub const MERGE: [(StmtKind, &[Part], &[Part]); 1] = [(
    Merge,
    &[],
    &[Word(K::INTO), Flag(K::ONLY, Fact::Nothing), Path, Rest],
)];

/// SET. A SESSION that AUTHORIZATION follows is not the optional one.
pub const SET: [(StmtKind, &[Part], &[Part]); 7] = [
    (SetConstraints, &[Word(K::CONSTRAINTS)], &[Rest]),
    (
        SetSessionAuth,
        &[Word(K::SESSION), Word(K::AUTHORIZATION)],
        &[Rest],
    ),
    (
        SetSessionAuth,
        &[
            Either(K::SESSION, K::LOCAL),
            Word(K::SESSION),
            Word(K::AUTHORIZATION),
        ],
        &[Rest],
    ),
    (
        SetTransaction,
        &[Word(K::SESSION), Word(K::CHARACTERISTICS)],
        &[Rest],
    ),
    (
        SetTransaction,
        &[Flag(K::LOCAL, Fact::Nothing), Word(K::TRANSACTION)],
        &[Rest],
    ),
    (
        SetRole,
        &[Either(K::SESSION, K::LOCAL), Word(K::ROLE)],
        &[Rest],
    ),
    (Set, &[], &[Either(K::SESSION, K::LOCAL), Rest]),
];

/// RESET.
pub const RESET: [(StmtKind, &[Part], &[Part]); 3] = [
    (ResetRole, &[Word(K::ROLE)], &[Rest]),
    (
        ResetSessionAuth,
        &[Word(K::SESSION), Word(K::AUTHORIZATION)],
        &[Rest],
    ),
    (Reset, &[], &[Rest]),
];

/// PREPARE.
pub const PREPARE: [(StmtKind, &[Part], &[Part]); 2] = [
    (PrepareTransaction, &[Word(K::TRANSACTION)], &[Rest]),
    (Prepare, &[], &[Rest]),
];

/// COMMENT.
pub const COMMENT: [(StmtKind, &[Part], &[Part]); 1] = [(CommentOn, &[Word(K::ON)], &[Rest])];

/// IMPORT.
pub const IMPORT: [(StmtKind, &[Part], &[Part]); 1] = [(
    ImportForeignSchema,
    &[Word(K::FOREIGN), Word(K::SCHEMA)],
    &[Rest],
)];

/// SECURITY.
pub const SECURITY: [(StmtKind, &[Part], &[Part]); 1] = [(
    SecurityLabel,
    &[Word(K::LABEL)],
    &[Rest],
)];

/// REFRESH.
pub const REFRESH: [(StmtKind, &[Part], &[Part]); 1] = [(
    Refresh,
    &[],
    &[Word(K::MATERIALIZED), Word(K::VIEW), Concurrently, Rest],
)];

/// CLUSTER: an index ON its table, or a table and perhaps an index after USING, or all tables.
pub const CLUSTER: [(StmtKind, &[Part], &[Part]); 4] = [
    (
        Cluster,
        &[Flag(K::VERBOSE, Fact::Nothing), Name, Word(K::ON)],
        &[Path],
    ),
    (
        Cluster,
        &[
            MaybeList,
            Flag(K::VERBOSE, Fact::Nothing),
            Path,
            Word(K::USING),
        ],
        &[Name],
    ),
    (
        Cluster,
        &[MaybeList, Flag(K::VERBOSE, Fact::Nothing), Path],
        &[],
    ),
    (Cluster, &[MaybeList, Flag(K::VERBOSE, Fact::Nothing)], &[]),
];

/// The modes of LOCK: the words between IN and MODE.
pub const LOCK_MODES: [(LockMode, &[K]); 8] = [
    (LockMode::AccessShare, &[K::ACCESS, K::SHARE]),
    (LockMode::RowShare, &[K::ROW, K::SHARE]),
    (LockMode::RowExclusive, &[K::ROW, K::EXCLUSIVE]),
    (
        LockMode::ShareUpdateExclusive,
        &[K::SHARE, K::UPDATE, K::EXCLUSIVE],
    ),
    (LockMode::Share, &[K::SHARE]),
    (
        LockMode::ShareRowExclusive,
        &[K::SHARE, K::ROW, K::EXCLUSIVE],
    ),
    (LockMode::Exclusive, &[K::EXCLUSIVE]),
    (LockMode::AccessExclusive, &[K::ACCESS, K::EXCLUSIVE]),
];
