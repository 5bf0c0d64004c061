//! The table of rows that a statement is read by.

ghost use Rattle.std.specs.Prelude.{◌≡◌, map};
ghost use Rattle.sql_tree.specs.Forms as spec;

use sql_tree::alter_forms::{
    ALTER_CODE, ALTER_DATA_TYPE, ALTER_OTHER, ALTER_RELATION, ALTER_SERVICE,
};
use sql_tree::create_forms::{
    CREATE_CODE, CREATE_DATA_TYPE, CREATE_OTHER, CREATE_RELATION, CREATE_SERVICE,
};
use sql_tree::drop_forms::{DROP_CODE, DROP_DATA_TYPE, DROP_OTHER, DROP_RELATION, DROP_SERVICE};
use sql_tree::forms::{Family, Rows};
use sql_tree::other_forms::{
    ABORT, CLUSTER, COMMENT, COMMIT, END, IMPORT, INSERT, MERGE, PREPARE, REFRESH, RESET, ROLLBACK,
    SECURITY, SELECT, SET, START, UPDATE,
};
use sql_tree::{Keyword, StmtKind, Symbol, Terminal};

/// The family of the object that this word names, or that may come before it.
#[inline(always)]
#[tactic(auto, unfolding(sql_tree::specs::Forms::family_of))]
fn family_of(word: Keyword) -> Family
    ensures { result ≡ spec.family_of word }
{
    match word {
        Keyword::TABLE | Keyword::TEMP | Keyword::TEMPORARY | Keyword::GLOBAL => Family::Relation,
        Keyword::LOCAL | Keyword::UNLOGGED | Keyword::UNIQUE | Keyword::INDEX => Family::Relation,
        Keyword::SEQUENCE | Keyword::VIEW | Keyword::RECURSIVE | Keyword::MATERIALIZED =>
            Family::Relation,
        Keyword::FOREIGN | Keyword::PROPERTY => Family::Relation,
        Keyword::OR | Keyword::FUNCTION | Keyword::PROCEDURE | Keyword::ROUTINE => Family::Code,
        Keyword::AGGREGATE | Keyword::TRIGGER | Keyword::CONSTRAINT | Keyword::RULE => Family::Code,
        Keyword::LANGUAGE | Keyword::TRUSTED | Keyword::PROCEDURAL | Keyword::POLICY =>
            Family::Code,
        Keyword::EVENT | Keyword::TRANSFORM => Family::Code,
        Keyword::TYPE | Keyword::DOMAIN | Keyword::CAST | Keyword::COLLATION => Family::DataType,
        Keyword::OPERATOR => Family::DataType,
        Keyword::ROLE | Keyword::USER | Keyword::GROUP | Keyword::DATABASE => Family::Service,
        Keyword::TABLESPACE | Keyword::SERVER | Keyword::PUBLICATION | Keyword::SUBSCRIPTION =>
            Family::Service,
        Keyword::SYSTEM => Family::Service,
        _ => Family::Other,
    }
}

#[inline(always)]
fn family_by(symbol: Symbol) -> Family
    ensures { result ≡ spec.family_by symbol }
{
    match symbol {
        Symbol::Keyword(word) => family_of(word),
        _ => Family::Other,
    }
}

#[inline(always)]
fn family_first(terminals: &[Terminal]) -> Family
    ensures { result ≡ spec.family_first terminals.now }
{
    match terminals {
        [] => Family::Other,
        [first, ..] => family_by(first.symbol),
    }
}

#[tactic(auto, unfolding(sql_tree::specs::Forms::create_rows))]
fn create_rows(family: Family) -> Rows
    ensures { map (λ r. (r.0, r.1.now, r.2.now)) result.now ≡ spec.create_rows family }
{
    match family {
        Family::Relation => &CREATE_RELATION,
        Family::Code => &CREATE_CODE,
        Family::DataType => &CREATE_DATA_TYPE,
        Family::Service => &CREATE_SERVICE,
        Family::Other => &CREATE_OTHER,
    }
}

#[tactic(auto, unfolding(sql_tree::specs::Forms::alter_rows))]
fn alter_rows(family: Family) -> Rows
    ensures { map (λ r. (r.0, r.1.now, r.2.now)) result.now ≡ spec.alter_rows family }
{
    match family {
        Family::Relation => &ALTER_RELATION,
        Family::Code => &ALTER_CODE,
        Family::DataType => &ALTER_DATA_TYPE,
        Family::Service => &ALTER_SERVICE,
        Family::Other => &ALTER_OTHER,
    }
}

#[tactic(auto, unfolding(sql_tree::specs::Forms::drop_rows))]
fn drop_rows(family: Family) -> Rows
    ensures { map (λ r. (r.0, r.1.now, r.2.now)) result.now ≡ spec.drop_rows family }
{
    match family {
        Family::Relation => &DROP_RELATION,
        Family::Code => &DROP_CODE,
        Family::DataType => &DROP_DATA_TYPE,
        Family::Service => &DROP_SERVICE,
        Family::Other => &DROP_OTHER,
    }
}

/// The rows of a first word, and of what follows it.
#[tactic(auto, unfolding(sql_tree::specs::Forms::rows_of))]
pub(crate) fn rows_of(first: Keyword, left: &[Terminal]) -> Rows
    ensures { map (λ r. (r.0, r.1.now, r.2.now)) result.now ≡ spec.rows_of first left.now }
{
    match first {
        Keyword::CREATE => create_rows(family_first(left)),
        Keyword::ALTER => alter_rows(family_first(left)),
        Keyword::DROP => drop_rows(family_first(left)),
        Keyword::START => &START,
        Keyword::COMMIT => &COMMIT,
        Keyword::END => &END,
        Keyword::ROLLBACK => &ROLLBACK,
        Keyword::ABORT => &ABORT,
        Keyword::SELECT => &SELECT,
        Keyword::INSERT => &INSERT,
        Keyword::UPDATE => &UPDATE,
        Keyword::MERGE => &MERGE,
        Keyword::SET => &SET,
        Keyword::RESET => &RESET,
        Keyword::PREPARE => &PREPARE,
        Keyword::COMMENT => &COMMENT,
        Keyword::IMPORT => &IMPORT,
        Keyword::SECURITY => &SECURITY,
        Keyword::REFRESH => &REFRESH,
        Keyword::CLUSTER => &CLUSTER,
        _ => &[],
    }
}

/// The kind that a first word tells alone.
#[tactic(auto, unfolding(sql_tree::specs::Forms::one_word_kind))]
pub(crate) fn one_word_kind(word: Keyword) -> Option<StmtKind>
    ensures { result ≡ spec.one_word_kind word }
{
    match word {
        Keyword::ANALYSE => Some(StmtKind::Analyze),
        Keyword::ANALYZE => Some(StmtKind::Analyze),
        Keyword::BEGIN => Some(StmtKind::Begin),
        Keyword::CALL => Some(StmtKind::Call),
        Keyword::CHECKPOINT => Some(StmtKind::Checkpoint),
        Keyword::CLOSE => Some(StmtKind::Close),
        Keyword::COPY => Some(StmtKind::Copy),
        Keyword::DEALLOCATE => Some(StmtKind::Deallocate),
        Keyword::DECLARE => Some(StmtKind::Declare),
        Keyword::DELETE => Some(StmtKind::Delete),
        Keyword::DISCARD => Some(StmtKind::Discard),
        Keyword::DO => Some(StmtKind::Do),
        Keyword::EXECUTE => Some(StmtKind::Execute),
        Keyword::EXPLAIN => Some(StmtKind::Explain),
        Keyword::FETCH => Some(StmtKind::Fetch),
        Keyword::GRANT => Some(StmtKind::Grant),
        Keyword::LISTEN => Some(StmtKind::Listen),
        Keyword::LOAD => Some(StmtKind::Load),
        Keyword::LOCK => Some(StmtKind::Lock),
        Keyword::MOVE => Some(StmtKind::Move),
        Keyword::NOTIFY => Some(StmtKind::Notify),
        Keyword::REASSIGN => Some(StmtKind::Reassign),
        Keyword::REINDEX => Some(StmtKind::Reindex),
        Keyword::RELEASE => Some(StmtKind::ReleaseSavepoint),
        Keyword::REPACK => Some(StmtKind::Repack),
        Keyword::REVOKE => Some(StmtKind::Revoke),
        Keyword::SAVEPOINT => Some(StmtKind::SavepointCreate),
        Keyword::SHOW => Some(StmtKind::Show),
        Keyword::TABLE => Some(StmtKind::Table),
        Keyword::TRUNCATE => Some(StmtKind::Truncate),
        Keyword::UNLISTEN => Some(StmtKind::Unlisten),
        Keyword::VACUUM => Some(StmtKind::Vacuum),
        Keyword::VALUES => Some(StmtKind::Values),
        _ => None,
    }
}
