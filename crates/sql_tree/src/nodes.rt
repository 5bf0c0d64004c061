//! The tree of a text. A tree owns no text: it names tokens by their numbers.
//!
//! Lists and boxes are `Items` and `Boxed`, which contracts see as lists and as what they hold, so that a
//! definition can compute a tree.

use crate::kinds::{ActionKind, PieceKind, StmtKind};
use sql_token::Span;
use sqlite_items::{Boxed, Items};

/// What a constraint is.
#[derive(Clone, Copy, Debug, PartialEq, Eq)]
pub enum ConKind {
    Check,
    Unique,
    PrimaryKey,
    Exclude,
    ForeignKey,
    NotNull,
    Null,
    Default,
    Generated,
    References,
}

/// What a column type is (PostgreSQL manual, chapter 8).
#[derive(Clone, Copy, Debug, PartialEq, Eq)]
pub enum TyKind {
    Varchar,
    Character,
    Bit,
    Double,
    Time,
    Timestamp,
    Interval,
    /// A type that is named by a path.
    Path,
}

/// What REINDEX rebuilds.
#[derive(Clone, Copy, Debug, PartialEq, Eq)]
pub enum ReindexTarget {
    Index,
    Table,
    Schema,
    Database,
    System,
}

/// A mode of a table-level lock (PostgreSQL manual, section 13.3.1).
#[derive(Clone, Copy, Debug, PartialEq, Eq)]
pub enum LockMode {
    AccessShare,
    RowShare,
    RowExclusive,
    ShareUpdateExclusive,
    Share,
    ShareRowExclusive,
    Exclusive,
    AccessExclusive,
}

/// An expression, as far as the linter looks into it.
#[derive(Drop)]
pub enum Expr {
    Literal,
    Array,
    /// Parts between operators, AND or OR.
    Bin(Items<Expr>),
    /// A function call; the name is there where it has no schema.
    Call { name: Option<u32>, no_args: bool },
    Cast(Boxed<Expr>),
    Collate(Boxed<Expr>),
    /// A path.
    Name(Span),
    IsNotNull(Boxed<Expr>),
    Other,
}

/// A column type: the whole of it, and its inner type, without the dimensions of an array.
#[derive(Clone, Copy, Debug, PartialEq, Eq)]
pub struct ColType {
    pub kind: TyKind,
    pub whole: Span,
    pub inner: Span,
    /// The last name of a path, else the first token.
    pub name: u32,
    /// The bracket list of its arguments.
    pub args: Option<Span>,
    pub array: bool,
    pub with_zone: bool,
}

/// A constraint of a table, a column or a domain.
#[derive(Drop)]
pub struct Constraint {
    pub kind: ConKind,
    pub name: Option<u32>,
    pub first: u32,
    pub last: u32,
    pub not_valid: bool,
    /// UNIQUE or PRIMARY KEY, followed at once by USING INDEX.
    pub by_index: bool,
    /// The expression of DEFAULT, or inside the brackets of CHECK.
    pub expr: Option<Expr>,
    pub expr_span: Option<Span>,
}

/// A column of a table.
#[derive(Drop)]
pub struct Column {
    pub name: u32,
    pub ty: Option<ColType>,
    pub constraints: Items<Constraint>,
}

/// An element of a table's list.
#[derive(Drop)]
pub enum Elem {
    Column(Column),
    Constraint(Constraint),
    Like,
    Other,
}

/// A name that a statement writes to or gives: `partial` where only a field or an element of it is written.
#[derive(Clone, Copy, Debug, PartialEq, Eq)]
pub struct Target {
    pub name: u32,
    pub partial: bool,
}

/// A part of a SET clause: `name = value`, or a list of targets.
#[derive(Drop)]
pub struct SetPart {
    pub first: u32,
    pub last: u32,
    pub single: bool,
    pub targets: Items<Target>,
}

/// A piece of an ALTER action.
#[derive(Clone, Copy, Debug, PartialEq, Eq)]
pub struct Piece {
    pub kind: PieceKind,
    pub first: u32,
    pub last: u32,
    pub ty: Option<ColType>,
    /// SET GENERATED ALWAYS.
    pub always: bool,
}

/// An action of an ALTER statement.
#[derive(Drop)]
pub struct Action {
    pub kind: ActionKind,
    pub first: u32,
    pub last: u32,
    pub name: Option<u32>,
    pub path: Option<Span>,
    /// The word COLUMN, CONSTRAINT or the like; CONCURRENTLY or FINALIZE of DETACH PARTITION.
    pub word: Option<u32>,
    /// IF EXISTS or IF NOT EXISTS.
    pub guarded: bool,
    /// ADD VALUE with BEFORE or AFTER.
    pub placed: bool,
    pub column: Option<Column>,
    pub constraint: Option<Constraint>,
    pub pieces: Items<Piece>,
}

/// What CREATE VIEW defines: the columns that it names, and the names that its query gives.
#[derive(Drop)]
pub struct ViewDefinition {
    /// OR REPLACE.
    pub replace: bool,
    pub columns: Items<Target>,
    pub targets: Items<Target>,
}

/// What INSERT, UPDATE or MERGE writes: each SET clause and each list of columns.
#[derive(Drop)]
pub struct TableWrite {
    pub path: Span,
    pub sets: Items<Items<SetPart>>,
    pub lists: Items<Items<Target>>,
}

/// What the linter knows of a statement. `word` is the word of the object, as TABLE; `guarded` tells IF EXISTS or
/// IF NOT EXISTS. What is large and rare is in a box, and small fields come first, so that a list of statements
/// stays small.
#[derive(Drop)]
pub enum Body {
    /// Nothing is read of it.
    Kept,
    /// COMMIT or ROLLBACK.
    End {
        plain: bool,
        chain: bool,
    },
    /// CREATE TABLE.
    Table {
        temp: bool,
        guarded: bool,
        on_commit_drop: bool,
        word: u32,
        path: Span,
        elems: Items<Elem>,
    },
    /// SELECT INTO.
    Into {
        path: Span,
        targets: Items<Target>,
    },
    /// CREATE INDEX.
    Index {
        word: u32,
        unique: bool,
        concurrently: Option<u32>,
        guarded: bool,
        name: Option<u32>,
        path: Span,
    },
    /// DROP INDEX, TABLE or TYPE.
    Drop {
        word: u32,
        concurrently: bool,
        guarded: bool,
        paths: Items<Span>,
    },
    /// REINDEX.
    Reindex {
        target: ReindexTarget,
        word: u32,
        concurrent: bool,
        valued: bool,
        path: Option<Span>,
    },
    /// An ALTER statement.
    Alter {
        path: Option<Span>,
        actions: Items<Action>,
    },
    /// CREATE DOMAIN.
    Domain {
        constraints: Items<Constraint>,
    },
    /// CREATE TYPE or SEQUENCE.
    Made {
        path: Span,
        guarded: bool,
    },
    /// CREATE VIEW.
    View(Boxed<ViewDefinition>),
    /// CREATE FUNCTION, PROCEDURE, TRIGGER, RULE or AGGREGATE.
    Code {
        replace: bool,
    },
    /// TRUNCATE.
    Truncate {
        cascade: Option<u32>,
    },
    /// SET.
    Setting {
        name: Option<Span>,
    },
    /// LOCK.
    Locking {
        mode: Option<LockMode>,
    },
    /// REFRESH MATERIALIZED VIEW.
    Refresh {
        concurrently: bool,
    },
    /// VACUUM.
    Vacuum {
        full: bool,
        tables: Option<Span>,
    },
    /// CLUSTER.
    Cluster {
        table: Option<Span>,
        index: Option<u32>,
    },
    /// INSERT, UPDATE or MERGE.
    Write(Boxed<TableWrite>),
}

/// A statement: its kind, the numbers of its first and last token, and what is known of it. The last token is its
/// semicolon where one is there.
#[derive(Drop)]
pub struct Stmt {
    pub kind: StmtKind,
    pub first: u32,
    pub last: u32,
    pub body: Body,
}

/// The statements of a text, in order.
#[derive(Drop)]
pub struct SourceFile {
    pub stmts: Items<Stmt>,
}
