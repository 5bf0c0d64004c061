//! The forms of statements as data: a form is a row of a table, and one reader reads every row.
//!
//! A row has the kind of its statements, the lead words after the first word, and what follows them. The rows of a
//! first word are in one table, those of CREATE, ALTER and DROP in one table for each family of objects; a statement
//! is read by the first row of its table whose lead words match, so a longer lead comes before a shorter one that
//! begins it. The definitions (`specs/Forms.antt`) and the code read the same tables.
//!
//! The forms are those of the PostgreSQL manual, part VI, SQL Commands, as far as the linter looks into them. A
//! statement that it doesn't look into has a row with its lead words and anything after them.

use crate::kinds::{ActionKind, StmtKind};
use sql_token::{Keyword as K, Span};

/// What the optional words of a form say.
#[derive(Clone, Copy, PartialEq, Eq)]
pub enum Fact {
    /// Nothing.
    Nothing,
    /// UNIQUE.
    Unique,
    /// IF EXISTS or IF NOT EXISTS.
    Guarded,
    /// AND CHAIN.
    Chain,
    /// OR REPLACE.
    Replace,
    /// PREPARED, or TO after ROLLBACK.
    NotPlain,
    /// BEFORE or AFTER after a new value.
    Placed,
}

/// Words that belong together.
#[derive(Clone, Copy, PartialEq, Eq)]
pub enum Phrase {
    IfExists,
    IfNotExists,
    AndChain,
    AndNoChain,
    OrReplace,
    SetData,
}

/// A class of words.
#[derive(Clone, Copy, PartialEq, Eq)]
pub enum WordClass {
    /// The words that begin an option of ALTER SEQUENCE.
    SequenceOption,
    /// The words that begin the options of ALTER FUNCTION.
    FunctionOption,
}

/// A part of a form. A part in square brackets is optional, and taken wherever it is.
#[derive(Clone, Copy, PartialEq, Eq)]
pub enum Part {
    /// This word.
    Word(K),
    /// A word of this class.
    AnyOf(WordClass),
    /// This word, which names the kind of object: its number is kept.
    Object(K),
    /// `[WORD]`: its number is kept.
    MaybeObject(K),
    /// `[WORD]`, known by the mark.
    Flag(K, Fact),
    /// No word: the form itself says so.
    Tell(Fact),
    /// `[A or B]`: its number is kept.
    Either(K, K),
    /// `[PHRASE]`, known by the mark.
    Maybe(Phrase, Fact),
    /// `[AND CHAIN or AND NO CHAIN]`: the first says that a transaction follows.
    Chain,
    /// `[CONCURRENTLY]`: its number is kept.
    Concurrently,
    /// `[[IF NOT EXISTS] name]`, where the name is not the word ON: its number is kept.
    IndexName,
    /// Any of GLOBAL, LOCAL, TEMP, TEMPORARY, UNLOGGED, as many as there are.
    Mods,
    /// A name: its number is kept.
    Name,
    /// A name, of which nothing is kept.
    AnyName,
    /// Names with dots between them, as far as they go: the first and the last one are kept.
    Path,
    /// A string: its number is kept, as that of a name.
    Str,
    /// `( any terminals )`.
    List,
    /// `[( any terminals )]`.
    MaybeList,
    /// `[*]`.
    Star,
    /// Any terminals and the word INTO, the first one at depth 0 that follows neither the word AS nor a dot.
    Into,
    /// Any terminals before the first word GRANT or REVOKE of depth 0, with which the tail begins.
    Privileges,
    /// Any terminals to the end: the tail of the statement.
    Rest,
    /// The same, at least one terminal.
    Tail,
}

/// What reading a form keeps, by token numbers. What a form does not have is `None` or false.
#[derive(Clone, Copy, PartialEq, Eq)]
pub struct Captures {
    pub word: Option<u32>,
    pub path: Option<Span>,
    pub name: Option<u32>,
    pub concurrently: Option<u32>,
    pub unique: bool,
    pub temp: bool,
    pub guarded: bool,
    pub chain: bool,
    pub replace: bool,
    pub not_plain: bool,
    pub placed: bool,
    /// Whether any terminals may follow.
    pub open_ended: bool,
}

/// A table of rows: kind, lead words after the first, what follows.
pub type Rows = &'static [(StmtKind, &'static [Part], &'static [Part])];

/// A table of rows of ALTER actions: kind, and all that the action is made of. An action is read by the first row that
/// reads it whole.
pub type ActionRows = &'static [(ActionKind, &'static [Part])];

/// Objects by the word that names them, or that may come before it: each family has a table of rows of CREATE, one of
/// ALTER and one of DROP.
#[derive(Clone, Copy, PartialEq, Eq)]
pub enum Family {
    /// Tables, indexes, views, sequences.
    Relation,
    /// Functions, triggers, rules, policies, languages.
    Code,
    /// Types, domains, casts, operators.
    DataType,
    /// Roles, databases, servers, publications.
    Service,
    /// All else.
    Other,
}

/// What is kept of the statements of a kind: a variant of `Body` each.
#[derive(Clone, Copy, PartialEq, Eq)]
pub enum BodyShape {
    Kept,
    End,
    Table,
    Into,
    Index,
    Drop,
    Reindex,
    Alter,
    Domain,
    Made,
    View,
    Code,
    Truncate,
    Setting,
    Locking,
    Refresh,
    Vacuum,
    Cluster,
    Write,
}
