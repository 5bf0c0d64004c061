//! The actions of ALTER statements and their pieces as data: rows of tables that the reader of forms reads.
//!
//! A row is all that an action or a piece is made of. The tables of a word are for every kind of statement, those of a
//! kind for its statements alone; `specs/ActionRows.antt` says which tables an action is read by, and in which order. A
//! table has rows that exclude each other, or the longer one first.
//!
//! The forms are those of the PostgreSQL manual, part VI, SQL Commands.

use crate::forms::Part::{
    self, AnyName, AnyOf, Either, Flag, List, Maybe, MaybeObject, Name, Object, Path, Rest, Str,
    Tail, Word,
};
use crate::forms::{Fact, Phrase, WordClass};
use crate::kinds::{ActionKind as A, PieceKind as P};
use sql_token::Keyword as K;

/// A table of rows of pieces: kind, and all that the piece is made of.
pub type PieceRows = &'static [(P, &'static [Part])];

/// A list of pieces that is cut by what begins a piece.
#[derive(Clone, Copy, PartialEq, Eq)]
pub enum PieceList {
    /// Of ALTER CONSTRAINT.
    ConstraintOptions,
    /// Of an identity column, after ALTER COLUMN.
    IdentityOptions,
    /// Of ALTER SEQUENCE.
    SequenceOptions,
    /// Of ALTER POLICY.
    PolicyParts,
}

// ---- read before all others

/// OWNER.
pub const OWNER: [(A, &[Part]); 1] = [(A::OwnerTo, &[Word(K::OWNER), Word(K::TO), Rest])];

/// SET SCHEMA.
pub const SCHEMA: [(A, &[Part]); 1] = [(A::SetSchema, &[Word(K::SET), Word(K::SCHEMA), Rest])];

/// RENAME, but of what may be a column.
pub const RENAME: [(A, &[Part]); 2] = [
    (
        A::RenameConstraint,
        &[Word(K::RENAME), Object(K::CONSTRAINT), Rest],
    ),
    (A::RenameTo, &[Word(K::RENAME), Word(K::TO), Rest]),
];

// ---- of one kind of statement

/// ALTER TYPE.
pub const TYPE: [(A, &[Part]); 4] = [
    (
        A::RenameAttribute,
        &[Word(K::RENAME), Object(K::ATTRIBUTE), Rest],
    ),
    (A::RenameValue, &[Word(K::RENAME), Object(K::VALUE), Rest]),
    (
        A::AddValue,
        &[
            Word(K::ADD),
            Object(K::VALUE),
            Maybe(Phrase::IfNotExists, Fact::Guarded),
            Str,
            Flag(K::BEFORE, Fact::Placed),
            Flag(K::AFTER, Fact::Placed),
            Rest,
        ],
    ),
    (A::Attributes, &[Tail]),
];

/// ALTER DOMAIN, and ALTER VIEW after the name of a column.
pub const DOMAIN: [(A, &[Part]); 4] = [
    (A::SetDefault, &[Word(K::SET), Word(K::DEFAULT), Rest]),
    (A::DropDefault, &[Word(K::DROP), Word(K::DEFAULT)]),
    (A::SetNotNull, &[Word(K::SET), Word(K::NOT), Word(K::NULL)]),
    (
        A::DropNotNull,
        &[Word(K::DROP), Word(K::NOT), Word(K::NULL)],
    ),
];

/// ALTER SEQUENCE.
pub const SEQUENCE: [(A, &[Part]); 1] = [(A::SequenceOptions, &[Tail])];

/// ALTER FUNCTION, PROCEDURE and ROUTINE.
pub const FUNCTION: [(A, &[Part]); 1] = [(A::Options, &[AnyOf(WordClass::FunctionOption), Rest])];

/// What ALTER ROLE, USER, DATABASE and SYSTEM set. SET TABLESPACE sets no parameter.
pub const CONFIG: [(A, &[Part]); 3] = [
    (A::Other, &[Word(K::SET), Word(K::TABLESPACE), Rest]),
    (A::SetConfig, &[Word(K::SET), Rest]),
    (A::ResetConfig, &[Word(K::RESET), Rest]),
];

/// ALTER EXTENSION.
pub const EXTENSION: [(A, &[Part]); 2] = [
    (A::ExtensionUpdate, &[Word(K::UPDATE), Rest]),
    (A::ExtensionDrop, &[Word(K::DROP), Rest]),
];

/// ALTER POLICY.
pub const POLICY: [(A, &[Part]); 1] = [(A::PolicyChange, &[Tail])];

/// ALTER PUBLICATION.
pub const PUBLICATION: [(A, &[Part]); 2] = [
    (A::PublicationDrop, &[Word(K::DROP), Rest]),
    (A::PublicationSet, &[Word(K::SET), Rest]),
];

/// ALTER GROUP.
pub const GROUP: [(A, &[Part]); 1] = [(A::GroupDrop, &[Word(K::DROP), Word(K::USER), Rest])];

/// ALTER DEFAULT PRIVILEGES.
pub const PRIVILEGES: [(A, &[Part]); 1] = [(A::RevokePrivileges, &[Word(K::REVOKE), Rest])];

// ---- of every kind of statement, by the first word

/// ADD. A table constraint is read before.
pub const ADD: [(A, &[Part]); 1] = [(
    A::AddColumn,
    &[
        Word(K::ADD),
        MaybeObject(K::COLUMN),
        Maybe(Phrase::IfNotExists, Fact::Guarded),
        Tail,
    ],
)];

/// DROP.
pub const DROP: [(A, &[Part]); 2] = [
    (
        A::DropConstraint,
        &[
            Word(K::DROP),
            Object(K::CONSTRAINT),
            Maybe(Phrase::IfExists, Fact::Guarded),
            Name,
            Rest,
        ],
    ),
    (
        A::DropColumn,
        &[
            Word(K::DROP),
            MaybeObject(K::COLUMN),
            Maybe(Phrase::IfExists, Fact::Guarded),
            Name,
            Rest,
        ],
    ),
];

/// ALTER.
pub const ALTER: [(A, &[Part]); 2] = [
    (
        A::AlterConstraint,
        &[Word(K::ALTER), Object(K::CONSTRAINT), Name, Rest],
    ),
    (
        A::AlterColumn,
        &[Word(K::ALTER), MaybeObject(K::COLUMN), Name, Tail],
    ),
];

/// RENAME of a column.
pub const RENAME_COLUMN: [(A, &[Part]); 1] = [(
    A::RenameColumn,
    &[
        Word(K::RENAME),
        MaybeObject(K::COLUMN),
        Name,
        Word(K::TO),
        AnyName,
    ],
)];

/// VALIDATE.
pub const VALIDATE: [(A, &[Part]); 1] = [(
    A::ValidateConstraint,
    &[Word(K::VALIDATE), Object(K::CONSTRAINT), Path],
)];

/// DETACH. What may follow the path is one of two words, and its number is kept.
pub const DETACH: [(A, &[Part]); 1] = [(
    A::DetachPartition,
    &[
        Word(K::DETACH),
        Word(K::PARTITION),
        Path,
        Either(K::CONCURRENTLY, K::FINALIZE),
    ],
)];

/// ENABLE.
pub const ENABLE: [(A, &[Part]); 7] = [
    (A::EnableTrigger, &[Word(K::ENABLE), Word(K::TRIGGER), Rest]),
    (
        A::EnableAlwaysTrigger,
        &[Word(K::ENABLE), Word(K::ALWAYS), Word(K::TRIGGER), Rest],
    ),
    (
        A::EnableReplicaTrigger,
        &[Word(K::ENABLE), Word(K::REPLICA), Word(K::TRIGGER), Rest],
    ),
    (A::EnableRule, &[Word(K::ENABLE), Word(K::RULE), Rest]),
    (
        A::EnableAlwaysRule,
        &[Word(K::ENABLE), Word(K::ALWAYS), Word(K::RULE), Rest],
    ),
    (
        A::EnableReplicaRule,
        &[Word(K::ENABLE), Word(K::REPLICA), Word(K::RULE), Rest],
    ),
    (
        A::EnableRls,
        &[
            Word(K::ENABLE),
            Word(K::ROW),
            Word(K::LEVEL),
            Word(K::SECURITY),
        ],
    ),
];

/// DISABLE.
pub const DISABLE: [(A, &[Part]); 3] = [
    (
        A::DisableTrigger,
        &[Word(K::DISABLE), Word(K::TRIGGER), Rest],
    ),
    (A::DisableRule, &[Word(K::DISABLE), Word(K::RULE), Rest]),
    (
        A::DisableRls,
        &[
            Word(K::DISABLE),
            Word(K::ROW),
            Word(K::LEVEL),
            Word(K::SECURITY),
        ],
    ),
];

/// FORCE.
pub const FORCE: [(A, &[Part]); 1] = [(
    A::ForceRls,
    &[
        Word(K::FORCE),
        Word(K::ROW),
        Word(K::LEVEL),
        Word(K::SECURITY),
    ],
)];

/// NO.
pub const NO: [(A, &[Part]); 2] = [
    (
        A::NoForceRls,
        &[
            Word(K::NO),
            Word(K::FORCE),
            Word(K::ROW),
            Word(K::LEVEL),
            Word(K::SECURITY),
        ],
    ),
    (A::NoInherit, &[Word(K::NO), Word(K::INHERIT), Rest]),
];

/// REPLICA.
pub const REPLICA: [(A, &[Part]); 1] = [(
    A::ReplicaIdentity,
    &[Word(K::REPLICA), Word(K::IDENTITY), Rest],
)];

/// SET.
pub const SET: [(A, &[Part]); 2] = [
    (A::SetOptions, &[Word(K::SET), List]),
    (
        A::SetWithoutCluster,
        &[Word(K::SET), Word(K::WITHOUT), Word(K::CLUSTER)],
    ),
];

/// RESET.
pub const RESET: [(A, &[Part]); 1] = [(A::ResetOptions, &[Word(K::RESET), List])];

/// CLUSTER.
pub const CLUSTER: [(A, &[Part]); 1] = [(A::ClusterOn, &[Word(K::CLUSTER), Word(K::ON), Rest])];

// ---- read after all others

/// What is left of ALTER ROLE, USER and DATABASE, after the word WITH where it is present.
pub const OPTIONS: [(A, &[Part]); 1] = [(A::Options, &[Tail])];

/// Anything.
pub const OTHER: [(A, &[Part]); 1] = [(A::Other, &[Rest])];

// ---- pieces

/// An option of a column that is one piece.
pub const COLUMN_OPTION: [(P, &[Part]); 12] = [
    (P::SetNotNull, &[Word(K::SET), Word(K::NOT), Word(K::NULL)]),
    (
        P::DropNotNull,
        &[Word(K::DROP), Word(K::NOT), Word(K::NULL)],
    ),
    (P::SetDefault, &[Word(K::SET), Word(K::DEFAULT), Rest]),
    (P::DropDefault, &[Word(K::DROP), Word(K::DEFAULT)]),
    (
        P::SetType,
        &[Maybe(Phrase::SetData, Fact::Nothing), Word(K::TYPE), Rest],
    ),
    (P::SetStatistics, &[Word(K::SET), Word(K::STATISTICS), Rest]),
    (P::SetOptions, &[Word(K::SET), List]),
    (P::ResetOptions, &[Word(K::RESET), List]),
    (P::SetExpression, &[Word(K::SET), Word(K::EXPRESSION), Rest]),
    (
        P::DropExpression,
        &[Word(K::DROP), Word(K::EXPRESSION), Rest],
    ),
    (P::AddGenerated, &[Word(K::ADD), Word(K::GENERATED), Rest]),
    (P::DropIdentity, &[Word(K::DROP), Word(K::IDENTITY), Rest]),
];

/// An option of a column that is none of the listed ones.
pub const OTHER_OPTION: [(P, &[Part]); 1] = [(P::Other, &[Rest])];

/// A piece of a list of options of an identity column.
pub const IDENTITY_OPTION: [(P, &[Part]); 3] = [
    (P::SetGenerated, &[Word(K::SET), Word(K::GENERATED), Rest]),
    (
        P::SetSequence,
        &[Word(K::SET), AnyOf(WordClass::SequenceOption), Rest],
    ),
    (P::Restart, &[Word(K::RESTART), Rest]),
];

/// A piece of ALTER CONSTRAINT.
pub const CONSTRAINT_OPTION: [(P, &[Part]); 6] = [
    (P::NotEnforced, &[Word(K::NOT), Word(K::ENFORCED)]),
    (P::Enforced, &[Word(K::ENFORCED)]),
    (P::NotDeferrable, &[Word(K::NOT), Word(K::DEFERRABLE)]),
    (P::Deferrable, &[Word(K::DEFERRABLE)]),
    (P::Initially, &[Word(K::INITIALLY), AnyName]),
    (P::Other, &[Rest]),
];

/// A piece of ALTER SEQUENCE.
pub const SEQUENCE_OPTION: [(P, &[Part]); 1] = [(
    P::SequenceOption,
    &[AnyOf(WordClass::SequenceOption), Rest],
)];

/// A piece of ALTER POLICY.
pub const POLICY_PART: [(P, &[Part]); 3] = [
    (P::PolicyTo, &[Word(K::TO), Rest]),
    (P::PolicyUsing, &[Word(K::USING), Rest]),
    (P::PolicyCheck, &[Word(K::WITH), Word(K::CHECK), Rest]),
];

/// A piece of ALTER TYPE.
pub const ATTRIBUTE: [(P, &[Part]); 3] = [
    (P::AddAttribute, &[Word(K::ADD), Word(K::ATTRIBUTE), Rest]),
    (P::DropAttribute, &[Word(K::DROP), Word(K::ATTRIBUTE), Rest]),
    (
        P::AlterAttribute,
        &[Word(K::ALTER), Word(K::ATTRIBUTE), Rest],
    ),
];
