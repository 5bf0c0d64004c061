//! What is reported of an existing object, by the kind of the statement that changes it.

ghost use Rattle.std.specs.Prelude.{◌≡◌, map};
ghost use Rattle.pass_object.specs.Changes.{lent};
ghost use Rattle.pass_object.specs.Rows as spec;

use crate::changes::{Row, Spot};
use lint_base::Rule;
use lint_pass::{ActionKind, ConKind, PieceKind, StmtKind};

const NEW_COLUMN: &str =
    "adding a column changes the shape of rows existing clients receive and can break positional inserts";

const NEW_COLUMN_CONSTRAINT: &str =
    "a new column constraint can reject writes from existing clients";

const ALTER_TABLE: [Row; 15] = [
    (
        Rule::BanAddColumn,
        Spot::Action(ActionKind::AddColumn),
        NEW_COLUMN,
    ),
    (
        Rule::BanNewWriteRestriction,
        Spot::Action(ActionKind::AddConstraint),
        "a new constraint can reject writes from existing clients, even when it is `not valid`",
    ),
    (
        Rule::BanNewWriteRestriction,
        Spot::Piece(PieceKind::SetNotNull),
        "`set not null` can reject writes from existing clients",
    ),
    (
        Rule::BanNewWriteRestriction,
        Spot::NewColumn(ConKind::NotNull),
        NEW_COLUMN_CONSTRAINT,
    ),
    (
        Rule::BanNewWriteRestriction,
        Spot::NewColumn(ConKind::References),
        NEW_COLUMN_CONSTRAINT,
    ),
    (
        Rule::BanNewWriteRestriction,
        Spot::NewColumn(ConKind::Check),
        NEW_COLUMN_CONSTRAINT,
    ),
    (
        Rule::BanNewWriteRestriction,
        Spot::NewColumn(ConKind::Unique),
        NEW_COLUMN_CONSTRAINT,
    ),
    (
        Rule::BanNewWriteRestriction,
        Spot::NewColumn(ConKind::PrimaryKey),
        NEW_COLUMN_CONSTRAINT,
    ),
    (
        Rule::BanNewWriteRestriction,
        Spot::Timing,
        "changing constraint enforcement or timing can reject existing client writes",
    ),
    (
        Rule::BanAlterSequenceValues,
        Spot::OnePiece(PieceKind::Restart),
        "restarting an identity sequence can change values generated for existing clients",
    ),
    (
        Rule::BanAlterSequenceValues,
        Spot::OnePiece(PieceKind::SetSequence),
        "changing an identity sequence option can change values generated for existing clients",
    ),
    (
        Rule::BanAlterSequenceValues,
        Spot::AmongPieces(PieceKind::Restart),
        "changing an identity sequence can change values generated for existing clients",
    ),
    (
        Rule::BanAlterSequenceValues,
        Spot::AmongPieces(PieceKind::SetSequence),
        "changing an identity sequence can change values generated for existing clients",
    ),
    (
        Rule::BanDetachInheritance,
        Spot::Action(ActionKind::DetachPartition),
        "detaching a partition changes which rows existing clients can read and write through the parent table",
    ),
    (
        Rule::BanDetachInheritance,
        Spot::Action(ActionKind::NoInherit),
        "`no inherit` changes which rows existing clients can read and write through the parent table",
    ),
];

const ALTER_FOREIGN_TABLE: [Row; 8] = [
    (
        Rule::BanAddColumn,
        Spot::Action(ActionKind::AddColumn),
        NEW_COLUMN,
    ),
    (
        Rule::BanNewWriteRestriction,
        Spot::NewColumn(ConKind::NotNull),
        NEW_COLUMN_CONSTRAINT,
    ),
    (
        Rule::BanNewWriteRestriction,
        Spot::NewColumn(ConKind::References),
        NEW_COLUMN_CONSTRAINT,
    ),
    (
        Rule::BanNewWriteRestriction,
        Spot::NewColumn(ConKind::Check),
        NEW_COLUMN_CONSTRAINT,
    ),
    (
        Rule::BanNewWriteRestriction,
        Spot::NewColumn(ConKind::Unique),
        NEW_COLUMN_CONSTRAINT,
    ),
    (
        Rule::BanNewWriteRestriction,
        Spot::NewColumn(ConKind::PrimaryKey),
        NEW_COLUMN_CONSTRAINT,
    ),
    (
        Rule::BanNewWriteRestriction,
        Spot::Action(ActionKind::AddConstraint),
        "a foreign table constraint can reject existing client writes",
    ),
    (
        Rule::BanNewWriteRestriction,
        Spot::Piece(PieceKind::SetNotNull),
        "`set not null` can reject existing client writes",
    ),
];

const ALTER_DOMAIN: [Row; 2] = [
    (
        Rule::BanNewWriteRestriction,
        Spot::Action(ActionKind::SetNotNull),
        "a domain `not null` requirement can reject writes from existing clients",
    ),
    (
        Rule::BanNewWriteRestriction,
        Spot::Action(ActionKind::AddConstraint),
        "a domain constraint can reject writes from existing clients, even when it is `not valid`",
    ),
];

const CREATE_INDEX: [Row; 1] = [(
    Rule::BanNewWriteRestriction,
    Spot::UniqueIndex,
    "a unique index can reject writes from existing clients, even when created `concurrently`",
)];

const ALTER_TYPE: [Row; 2] = [
    (
        Rule::BanAddEnumValue,
        Spot::Action(ActionKind::AddValue),
        "adding an enum value changes the set of values existing clients can receive",
    ),
    (
        Rule::BanAddCompositeAttribute,
        Spot::Piece(PieceKind::AddAttribute),
        "adding a composite attribute changes the shape of values existing clients receive",
    ),
];

const ALTER_SEQUENCE: [Row; 1] = [(
    Rule::BanAlterSequenceValues,
    Spot::SequencePiece,
    "changing a sequence option can change values generated for existing clients",
)];

/// What is reported of statements of the kind.
pub(crate) fn rows_of(kind: StmtKind) -> &'static [Row]
    ensures { map lent result.now ≡ spec.rows_of kind }
{
    match kind {
        StmtKind::AlterTable => &ALTER_TABLE,
        StmtKind::AlterForeignTable => &ALTER_FOREIGN_TABLE,
        StmtKind::AlterDomain => &ALTER_DOMAIN,
        StmtKind::CreateIndex => &CREATE_INDEX,
        StmtKind::AlterType => &ALTER_TYPE,
        StmtKind::AlterSequence => &ALTER_SEQUENCE,
        _ => &[],
    }
}
