//! Columns and attributes whose type is changed.

ghost use Rattle.std.specs.Prelude.{◌≡◌, map};
ghost use Rattle.lint_pass.specs.Bans.{lent};

use lint_pass::{BanPass, BanRows, PieceKind, Rule, Spot, StmtKind};

/// Reports each change of the type of a column or of an attribute of a composite type.
///
/// Most changes of a type rewrite the table and its indexes under an ACCESS EXCLUSIVE lock: reads and writes wait until the last
/// row is copied. Clients that read the old type may fail on the new one.
///
/// PostgreSQL manual, ALTER TABLE, "SET DATA TYPE" and Notes; ALTER TYPE, "ALTER ATTRIBUTE".
#[derive(Drop)]
pub struct ChangingColumnType;

const CHANGING_COLUMN_TYPE: [(Spot, &str, &str); 3] = [
    (
        Spot::Piece(StmtKind::AlterTable, PieceKind::SetType),
        "changing a column type rewrites the table under an `access exclusive` lock",
        "the lock blocks reads and writes while the table is rewritten, and the new type may break other clients reading from the table",
    ),
    (
        Spot::Piece(StmtKind::AlterForeignTable, PieceKind::SetType),
        "changing a column type rewrites the table under an `access exclusive` lock",
        "the lock blocks reads and writes while the table is rewritten, and the new type may break other clients reading from the table",
    ),
    (
        Spot::Piece(StmtKind::AlterType, PieceKind::AlterAttribute),
        "changing an attribute type may break existing clients",
        "",
    ),
];

impl BanPass for ChangingColumnType {
    ghost use Rattle.lint_pass.specs.lint_base.declared.rule.Rule.TheVariants as rule;
    ghost use Rattle.pass_data_type.specs.ChangingColumnType.{rows_of_changing_column_type};

    ghost code = { λ _. rule.ChangingColumnType };

    ghost rows = { λ _. rows_of_changing_column_type };

    fn code(&self) -> Rule {
        Rule::ChangingColumnType
    }

    fn rows(&self) -> BanRows {
        &CHANGING_COLUMN_TYPE
    }
}
