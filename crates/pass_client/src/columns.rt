//! Columns that get their values in another way.

ghost use Rattle.std.specs.Prelude.{◌≡◌, map};
ghost use Rattle.lint_pass.specs.Bans.{lent};

use lint_pass::{ActionKind, BanPass, BanRows, ConKind, PieceKind, Rule, Spot, StmtKind};

/// Reports each column of a table that becomes an identity column, ceases to be one, or is set to GENERATED ALWAYS. SET GENERATED
/// BY DEFAULT is not reported.
///
/// With GENERATED ALWAYS an INSERT that gives a value fails; without an identity one that gives none does.
///
/// PostgreSQL manual, ALTER TABLE, "ADD GENERATED", "SET GENERATED" and "DROP IDENTITY".
#[derive(Drop)]
pub struct BanAlterIdentity;

const BAN_ALTER_IDENTITY: [(Spot, &str, &str); 3] = [
    (
        Spot::Piece(StmtKind::AlterTable, PieceKind::AddGenerated),
        "changing column identity may break inserts from existing clients",
        "",
    ),
    (
        Spot::Piece(StmtKind::AlterTable, PieceKind::DropIdentity),
        "changing column identity may break inserts from existing clients",
        "",
    ),
    (
        Spot::Always(StmtKind::AlterTable),
        "changing column identity may break inserts from existing clients",
        "",
    ),
];

impl BanPass for BanAlterIdentity {
    ghost use Rattle.lint_pass.specs.lint_base.declared.rule.Rule.TheVariants as rule;
    ghost use Rattle.pass_client.specs.Columns.{rows_of_ban_alter_identity};

    ghost code = { λ _. rule.BanAlterIdentity };

    ghost rows = { λ _. rows_of_ban_alter_identity };

    fn code(&self) -> Rule {
        Rule::BanAlterIdentity
    }

    fn rows(&self) -> BanRows {
        &BAN_ALTER_IDENTITY
    }
}

/// Reports each SET EXPRESSION of a generated column, and each generated or identity column that is added to a table.
///
/// A new expression changes the values that clients read; an INSERT that gives a new generated column a value fails.
///
/// PostgreSQL manual, ALTER TABLE, "SET EXPRESSION", and section 5.4.
#[derive(Drop)]
pub struct BanAlterGeneratedExpression;

const BAN_ALTER_GENERATED_EXPRESSION: [(Spot, &str, &str); 2] = [
    (
        Spot::Piece(StmtKind::AlterTable, PieceKind::SetExpression),
        "changing a generated column expression may change values read by existing clients",
        "",
    ),
    (
        Spot::NewColumn(StmtKind::AlterTable, ConKind::Generated),
        "adding a generated column may break inserts from existing clients",
        "",
    ),
];

impl BanPass for BanAlterGeneratedExpression {
    ghost use Rattle.lint_pass.specs.lint_base.declared.rule.Rule.TheVariants as rule;
    ghost use Rattle.pass_client.specs.Columns.{rows_of_ban_alter_generated_expression};

    ghost code = { λ _. rule.BanAlterGeneratedExpression };

    ghost rows = { λ _. rows_of_ban_alter_generated_expression };

    fn code(&self) -> Rule {
        Rule::BanAlterGeneratedExpression
    }

    fn rows(&self) -> BanRows {
        &BAN_ALTER_GENERATED_EXPRESSION
    }
}

/// Reports each SET DEFAULT of a column, a view's column or a domain.
///
/// Clients whose INSERT leaves the column out write another value from then on, and no error shows it.
///
/// PostgreSQL manual, ALTER TABLE, "SET/DROP DEFAULT"; ALTER VIEW; ALTER DOMAIN.
#[derive(Drop)]
pub struct BanSetDefault;

const BAN_SET_DEFAULT: [(Spot, &str, &str); 4] = [
    (
        Spot::Action(StmtKind::AlterDomain, ActionKind::SetDefault),
        "setting a column default may silently change values written by existing clients",
        "",
    ),
    (
        Spot::Action(StmtKind::AlterView, ActionKind::SetDefault),
        "setting a column default may silently change values written by existing clients",
        "",
    ),
    (
        Spot::Piece(StmtKind::AlterTable, PieceKind::SetDefault),
        "setting a column default may silently change values written by existing clients",
        "",
    ),
    (
        Spot::Piece(StmtKind::AlterForeignTable, PieceKind::SetDefault),
        "setting a column default may silently change values written by existing clients",
        "",
    ),
];

impl BanPass for BanSetDefault {
    ghost use Rattle.lint_pass.specs.lint_base.declared.rule.Rule.TheVariants as rule;
    ghost use Rattle.pass_client.specs.Columns.{rows_of_ban_set_default};

    ghost code = { λ _. rule.BanSetDefault };

    ghost rows = { λ _. rows_of_ban_set_default };

    fn code(&self) -> Rule {
        Rule::BanSetDefault
    }

    fn rows(&self) -> BanRows {
        &BAN_SET_DEFAULT
    }
}
