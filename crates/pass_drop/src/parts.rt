//! Parts of tables, types and domains that are dropped.

ghost use Rattle.std.specs.Prelude.{◌≡◌, map};
ghost use Rattle.lint_pass.specs.Bans.{lent};

use lint_pass::{ActionKind, BanPass, BanRows, PieceKind, Rule, Spot, StmtKind};

/// Reports each DROP COLUMN of a table or a foreign table, and each DROP ATTRIBUTE of a composite type.
///
/// Every client that still names the column fails from then on, those of the version that is being replaced among them. The
/// column goes under an ACCESS EXCLUSIVE lock, and so do the indexes and constraints over it.
///
/// PostgreSQL manual, ALTER TABLE, "DROP COLUMN" and Notes; ALTER TYPE, "DROP ATTRIBUTE".
#[derive(Drop)]
pub struct BanDropColumn;

const BAN_DROP_COLUMN: [(Spot, &str, &str); 3] = [
    (
        Spot::Action(StmtKind::AlterTable, ActionKind::DropColumn),
        "dropping a column may break existing clients",
        "",
    ),
    (
        Spot::Action(StmtKind::AlterForeignTable, ActionKind::DropColumn),
        "dropping a column may break existing clients",
        "",
    ),
    (
        Spot::Piece(StmtKind::AlterType, PieceKind::DropAttribute),
        "dropping an attribute may break existing clients",
        "",
    ),
];

impl BanPass for BanDropColumn {
    ghost use Rattle.lint_pass.specs.lint_base.declared.rule.Rule.TheVariants as rule;
    ghost use Rattle.pass_drop.specs.Parts.{rows_of_ban_drop_column};

    ghost code = { λ _. rule.BanDropColumn };

    ghost rows = { λ _. rows_of_ban_drop_column };

    fn code(&self) -> Rule {
        Rule::BanDropColumn
    }

    fn rows(&self) -> BanRows {
        &BAN_DROP_COLUMN
    }
}

/// Reports each DROP NOT NULL of a column or a domain.
///
/// Clients that were written for a column without nulls may fail on the first null that another one writes.
///
/// PostgreSQL manual, ALTER TABLE, "SET/DROP NOT NULL"; ALTER DOMAIN.
#[derive(Drop)]
pub struct BanDropNotNull;

const BAN_DROP_NOT_NULL: [(Spot, &str, &str); 3] = [
    (
        Spot::Action(StmtKind::AlterDomain, ActionKind::DropNotNull),
        "dropping a `not null` constraint may break existing clients",
        "",
    ),
    (
        Spot::Piece(StmtKind::AlterTable, PieceKind::DropNotNull),
        "dropping a `not null` constraint may break existing clients",
        "",
    ),
    (
        Spot::Piece(StmtKind::AlterForeignTable, PieceKind::DropNotNull),
        "dropping a `not null` constraint may break existing clients",
        "",
    ),
];

impl BanPass for BanDropNotNull {
    ghost use Rattle.lint_pass.specs.lint_base.declared.rule.Rule.TheVariants as rule;
    ghost use Rattle.pass_drop.specs.Parts.{rows_of_ban_drop_not_null};

    ghost code = { λ _. rule.BanDropNotNull };

    ghost rows = { λ _. rows_of_ban_drop_not_null };

    fn code(&self) -> Rule {
        Rule::BanDropNotNull
    }

    fn rows(&self) -> BanRows {
        &BAN_DROP_NOT_NULL
    }
}

/// Reports each DROP DEFAULT of a column, a view's column or a domain.
///
/// Clients whose INSERT leaves the column out write a null from then on, or fail where the column takes none.
///
/// PostgreSQL manual, ALTER TABLE, "SET/DROP DEFAULT"; ALTER VIEW; ALTER DOMAIN.
#[derive(Drop)]
pub struct BanDropDefault;

const BAN_DROP_DEFAULT: [(Spot, &str, &str); 4] = [
    (
        Spot::Action(StmtKind::AlterDomain, ActionKind::DropDefault),
        "dropping a column default may break existing clients",
        "",
    ),
    (
        Spot::Action(StmtKind::AlterView, ActionKind::DropDefault),
        "dropping a column default may break existing clients",
        "",
    ),
    (
        Spot::Piece(StmtKind::AlterTable, PieceKind::DropDefault),
        "dropping a column default may break existing clients",
        "",
    ),
    (
        Spot::Piece(StmtKind::AlterForeignTable, PieceKind::DropDefault),
        "dropping a column default may break existing clients",
        "",
    ),
];

impl BanPass for BanDropDefault {
    ghost use Rattle.lint_pass.specs.lint_base.declared.rule.Rule.TheVariants as rule;
    ghost use Rattle.pass_drop.specs.Parts.{rows_of_ban_drop_default};

    ghost code = { λ _. rule.BanDropDefault };

    ghost rows = { λ _. rows_of_ban_drop_default };

    fn code(&self) -> Rule {
        Rule::BanDropDefault
    }

    fn rows(&self) -> BanRows {
        &BAN_DROP_DEFAULT
    }
}

/// Reports each DROP CONSTRAINT of a table, a foreign table or a domain, and each constraint that is no longer enforced.
///
/// Clients may rely on what the constraint kept out: a duplicate, a row without its parent, a value out of range. Such rows can be
/// written from then on, and adding the constraint again has to find and mend them first.
///
/// PostgreSQL manual, ALTER TABLE, "DROP CONSTRAINT" and "ALTER CONSTRAINT"; ALTER DOMAIN.
#[derive(Drop)]
pub struct BanDropConstraint;

const BAN_DROP_CONSTRAINT: [(Spot, &str, &str); 5] = [
    (
        Spot::Action(StmtKind::AlterTable, ActionKind::DropConstraint),
        "dropping a constraint may remove a guarantee that existing clients assume",
        "",
    ),
    (
        Spot::Action(StmtKind::AlterForeignTable, ActionKind::DropConstraint),
        "dropping a constraint may remove a guarantee that existing clients assume",
        "",
    ),
    (
        Spot::Action(StmtKind::AlterDomain, ActionKind::DropConstraint),
        "dropping a constraint may remove a guarantee that existing clients assume",
        "",
    ),
    (
        Spot::Piece(StmtKind::AlterTable, PieceKind::NotEnforced),
        "disabling constraint enforcement may remove a guarantee that existing clients assume",
        "",
    ),
    (
        Spot::Piece(StmtKind::AlterForeignTable, PieceKind::NotEnforced),
        "disabling constraint enforcement may remove a guarantee that existing clients assume",
        "",
    ),
];

impl BanPass for BanDropConstraint {
    ghost use Rattle.lint_pass.specs.lint_base.declared.rule.Rule.TheVariants as rule;
    ghost use Rattle.pass_drop.specs.Parts.{rows_of_ban_drop_constraint};

    ghost code = { λ _. rule.BanDropConstraint };

    ghost rows = { λ _. rows_of_ban_drop_constraint };

    fn code(&self) -> Rule {
        Rule::BanDropConstraint
    }

    fn rows(&self) -> BanRows {
        &BAN_DROP_CONSTRAINT
    }
}

/// Reports each DROP EXPRESSION of a generated column.
///
/// The column becomes a plain one: its values stay as they are, and no longer follow the columns that they were computed of.
///
/// PostgreSQL manual, ALTER TABLE, "DROP EXPRESSION".
#[derive(Drop)]
pub struct BanDropGeneratedExpression;

const BAN_DROP_GENERATED_EXPRESSION: [(Spot, &str, &str); 1] = [(
    Spot::Piece(StmtKind::AlterTable, PieceKind::DropExpression),
    "dropping a generated expression may break existing clients",
    "",
)];

impl BanPass for BanDropGeneratedExpression {
    ghost use Rattle.lint_pass.specs.lint_base.declared.rule.Rule.TheVariants as rule;
    ghost use Rattle.pass_drop.specs.Parts.{rows_of_ban_drop_generated_expression};

    ghost code = { λ _. rule.BanDropGeneratedExpression };

    ghost rows = { λ _. rows_of_ban_drop_generated_expression };

    fn code(&self) -> Rule {
        Rule::BanDropGeneratedExpression
    }

    fn rows(&self) -> BanRows {
        &BAN_DROP_GENERATED_EXPRESSION
    }
}
