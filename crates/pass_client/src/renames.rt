//! Objects that are renamed, or moved to another schema.

ghost use Rattle.std.specs.Prelude.{◌≡◌, map};
ghost use Rattle.lint_pass.specs.Bans.{lent};

use lint_pass::{ActionKind, BanPass, BanRows, Rule, Spot, StmtKind};

/// Reports each column of a table, a foreign table or a view, and each attribute of a composite type, that is renamed.
///
/// Clients that use the old name fail from then on, and those that use the new one fail until then: no moment suits both.
///
/// PostgreSQL manual, ALTER TABLE, "RENAME"; ALTER VIEW; ALTER MATERIALIZED VIEW; ALTER TYPE, "RENAME ATTRIBUTE".
#[derive(Drop)]
pub struct RenamingColumn;

const RENAMING_COLUMN: [(Spot, &str, &str); 5] = [
    (
        Spot::Action(StmtKind::AlterType, ActionKind::RenameAttribute),
        "renaming an attribute may break existing clients",
        "",
    ),
    (
        Spot::Action(StmtKind::AlterTable, ActionKind::RenameColumn),
        "renaming a column may break existing clients",
        "",
    ),
    (
        Spot::Action(StmtKind::AlterForeignTable, ActionKind::RenameColumn),
        "renaming a column may break existing clients",
        "",
    ),
    (
        Spot::Action(StmtKind::AlterView, ActionKind::RenameColumn),
        "renaming a column may break existing clients",
        "",
    ),
    (
        Spot::Action(StmtKind::AlterMaterializedView, ActionKind::RenameColumn),
        "renaming a column may break existing clients",
        "",
    ),
];

impl BanPass for RenamingColumn {
    ghost use Rattle.lint_pass.specs.lint_base.declared.rule.Rule.TheVariants as rule;
    ghost use Rattle.pass_client.specs.Renames.{rows_of_renaming_column};

    ghost code = { λ _. rule.RenamingColumn };

    ghost rows = { λ _. rows_of_renaming_column };

    fn code(&self) -> Rule {
        Rule::RenamingColumn
    }

    fn rows(&self) -> BanRows {
        &RENAMING_COLUMN
    }
}

/// Reports each table that is renamed.
///
/// Clients that use the old name fail from then on, and those that use the new one fail until then: no moment suits both.
///
/// PostgreSQL manual, ALTER TABLE, "RENAME".
#[derive(Drop)]
pub struct RenamingTable;

const RENAMING_TABLE: [(Spot, &str, &str); 1] = [(
    Spot::Action(StmtKind::AlterTable, ActionKind::RenameTo),
    "renaming a table may break existing clients",
    "",
)];

impl BanPass for RenamingTable {
    ghost use Rattle.lint_pass.specs.lint_base.declared.rule.Rule.TheVariants as rule;
    ghost use Rattle.pass_client.specs.Renames.{rows_of_renaming_table};

    ghost code = { λ _. rule.RenamingTable };

    ghost rows = { λ _. rows_of_renaming_table };

    fn code(&self) -> Rule {
        Rule::RenamingTable
    }

    fn rows(&self) -> BanRows {
        &RENAMING_TABLE
    }
}

/// Reports each renamed foreign table, view, index, sequence, type, domain, schema, database, role, function, trigger and policy, and
/// each renamed constraint and value of an enum. Tables and columns have rules of their own; other objects are not reported.
///
/// Clients that use the old name fail from then on: a role cannot log in, a function is not found, an error is no longer matched
/// by its constraint's name.
///
/// PostgreSQL manual, the RENAME forms of the ALTER pages.
#[derive(Drop)]
pub struct RenamingObject;

const RENAMING_OBJECT: [(Spot, &str, &str); 21] = [
    (
        Spot::Action(StmtKind::AlterForeignTable, ActionKind::RenameTo),
        "renaming a foreign table may break existing clients",
        "",
    ),
    (
        Spot::Action(StmtKind::AlterRole, ActionKind::RenameTo),
        "renaming a role may break existing clients",
        "",
    ),
    (
        Spot::Action(StmtKind::AlterUser, ActionKind::RenameTo),
        "renaming a user may break existing clients",
        "",
    ),
    (
        Spot::Action(StmtKind::AlterGroup, ActionKind::RenameTo),
        "renaming a group may break existing clients",
        "",
    ),
    (
        Spot::Action(StmtKind::AlterDatabase, ActionKind::RenameTo),
        "renaming a database may break existing clients",
        "",
    ),
    (
        Spot::Action(StmtKind::AlterTrigger, ActionKind::RenameTo),
        "renaming a trigger may break existing clients",
        "",
    ),
    (
        Spot::Action(StmtKind::AlterPolicy, ActionKind::RenameTo),
        "renaming a policy may break existing clients",
        "",
    ),
    (
        Spot::Action(StmtKind::AlterRoutine, ActionKind::RenameTo),
        "renaming a routine may break existing clients",
        "",
    ),
    (
        Spot::Action(StmtKind::AlterView, ActionKind::RenameTo),
        "renaming a view may break existing clients",
        "",
    ),
    (
        Spot::Action(StmtKind::AlterMaterializedView, ActionKind::RenameTo),
        "renaming a materialized view may break existing clients",
        "",
    ),
    (
        Spot::Action(StmtKind::AlterFunction, ActionKind::RenameTo),
        "renaming a function may break existing clients",
        "",
    ),
    (
        Spot::Action(StmtKind::AlterAggregate, ActionKind::RenameTo),
        "renaming an aggregate may break existing clients",
        "",
    ),
    (
        Spot::Action(StmtKind::AlterProcedure, ActionKind::RenameTo),
        "renaming a procedure may break existing clients",
        "",
    ),
    (
        Spot::Action(StmtKind::AlterType, ActionKind::RenameTo),
        "renaming a type may break existing clients",
        "",
    ),
    (
        Spot::Action(StmtKind::AlterSequence, ActionKind::RenameTo),
        "renaming a sequence may break existing clients",
        "",
    ),
    (
        Spot::Action(StmtKind::AlterSchema, ActionKind::RenameTo),
        "renaming a schema may break existing clients",
        "",
    ),
    (
        Spot::Action(StmtKind::AlterDomain, ActionKind::RenameTo),
        "renaming a domain may break existing clients",
        "",
    ),
    (
        Spot::Action(StmtKind::AlterIndex, ActionKind::RenameTo),
        "renaming an index may break existing clients",
        "",
    ),
    (
        Spot::Action(StmtKind::AlterTable, ActionKind::RenameConstraint),
        "renaming a constraint may break existing clients",
        "",
    ),
    (
        Spot::Action(StmtKind::AlterDomain, ActionKind::RenameConstraint),
        "renaming a constraint may break existing clients",
        "",
    ),
    (
        Spot::Action(StmtKind::AlterType, ActionKind::RenameValue),
        "renaming a type value may break existing clients",
        "",
    ),
];

impl BanPass for RenamingObject {
    ghost use Rattle.lint_pass.specs.lint_base.declared.rule.Rule.TheVariants as rule;
    ghost use Rattle.pass_client.specs.Renames.{rows_of_renaming_object};

    ghost code = { λ _. rule.RenamingObject };

    ghost rows = { λ _. rows_of_renaming_object };

    fn code(&self) -> Rule {
        Rule::RenamingObject
    }

    fn rows(&self) -> BanRows {
        &RENAMING_OBJECT
    }
}

/// Reports each table, view, sequence, type, domain, function and extension that is moved to another schema.
///
/// Clients that name the old schema fail from then on, and those that name none do so where the new schema is not in their search
/// path.
///
/// PostgreSQL manual, the SET SCHEMA forms of the ALTER pages.
#[derive(Drop)]
pub struct BanSetSchema;

const BAN_SET_SCHEMA: [(Spot, &str, &str); 12] = [
    (
        Spot::Action(StmtKind::AlterTable, ActionKind::SetSchema),
        "moving an object to another schema may break existing clients",
        "",
    ),
    (
        Spot::Action(StmtKind::AlterForeignTable, ActionKind::SetSchema),
        "moving an object to another schema may break existing clients",
        "",
    ),
    (
        Spot::Action(StmtKind::AlterView, ActionKind::SetSchema),
        "moving an object to another schema may break existing clients",
        "",
    ),
    (
        Spot::Action(StmtKind::AlterMaterializedView, ActionKind::SetSchema),
        "moving an object to another schema may break existing clients",
        "",
    ),
    (
        Spot::Action(StmtKind::AlterAggregate, ActionKind::SetSchema),
        "moving an object to another schema may break existing clients",
        "",
    ),
    (
        Spot::Action(StmtKind::AlterExtension, ActionKind::SetSchema),
        "moving an object to another schema may break existing clients",
        "",
    ),
    (
        Spot::Action(StmtKind::AlterProcedure, ActionKind::SetSchema),
        "moving an object to another schema may break existing clients",
        "",
    ),
    (
        Spot::Action(StmtKind::AlterRoutine, ActionKind::SetSchema),
        "moving an object to another schema may break existing clients",
        "",
    ),
    (
        Spot::Action(StmtKind::AlterFunction, ActionKind::SetSchema),
        "moving an object to another schema may break existing clients",
        "",
    ),
    (
        Spot::Action(StmtKind::AlterType, ActionKind::SetSchema),
        "moving an object to another schema may break existing clients",
        "",
    ),
    (
        Spot::Action(StmtKind::AlterSequence, ActionKind::SetSchema),
        "moving an object to another schema may break existing clients",
        "",
    ),
    (
        Spot::Action(StmtKind::AlterDomain, ActionKind::SetSchema),
        "moving an object to another schema may break existing clients",
        "",
    ),
];

impl BanPass for BanSetSchema {
    ghost use Rattle.lint_pass.specs.lint_base.declared.rule.Rule.TheVariants as rule;
    ghost use Rattle.pass_client.specs.Renames.{rows_of_ban_set_schema};

    ghost code = { λ _. rule.BanSetSchema };

    ghost rows = { λ _. rows_of_ban_set_schema };

    fn code(&self) -> Rule {
        Rule::BanSetSchema
    }

    fn rows(&self) -> BanRows {
        &BAN_SET_SCHEMA
    }
}
