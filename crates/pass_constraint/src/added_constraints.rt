//! Constraints that are added to tables in use.

ghost use Rattle.std.specs.Prelude.{◌≡◌};
ghost use Rattle.pass_constraint.specs.AddedConstraints as spec;
ghost use Rattle.pass_constraint.specs.AddedConstraints.{lent};

use crate::constraint_rows::{ConstraintRow, Excuse, report_statement};
use lint_pass::{LinterSettings, NoMemory, Reports, Rule, RulePass, Seen};
use sql_tree::{ConKind, Parse, Stmt};
use std::alloc::Global;

/// Reports each FOREIGN KEY that an ALTER TABLE adds without NOT VALID, except on a table that the same open transaction created; and
/// each REFERENCES of a column that it adds.
///
/// Every row is looked up in the referenced table, under a SHARE ROW EXCLUSIVE lock on both tables: writes to both wait for as long.
/// With NOT VALID the look-up is left out, and a later VALIDATE CONSTRAINT makes it under weaker locks. The referenced table is in use
/// also where the other one is new.
///
/// PostgreSQL manual, ALTER TABLE, "ADD table_constraint [ NOT VALID ]", "VALIDATE CONSTRAINT" and Notes.
#[derive(Drop)]
pub struct AddingForeignKeyConstraint;

/// Reports each PRIMARY KEY that an ALTER TABLE adds without USING INDEX, and that of a column that it adds, except on a table that
/// the same open transaction created.
///
/// The index is built, and the columns are searched for nulls, under an ACCESS EXCLUSIVE lock: reads and writes wait until the index
/// is complete. A unique index that was built with CONCURRENTLY becomes the key at once, where its columns are NOT NULL already.
///
/// PostgreSQL manual, ALTER TABLE, "ADD table_constraint_using_index".
#[derive(Drop)]
pub struct AddingPrimaryKeyConstraint;

/// Reports each UNIQUE that an ALTER TABLE adds without USING INDEX, except on a table that the same open transaction created; and
/// each UNIQUE of a column that it adds.
///
/// The index is built under an ACCESS EXCLUSIVE lock: reads and writes wait until it is complete. A unique index that was built with
/// CONCURRENTLY becomes the constraint at once.
///
/// PostgreSQL manual, ALTER TABLE, "ADD table_constraint_using_index".
#[derive(Drop)]
pub struct DisallowUniqueConstraint;

const FOREIGN_KEYS: ConstraintRow = ConstraintRow {
    code: Rule::AddingForeignKeyConstraint,
    of_table: ConKind::ForeignKey,
    excuse: Excuse::NotValid,
    of_column: ConKind::References,
    is_excused_on_new: false,
    message: "adding a foreign key constraint requires a table scan and a `share row exclusive` lock on both tables, which blocks writes to each table",
    help: "add `not valid` to the constraint in one transaction and then `validate` the constraint in a separate transaction",
};

const PRIMARY_KEYS: ConstraintRow = ConstraintRow {
    code: Rule::AddingSerialPrimaryKeyField,
    of_table: ConKind::PrimaryKey,
    excuse: Excuse::ByIndex,
    of_column: ConKind::PrimaryKey,
    is_excused_on_new: true,
    message: "adding a primary key constraint requires an `access exclusive` lock that will block all reads and writes to the table while the primary key index is built",
    help: "add the `primary key` constraint `using` an index",
};

const UNIQUES: ConstraintRow = ConstraintRow {
    code: Rule::DisallowedUniqueConstraint,
    of_table: ConKind::Unique,
    excuse: Excuse::ByIndex,
    of_column: ConKind::Unique,
    is_excused_on_new: false,
    message: "adding a `unique` constraint requires an `access exclusive` lock which blocks reads and writes to the table while the index is built",
    help: "create an index `concurrently` and create the constraint using the index",
};

fn foreign_keys() -> &'static ConstraintRow
    ensures { lent result.now ≡ spec.row_of_adding_foreign_key_constraint }
{
    &FOREIGN_KEYS
}

fn primary_keys() -> &'static ConstraintRow
    ensures { lent result.now ≡ spec.row_of_adding_serial_primary_key_field }
{
    &PRIMARY_KEYS
}

fn uniques() -> &'static ConstraintRow
    ensures { lent result.now ≡ spec.row_of_disallowed_unique_constraint }
{
    &UNIQUES
}

impl RulePass for AddingForeignKeyConstraint {
    ghost use Rattle.std.specs.Prelude.{false};
    ghost use Rattle.lint_pass.specs.lint_base.declared.rule.Rule.TheVariants as rule;
    ghost use Rattle.lint_pass.specs.lint_transaction.Transaction.{stmt_at};
    ghost use Rattle.pass_constraint.specs.AddedConstraints as spec;
    ghost use Rattle.pass_constraint.specs.AddedConstraints.{added_by};
    ghost use Rattle.pass_constraint.specs.AddedConstraintsLaws.{added_coded, added_placed};

    type Memory = ();

    ghost code = { λ _. rule.AddingForeignKeyConstraint };

    ghost knows = { λ _ _ _ _ _. Unit {0} };

    ghost wants = { λ _. false };

    ghost reports = { λ _ tree set i. added_by spec.row_of_adding_foreign_key_constraint set tree i (stmt_at tree i) };

    ghost coded = { λ _ tree set i. added_coded spec.row_of_adding_foreign_key_constraint set tree i (stmt_at tree i) };

    ghost placed = { λ _ tree set i. added_placed spec.row_of_adding_foreign_key_constraint set tree i (stmt_at tree i) };

    fn code(&self) -> Rule {
        Rule::AddingForeignKeyConstraint
    }

    fn wants_blocks(&self) -> bool {
        false
    }

    fn begin(&self, _alloc: Global, _set: &LinterSettings) -> Result<(), NoMemory> {
        Ok(())
    }

    fn visit(
        &self,
        _memory: &mut (),
        p: &Parse<'_>,
        _i: u32,
        s: &Stmt,
        seen: &Seen<'_>,
        _set: &LinterSettings,
        out: &mut Reports,
    ) -> Result<(), NoMemory> {
        report_statement(foreign_keys(), &seen.created, p, s, out)
    }
}

impl RulePass for AddingPrimaryKeyConstraint {
    ghost use Rattle.std.specs.Prelude.{false};
    ghost use Rattle.lint_pass.specs.lint_base.declared.rule.Rule.TheVariants as rule;
    ghost use Rattle.lint_pass.specs.lint_transaction.Transaction.{stmt_at};
    ghost use Rattle.pass_constraint.specs.AddedConstraints as spec;
    ghost use Rattle.pass_constraint.specs.AddedConstraints.{added_by};
    ghost use Rattle.pass_constraint.specs.AddedConstraintsLaws.{added_coded, added_placed};

    type Memory = ();

    ghost code = { λ _. rule.AddingSerialPrimaryKeyField };

    ghost knows = { λ _ _ _ _ _. Unit {0} };

    ghost wants = { λ _. false };

    ghost reports = { λ _ tree set i. added_by spec.row_of_adding_serial_primary_key_field set tree i (stmt_at tree i) };

    ghost coded = { λ _ tree set i. added_coded spec.row_of_adding_serial_primary_key_field set tree i (stmt_at tree i) };

    ghost placed = { λ _ tree set i. added_placed spec.row_of_adding_serial_primary_key_field set tree i (stmt_at tree i) };

    fn code(&self) -> Rule {
        Rule::AddingSerialPrimaryKeyField
    }

    fn wants_blocks(&self) -> bool {
        false
    }

    fn begin(&self, _alloc: Global, _set: &LinterSettings) -> Result<(), NoMemory> {
        Ok(())
    }

    fn visit(
        &self,
        _memory: &mut (),
        p: &Parse<'_>,
        _i: u32,
        s: &Stmt,
        seen: &Seen<'_>,
        _set: &LinterSettings,
        out: &mut Reports,
    ) -> Result<(), NoMemory> {
        report_statement(primary_keys(), &seen.created, p, s, out)
    }
}

impl RulePass for DisallowUniqueConstraint {
    ghost use Rattle.std.specs.Prelude.{false};
    ghost use Rattle.lint_pass.specs.lint_base.declared.rule.Rule.TheVariants as rule;
    ghost use Rattle.lint_pass.specs.lint_transaction.Transaction.{stmt_at};
    ghost use Rattle.pass_constraint.specs.AddedConstraints as spec;
    ghost use Rattle.pass_constraint.specs.AddedConstraints.{added_by};
    ghost use Rattle.pass_constraint.specs.AddedConstraintsLaws.{added_coded, added_placed};

    type Memory = ();

    ghost code = { λ _. rule.DisallowedUniqueConstraint };

    ghost knows = { λ _ _ _ _ _. Unit {0} };

    ghost wants = { λ _. false };

    ghost reports = { λ _ tree set i. added_by spec.row_of_disallowed_unique_constraint set tree i (stmt_at tree i) };

    ghost coded = { λ _ tree set i. added_coded spec.row_of_disallowed_unique_constraint set tree i (stmt_at tree i) };

    ghost placed = { λ _ tree set i. added_placed spec.row_of_disallowed_unique_constraint set tree i (stmt_at tree i) };

    fn code(&self) -> Rule {
        Rule::DisallowedUniqueConstraint
    }

    fn wants_blocks(&self) -> bool {
        false
    }

    fn begin(&self, _alloc: Global, _set: &LinterSettings) -> Result<(), NoMemory> {
        Ok(())
    }

    fn visit(
        &self,
        _memory: &mut (),
        p: &Parse<'_>,
        _i: u32,
        s: &Stmt,
        seen: &Seen<'_>,
        _set: &LinterSettings,
        out: &mut Reports,
    ) -> Result<(), NoMemory> {
        report_statement(uniques(), &seen.created, p, s, out)
    }
}
