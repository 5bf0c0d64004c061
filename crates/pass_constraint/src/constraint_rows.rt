//! What rules report of constraints that are added, and one reader for all of them.

ghost use Rattle.std.specs.Prelude.{◌≡◌, ◌++◌, ℕ, OnOk, OnErr};
ghost use Rattle.std.specs.List.{flat_map};
ghost use Rattle.lint_pass.specs.lint_base.Grown.{GrownBy};
ghost use Rattle.lint_pass.specs.lint_base.declared.settings.LinterSettings.{LinterSettings};
ghost use Rattle.lint_pass.specs.lint_transaction.Tracking.{IsTracking};
ghost use Rattle.lint_pass.specs.Those.{that};
ghost use Rattle.pass_constraint.specs.AddedConstraints as spec;
ghost use Rattle.pass_constraint.specs.AddedConstraints.{added, added_by, is_of_column, is_of_table, lent, on_action, on_column, on_table};

use lint_pass::{
    LinterSettings, NoMemory, Reports, Rule, TablesCreatedInTransaction, Text, Violation,
    actions_of, added_constraint, new_constraints, path_in, same_constraint, same_kind,
};
use sql_tree::{Action, ConKind, Constraint, Parse, Stmt, StmtKind};

/// What excuses a constraint that is added to a table.
#[derive(Clone, Copy)]
pub(crate) enum Excuse {
    /// NOT VALID.
    NotValid,
    /// USING INDEX.
    ByIndex,
}

/// What a rule reports of the constraints that an ALTER TABLE adds.
#[derive(Clone, Copy)]
pub(crate) struct ConstraintRow {
    pub code: Rule,
    /// The kind of a constraint that is added to a table.
    pub of_table: ConKind,
    /// What excuses it there. A new table does, too.
    pub excuse: Excuse,
    /// The kind of a constraint of a column that is added.
    pub of_column: ConKind,
    /// Whether a new table excuses it there.
    pub is_excused_on_new: bool,
    pub message: &'static str,
    pub help: &'static str,
}

/// Whether a constraint has the mark that excuses it.
fn is_excused_by(excuse: Excuse, c: &Constraint) -> bool
    ensures { result ≡ spec.is_excused_by excuse c.now }
{
    match excuse {
        Excuse::NotValid => c.not_valid,
        Excuse::ByIndex => c.by_index,
    }
}

/// The report of a constraint.
#[tactic(auto, unfolding(crate::specs::AddedConstraints::report))]
fn report(row: &ConstraintRow, p: &Parse<'_>, c: &Constraint) -> Violation
    ensures { result ≡ spec.report (lent row.now) p.now c.now }
{
    Violation {
        code: row.code,
        message: Text::fixed(row.message),
        text_range: p.span_range(c.first, c.last),
        note: None,
        help: Some(Text::fixed(row.help)),
        fix: None,
    }
}

/// Reports a constraint that is added to a table, where the row is of it.
fn report_of_table(
    row: &ConstraintRow,
    is_new: bool,
    p: &Parse<'_>,
    c: &Constraint,
    out: &mut Reports,
) -> Result<(), NoMemory>
    ensures ok { OnOk result (out.new ≡ out.old ++ that (is_of_table (lent row.now) is_new) (spec.report (lent row.now) p.now) c.now) }
    ensures err { OnErr result (out.new ≡ out.old) }
{
    if same_constraint(c.kind, row.of_table) && !is_excused_by(row.excuse, c) && !is_new {
        out.push(report(row, p, c))
    } else {
        Ok(())
    }
}

/// Reports the constraint that an action adds to a table, where the row is of it.
fn report_added(
    row: &ConstraintRow,
    is_new: bool,
    p: &Parse<'_>,
    a: &Action,
    out: &mut Reports,
) -> Result<(), NoMemory>
    ensures ok { OnOk result (out.new ≡ out.old ++ on_table (lent row.now) is_new p.now (added a.now)) }
    ensures err { OnErr result (out.new ≡ out.old) }
{
    match added_constraint(a) {
        Some(c) => report_of_table(row, is_new, p, c, out),
        None => Ok(()),
    }
}

/// Reports a constraint of a column that is added, where the row is of it.
fn report_of_column(
    row: &ConstraintRow,
    is_new: bool,
    p: &Parse<'_>,
    c: &Constraint,
    out: &mut Reports,
) -> Result<(), NoMemory>
    ensures ok { OnOk result (out.new ≡ out.old ++ that (is_of_column (lent row.now) is_new) (spec.report (lent row.now) p.now) c.now) }
    ensures err { OnErr result (out.new ≡ out.old) }
{
    if same_constraint(c.kind, row.of_column) && !(row.is_excused_on_new && is_new) {
        out.push(report(row, p, c))
    } else {
        Ok(())
    }
}

/// Reports the constraints of a column that is added, where the row is of them.
fn report_column(
    row: &ConstraintRow,
    is_new: bool,
    p: &Parse<'_>,
    constraints: &[Constraint],
    out: &mut Reports,
) -> Result<(), NoMemory>
    ensures ok { OnOk result (out.new ≡ out.old ++ on_column (lent row.now) is_new p.now constraints.now) }
    ensures err { OnErr result (GrownBy out.old out.new (on_column (lent row.now) is_new p.now constraints.now)) }
{
    for c in constraints {
        report_of_column(row, is_new, p, c, out)?;
    }
    Ok(())
}

/// Reports the constraints that an action adds, where the row is of them.
fn report_action(
    row: &ConstraintRow,
    is_new: bool,
    p: &Parse<'_>,
    a: &Action,
    out: &mut Reports,
) -> Result<(), NoMemory>
    ensures ok { OnOk result (out.new ≡ out.old ++ on_action (lent row.now) is_new p.now a.now) }
    ensures err { OnErr result (GrownBy out.old out.new (on_action (lent row.now) is_new p.now a.now)) }
{
    report_added(row, is_new, p, a, out)?;
    report_column(row, is_new, p, new_constraints(a), out)?;
    Ok(())
}

/// Reports the constraints that actions add, where the row is of them.
fn report_actions(
    row: &ConstraintRow,
    is_new: bool,
    p: &Parse<'_>,
    actions: &[Action],
    out: &mut Reports,
) -> Result<(), NoMemory>
    ensures ok { OnOk result (out.new ≡ out.old ++ flat_map (on_action (lent row.now) is_new p.now) actions.now) }
    ensures err { OnErr result (GrownBy out.old out.new (flat_map (on_action (lent row.now) is_new p.now) actions.now)) }
{
    for a in actions {
        report_action(row, is_new, p, a, out)?;
    }
    Ok(())
}

/// Reports the constraints that a statement adds, where the row is of them.
pub(crate) fn report_statement(
    row: &ConstraintRow,
    created: &TablesCreatedInTransaction<'_>,
    p: &Parse<'_>,
    s: &Stmt,
    out: &mut Reports,
) -> Result<(), NoMemory>
    ensures ok { OnOk result ((settings : LinterSettings) (i : ℕ) → IsTracking p.now settings.assume_in_transaction i created.now
        → out.new ≡ out.old ++ added_by (lent row.now) settings p.now i s.now) }
    ensures err { OnErr result ((settings : LinterSettings) (i : ℕ) → IsTracking p.now settings.assume_in_transaction i created.now
        → GrownBy out.old out.new (added_by (lent row.now) settings p.now i s.now)) }
{
    if !same_kind(s.kind, StmtKind::AlterTable) {
        return Ok(());
    }
    let is_on_new = created.has_table(p, path_in(&s.body))?;
    report_actions(row, is_on_new, p, actions_of(s), out)
}
