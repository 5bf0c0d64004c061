//! Columns that each insert must give a value.

ghost use Rattle.std.specs.Prelude.{◌≡◌, ◌++◌, OnOk, OnErr};
ghost use Rattle.lint_pass.specs.lint_base.Grown.{GrownBy};
ghost use Rattle.lint_pass.specs.Those.{that, those};
ghost use Rattle.pass_constraint.specs.AddingRequiredField as spec;
ghost use Rattle.pass_constraint.specs.AddingRequiredField.{is_required};

use lint_pass::{
    LinterSettings, NoMemory, Reports, Rule, StatementPass, Text, Violation, actions_of,
    new_constraints, same_constraint, same_kind,
};
use sql_tree::{Action, ConKind, Constraint, Parse, Stmt, StmtKind};
use std::alloc::Global;

const MESSAGE: &str =
    "adding a new column that is `not null` and has no default value to an existing table effectively makes it required";

const HELP: &str = "make the field nullable or add a non-volatile default";

/// Reports each ADD COLUMN of an ALTER TABLE whose column is NOT NULL, with neither a default nor a generated value.
///
/// Where the table has rows the statement fails, since none of them has a value. Where it has none, every INSERT of a client that
/// does not know the column yet fails from then on.
///
/// PostgreSQL manual, ALTER TABLE, "ADD COLUMN" and Notes; section 5.5.2, "Not-Null Constraints".
#[derive(Drop)]
pub struct AddingRequiredField;

/// Whether one of the constraints is of the kind.
fn has(kind: ConKind, constraints: &[Constraint]) -> bool
    ensures { result ≡ spec.has kind constraints.now }
{
    constraints.iter().any(|c| same_constraint(c.kind, kind))
}

/// Whether a column with these constraints takes no null, and gets no value by itself.
fn are_required(constraints: &[Constraint]) -> bool
    ensures { result ≡ spec.are_required constraints.now }
{
    has(ConKind::NotNull, constraints)
        && !has(ConKind::Default, constraints)
        && !has(ConKind::Generated, constraints)
}

/// The report of an action that adds such a column.
#[tactic(auto, unfolding(crate::specs::AddingRequiredField::report))]
fn report(p: &Parse<'_>, a: &Action) -> Violation
    ensures { result ≡ spec.report p.now a.now }
{
    Violation {
        code: Rule::AddingRequiredField,
        message: Text::plain(MESSAGE),
        text_range: p.span_range(a.first, a.last),
        note: None,
        help: Some(Text::plain(HELP)),
        fix: None,
    }
}

/// Reports an action that adds such a column.
fn report_action(p: &Parse<'_>, a: &Action, out: &mut Reports) -> Result<(), NoMemory>
    ensures ok { OnOk result (out.new ≡ out.old ++ that is_required (spec.report p.now) a.now) }
    ensures err { OnErr result (out.new ≡ out.old) }
{
    if are_required(new_constraints(a)) {
        out.push(report(p, a))
    } else {
        Ok(())
    }
}

/// Reports each action that adds such a column.
fn report_actions(p: &Parse<'_>, actions: &[Action], out: &mut Reports) -> Result<(), NoMemory>
    ensures ok { OnOk result (out.new ≡ out.old ++ those is_required (spec.report p.now) actions.now) }
    ensures err { OnErr result (GrownBy out.old out.new (those is_required (spec.report p.now) actions.now)) }
{
    for a in actions {
        report_action(p, a, out)?;
    }
    Ok(())
}

impl StatementPass for AddingRequiredField {
    ghost use Rattle.lint_pass.specs.lint_base.declared.rule.Rule.TheVariants as rule;
    ghost use Rattle.pass_constraint.specs.AddingRequiredField.{reports_of_adding_required_field};
    ghost use Rattle.pass_constraint.specs.AddingRequiredFieldLaws.{required_coded, required_placed};

    ghost code = { λ _. rule.AddingRequiredField };

    ghost reports = { λ _ tree _ s. reports_of_adding_required_field tree s };

    ghost coded = { λ _ tree _ s. required_coded tree s };

    ghost placed = { λ _ tree _ s. required_placed tree s };

    fn code(&self) -> Rule {
        Rule::AddingRequiredField
    }

    fn report(
        &self,
        _alloc: Global,
        p: &Parse<'_>,
        s: &Stmt,
        _set: &LinterSettings,
        out: &mut Reports,
    ) -> Result<(), NoMemory> {
        if same_kind(s.kind, StmtKind::AlterTable) {
            report_actions(p, actions_of(s), out)
        } else {
            Ok(())
        }
    }
}
