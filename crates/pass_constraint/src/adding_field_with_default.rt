//! Columns whose values are written into each row when they are added.

ghost use Rattle.std.specs.Prelude.{◌≡◌, ◌++◌, OnOk, OnErr};
ghost use Rattle.std.specs.List.{flat_map};
ghost use Rattle.lint_pass.specs.lint_base.Grown.{GrownBy};
ghost use Rattle.pass_constraint.specs.AddingFieldWithDefault as spec;
ghost use Rattle.pass_constraint.specs.AddingFieldWithDefault.{on_action, on_constraint, on_default};

use crate::volatility::is_non_volatile_or_const;
use lint_pass::{
    LinterSettings, NoMemory, Reports, Rule, Span, StatementPass, Text, Violation, actions_of,
    new_constraints, same_constraint, same_kind,
};
use sql_tree::{Action, ConKind, Constraint, Expr, Parse, Stmt, StmtKind};
use std::alloc::Global;

const DEFAULT_MESSAGE: &str =
    "adding a column with a volatile default rewrites the table under an `access exclusive` lock";

const DEFAULT_NOTE: &str = "in Postgres 11+, non-volatile defaults can be added without a rewrite";

const GENERATED_MESSAGE: &str =
    "adding a generated column rewrites the table under an `access exclusive` lock";

const HELP: &str =
    "add the column as nullable, backfill existing rows, and add a trigger to update the column on write instead";

/// Reports each DEFAULT of a column that an ALTER TABLE adds, at its value, and each GENERATED.
///
/// A volatile default, as `random()`, has another value in each row, so the table is rewritten under an ACCESS EXCLUSIVE lock: reads
/// and writes wait until the last row is written. From version 11 on a default that is not volatile is kept once for the whole table,
/// and is not reported. A stored generated column is computed for each row, and an identity column numbers each.
///
/// PostgreSQL manual, ALTER TABLE, "ADD COLUMN" and Notes; section 5.4, "Generated Columns".
#[derive(Drop)]
pub struct AddingFieldWithDefault;

/// Whether the version adds no column with a default without a rewrite.
fn is_early(set: &LinterSettings) -> bool
    ensures { result ≡ spec.is_early set.now }
{
    set.pg_version[0] < 11
}

/// Whether a default has a value that is known not to be volatile.
fn is_steady(p: &Parse<'_>, set: &LinterSettings, value: &Option<Expr>) -> bool
    ensures { result ≡ spec.is_steady set.now p.now value.now }
{
    match value {
        Some(e) => is_non_volatile_or_const(p, e, &set.non_volatile),
        None => false,
    }
}

/// Whether a default of this value rewrites nothing.
fn is_excused(p: &Parse<'_>, set: &LinterSettings, value: &Option<Expr>) -> bool
    ensures { result ≡ spec.is_excused set.now p.now value.now }
{
    !is_early(set) && is_steady(p, set, value)
}

/// Where the value of a constraint is; the whole constraint, where it has none.
fn value_span(c: &Constraint) -> Span
    ensures { result ≡ spec.value_span c.now c.now.expr_span }
{
    match c.expr_span {
        Some(span) => span,
        None => Span {
            first: c.first,
            last: c.last,
        },
    }
}

#[tactic(auto, unfolding(crate::specs::AddingFieldWithDefault::default_report))]
fn default_report(p: &Parse<'_>, span: Span) -> Violation
    ensures { result ≡ spec.default_report p.now span }
{
    Violation {
        code: Rule::AddingFieldWithDefault,
        message: Text::plain(DEFAULT_MESSAGE),
        text_range: p.span_range(span.first, span.last),
        note: Some(Text::plain(DEFAULT_NOTE)),
        help: Some(Text::plain(HELP)),
        fix: None,
    }
}

#[tactic(auto, unfolding(crate::specs::AddingFieldWithDefault::generated_report))]
fn generated_report(p: &Parse<'_>, c: &Constraint) -> Violation
    ensures { result ≡ spec.generated_report p.now c.now }
{
    Violation {
        code: Rule::AddingFieldWithDefault,
        message: Text::plain(GENERATED_MESSAGE),
        text_range: p.span_range(c.first, c.last),
        note: None,
        help: Some(Text::plain(HELP)),
        fix: None,
    }
}

/// Reports a default, unless it rewrites nothing.
fn report_default(
    p: &Parse<'_>,
    set: &LinterSettings,
    c: &Constraint,
    out: &mut Reports,
) -> Result<(), NoMemory>
    ensures ok { OnOk result (out.new ≡ out.old ++ on_default set.now p.now c.now) }
    ensures err { OnErr result (out.new ≡ out.old) }
{
    if is_excused(p, set, &c.expr) {
        Ok(())
    } else {
        out.push(default_report(p, value_span(c)))
    }
}

/// Reports a constraint of a column that is added, where it gives rows a value.
fn report_constraint(
    p: &Parse<'_>,
    set: &LinterSettings,
    c: &Constraint,
    out: &mut Reports,
) -> Result<(), NoMemory>
    ensures ok { OnOk result (out.new ≡ out.old ++ on_constraint set.now p.now c.now) }
    ensures err { OnErr result (out.new ≡ out.old) }
{
    if same_constraint(c.kind, ConKind::Default) {
        report_default(p, set, c, out)
    } else if same_constraint(c.kind, ConKind::Generated) {
        out.push(generated_report(p, c))
    } else {
        Ok(())
    }
}

/// Reports each constraint of a column that is added, where it gives rows a value.
fn report_constraints(
    p: &Parse<'_>,
    set: &LinterSettings,
    constraints: &[Constraint],
    out: &mut Reports,
) -> Result<(), NoMemory>
    ensures ok { OnOk result (out.new ≡ out.old ++ flat_map (on_constraint set.now p.now) constraints.now) }
    ensures err { OnErr result (GrownBy out.old out.new (flat_map (on_constraint set.now p.now) constraints.now)) }
{
    for c in constraints {
        report_constraint(p, set, c, out)?;
    }
    Ok(())
}

/// Reports a column that an action adds, where it is given a value.
fn report_action(
    p: &Parse<'_>,
    set: &LinterSettings,
    a: &Action,
    out: &mut Reports,
) -> Result<(), NoMemory>
    ensures ok { OnOk result (out.new ≡ out.old ++ on_action set.now p.now a.now) }
    ensures err { OnErr result (GrownBy out.old out.new (on_action set.now p.now a.now)) }
{
    report_constraints(p, set, new_constraints(a), out)
}

/// Reports each column that is added, where it is given a value.
fn report_actions(
    p: &Parse<'_>,
    set: &LinterSettings,
    actions: &[Action],
    out: &mut Reports,
) -> Result<(), NoMemory>
    ensures ok { OnOk result (out.new ≡ out.old ++ flat_map (on_action set.now p.now) actions.now) }
    ensures err { OnErr result (GrownBy out.old out.new (flat_map (on_action set.now p.now) actions.now)) }
{
    for a in actions {
        report_action(p, set, a, out)?;
    }
    Ok(())
}

impl StatementPass for AddingFieldWithDefault {
    ghost use Rattle.lint_pass.specs.lint_base.declared.rule.Rule.TheVariants as rule;
    ghost use Rattle.pass_constraint.specs.AddingFieldWithDefault.{reports_of_adding_field_with_default};
    ghost use Rattle.pass_constraint.specs.AddingFieldWithDefaultLaws.{fields_coded, fields_placed};

    ghost code = { λ _. rule.AddingFieldWithDefault };

    ghost reports = { λ _ tree set s. reports_of_adding_field_with_default set tree s };

    ghost coded = { λ _ tree set s. fields_coded set tree s };

    ghost placed = { λ _ tree set s. fields_placed set tree s };

    fn code(&self) -> Rule {
        Rule::AddingFieldWithDefault
    }

    fn report(
        &self,
        _alloc: Global,
        p: &Parse<'_>,
        s: &Stmt,
        set: &LinterSettings,
        out: &mut Reports,
    ) -> Result<(), NoMemory> {
        if same_kind(s.kind, StmtKind::AlterTable) {
            report_actions(p, set, actions_of(s), out)
        } else {
            Ok(())
        }
    }
}
