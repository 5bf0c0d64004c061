//! Actions of an ALTER TABLE that can't be run again.

ghost use Rattle.std.specs.Prelude.{◌≡◌, ◌++◌, ◌∷◌, [], List, map, IfOk, OnOk, OnErr};
ghost use Rattle.lint_pass.specs.lint_base.Grown.{GrownBy};
ghost use Rattle.lint_pass.specs.lint_node.Altered.{Altered, altered, altered_by};
ghost use Rattle.lint_pass.specs.lint_transaction.Events.{each_event};
ghost use Rattle.pass_history.specs.Dropped.{IsDropping};
ghost use Rattle.pass_history.specs.PreferRobustStmts.{unless};
ghost use Rattle.pass_history.specs.RobustActions as spec;
ghost use Rattle.pass_history.specs.RobustActions.{action_reports, report_on, reports_unless};

use crate::constraints::{added_name, validated_name};
use crate::dropped_constraints::DroppedConstraints;
use crate::robust_reports::{
    EXISTS_TITLE, NOT_EXISTS_TITLE, after_word, missing_exists, missing_not_exists, no_transaction,
};
use lint_pass::{
    NoMemory, Reports, Span, Text, Violation, altered_path, same_action, table_actions,
};
use sql_tree::{Action, ActionKind, Parse, Stmt};
use std::alloc::Global;

fn is_drop(a: &Action) -> bool
    ensures { result ≡ spec.is_drop a.now }
{
    same_action(a.kind, ActionKind::DropConstraint) || same_action(a.kind, ActionKind::DropColumn)
}

fn is_add_column(a: &Action) -> bool
    ensures { result ≡ spec.is_add_column a.now }
{
    same_action(a.kind, ActionKind::AddColumn)
}

fn drop_report(alloc: Global, p: &Parse<'_>, a: &Action) -> Result<Violation, NoMemory>
    ensures { IfOk result (λ v. v ≡ spec.drop_report p.now a.now) }
{
    let title = Text::plain(EXISTS_TITLE);
    let fix = after_word(alloc, p, title, Text::plain(" if exists"), a.word)?;
    Ok(missing_exists(p.span_range(a.first, a.last), fix))
}

fn column_report(alloc: Global, p: &Parse<'_>, a: &Action) -> Result<Violation, NoMemory>
    ensures { IfOk result (λ v. v ≡ spec.column_report p.now a.now) }
{
    let title = Text::plain(NOT_EXISTS_TITLE);
    let fix = after_word(alloc, p, title, Text::plain(" if not exists"), a.word)?;
    Ok(missing_not_exists(p.span_range(a.first, a.last), fix))
}

/// Reports a drop of a constraint or a column without IF EXISTS.
fn report_drop(alloc: Global, p: &Parse<'_>, a: &Action, out: &mut Reports) -> Result<(), NoMemory>
    ensures ok { OnOk result (out.new ≡ out.old ++ unless a.now.guarded (spec.drop_report p.now a.now)) }
    ensures err { OnErr result (out.new ≡ out.old) }
{
    if a.guarded {
        Ok(())
    } else {
        out.push(drop_report(alloc, p, a)?)
    }
}

/// Reports a new column without IF NOT EXISTS.
fn report_column(
    alloc: Global,
    p: &Parse<'_>,
    a: &Action,
    out: &mut Reports,
) -> Result<(), NoMemory>
    ensures ok { OnOk result (out.new ≡ out.old ++ unless a.now.guarded (spec.column_report p.now a.now)) }
    ensures err { OnErr result (out.new ≡ out.old) }
{
    if a.guarded {
        Ok(())
    } else {
        out.push(column_report(alloc, p, a)?)
    }
}

/// Reports an action that can't be run again.
fn report_action(
    alloc: Global,
    p: &Parse<'_>,
    excused: bool,
    a: &Action,
    out: &mut Reports,
) -> Result<(), NoMemory>
    ensures ok { OnOk result (out.new ≡ out.old ++ action_reports p.now excused a.now) }
    ensures err { OnErr result (out.new ≡ out.old) }
{
    if is_drop(a) {
        report_drop(alloc, p, a, out)
    } else if is_add_column(a) {
        report_column(alloc, p, a, out)
    } else if excused {
        Ok(())
    } else {
        out.push(no_transaction(p.span_range(a.first, a.last)))
    }
}

/// Whether the action validates a constraint that was dropped.
fn is_validated_again(dropped: &DroppedConstraints, p: &Parse<'_>, a: &Action) -> bool
    ensures { (es : List Altered) → IsDropping p.now es dropped.now → result ≡ spec.is_validated_again p.now es a.now }
{
    match validated_name(a) {
        Some(number) => dropped.was_dropped(p, number),
        None => false,
    }
}

/// Whether the action adds a constraint that is gone.
fn is_added_again(dropped: &DroppedConstraints, p: &Parse<'_>, a: &Action) -> bool
    ensures { (es : List Altered) → IsDropping p.now es dropped.now → result ≡ spec.is_added_again p.now es a.now }
{
    match added_name(a) {
        Some(number) => dropped.is_gone(p, number),
        None => false,
    }
}

fn is_excused(dropped: &DroppedConstraints, p: &Parse<'_>, a: &Action) -> bool
    ensures { (es : List Altered) → IsDropping p.now es dropped.now → result ≡ spec.is_excused p.now es a.now }
{
    is_validated_again(dropped, p, a) || is_added_again(dropped, p, a)
}

/// Reports on an action of a statement that may be robust.
fn report_unless(
    dropped: &DroppedConstraints,
    alloc: Global,
    p: &Parse<'_>,
    robust: bool,
    a: &Action,
    out: &mut Reports,
) -> Result<(), NoMemory>
    ensures ok { OnOk result ((es : List Altered) → IsDropping p.now es dropped.now → out.new ≡ out.old ++ reports_unless robust p.now es a.now) }
    ensures err { OnErr result (out.new ≡ out.old) }
{
    if robust {
        return Ok(());
    }
    let excused = is_excused(dropped, p, a);
    report_action(alloc, p, excused, a, out)
}

/// Reports on an action, and advances past it.
fn watch_action(
    dropped: &mut DroppedConstraints,
    alloc: Global,
    p: &Parse<'_>,
    robust: bool,
    table: Span,
    a: &Action,
    out: &mut Reports,
) -> Result<(), NoMemory>
    ensures knows { OnOk result ((es : List Altered) → IsDropping p.now es dropped.old → IsDropping p.now (es ++ altered table a.now ∷ []) dropped.new) }
    ensures ok { OnOk result ((es : List Altered) → IsDropping p.now es dropped.old → out.new ≡ out.old ++ report_on robust p.now es (altered table a.now)) }
    ensures err { OnErr result ((es : List Altered) → IsDropping p.now es dropped.old → GrownBy out.old out.new (report_on robust p.now es (altered table a.now))) }
{
    report_unless(dropped, alloc, p, robust, a, out)?;
    dropped.update(p, table, a)
}

/// Reports on the actions of a statement, and advances past them.
fn watch_actions(
    dropped: &mut DroppedConstraints,
    alloc: Global,
    p: &Parse<'_>,
    robust: bool,
    table: Span,
    actions: &[Action],
    out: &mut Reports,
) -> Result<(), NoMemory>
    ensures knows { OnOk result ((es : List Altered) → IsDropping p.now es dropped.old → IsDropping p.now (es ++ map (altered table) actions.now) dropped.new) }
    ensures ok { OnOk result ((es : List Altered) → IsDropping p.now es dropped.old → out.new ≡ out.old ++ each_event (report_on robust p.now) es (map (altered table) actions.now)) }
    ensures err { OnErr result ((es : List Altered) → IsDropping p.now es dropped.old → GrownBy out.old out.new (each_event (report_on robust p.now) es (map (altered table) actions.now))) }
{
    for a in actions {
        watch_action(dropped, alloc, p, robust, table, a, out)?;
    }
    Ok(())
}

/// Reports on what a statement alters, and advances past it.
pub(crate) fn watch_alterations(
    dropped: &mut DroppedConstraints,
    alloc: Global,
    p: &Parse<'_>,
    robust: bool,
    s: &Stmt,
    out: &mut Reports,
) -> Result<(), NoMemory>
    ensures knows { OnOk result ((es : List Altered) → IsDropping p.now es dropped.old → IsDropping p.now (es ++ altered_by s.now) dropped.new) }
    ensures ok { OnOk result ((es : List Altered) → IsDropping p.now es dropped.old → out.new ≡ out.old ++ each_event (report_on robust p.now) es (altered_by s.now)) }
    ensures err { OnErr result ((es : List Altered) → IsDropping p.now es dropped.old → GrownBy out.old out.new (each_event (report_on robust p.now) es (altered_by s.now))) }
{
    match altered_path(s) {
        Some(table) => watch_actions(dropped, alloc, p, robust, table, table_actions(s), out),
        None => Ok(()),
    }
}
