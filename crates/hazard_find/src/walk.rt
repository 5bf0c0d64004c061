//! What is found in a text.

ghost use Rattle.std.specs.Prelude.{◌≡◌, ◌++◌, ◌+◌, ℕ, IfOk, OnOk};
ghost use Rattle.std.specs.List.{flat_map};
ghost use Rattle.lint_node.specs.Parts.{table_actions};
ghost use Rattle.lint_transaction.specs.Transaction.{stmt_at};
ghost use Rattle.hazard_find.specs.Earlier.{is_assumed};
ghost use Rattle.hazard_find.specs.Findings as spec;
ghost use Rattle.hazard_find.specs.Findings.{enabled_of, findings_of};
ghost use Rattle.hazard_find.specs.Guards as later;
ghost use Rattle.hazard_find.specs.Walk.{IsKept};

use crate::earlier::Earlier;
use crate::finding::{
    action_rewrite_finding, check_finding, detach_finding, json_finding, kept_finding,
    refresh_finding, refused_finding, rewrite_finding, serial_finding, timeout_finding,
};
use crate::guards::{Look, find_looks};
use crate::here::{Here, is_assumed, known_at};
use hazard_base::{Finding, HazardSet, LinterSettings, NoMemory};
use lint_ignore::{Action, Constraint, Parse, Stmt};
use lint_node::{new_constraints, table_actions};
use std::alloc::Global;

/// Adds a finding, if there is one and its hazard is enabled.
fn push(
    list: &mut Vec<Finding>,
    enabled: &HazardSet,
    found: Option<Finding>,
) -> Result<(), NoMemory>
    ensures { OnOk result (list.new.items ≡ list.old.items ++ enabled_of enabled.now found) }
{
    if let Some(finding) = found {
        if enabled.contains(finding.hazard) {
            list.push(finding)?;
        }
    }
    Ok(())
}

/// Adds the findings of the constraints of a new column.
#[tactic(auto, unfolding(crate::specs::Findings::check_findings))]
fn push_checks(
    list: &mut Vec<Finding>,
    enabled: &HazardSet,
    here: Here,
    p: &Parse<'_>,
    constraints: &[Constraint],
) -> Result<(), NoMemory>
    ensures { OnOk result (list.new.items ≡ list.old.items ++ spec.check_findings enabled.now here p.now constraints.now) }
{
    for c in constraints {
        push(list, enabled, check_finding(here, p, c))?;
    }
    Ok(())
}

/// Adds the findings of an action.
#[tactic(auto, unfolding(crate::specs::Findings::action_findings))]
fn push_action(
    list: &mut Vec<Finding>,
    enabled: &HazardSet,
    here: Here,
    p: &Parse<'_>,
    a: &Action,
) -> Result<(), NoMemory>
    ensures { OnOk result (list.new.items ≡ list.old.items ++ spec.action_findings enabled.now here p.now a.now) }
{
    push(list, enabled, detach_finding(here, p, a))?;
    push(list, enabled, action_rewrite_finding(here, p, a))?;
    push(list, enabled, serial_finding(here, p, a))?;
    push(list, enabled, json_finding(here, p, a))?;
    push_checks(list, enabled, here, p, new_constraints(a))
}

/// Adds the findings of the actions of an ALTER TABLE.
fn push_actions(
    list: &mut Vec<Finding>,
    enabled: &HazardSet,
    here: Here,
    p: &Parse<'_>,
    actions: &[Action],
) -> Result<(), NoMemory>
    ensures { OnOk result (list.new.items ≡ list.old.items ++ flat_map (spec.action_findings enabled.now here p.now) actions.now) }
{
    for a in actions {
        push_action(list, enabled, here, p, a)?;
    }
    Ok(())
}

/// Adds the findings of a statement as a whole.
#[tactic(auto, unfolding(crate::specs::Findings::statement_findings))]
fn push_statement(
    list: &mut Vec<Finding>,
    enabled: &HazardSet,
    here: Here,
    p: &Parse<'_>,
    s: &Stmt,
) -> Result<(), NoMemory>
    ensures { OnOk result (list.new.items ≡ list.old.items ++ spec.statement_findings enabled.now here p.now s.now) }
{
    push(list, enabled, refused_finding(here, p, s))?;
    push(list, enabled, rewrite_finding(here, p, s))?;
    push(list, enabled, timeout_finding(here, p, s))?;
    push(list, enabled, kept_finding(here, p, s))?;
    push(list, enabled, refresh_finding(here, p, s))
}

/// Adds the findings of a statement, by what is known of it.
#[tactic(auto, unfolding(crate::specs::Findings::findings_by))]
fn push_findings(
    list: &mut Vec<Finding>,
    enabled: &HazardSet,
    here: Here,
    p: &Parse<'_>,
    s: &Stmt,
) -> Result<(), NoMemory>
    ensures { OnOk result (list.new.items ≡ list.old.items ++ spec.findings_by enabled.now p.now here s.now) }
{
    push_statement(list, enabled, here, p, s)?;
    push_actions(list, enabled, here, p, table_actions(s))
}

/// Adds the findings of statement `i`, and goes past it.
fn step<'t>(
    list: &mut Vec<Finding>,
    earlier: &mut Earlier<'t>,
    looks: &[Look],
    enabled: &HazardSet,
    p: &Parse<'t>,
    set: &LinterSettings,
    i: usize,
    s: &Stmt,
) -> Result<(), NoMemory>
    requires statement { s.now ≡ stmt_at p.now i }
    requires looks { looks.now ≡ later.looks p.now }
    ensures kept { OnOk result (IsKept p.now (is_assumed set.now p.now) i earlier.old
        → IsKept p.now (is_assumed set.now p.now) (i + 1) earlier.new) }
    ensures found { OnOk result (IsKept p.now (is_assumed set.now p.now) i earlier.old
        → list.new.items ≡ list.old.items ++ spec.findings_at enabled.now set.now p.now i) }
{
    push_findings(list, enabled, known_at(earlier, looks, p, set, i, s)?, p, s)?;
    earlier.update(p, s)
}

/// The findings of the enabled hazards, statement by statement. Those of a whole statement come before those of its actions.
///
/// A transaction is open at the start where the settings assume one, unless a comment of the text says that none is to be assumed.
/// Ignore comments have no effect here. The only error is that memory runs out.
pub fn find(
    alloc: Global,
    file: &Parse<'_>,
    set: &LinterSettings,
    enabled: &HazardSet,
) -> Result<Vec<Finding>, NoMemory>
    ensures { IfOk result (λ list. list.items ≡ findings_of enabled.now set.now file.now) }
{
    let stmts = file.tree().stmts.as_slice();
    let mut earlier = Earlier::new(alloc, is_assumed(file, set));
    let looks = find_looks(alloc, file)?;
    let mut list = Vec::new(alloc);
    for i in 0..stmts.len() {
        step(
            &mut list,
            &mut earlier,
            &looks,
            enabled,
            file,
            set,
            i,
            &stmts[i],
        )?;
    }
    Ok(list)
}
