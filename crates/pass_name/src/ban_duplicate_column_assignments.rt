//! Columns that are named twice.

ghost use Rattle.std.specs.Prelude.{◌≡◌, ◌++◌, map, None, IfOk, OnOk, OnErr};
ghost use Rattle.std.specs.List.{flat_map};
ghost use Rattle.lint_pass.specs.lint_base.Grown.{GrownBy};
ghost use Rattle.pass_name.specs.BanDuplicateColumnAssignments as spec;
ghost use Rattle.pass_name.specs.BanDuplicateColumnAssignments.{reports_of_ban_duplicate_column_assignments};
ghost use Rattle.pass_name.specs.Members as written;
ghost use Rattle.pass_name.specs.Members.{lists_before, lists_from};
ghost use Rattle.pass_name.specs.declared.members.ListKind.TheVariants as as_list;

use crate::duplicate_report::{are_partial, fix_of, report};
use crate::grouping::{are_apart, gather};
use crate::lists::{assigned, columns_of, first_name, first_token, members_of};
use crate::members::{ListKind, Member};
use lint_pass::{
    Body, LinterSettings, NoMemory, Parse, Reports, Rule, RulePass, Seen, SetPart, Stmt, Target,
    ViewDefinition,
};
use sqlite_items::Items;
use std::alloc::Global;

/// Reports each name that is twice in one list of columns: of CREATE TABLE, of a view or of what its query gives, of SELECT INTO, of
/// INSERT, and of a SET clause. Equal names are those whose first 63 bytes are equal.
///
/// PostgreSQL refuses such a statement only when it runs, so the migration that has it stops there, with what came before it done or
/// undone. Two elements or two fields of one column may be set, as in `SET a[1] = 1, a[2] = 2`.
///
/// The fix, for a SET clause, keeps the last part that sets the column, and deletes the others.
///
/// PostgreSQL manual, UPDATE, "column_name"; INSERT, "column_name"; CREATE TABLE, "column_name"; section 4.1.1 on equal names.
#[derive(Drop)]
pub struct BanDuplicateColumnAssignments;

/// Lists of up to so many names are looked through pair by pair.
const FEW: usize = 8;

/// Reports the names before the last one of a group.
fn report_earlier(
    alloc: Global,
    kind: ListKind,
    p: &Parse<'_>,
    members: &[Member],
    out: &mut Reports,
) -> Result<(), NoMemory>
    ensures { OnOk result (out.new ≡ out.old ++ map (spec.report kind p.now None) members.now) }
{
    for m in members {
        out.push(report(alloc, kind, p, None, *m)?)?;
    }
    Ok(())
}

/// Reports the names of a group, unless all of them are partial.
#[tactic(auto, unfolding(crate::specs::BanDuplicateColumnAssignments::reports_of_group))]
fn report_group(
    alloc: Global,
    kind: ListKind,
    p: &Parse<'_>,
    group: &[Member],
    out: &mut Reports,
) -> Result<(), NoMemory>
    ensures { OnOk result (out.new ≡ out.old ++ spec.reports_of_group kind p.now group.now) }
{
    if are_partial(group) {
        return Ok(());
    }
    let last = group[group.len() - 1];
    let earlier = &group[..group.len() - 1];
    report_earlier(alloc, kind, p, earlier, out)?;
    let fix = fix_of(alloc, p, earlier, last)?;
    out.push(report(alloc, kind, p, fix, last)?)
}

/// Reports the names that are twice in a list. Most lists are short and have none, which is found out without memory.
fn report_names(
    alloc: Global,
    kind: ListKind,
    p: &Parse<'_>,
    names: &[Member],
    out: &mut Reports,
) -> Result<(), NoMemory>
    ensures { OnOk result (out.new ≡ out.old ++ spec.reports_of_names kind p.now names.now) }
{
    if names.len() <= FEW && are_apart(p, names) {
        return Ok(());
    }
    for group in &gather(alloc, p, names)? {
        report_group(alloc, kind, p, group.as_slice(), out)?;
    }
    Ok(())
}

fn report_list(
    alloc: Global,
    kind: ListKind,
    p: &Parse<'_>,
    targets: &[Target],
    out: &mut Reports,
) -> Result<(), NoMemory>
    ensures { OnOk result (out.new ≡ out.old ++ spec.reports_of_list kind p.now targets.now) }
{
    let names = members_of(alloc, targets)?;
    report_names(alloc, kind, p, names.as_slice(), out)
}

/// Reports the lists that begin before a token, and gives the others.
#[tactic(auto, unfolding(crate::specs::Members::lists_before, crate::specs::Members::lists_from))]
fn report_before<'a>(
    alloc: Global,
    p: &Parse<'_>,
    token: u32,
    lists: &'a [Items<Target>],
    out: &mut Reports,
) -> Result<&'a [Items<Target>], NoMemory>
    ensures left { IfOk result (λ left. left.now ≡ lists_from token lists.now) }
    ensures ok { OnOk result (out.new ≡ out.old ++ flat_map (spec.reports_of_list as_list.Written p.now) (lists_before token lists.now)) }
{
    let mut rest = lists;
    while let Some((list, later)) = rest.split_first() {
        if first_name(list.as_slice()) >= token {
            return Ok(rest);
        }
        report_list(alloc, ListKind::Written, p, list.as_slice(), out)?;
        rest = later;
    }
    Ok(rest)
}

fn report_lists(
    alloc: Global,
    p: &Parse<'_>,
    lists: &[Items<Target>],
    out: &mut Reports,
) -> Result<(), NoMemory>
    ensures { OnOk result (out.new ≡ out.old ++ flat_map (spec.reports_of_list as_list.Written p.now) lists.now) }
{
    for list in lists {
        report_list(alloc, ListKind::Written, p, list.as_slice(), out)?;
    }
    Ok(())
}

/// Reports a SET clause.
fn report_set(
    alloc: Global,
    p: &Parse<'_>,
    parts: &[SetPart],
    out: &mut Reports,
) -> Result<(), NoMemory>
    ensures { OnOk result (out.new ≡ out.old ++ spec.reports_of_names as_list.Written p.now (written.assigned parts.now)) }
{
    let names = assigned(alloc, parts)?;
    report_names(alloc, ListKind::Written, p, names.as_slice(), out)
}

/// Reports the clauses and lists of an INSERT, UPDATE or MERGE in order of place.
#[tactic(auto, unfolding(crate::specs::BanDuplicateColumnAssignments::reports_of_write))]
fn report_write(
    alloc: Global,
    p: &Parse<'_>,
    sets: &[Items<SetPart>],
    lists: &[Items<Target>],
    out: &mut Reports,
) -> Result<(), NoMemory>
    ensures { OnOk result (out.new ≡ out.old ++ spec.reports_of_write p.now sets.now lists.now) }
{
    let mut lists = lists;
    let mut rest = sets;
    while let Some((set, later)) = rest.split_first() {
        lists = report_before(alloc, p, first_token(set.as_slice()), lists, out)?;
        report_set(alloc, p, set.as_slice(), out)?;
        rest = later;
    }
    report_lists(alloc, p, lists, out)
}

/// A view's columns, or, where it names none, what its query gives.
fn view_names(view: &ViewDefinition) -> &[Target]
    ensures { result.now ≡ spec.view_names view.now }
{
    if view.columns.len() == 0 {
        view.targets.as_slice()
    } else {
        view.columns.as_slice()
    }
}

/// Reports the lists of a statement.
#[tactic(auto, unfolding(crate::specs::BanDuplicateColumnAssignments::reports_of_ban_duplicate_column_assignments))]
fn report_stmt(alloc: Global, p: &Parse<'_>, s: &Stmt, out: &mut Reports) -> Result<(), NoMemory>
    ensures { OnOk result (out.new ≡ out.old ++ reports_of_ban_duplicate_column_assignments p.now s.now) }
{
    match &s.body {
        Body::Table { elems, .. } => {
            let names = columns_of(alloc, elems.as_slice())?;
            report_names(alloc, ListKind::Columns, p, names.as_slice(), out)
        }
        Body::Into { targets, .. } => {
            report_list(alloc, ListKind::Columns, p, targets.as_slice(), out)
        }
        Body::View(view) => report_list(alloc, ListKind::Columns, p, view_names(view.get()), out),
        Body::Write(write) => {
            let write = write.get();
            report_write(alloc, p, write.sets.as_slice(), write.lists.as_slice(), out)
        }
        _ => Ok(()),
    }
}

/// Whether a statement is of a kind that lists columns.
#[inline(always)]
fn lists_columns(s: &Stmt) -> bool
    ensures { result ≡ spec.lists_columns s.now.body }
{
    matches!(
        &s.body,
        Body::Table { .. } | Body::Into { .. } | Body::View(_) | Body::Write(_)
    )
}

/// Adds the reports of a statement.
fn add_reports(alloc: Global, p: &Parse<'_>, s: &Stmt, out: &mut Reports) -> Result<(), NoMemory>
    ensures ok { OnOk result (out.new ≡ out.old ++ reports_of_ban_duplicate_column_assignments p.now s.now) }
    ensures err { OnErr result (GrownBy out.old out.new (reports_of_ban_duplicate_column_assignments p.now s.now)) }
{
    if !lists_columns(s) {
        return Ok(());
    }
    let mut made = Reports::new(alloc);
    report_stmt(alloc, p, s, &mut made)?;
    out.append(made)
}

impl RulePass for BanDuplicateColumnAssignments {
    ghost use Rattle.std.specs.Prelude.{false};
    ghost use Rattle.lint_pass.specs.lint_base.declared.rule.Rule.TheVariants as rule;
    ghost use Rattle.lint_pass.specs.lint_transaction.Transaction.{stmt_at};
    ghost use Rattle.pass_name.specs.BanDuplicateColumnAssignmentsLaws.{duplicates_coded, duplicates_placed};
    ghost use Rattle.pass_name.specs.BanDuplicateColumnAssignments.{reports_of_ban_duplicate_column_assignments};

    type Memory = Global;

    ghost code = { λ _. rule.BanDuplicateColumnAssignments };

    ghost knows = { λ _ _ _ _ _. Unit {0} };

    ghost wants = { λ _. false };

    ghost reports = { λ _ tree _ i. reports_of_ban_duplicate_column_assignments tree (stmt_at tree i) };

    ghost coded = { λ _ tree _ i. duplicates_coded tree (stmt_at tree i) };

    ghost placed = { λ _ tree _ i read. duplicates_placed tree i read };

    fn code(&self) -> Rule {
        Rule::BanDuplicateColumnAssignments
    }

    fn wants_blocks(&self) -> bool {
        false
    }

    fn begin(&self, alloc: Global, _set: &LinterSettings) -> Result<Global, NoMemory> {
        Ok(alloc)
    }

    fn visit(
        &self,
        memory: &mut Global,
        p: &Parse<'_>,
        _i: u32,
        s: &Stmt,
        _seen: &Seen<'_>,
        _set: &LinterSettings,
        out: &mut Reports,
    ) -> Result<(), NoMemory> {
        add_reports(*memory, p, s, out)
    }
}
