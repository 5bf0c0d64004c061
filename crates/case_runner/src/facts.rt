//! Locks, transactions and ignore comments of a tree.

use crate::row::{Show, add_parts, add_yes_or_no};
use case_format::TextBuilder;
use check_progress::NoMemory;
use squawk_cli::{
    Body, Found, IgnorePiece, LockKind, NamePath, OpenTransaction, Parse, Reports, RuleSet, Stmt,
    TablesCreatedInTransaction, Violation, analyze, find_ignores,
    has_disable_assume_in_transaction, ignore_rule_info, unused_pieces,
};
use std::alloc::Global;

/// Whether a statement may take long, and its lock. Used by tests only; no contract.
pub(crate) fn show_lock(row: &mut TextBuilder, p: &Parse<'_>, s: &Stmt) {
    let is_slow = analyze::possibly_slow_stmt(p, s);
    let label = if is_slow { "slow " } else { "quick " };
    row.debug(label, &LockKind::of(p, s));
}

/// For each CREATE INDEX whether its table was created in the open transaction. Used by tests only; no contract.
pub(crate) fn show_created(alloc: Global, row: &mut TextBuilder, p: &Parse<'_>, assumed: bool) {
    let mut created = TablesCreatedInTransaction::new(alloc, assumed);
    for s in p.tree().stmts.as_slice() {
        if let Body::Index { path, .. } = s.body {
            match NamePath::of(alloc, p, path) {
                Ok(path) => add_yes_or_no(row, created.contains(&path)),
                Err(_) => row.fail(),
            }
        }
        if created.update(p, s).is_err() {
            row.fail();
        }
    }
}

/// For each statement and for the end whether a transaction is open before it. Used by tests only; no contract.
pub(crate) fn show_transaction(row: &mut TextBuilder, p: &Parse<'_>, assumed: bool) {
    let mut transaction = OpenTransaction::new(assumed);
    for s in p.tree().stmts.as_slice() {
        add_yes_or_no(row, transaction.inside());
        transaction.update(s);
    }
    add_yes_or_no(row, transaction.inside());
}

/// The ignore comments: the kind of each, its range and its text without the prefix; and `disable` where a comment says
/// that no transaction is to be assumed. Used by tests only; no contract.
pub(crate) fn show_comments(row: &mut TextBuilder, p: &Parse<'_>) {
    for i in 0..p.tokens().len() {
        if let Some((rest, range, kind)) = ignore_rule_info(p, i) {
            row.gap(" ");
            row.debug("", &kind);
            row.range(" ", range);
            row.debug(" ", &rest);
        }
    }
    if has_disable_assume_in_transaction(p) {
        row.word("disable");
    }
}

impl Show for IgnorePiece {
    fn show(&self, row: &mut TextBuilder, _p: &Parse<'_>) {
        row.gap(" ");
        row.debug("", &self.ignore);
        row.range(" ", self.range);
    }
}

impl Show for Violation {
    fn show(&self, row: &mut TextBuilder, _p: &Parse<'_>) {
        row.range(" ", self.text_range);
        row.add(" ");
        row.add(self.message.as_str());
    }
}

fn show_reports(row: &mut TextBuilder, p: &Parse<'_>, reports: &[Violation]) {
    row.word("|");
    add_parts(row, p, "", "", reports);
}

/// What the ignore comments name: each rule with the number of its comment, then the reports of names that are not rules,
/// then those of names that are used by no report, under the default rules. Used by tests only; no contract.
pub(crate) fn show_names(
    alloc: Global,
    row: &mut TextBuilder,
    p: &Parse<'_>,
) -> Result<(), NoMemory> {
    let mut found = Found::new(alloc);
    find_ignores(alloc, p, &mut found)?;
    let mut unused = Reports::new(alloc);
    let rules = RuleSet::all_default();
    unused_pieces(
        alloc,
        p,
        &found.ignores,
        &found.pieces,
        &[],
        &rules,
        &mut unused,
    )?;
    add_parts(row, p, "", "", found.pieces.as_slice());
    show_reports(row, p, found.reports.items());
    show_reports(row, p, unused.items());
    Ok(())
}
