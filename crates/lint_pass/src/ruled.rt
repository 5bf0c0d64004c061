//! What is reported wherever it is, by tables of rows that each name their rule.

ghost use Rattle.std.specs.Prelude.{◌≡◌, ◌++◌, OnOk, OnErr, map};
ghost use Rattle.lint_base.specs.Grown.{GrownBy};
ghost use Rattle.lint_pass.specs.Ruled.{by_ruled, by_ruled_rows, lent_ruled, on_ruled, on_ruled_rows, ruled_concern, ruled_on};

use crate::bans::{Spot, concerns, fits, fits_statement};
use crate::nodes::{Node, NodeReader, report_nodes};
use lint_base::{NoMemory, Reports, Rule, RuleSet, Text, TextRange, Violation};
use lint_ignore::{Parse, Stmt, StmtKind};

/// A table of what is reported: the rule, where, and the message.
pub type RuledRows = &'static [(Rule, Spot, &'static str)];

/// Rows, and the rules that are enabled.
#[derive(Clone, Copy)]
struct RuledRowsOf {
    rules: RuleSet,
    rows: RuledRows,
}

/// Reports a statement where the row's rule is enabled and the row is of its spot.
#[inline(always)]
fn report_on_ruled(
    rules: RuleSet,
    row: &(Rule, Spot, &'static str),
    p: &Parse<'_>,
    s: &Stmt,
    out: &mut Reports,
) -> Result<(), NoMemory>
    ensures ok { OnOk result (out.new ≡ out.old ++ on_ruled rules p.now s.now (lent_ruled row.now)) }
    ensures err { OnErr result (out.new ≡ out.old) }
{
    if rules.contains(row.0) && fits_statement(row.1, s) {
        out.push(Violation::for_range(row.0, Text::fixed(row.2), p.stmt_range(s)))
    } else {
        Ok(())
    }
}

#[inline(always)]
fn report_on_ruled_rows(
    rules: RuleSet,
    rows: RuledRows,
    p: &Parse<'_>,
    s: &Stmt,
    out: &mut Reports,
) -> Result<(), NoMemory>
    ensures ok { OnOk result (out.new ≡ out.old ++ on_ruled_rows rules (map lent_ruled rows.entry.now) p.now s.now) }
    ensures err { OnErr result (GrownBy out.old out.new (on_ruled_rows rules (map lent_ruled rows.entry.now) p.now s.now)) }
{
    for row in rows {
        report_on_ruled(rules, row, p, s, out)?;
    }
    Ok(())
}

/// Reports a node where the row's rule is enabled and the row is of its spot.
#[inline(always)]
fn report_by_ruled(
    rules: RuleSet,
    row: &(Rule, Spot, &'static str),
    at: Node,
    range: TextRange,
    out: &mut Reports,
) -> Result<(), NoMemory>
    ensures ok { OnOk result (out.new ≡ out.old ++ by_ruled rules at range (lent_ruled row.now)) }
    ensures err { OnErr result (out.new ≡ out.old) }
{
    if rules.contains(row.0) && fits(row.1, at) {
        out.push(Violation::for_range(row.0, Text::fixed(row.2), range))
    } else {
        Ok(())
    }
}

#[inline(always)]
fn report_by_ruled_rows(
    rules: RuleSet,
    rows: RuledRows,
    at: Node,
    range: TextRange,
    out: &mut Reports,
) -> Result<(), NoMemory>
    ensures ok { OnOk result (out.new ≡ out.old ++ by_ruled_rows rules (map lent_ruled rows.entry.now) at range) }
    ensures err { OnErr result (GrownBy out.old out.new (by_ruled_rows rules (map lent_ruled rows.entry.now) at range)) }
{
    for row in rows {
        report_by_ruled(rules, row, at, range, out)?;
    }
    Ok(())
}

impl NodeReader for RuledRowsOf {
    ghost use Rattle.std.specs.Prelude.{map};
    ghost use Rattle.lint_pass.specs.Ruled.{by_ruled_rows, lent_ruled, on_ruled_rows};

    ghost on = { λ x. on_ruled_rows x.rules (map lent_ruled x.rows.now) };

    ghost by = { λ x. by_ruled_rows x.rules (map lent_ruled x.rows.now) };

    #[inline(always)]
    fn report_statement(&self, p: &Parse<'_>, s: &Stmt, out: &mut Reports) -> Result<(), NoMemory> {
        report_on_ruled_rows(self.rules, self.rows, p, s, out)
    }

    #[inline(always)]
    fn report_node(&self, at: Node, range: TextRange, out: &mut Reports) -> Result<(), NoMemory> {
        report_by_ruled_rows(self.rules, self.rows, at, range, out)
    }
}

/// Whether some row can report anything in a statement of the kind.
#[inline(always)]
fn rows_concern(rows: RuledRows, kind: StmtKind) -> bool
    ensures { result ≡ ruled_concern rows.entry.now kind }
{
    rows.iter().any(|row| concerns(row.1, kind))
}

/// Reports a statement and the nodes in it, by place, by the rows whose rules are enabled. Most statements concern no
/// row, so their kind is looked at first.
#[inline(always)]
pub fn report_ruled(
    rows: RuledRows,
    rules: &RuleSet,
    p: &Parse<'_>,
    s: &Stmt,
    out: &mut Reports,
) -> Result<(), NoMemory>
    ensures ok { OnOk result (out.new ≡ out.old ++ ruled_on (map lent_ruled rows.entry.now) p.now rules.now s.now) }
    ensures err { OnErr result (GrownBy out.old out.new (ruled_on (map lent_ruled rows.entry.now) p.now rules.now s.now)) }
{
    if rows_concern(rows, s.kind) {
        let reader = RuledRowsOf {
            rules: *rules,
            rows,
        };
        report_nodes(&reader, p, s, out)
    } else {
        Ok(())
    }
}
