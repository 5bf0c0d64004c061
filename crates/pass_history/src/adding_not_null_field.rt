//! Columns that are set NOT NULL.

ghost use Rattle.std.specs.Prelude.{◌≡◌, ◌++◌, ◌∷◌, [], ◌&&◌, List, map, OnOk, OnErr};
ghost use Rattle.lint_pass.specs.lint_base.Grown.{GrownBy};
ghost use Rattle.lint_pass.specs.lint_node.Altered.{Altered, altered, altered_by};
ghost use Rattle.lint_pass.specs.lint_transaction.Events.{each_event};
ghost use Rattle.lint_pass.specs.Those.{that, those};
ghost use Rattle.pass_history.specs.AddingNotNullField as spec;
ghost use Rattle.pass_history.specs.AddingNotNullField.{action_reports, report_on, sets_not_null};
ghost use Rattle.pass_history.specs.AddingNotNullFieldWalk.{Knows, IsKeyed, has_excuse};

use crate::excused_columns::ExcusedColumns;
use lint_pass::{
    LinterSettings, NoMemory, Reports, Rule, RulePass, Seen, Span, Text, Violation, altered_path,
    same_action, same_piece, table_actions,
};
use sql_tree::{Action, ActionKind, Parse, Piece, PieceKind, Stmt};
use std::alloc::Global;

const MESSAGE: &str = "setting a column `not null` blocks reads while the table is scanned";

const HELP: &str = "make the field nullable and use a `check` constraint instead";

/// Reports each SET NOT NULL of an ALTER TABLE, except, from PostgreSQL 12 on, of a column that a constraint says to have no null: an
/// earlier VALIDATE CONSTRAINT on the same table validated a CHECK that the text added as not valid, and that reads COLUMN IS NOT NULL.
/// Where the text doesn't show what was validated, the validation excuses every column of its table.
///
/// To see that there is no null, the whole table is scanned under an ACCESS EXCLUSIVE lock: reads and writes wait until the scan is
/// done, which on a large table takes minutes. Where a valid CHECK proves it, the scan is left out. Adding the CHECK as not valid and
/// validating it later scans the table too, but under a lock that lets reads and writes go on.
///
/// PostgreSQL manual, ALTER TABLE, "SET/DROP NOT NULL" and "VALIDATE CONSTRAINT".
#[derive(Drop)]
pub struct AddingNotNullField;

/// The name of the column that an action alters.
fn altered_column(a: &Action) -> Option<u32>
    ensures { result ≡ spec.altered_column a.now }
{
    if same_action(a.kind, ActionKind::AlterColumn) {
        a.name
    } else {
        None
    }
}

#[tactic(auto, unfolding(crate::specs::AddingNotNullField::report))]
fn report(p: &Parse<'_>, piece: &Piece) -> Violation
    ensures { result ≡ spec.report p.now piece.now }
{
    Violation {
        code: Rule::AddingNotNullableField,
        message: Text::plain(MESSAGE),
        text_range: p.span_range(piece.first, piece.last),
        note: None,
        help: Some(Text::plain(HELP)),
        fix: None,
    }
}

fn report_piece(p: &Parse<'_>, piece: &Piece, out: &mut Reports) -> Result<(), NoMemory>
    ensures ok { OnOk result (out.new ≡ out.old ++ that sets_not_null (spec.report p.now) piece.now) }
    ensures err { OnErr result (out.new ≡ out.old) }
{
    if same_piece(piece.kind, PieceKind::SetNotNull) {
        out.push(report(p, piece))
    } else {
        Ok(())
    }
}

fn report_pieces(p: &Parse<'_>, pieces: &[Piece], out: &mut Reports) -> Result<(), NoMemory>
    ensures ok { OnOk result (out.new ≡ out.old ++ those sets_not_null (spec.report p.now) pieces.now) }
    ensures err { OnErr result (GrownBy out.old out.new (those sets_not_null (spec.report p.now) pieces.now)) }
{
    for piece in pieces {
        report_piece(p, piece, out)?;
    }
    Ok(())
}

/// Reports what an action sets NOT NULL, where its column is not excused.
fn report_action(
    known: &ExcusedColumns,
    p: &Parse<'_>,
    uses: bool,
    table: Span,
    a: &Action,
    out: &mut Reports,
) -> Result<(), NoMemory>
    requires { IsKeyed known.now }
    ensures ok { OnOk result (out.new ≡ out.old ++ action_reports p.now (λ t c. uses && has_excuse p.now known.now t c) table.last a.now (spec.altered_column a.now)) }
    ensures err { OnErr result (GrownBy out.old out.new (action_reports p.now (λ t c. uses && has_excuse p.now known.now t c) table.last a.now (spec.altered_column a.now))) }
{
    match altered_column(a) {
        Some(column) => {
            if uses && known.contains(p, table, column) {
                return Ok(());
            }
            report_pieces(p, a.pieces.as_slice(), out)
        }
        None => Ok(()),
    }
}

/// Reports on an action, and advances past it.
fn watch_action(
    known: &mut ExcusedColumns,
    p: &Parse<'_>,
    uses: bool,
    table: Span,
    a: &Action,
    out: &mut Reports,
) -> Result<(), NoMemory>
    requires { IsKeyed known.old }
    ensures keyed { IsKeyed known.new }
    ensures knows { OnOk result ((es : List Altered) → Knows uses p.now es known.old → Knows uses p.now (es ++ altered table a.now ∷ []) known.new) }
    ensures ok { OnOk result ((es : List Altered) → Knows uses p.now es known.old → out.new ≡ out.old ++ report_on uses p.now es (altered table a.now)) }
    ensures err { OnErr result ((es : List Altered) → Knows uses p.now es known.old → GrownBy out.old out.new (report_on uses p.now es (altered table a.now))) }
{
    report_action(known, p, uses, table, a, out)?;
    if uses {
        known.update(p, table, a)
    } else {
        Ok(())
    }
}

/// Reports on the actions of a statement, and advances past them.
fn watch_actions(
    known: &mut ExcusedColumns,
    p: &Parse<'_>,
    uses: bool,
    table: Span,
    actions: &[Action],
    out: &mut Reports,
) -> Result<(), NoMemory>
    requires { IsKeyed known.old }
    ensures keyed { IsKeyed known.new }
    ensures knows { OnOk result ((es : List Altered) → Knows uses p.now es known.old → Knows uses p.now (es ++ map (altered table) actions.now) known.new) }
    ensures ok { OnOk result ((es : List Altered) → Knows uses p.now es known.old → out.new ≡ out.old ++ each_event (report_on uses p.now) es (map (altered table) actions.now)) }
    ensures err { OnErr result ((es : List Altered) → Knows uses p.now es known.old → GrownBy out.old out.new (each_event (report_on uses p.now) es (map (altered table) actions.now))) }
{
    for a in actions {
        watch_action(known, p, uses, table, a, out)?;
    }
    Ok(())
}

/// Reports on a statement, and advances past it.
fn watch(
    known: &mut ExcusedColumns,
    p: &Parse<'_>,
    uses: bool,
    s: &Stmt,
    out: &mut Reports,
) -> Result<(), NoMemory>
    requires { IsKeyed known.old }
    ensures keyed { IsKeyed known.new }
    ensures knows { OnOk result ((es : List Altered) → Knows uses p.now es known.old → Knows uses p.now (es ++ altered_by s.now) known.new) }
    ensures ok { OnOk result ((es : List Altered) → Knows uses p.now es known.old → out.new ≡ out.old ++ each_event (report_on uses p.now) es (altered_by s.now)) }
    ensures err { OnErr result ((es : List Altered) → Knows uses p.now es known.old → GrownBy out.old out.new (each_event (report_on uses p.now) es (altered_by s.now))) }
{
    match altered_path(s) {
        Some(table) => watch_actions(known, p, uses, table, table_actions(s), out),
        None => Ok(()),
    }
}

/// Whether the version leaves the scan out where a constraint says that the column has no null.
fn uses_checks(set: &LinterSettings) -> bool
    ensures { result ≡ spec.uses_checks set.now }
{
    set.pg_version[0] > 11
}

impl RulePass for AddingNotNullField {
    ghost use Rattle.std.specs.Prelude.{false};
    ghost use Rattle.lint_pass.specs.lint_base.declared.rule.Rule.TheVariants as rule;
    ghost use Rattle.pass_history.specs.History.{altered_below};
    ghost use Rattle.pass_history.specs.AddingNotNullField.{not_null_of, uses_checks};
    ghost use Rattle.pass_history.specs.AddingNotNullFieldReports.{not_null_coded, not_null_placed};
    ghost use Rattle.pass_history.specs.AddingNotNullFieldWalk.{IsWatching};

    type Memory = ExcusedColumns;

    ghost code = { λ _. rule.AddingNotNullableField };

    ghost knows = { λ _ known tree set i. IsWatching (uses_checks set) tree (altered_below tree i) known };

    ghost wants = { λ _. false };

    ghost reports = { λ _. not_null_of };

    ghost coded = { λ _. not_null_coded };

    ghost placed = { λ _. not_null_placed };

    fn code(&self) -> Rule {
        Rule::AddingNotNullableField
    }

    fn wants_blocks(&self) -> bool {
        false
    }

    fn begin(&self, alloc: Global, _set: &LinterSettings) -> Result<ExcusedColumns, NoMemory> {
        Ok(ExcusedColumns::new(alloc))
    }

    fn visit(
        &self,
        known: &mut ExcusedColumns,
        p: &Parse<'_>,
        _i: u32,
        s: &Stmt,
        _seen: &Seen<'_>,
        set: &LinterSettings,
        out: &mut Reports,
    ) -> Result<(), NoMemory> {
        watch(known, p, uses_checks(set), s, out)?;
        Ok(())
    }
}
