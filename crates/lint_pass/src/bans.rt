//! What is reported wherever it is, by tables of rows.

ghost use Rattle.std.specs.Prelude.{◌≡◌, ◌++◌, OnOk, OnErr, map};
ghost use Rattle.lint_base.specs.Grown.{GrownBy};
ghost use Rattle.lint_pass.specs.Bans as spec;
ghost use Rattle.lint_pass.specs.Bans.{bans_on, by_row, by_rows, lent, note_of, on_row, on_rows};
ghost use Rattle.lint_pass.specs.declared.nodes.Node.TheVariants as node;

use crate::nodes::{Node, NodeReader, report_nodes};
use crate::statement_pass::StatementPass;
use lint_base::{LinterSettings, NoMemory, Reports, Rule, Text, TextRange, Violation};
use lint_ignore::{ActionKind, ConKind, Parse, PieceKind, Stmt, StmtKind};
use lint_node::{
    actions_of, has_action, replaces, same_action, same_constraint, same_kind, same_piece,
};
use std::alloc::Global;

/// What a row reports.
#[derive(Clone, Copy)]
pub enum Spot {
    /// Statements of the kind.
    Statement(StmtKind),
    /// Statements of the kind that say OR REPLACE.
    Replacing(StmtKind),
    /// Statements of the kind that have an action of the kind.
    Having(StmtKind, ActionKind),
    /// Actions of the kind, of statements of the kind.
    Action(StmtKind, ActionKind),
    /// Actions of the kind.
    AnyAction(ActionKind),
    /// Constraints of the kind of a column that a statement of the kind adds.
    NewColumn(StmtKind, ConKind),
    /// Pieces of the kind, of statements of the kind.
    Piece(StmtKind, PieceKind),
    /// SET GENERATED ALWAYS, of statements of the kind.
    Always(StmtKind),
}

/// A table of what is reported: where, the message, and the note, empty where there is none.
pub type BanRows = &'static [(Spot, &'static str, &'static str)];

/// A pass of one rule that is a table of rows.
pub trait BanPass {
    ghost use Rattle.std.specs.Prelude.{List, map};
    ghost use Rattle.lint_base.specs.declared.rule.Rule.{Rule};
    ghost use Rattle.lint_pass.specs.Bans.{BanRow, lent};

    /// Its rule.
    ghost code: { Self → Rule };

    /// Its rows.
    ghost rows: { Self → List BanRow };

    /// Its rule.
    fn code(&self) -> Rule
        ensures { result ≡ code self.now };

    /// Its rows.
    fn rows(&self) -> BanRows
        ensures { map lent result.now ≡ rows self.now };
}

/// Whether the spot is that of the statement.
#[inline(always)]
pub(crate) fn fits_statement(spot: Spot, s: &Stmt) -> bool
    ensures { result ≡ spec.fits_statement spot s.now }
{
    match spot {
        Spot::Statement(k) => same_kind(k, s.kind),
        Spot::Replacing(k) => same_kind(k, s.kind) && replaces(s),
        Spot::Having(k, a) => same_kind(k, s.kind) && has_action(a, actions_of(s)),
        _ => false,
    }
}

/// Whether a row of the spot can report anything in a statement of the kind.
#[inline(always)]
pub(crate) fn concerns(spot: Spot, kind: StmtKind) -> bool
    ensures { result ≡ spec.concerns spot kind }
{
    match spot {
        Spot::Statement(k)
        | Spot::Replacing(k)
        | Spot::Having(k, _)
        | Spot::Action(k, _)
        | Spot::NewColumn(k, _)
        | Spot::Piece(k, _)
        | Spot::Always(k) => same_kind(k, kind),
        Spot::AnyAction(_) => true,
    }
}

/// Whether the spot is that of the node.
#[inline(always)]
pub(crate) fn fits(spot: Spot, at: Node) -> bool
    ensures { result ≡ spec.fits spot at }
{
    match (spot, at) {
        (Spot::Action(k, a), Node::Action(n, b)) => same_kind(k, n) && same_action(a, b),
        (Spot::AnyAction(a), Node::Action(_, b)) => same_action(a, b),
        (Spot::NewColumn(k, c), Node::Constraint(n, b)) => {
            same_kind(k, n) && same_constraint(c, b)
        }
        (Spot::Piece(k, a), Node::Piece(n, b, _)) => same_kind(k, n) && same_piece(a, b),
        (Spot::Always(k), Node::Piece(n, b, always)) => {
            same_kind(k, n) && (same_piece(PieceKind::SetGenerated, b) && always)
        }
        _ => false,
    }
}

/// No note is written as the empty text.
fn note_of(note: &'static str) -> Option<Text>
    ensures { result ≡ note_of note.entry.now }
{
    if note.is_empty() {
        None
    } else {
        Some(Text::fixed(note))
    }
}

/// The report of a row.
#[cold]
#[inline(never)]
pub(crate) fn ban_report(
    code: Rule,
    message: &'static str,
    note: &'static str,
    range: TextRange,
) -> Violation
    ensures { result ≡ spec.ban_report code message.entry.now note.entry.now range }
{
    Violation {
        code,
        message: Text::fixed(message),
        text_range: range,
        note: note_of(note),
        help: None,
        fix: None,
    }
}

/// The rows of a rule.
#[derive(Clone, Copy)]
struct RowsOf {
    code: Rule,
    rows: BanRows,
}

/// Reports a statement where the row is of its spot.
#[inline(always)]
fn report_on(
    code: Rule,
    row: &(Spot, &'static str, &'static str),
    p: &Parse<'_>,
    s: &Stmt,
    out: &mut Reports,
) -> Result<(), NoMemory>
    ensures ok { OnOk result (out.new ≡ out.old ++ on_row code p.now s.now (lent row.now)) }
    ensures err { OnErr result (out.new ≡ out.old) }
{
    if fits_statement(row.0, s) {
        out.push(ban_report(code, row.1, row.2, p.stmt_range(s)))
    } else {
        Ok(())
    }
}

/// Reports a statement by each row.
#[inline(always)]
fn report_on_rows(
    code: Rule,
    rows: BanRows,
    p: &Parse<'_>,
    s: &Stmt,
    out: &mut Reports,
) -> Result<(), NoMemory>
    ensures ok { OnOk result (out.new ≡ out.old ++ on_rows code (map lent rows.entry.now) p.now s.now) }
    ensures err { OnErr result (GrownBy out.old out.new (on_rows code (map lent rows.entry.now) p.now s.now)) }
{
    for row in rows {
        report_on(code, row, p, s, out)?;
    }
    Ok(())
}

/// Reports a node where the row is of its spot.
#[inline(always)]
fn report_by(
    code: Rule,
    row: &(Spot, &'static str, &'static str),
    at: Node,
    range: TextRange,
    out: &mut Reports,
) -> Result<(), NoMemory>
    ensures ok { OnOk result (out.new ≡ out.old ++ by_row code at range (lent row.now)) }
    ensures err { OnErr result (out.new ≡ out.old) }
{
    if fits(row.0, at) {
        out.push(ban_report(code, row.1, row.2, range))
    } else {
        Ok(())
    }
}

/// Reports a node by each row.
#[inline(always)]
fn report_by_rows(
    code: Rule,
    rows: BanRows,
    at: Node,
    range: TextRange,
    out: &mut Reports,
) -> Result<(), NoMemory>
    ensures ok { OnOk result (out.new ≡ out.old ++ by_rows code (map lent rows.entry.now) at range) }
    ensures err { OnErr result (GrownBy out.old out.new (by_rows code (map lent rows.entry.now) at range)) }
{
    for row in rows {
        report_by(code, row, at, range, out)?;
    }
    Ok(())
}

impl NodeReader for RowsOf {
    ghost use Rattle.std.specs.Prelude.{map};
    ghost use Rattle.lint_pass.specs.Bans.{by_rows, lent, on_rows};

    ghost on = { λ x. on_rows x.code (map lent x.rows.now) };

    ghost by = { λ x. by_rows x.code (map lent x.rows.now) };

    #[inline(always)]
    fn report_statement(&self, p: &Parse<'_>, s: &Stmt, out: &mut Reports) -> Result<(), NoMemory> {
        report_on_rows(self.code, self.rows, p, s, out)
    }

    #[inline(always)]
    fn report_node(&self, at: Node, range: TextRange, out: &mut Reports) -> Result<(), NoMemory> {
        report_by_rows(self.code, self.rows, at, range, out)
    }
}

/// Whether some row can report anything in a statement of the kind.
#[inline(always)]
fn rows_concern(rows: BanRows, kind: StmtKind) -> bool
    ensures { result ≡ spec.rows_concern rows.entry.now kind }
{
    rows.iter().any(|row| concerns(row.0, kind))
}

/// Reports a statement and the nodes in it by the rows. Most statements concern no row, so their kind is looked at first.
#[inline(always)]
fn report_bans(
    code: Rule,
    rows: BanRows,
    p: &Parse<'_>,
    s: &Stmt,
    out: &mut Reports,
) -> Result<(), NoMemory>
    ensures ok { OnOk result (out.new ≡ out.old ++ bans_on code (map lent rows.entry.now) p.now s.now) }
    ensures err { OnErr result (GrownBy out.old out.new (bans_on code (map lent rows.entry.now) p.now s.now)) }
{
    if rows_concern(rows, s.kind) {
        report_nodes(&RowsOf { code, rows }, p, s, out)
    } else {
        Ok(())
    }
}

impl<T: BanPass> StatementPass for T {
    ghost use Rattle.lint_pass.specs.Bans.{bans_on};
    ghost use Rattle.lint_pass.specs.BanLaws.{bans_coded, bans_placed};

    ghost code = { T.code };

    ghost reports = { λ x tree _ t. bans_on (T.code x) (T.rows x) tree t };

    ghost coded = { λ x tree _ t. bans_coded (T.code x) (T.rows x) tree t };

    ghost placed = { λ x tree _ t read. bans_placed (T.code x) (T.rows x) tree t read };

    fn code(&self) -> Rule {
        BanPass::code(self)
    }

    #[inline(always)]
    fn report(
        &self,
        _alloc: Global,
        p: &Parse<'_>,
        s: &Stmt,
        _set: &LinterSettings,
        out: &mut Reports,
    ) -> Result<(), NoMemory> {
        report_bans(BanPass::code(self), self.rows(), p, s, out)
    }
}
