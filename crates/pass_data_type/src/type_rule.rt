//! Rules on the types of columns.

ghost use Rattle.std.specs.Prelude.{◌≡◌, ◌++◌, OnOk, OnErr};
ghost use Rattle.lint_pass.specs.lint_base.Grown.{GrownBy};
ghost use Rattle.lint_pass.specs.lint_node.ColumnTypes.{column_types};
ghost use Rattle.lint_pass.specs.Those.{that, those};
ghost use Rattle.pass_data_type.specs.TypedKinds as spec;

use lint_pass::{ColType, NoMemory, Parse, Reports, Stmt, StmtKind, column_types, same_kind};
use std::alloc::Global;

/// A rule on the type of a column: each type is reported or not, by itself.
pub(crate) trait TypeRule {
    ghost use Rattle.std.specs.Prelude.{Bool};
    ghost use Rattle.lint_pass.specs.sql_tree.declared.nodes.ColType.{ColType};
    ghost use Rattle.lint_pass.specs.sql_tree.Statement.{Tree};
    ghost use Rattle.lint_pass.specs.lint_base.declared.violation.Violation.{Violation};

    /// Whether a type is reported.
    ghost concerns: { Self → Tree → ColType → Bool };

    /// Its report, where it is.
    ghost report_on: { Self → Tree → ColType → Violation };

    /// Reports a type, if the rule concerns it.
    fn report_type(
        &self,
        alloc: Global,
        p: &Parse<'_>,
        t: &ColType,
        out: &mut Reports,
    ) -> Result<(), NoMemory>
        ensures ok { OnOk result (out.new ≡ out.old ++ that (concerns self.now p.now) (report_on self.now p.now) t.now) }
        ensures err { OnErr result (out.new ≡ out.old) };
}

/// Reports the column types of a statement one after another.
#[inline(never)]
fn report_each_type<T: TypeRule>(
    rule: &T,
    alloc: Global,
    p: &Parse<'_>,
    s: &Stmt,
    out: &mut Reports,
) -> Result<(), NoMemory>
    ensures ok { OnOk result (out.new ≡ out.old ++ those (T.concerns rule.now p.now) (T.report_on rule.now p.now) (column_types s.now)) }
    ensures err { OnErr result (GrownBy out.old out.new (those (T.concerns rule.now p.now) (T.report_on rule.now p.now) (column_types s.now))) }
{
    for t in column_types(s) {
        rule.report_type(alloc, p, &t, out)?;
    }
    Ok(())
}

/// Whether statements of the kind have column types. Most have none, so that the kind is looked at first.
#[inline(always)]
fn types_columns(kind: StmtKind) -> bool
    ensures { result ≡ spec.types_columns kind }
{
    same_kind(kind, StmtKind::CreateTable) || same_kind(kind, StmtKind::AlterTable)
}

/// Reports the column types of a statement that the rule concerns, in the order of their places.
#[inline(always)]
pub(crate) fn report_types<T: TypeRule>(
    rule: &T,
    alloc: Global,
    p: &Parse<'_>,
    s: &Stmt,
    out: &mut Reports,
) -> Result<(), NoMemory>
    ensures ok { OnOk result (out.new ≡ out.old ++ those (T.concerns rule.now p.now) (T.report_on rule.now p.now) (column_types s.now)) }
    ensures err { OnErr result (GrownBy out.old out.new (those (T.concerns rule.now p.now) (T.report_on rule.now p.now) (column_types s.now))) }
{
    if types_columns(s.kind) {
        report_each_type(rule, alloc, p, s, out)
    } else {
        Ok(())
    }
}
