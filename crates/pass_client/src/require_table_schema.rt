//! Names of tables without their schema.

ghost use Rattle.std.specs.Prelude.{◌≡◌, ◌++◌, ◌∷◌, [], OnOk, OnErr};
ghost use Rattle.std.specs.Option.{option_to_list};
ghost use Rattle.lint_pass.specs.lint_base.Grown.{GrownBy};
ghost use Rattle.lint_pass.specs.Those.{that, those};
ghost use Rattle.pass_client.specs.RequireTableSchema as spec;
ghost use Rattle.pass_client.specs.RequireTableSchema.{altered_by, reports_of_require_table_schema, created_by, dropped_by, is_bare};

use lint_pass::{
    Body, LinterSettings, NoMemory, Parse, Reports, Rule, Span, StatementPass, Stmt, StmtKind,
    Text, Violation, same_kind,
};
use std::alloc::Global;

const MESSAGE: &str = "table name is not schema-qualified";

const HELP: &str = "qualify the name with its schema, e.g. `public.my_table`";

/// Reports the table's name of each CREATE TABLE, but of a temporary one, of each ALTER TABLE, and each of a DROP TABLE, where it
/// has no schema.
///
/// Which table is meant depends on the search path of the session that runs the migration: with another role or setting it may
/// be another table, or a new one in another schema.
///
/// PostgreSQL manual, section 5.10.3, "The Schema Search Path".
#[derive(Drop)]
pub struct RequireTableSchema;

/// The report of a table's name.
#[tactic(auto, unfolding(crate::specs::RequireTableSchema::report))]
fn report(p: &Parse<'_>, path: Span) -> Violation
    ensures { result ≡ spec.report p.now path }
{
    Violation {
        code: Rule::RequireTableSchema,
        message: Text::plain(MESSAGE),
        text_range: p.span_range(path.first, path.last),
        note: None,
        help: Some(Text::plain(HELP)),
        fix: None,
    }
}

/// Reports a name that has no schema.
fn report_path(p: &Parse<'_>, path: Span, out: &mut Reports) -> Result<(), NoMemory>
    ensures ok { OnOk result (out.new ≡ out.old ++ that is_bare (spec.report p.now) path) }
    ensures err { OnErr result (out.new ≡ out.old) }
{
    if path.first == path.last {
        out.push(report(p, path))
    } else {
        Ok(())
    }
}

/// Reports each name that has no schema.
fn report_paths(p: &Parse<'_>, paths: &[Span], out: &mut Reports) -> Result<(), NoMemory>
    ensures ok { OnOk result (out.new ≡ out.old ++ those is_bare (spec.report p.now) paths.now) }
    ensures err { OnErr result (GrownBy out.old out.new (those is_bare (spec.report p.now) paths.now)) }
{
    for path in paths {
        report_path(p, *path, out)?;
    }
    Ok(())
}

/// Reports the table of a CREATE TABLE.
fn report_created(p: &Parse<'_>, s: &Stmt, out: &mut Reports) -> Result<(), NoMemory>
    ensures ok { OnOk result (out.new ≡ out.old ++ those is_bare (spec.report p.now) (created_by s.now.body)) }
    ensures err { OnErr result (out.new ≡ out.old) }
{
    match &s.body {
        Body::Table {
            temp: false,
            path,
            ..
        } => report_path(p, *path, out),
        _ => Ok(()),
    }
}

/// Reports the table of an ALTER TABLE.
fn report_altered(p: &Parse<'_>, s: &Stmt, out: &mut Reports) -> Result<(), NoMemory>
    ensures ok { OnOk result (out.new ≡ out.old ++ those is_bare (spec.report p.now) (altered_by s.now.body)) }
    ensures err { OnErr result (out.new ≡ out.old) }
{
    match &s.body {
        Body::Alter {
            path: Some(path),
            ..
        } => report_path(p, *path, out),
        _ => Ok(()),
    }
}

/// Reports the tables of a DROP TABLE.
fn report_dropped(p: &Parse<'_>, s: &Stmt, out: &mut Reports) -> Result<(), NoMemory>
    ensures ok { OnOk result (out.new ≡ out.old ++ those is_bare (spec.report p.now) (dropped_by s.now.body)) }
    ensures err { OnErr result (GrownBy out.old out.new (those is_bare (spec.report p.now) (dropped_by s.now.body))) }
{
    match &s.body {
        Body::Drop { paths, .. } => report_paths(p, paths.as_slice(), out),
        _ => Ok(()),
    }
}

impl StatementPass for RequireTableSchema {
    ghost use Rattle.lint_pass.specs.lint_base.declared.rule.Rule.TheVariants as rule;
    ghost use Rattle.pass_client.specs.RequireTableSchema.{reports_of_require_table_schema};
    ghost use Rattle.pass_client.specs.RequireTableSchemaLaws.{bare_coded, bare_placed};

    ghost code = { λ _. rule.RequireTableSchema };

    ghost reports = { λ _ tree _ s. reports_of_require_table_schema tree s };

    ghost coded = { λ _ tree _ s. bare_coded tree s };

    ghost placed = { λ _ tree _ s. bare_placed tree s };

    fn code(&self) -> Rule {
        Rule::RequireTableSchema
    }

    fn report(
        &self,
        _alloc: Global,
        p: &Parse<'_>,
        s: &Stmt,
        _set: &LinterSettings,
        out: &mut Reports,
    ) -> Result<(), NoMemory> {
        if same_kind(s.kind, StmtKind::CreateTable) || same_kind(s.kind, StmtKind::CreateTableAs) {
            return report_created(p, s, out);
        }
        if same_kind(s.kind, StmtKind::AlterTable) {
            return report_altered(p, s, out);
        }
        if same_kind(s.kind, StmtKind::DropTable) {
            return report_dropped(p, s, out);
        }
        Ok(())
    }
}
