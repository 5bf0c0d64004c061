//! Statements other than ALTER TABLE that can't be run again.

ghost use Rattle.std.specs.Prelude.{◌≡◌, ◌++◌, ◌∷◌, [], ◌||◌, not, IfOk, OnOk, OnErr};
ghost use Rattle.lint_pass.specs.lint_node.Same.{same_kind};
ghost use Rattle.sql_tree.specs.declared.kinds.StmtKind.TheVariants as stmt;
ghost use Rattle.pass_history.specs.PreferRobustStmts.{unless};
ghost use Rattle.pass_history.specs.RobustStatements as spec;
ghost use Rattle.pass_history.specs.RobustStatements.{index_reports, statement_reports};

use crate::robust_reports::{
    EXISTS_TITLE, NOT_EXISTS_TITLE, after_word, before_word, missing_exists, missing_not_exists,
};
use lint_pass::{NoMemory, Reports, Span, Text, Violation, same_kind};
use sql_tree::{Body, Parse, Stmt, StmtKind};
use sqlite_items::Items;
use std::alloc::Global;

fn index_report(alloc: Global, p: &Parse<'_>, s: &Stmt, name: u32) -> Result<Violation, NoMemory>
    ensures { IfOk result (λ v. v ≡ spec.index_report p.now s.now name) }
{
    let title = Text::plain(NOT_EXISTS_TITLE);
    let fix = before_word(alloc, p, title, Text::plain("if not exists "), Some(name))?;
    Ok(missing_not_exists(p.stmt_range(s), fix))
}

fn table_report(alloc: Global, p: &Parse<'_>, s: &Stmt, word: u32) -> Result<Violation, NoMemory>
    ensures { IfOk result (λ v. v ≡ spec.table_report p.now s.now word) }
{
    let title = Text::plain(NOT_EXISTS_TITLE);
    let fix = after_word(alloc, p, title, Text::plain(" if not exists"), Some(word))?;
    Ok(missing_not_exists(p.stmt_range(s), fix))
}

fn first_token(paths: &[Span]) -> Option<u32>
    ensures { result ≡ spec.first_of paths.now }
{
    match paths.first() {
        Some(path) => Some(path.first),
        None => None,
    }
}

fn index_drop(alloc: Global, p: &Parse<'_>, s: &Stmt, paths: &[Span]) -> Result<Violation, NoMemory>
    ensures { IfOk result (λ v. v ≡ spec.index_drop p.now s.now paths.now) }
{
    let title = Text::plain(EXISTS_TITLE);
    let text = Text::plain("if exists ");
    let fix = before_word(alloc, p, title, text, first_token(paths))?;
    Ok(missing_exists(p.stmt_range(s), fix))
}

fn object_drop(alloc: Global, p: &Parse<'_>, s: &Stmt, word: u32) -> Result<Violation, NoMemory>
    ensures { IfOk result (λ v. v ≡ spec.object_drop p.now s.now word) }
{
    let title = Text::plain(EXISTS_TITLE);
    let fix = after_word(alloc, p, title, Text::plain(" if exists"), Some(word))?;
    Ok(missing_exists(p.stmt_range(s), fix))
}

fn drop_report(
    alloc: Global,
    p: &Parse<'_>,
    s: &Stmt,
    word: u32,
    paths: &[Span],
) -> Result<Violation, NoMemory>
    ensures { IfOk result (λ v. v ≡ spec.drop_report p.now s.now word paths.now) }
{
    if same_kind(s.kind, StmtKind::DropIndex) {
        index_drop(alloc, p, s, paths)
    } else {
        object_drop(alloc, p, s, word)
    }
}

/// Reports an index build, where the index has a name.
fn report_index(
    alloc: Global,
    p: &Parse<'_>,
    s: &Stmt,
    quiet: bool,
    name: Option<u32>,
    out: &mut Reports,
) -> Result<(), NoMemory>
    ensures ok { OnOk result (out.new ≡ out.old ++ index_reports p.now s.now quiet name) }
    ensures err { OnErr result (out.new ≡ out.old) }
{
    match name {
        Some(name) if !quiet => out.push(index_report(alloc, p, s, name)?),
        _ => Ok(()),
    }
}

/// Reports a new table of a CREATE TABLE.
fn report_table(
    alloc: Global,
    p: &Parse<'_>,
    s: &Stmt,
    quiet: bool,
    word: u32,
    out: &mut Reports,
) -> Result<(), NoMemory>
    ensures ok { OnOk result (out.new ≡ out.old ++ unless (quiet || not (same_kind s.now.kind stmt.CreateTable)) (spec.table_report p.now s.now word)) }
    ensures err { OnErr result (out.new ≡ out.old) }
{
    if quiet || !same_kind(s.kind, StmtKind::CreateTable) {
        Ok(())
    } else {
        out.push(table_report(alloc, p, s, word)?)
    }
}

/// Reports a drop.
fn report_drop(
    alloc: Global,
    p: &Parse<'_>,
    s: &Stmt,
    quiet: bool,
    word: u32,
    paths: &Items<Span>,
    out: &mut Reports,
) -> Result<(), NoMemory>
    ensures ok { OnOk result (out.new ≡ out.old ++ unless quiet (spec.drop_report p.now s.now word paths.now)) }
    ensures err { OnErr result (out.new ≡ out.old) }
{
    if quiet {
        Ok(())
    } else {
        out.push(drop_report(alloc, p, s, word, paths.as_slice())?)
    }
}

/// Reports a statement other than ALTER TABLE that can't be run again.
pub(crate) fn report_statement(
    alloc: Global,
    p: &Parse<'_>,
    robust: bool,
    s: &Stmt,
    out: &mut Reports,
) -> Result<(), NoMemory>
    ensures ok { OnOk result (out.new ≡ out.old ++ statement_reports p.now robust s.now) }
    ensures err { OnErr result (out.new ≡ out.old) }
{
    match &s.body {
        Body::Index {
            concurrently,
            guarded,
            name,
            ..
        } => {
            let quiet = *guarded || (robust && concurrently.is_none());
            report_index(alloc, p, s, quiet, *name, out)
        }
        Body::Table {
            temp,
            guarded,
            on_commit_drop,
            word,
            ..
        } => {
            let quiet = robust || *guarded || (*temp && *on_commit_drop);
            report_table(alloc, p, s, quiet, *word, out)
        }
        Body::Drop {
            word,
            guarded,
            paths,
            ..
        } => report_drop(alloc, p, s, robust || *guarded, *word, paths, out),
        _ => Ok(()),
    }
}
