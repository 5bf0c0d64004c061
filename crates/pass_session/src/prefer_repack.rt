//! Rewrites of a table that nobody can use meanwhile.

ghost use Rattle.std.specs.Prelude.{◌≡◌, ◌++◌, ◌∷◌, [], Some, IfOk, OnOk, OnErr, if◌then◌else◌, string_bytes};
ghost use Rattle.pass_session.specs.PreferRepack as spec;
ghost use Rattle.pass_session.specs.PreferRepack.{part, repack, repack_fix, vacuum_fix};

use crate::tokens::{last_word, source_of};
use lint_pass::{
    Body, Fix, LinterSettings, NoMemory, Parse, Reports, Rule, Span, StatementPass, Stmt, Text,
    Violation, replacement_fix,
};
use std::alloc::Global;

/// The first version of PostgreSQL that has REPACK.
const FIRST_VERSION: i32 = 19;

const CLUSTER_MESSAGE: &str =
    "`cluster` requires an `access exclusive` lock which blocks reads and writes to the table";

const VACUUM_MESSAGE: &str =
    "`vacuum full` requires an `access exclusive` lock which blocks reads and writes to the table";

const HELP: &str = "use `repack` to rewrite the table without blocking reads and writes";

const TITLE: &str = "Replace with `repack (concurrently)`";

/// Reports each CLUSTER and each full VACUUM, from version 19 of PostgreSQL on.
///
/// Both write the whole table anew under an ACCESS EXCLUSIVE lock, so that all who read or write it wait until the copy is done.
/// REPACK with the option CONCURRENTLY makes the copy while the table is in use, and locks it so only for the short moment in
/// which the new file takes the place of the old one.
///
/// PostgreSQL 19 manual, REPACK; CLUSTER; VACUUM, "FULL".
#[derive(Drop)]
pub struct PreferRepack;

/// Whether this version of PostgreSQL has REPACK.
fn has_repack(set: &LinterSettings) -> bool
    ensures { result ≡ spec.has_repack set.now }
{
    FIRST_VERSION <= set.pg_version[0]
}

fn one_token(number: Option<u32>) -> Option<Span>
    ensures { result ≡ spec.one_token number }
{
    match number {
        Some(number) => Some(Span {
            first: number,
            last: number,
        }),
        None => None,
    }
}

/// Adds a word and the source of some tokens, where these are there.
fn push_part(
    text: &mut String,
    word: &str,
    p: &Parse<'_>,
    span: Option<Span>,
) -> Result<(), NoMemory>
    ensures { OnOk result (string_bytes text.new ≡ string_bytes text.old ++ part word.now p.now span) }
{
    if let Some(span) = span {
        text.push_str(word)?;
        text.push_str(source_of(p, span))?;
    }
    Ok(())
}

/// REPACK of these tables, and by this index.
fn repack(
    alloc: Global,
    p: &Parse<'_>,
    tables: Option<Span>,
    index: Option<u32>,
) -> Result<Text, NoMemory>
    ensures { IfOk result (λ text. text ≡ repack p.now tables index) }
{
    let mut text = String::new(alloc);
    text.push_str("repack (concurrently)")?;
    push_part(&mut text, " ", p, tables)?;
    push_part(&mut text, " using index ", p, one_token(index))?;
    Ok(Text::made(text))
}

/// The fix that puts REPACK in place of a statement without its semicolon.
fn repack_fix(
    alloc: Global,
    p: &Parse<'_>,
    s: &Stmt,
    tables: Option<Span>,
    index: Option<u32>,
) -> Result<Fix, NoMemory>
    ensures { IfOk result (λ fix. fix ≡ repack_fix p.now s.now tables index) }
{
    let text = repack(alloc, p, tables, index)?;
    let range = p.span_range(s.first, last_word(p, s.first, s.last));
    replacement_fix(alloc, Text::plain(TITLE), text, range)
}

/// The fix of a VACUUM of these tables.
fn vacuum_fix(
    alloc: Global,
    p: &Parse<'_>,
    s: &Stmt,
    tables: Option<Span>,
) -> Result<Option<Fix>, NoMemory>
    ensures { IfOk result (λ fix. fix ≡ vacuum_fix p.now s.now tables) }
{
    match tables {
        Some(tables) => Ok(Some(repack_fix(alloc, p, s, Some(tables), None)?)),
        None => Ok(None),
    }
}

/// The report of a statement.
fn report(p: &Parse<'_>, s: &Stmt, message: Text, fix: Option<Fix>) -> Violation
    ensures { result ≡ spec.report p.now s.now message fix }
{
    Violation {
        code: Rule::PreferRepack,
        message,
        text_range: p.stmt_range(s),
        note: None,
        help: Some(Text::plain(HELP)),
        fix,
    }
}

#[tactic(auto, unfolding(crate::specs::PreferRepack::cluster_report))]
fn cluster_report(
    alloc: Global,
    p: &Parse<'_>,
    s: &Stmt,
    table: Option<Span>,
    index: Option<u32>,
) -> Result<Violation, NoMemory>
    ensures { IfOk result (λ v. v ≡ spec.cluster_report p.now s.now table index) }
{
    let fix = repack_fix(alloc, p, s, table, index)?;
    Ok(report(p, s, Text::plain(CLUSTER_MESSAGE), Some(fix)))
}

#[tactic(auto, unfolding(crate::specs::PreferRepack::vacuum_report))]
fn vacuum_report(
    alloc: Global,
    p: &Parse<'_>,
    s: &Stmt,
    tables: Option<Span>,
) -> Result<Violation, NoMemory>
    ensures { IfOk result (λ v. v ≡ spec.vacuum_report p.now s.now tables) }
{
    let fix = vacuum_fix(alloc, p, s, tables)?;
    Ok(report(p, s, Text::plain(VACUUM_MESSAGE), fix))
}

/// Reports a CLUSTER or a full VACUUM.
fn report_rewrite(alloc: Global, p: &Parse<'_>, s: &Stmt, out: &mut Reports) -> Result<(), NoMemory>
    ensures ok { OnOk result (out.new ≡ out.old ++ spec.rewrites_by p.now s.now s.now.body) }
    ensures err { OnErr result (out.new ≡ out.old) }
{
    match s.body {
        Body::Cluster { table, index } => out.push(cluster_report(alloc, p, s, table, index)?),
        Body::Vacuum { full: true, tables } => out.push(vacuum_report(alloc, p, s, tables)?),
        _ => Ok(()),
    }
}

impl StatementPass for PreferRepack {
    ghost use Rattle.lint_pass.specs.lint_base.declared.rule.Rule.TheVariants as rule;
    ghost use Rattle.pass_session.specs.PreferRepack.{reports_of_prefer_repack};
    ghost use Rattle.pass_session.specs.PreferRepackLaws.{rewrites_coded, rewrites_placed};

    ghost code = { λ _. rule.PreferRepack };

    ghost reports = { λ _ tree set s. reports_of_prefer_repack set tree s };

    ghost coded = { λ _ tree set s. rewrites_coded set tree s };

    ghost placed = { λ _ tree set s. rewrites_placed set tree s };

    fn code(&self) -> Rule {
        Rule::PreferRepack
    }

    fn report(
        &self,
        alloc: Global,
        p: &Parse<'_>,
        s: &Stmt,
        set: &LinterSettings,
        out: &mut Reports,
    ) -> Result<(), NoMemory> {
        if has_repack(set) {
            report_rewrite(alloc, p, s, out)
        } else {
            Ok(())
        }
    }
}
