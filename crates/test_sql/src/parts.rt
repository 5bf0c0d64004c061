//! The calls that read the parts of a statement by a span of the tokens of a text, which need not be a statement.

ghost use Rattle.std.specs.Prelude.{MatchOption, ◌<◌, ◌^◌, length};
ghost use Rattle.sql_read.specs.sql_lex.Inside.{IsSpan};
ghost use Rattle.sql_read.specs.sql_token.Token.{Lexed};

use crate::rows::{Reading, compare_each};
use case_format::TextBuilder;
use sql_read::{NoMemory, Tok, lex, read_actions, read_domain, read_elems};
use sql_tree::{Action, Constraint, Elem, Expr, Span, StmtKind};
use sqlite_items::Items;
use std::fmt::Debug;

/// What a span of tokens is read as, and the numbers of its first and last token.
enum Part {
    /// The list of a table.
    List(u32, u32),
    /// What comes after the type of a domain.
    Domain(u32, u32),
    /// The tail of a statement of this kind.
    Actions(StmtKind, u32, u32),
}

const TABLE: StmtKind = StmtKind::AlterTable;

const PRIVILEGES: StmtKind = StmtKind::AlterDefaultPrivileges;

/// A span and what it is read as, the text, and what is read: of a column the number of its name; of a table's constraint its
/// kind and its expression; of a domain's constraint and of an action the kind, the first and the last token.
const ROWS: &[(Part, &str, &str)] = &[
    (Part::List(0, 1), "()", ""),
    (Part::List(1, 5), " (a int)", "2 "),
    (
        Part::List(0, 20),
        "(a int NOT NULL, LIKE s, CHECK (b))",
        "1 like Check Name ",
    ),
    (Part::List(0, 9), "(a int), (b)", "1 "),
    (Part::List(0, 2), "SELECT a", ""),
    (Part::List(6, 13), "CREATE TABLE t (a int, 1)", "7 other "),
    (
        Part::List(0, 12),
        "(CHECK (a IS NOT NULL))",
        "Check IsNotNull of Name ",
    ),
    (
        Part::List(0, 18),
        "(CHECK (a IS NOT NULL IS NOT NULL))",
        "Check Other ",
    ),
    (Part::List(0, 7), "(CHECK (-1))", "Check Other "),
    (Part::List(0, 8), "(CHECK ((1)))", "Check Other "),
    (
        Part::List(0, 9),
        "(CHECK ('x'::text))",
        "Check Cast of Literal ",
    ),
    (
        Part::List(0, 13),
        "(CHECK (CAST(1 AS int)))",
        "Check Cast of Literal ",
    ),
    (
        Part::List(0, 8),
        "(CHECK (now()))",
        "Check Call with a name and no arguments ",
    ),
    (
        Part::List(0, 10),
        "(CHECK (pg_catalog.now()))",
        "Check Call without a name and no arguments ",
    ),
    (Part::Domain(8, 8), "CREATE DOMAIN d AS int", ""),
    (
        Part::Domain(8, 14),
        "CREATE DOMAIN d AS int NOT NULL UNIQUE",
        "NotNull 10 12 Unique 14 14 ",
    ),
    (
        Part::Domain(10, 12),
        "CREATE DOMAIN d AS int DEFAULT 1",
        "Default 10 12 ",
    ),
    (Part::Domain(2, 2), "SELECT DEFAULT", "none"),
    (
        Part::Domain(8, 18),
        "CREATE DOMAIN d AS int CHECK (VALUE > 0);",
        "Check 10 18 ",
    ),
    (
        Part::Domain(8, 10),
        "CREATE DOMAIN d AS int DEFAULT;",
        "none",
    ),
    (Part::Domain(8, 8), "CREATE DOMAIN d AS int DEFAULT;", ""),
    (
        Part::Domain(9, 9),
        "CREATE DOMAIN d AS int DEFAULT;",
        "none",
    ),
    (
        Part::Actions(TABLE, 6, 10),
        "ALTER TABLE t DROP COLUMN a",
        "DropColumn 6 10 ",
    ),
    (
        Part::Actions(TABLE, 6, 17),
        "ALTER TABLE t ADD a int, ADD b int",
        "AddColumn 6 10 AddColumn 13 17 ",
    ),
    (
        Part::Actions(TABLE, 13, 17),
        "ALTER TABLE t ADD a int, ADD b int",
        "AddColumn 13 17 ",
    ),
    (
        Part::Actions(TABLE, 11, 17),
        "ALTER TABLE t ADD a int, ADD b int",
        "none",
    ),
    (
        Part::Actions(TABLE, 6, 11),
        "ALTER TABLE t ADD a int,;",
        "none",
    ),
    (
        Part::Actions(TABLE, 6, 10),
        "ALTER TABLE t ADD a int,;",
        "AddColumn 6 10 ",
    ),
    (
        Part::Actions(TABLE, 11, 11),
        "ALTER TABLE t ADD a int,;",
        "none",
    ),
    (
        Part::Actions(TABLE, 5, 5),
        "ALTER TABLE t ADD a int,;",
        "none",
    ),
    (
        Part::Actions(PRIVILEGES, 12, 22),
        "ALTER DEFAULT PRIVILEGES IN SCHEMA s REVOKE ALL ON TABLES FROM u",
        "RevokePrivileges 12 22 ",
    ),
    (
        Part::Actions(PRIVILEGES, 6, 22),
        "ALTER DEFAULT PRIVILEGES IN SCHEMA s REVOKE ALL ON TABLES FROM u",
        "none",
    ),
];

fn leaf(e: &Expr) -> &'static str {
    match e {
        Expr::Literal => "Literal ",
        Expr::Name(_) => "Name ",
        Expr::Call {
            name: Some(_),
            no_args: true,
        } => "Call with a name and no arguments ",
        Expr::Call {
            name: None,
            no_args: true,
        } => "Call without a name and no arguments ",
        Expr::Other => "Other ",
        _ => "another one ",
    }
}

fn show_expr(e: &Expr, out: &mut TextBuilder) {
    let (front, leaf) = match e {
        Expr::IsNotNull(part) => ("IsNotNull of ", leaf(part.get())),
        Expr::Cast(part) => ("Cast of ", leaf(part.get())),
        _ => ("", leaf(e)),
    };
    out.add(front);
    out.add(leaf);
}

fn show_constraint(c: &Constraint, out: &mut TextBuilder) {
    out.debug("", &c.kind);
    out.add(" ");
    if let Some(e) = &c.expr {
        show_expr(e, out);
    }
}

fn show_element(e: &Elem, out: &mut TextBuilder) {
    match e {
        Elem::Column(c) => {
            out.debug("", &c.name);
            out.add(" ");
        }
        Elem::Constraint(c) => show_constraint(c, out),
        Elem::Like => out.add("like "),
        Elem::Other => out.add("other "),
    }
}

fn show_part<K: Debug + Drop>(kind: K, first: u32, last: u32, out: &mut TextBuilder) {
    out.debug("", &kind);
    out.debug(" ", &first);
    out.debug(" ", &last);
    out.add(" ");
}

fn show_elements(found: Result<Items<Elem>, NoMemory>, out: &mut TextBuilder) {
    match found {
        Ok(found) => {
            for e in found.as_slice() {
                show_element(e, out);
            }
        }
        Err(_) => out.fail(),
    }
}

fn show_constraints(found: Result<Option<Items<Constraint>>, NoMemory>, out: &mut TextBuilder) {
    match found {
        Ok(Some(found)) => {
            for c in found.as_slice() {
                show_part(c.kind, c.first, c.last, out);
            }
        }
        Ok(None) => out.add("none"),
        Err(_) => out.fail(),
    }
}

fn show_actions(found: Result<Option<Items<Action>>, NoMemory>, out: &mut TextBuilder) {
    match found {
        Ok(Some(found)) => {
            for a in found.as_slice() {
                show_part(a.kind, a.first, a.last, out);
            }
        }
        Ok(None) => out.add("none"),
        Err(_) => out.fail(),
    }
}

/// From one token to another one, where they are tokens of the list and in this order.
fn span_in(toks: &[Tok], first: u32, last: u32) -> Option<Span>
    ensures { MatchOption result (Unit {0}) (IsSpan toks.now) }
{
    if first <= last && (last as usize) < toks.len() {
        Some(Span { first, last })
    } else {
        None
    }
}

impl Part {
    fn span_in(&self, toks: &[Tok]) -> Option<Span>
        ensures { MatchOption result (Unit {0}) (IsSpan toks.now) }
    {
        match *self {
            Part::List(first, last) => span_in(toks, first, last),
            Part::Domain(first, last) => span_in(toks, first, last),
            Part::Actions(_, first, last) => span_in(toks, first, last),
        }
    }
}

fn read_part(part: &Part, text: &str, toks: &[Tok], span: Span, out: &mut TextBuilder)
    requires lexed { Lexed text.now toks.now }
    requires short { length text.now < 2 ^ 32 }
    requires inside { IsSpan toks.now span }
{
    let alloc = out.alloc();
    match *part {
        Part::List(..) => show_elements(read_elems(alloc, text, toks, span), out),
        Part::Domain(..) => show_constraints(read_domain(alloc, text, toks, span), out),
        Part::Actions(kind, ..) => show_actions(read_actions(alloc, kind, text, toks, span), out),
    }
}

impl Reading for Part {
    fn read(&self, text: &str, out: &mut TextBuilder) {
        let Ok(toks) = lex(out.alloc(), text) else {
            return out.fail();
        };
        match self.span_in(&toks) {
            Some(span) => read_part(self, text, &toks, span, out),
            None => out.fail(),
        }
    }
}

#[test]
fn parts(rt: HostRuntime) {
    compare_each(&rt, rt.alloc(), ROWS);
}
