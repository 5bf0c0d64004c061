//! Paths: which names tell two of them apart, and their order.

use crate::rows::{Reading, compare};
use case_format::TextBuilder;
use sql_read::{Body, NamePath, Stmt, parse};
use sql_tree::Parse;
use std::cmp::Ordering;

/// A text of two statements, and how the path of the first compares with that of the second, or `none`.
const ROWS: &[(&str, &str)] = &[
    ("CREATE TABLE t (); CREATE INDEX ON T (a);", "Equal"),
    ("CREATE TABLE t (); CREATE INDEX ON \"t\" (a);", "Equal"),
    ("CREATE TABLE t (); CREATE INDEX ON \"T\" (a);", "Greater"),
    ("CREATE TABLE public.t (); CREATE INDEX ON t (a);", "Less"),
    (
        "CREATE TABLE public.t (); CREATE INDEX ON PUBLIC . \"t\" (a);",
        "Equal",
    ),
    ("CREATE TABLE s/**/.t (); CREATE INDEX ON s.t (a);", "Equal"),
    ("CREATE TABLE a.b.c (); CREATE INDEX ON a.b.c (a);", "Equal"),
    ("CREATE TABLE a.b.c (); CREATE INDEX ON a.b (a);", "Greater"),
    (
        "CREATE TABLE a.b.c.d.e (); CREATE INDEX ON a.b.c.d.f (a);",
        "Less",
    ),
    (
        "CREATE TABLE \"a.b\" (); CREATE INDEX ON a.b (a);",
        "Greater",
    ),
    ("CREATE TABLE t (); COMMIT;", "none"),
    ("CREATE TABLE t ();", "none"),
];

// The path of a table that is created or indexed, where it has one.
fn path_of<'t>(p: &Parse<'t>, s: &Stmt, out: &mut TextBuilder) -> Option<NamePath<'t>> {
    let span = match s.body {
        Body::Table { path, .. } => path,
        Body::Index { path, .. } => path,
        _ => return None,
    };
    match NamePath::of(out.alloc(), p, span) {
        Ok(path) => Some(path),
        Err(_) => {
            out.fail();
            None
        }
    }
}

// How two paths are there to each other.
fn show_order(left: &NamePath<'_>, right: &NamePath<'_>, out: &mut TextBuilder) {
    let order = left.cmp(right);
    out.debug("", &order);
    out.push_if(
        (left == right) != (order == Ordering::Equal),
        " and equality differs",
    );
}

// How the paths of the two statements are there to each other, where there are two, and both have one.
fn show_paths(p: &Parse<'_>, out: &mut TextBuilder) {
    let statements = p.tree().stmts.as_slice();
    if statements.len() != 2 {
        return out.add("none");
    }
    match (
        path_of(p, &statements[0], out),
        path_of(p, &statements[1], out),
    ) {
        (Some(left), Some(right)) => show_order(&left, &right, out),
        _ => out.add("none"),
    }
}

/// The paths of a text of two statements.
struct Paths;

impl Reading for Paths {
    fn read(&self, text: &str, out: &mut TextBuilder) {
        match parse(out.alloc(), text) {
            Ok(p) => show_paths(&p, out),
            Err(_) => out.fail(),
        }
    }
}

#[test]
fn order(rt: HostRuntime) {
    compare(&rt, rt.alloc(), &Paths, ROWS);
}
