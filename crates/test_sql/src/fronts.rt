//! The fronts of statements, as their forms read them (PostgreSQL manual, part VI, SQL Commands), and words outside
//! brackets.

use crate::rows::{Reading, compare, compare_each, show_span};
use crate::terminals::terminals_of;
use case_format::TextBuilder;
use sql_read::{Captures, Keyword as K, Span, has_keyword, nothing_kept, read_front};

/// A first word, what comes after it, and the form that reads it: the kind, how many tokens the form leaves open, and
/// what it keeps, by token numbers. What comes after the word begins with a blank, so that no number is 0.
const FRONTS: &[(K, &str, &str)] = &[
    (
        K::BEGIN,
        " isolation level serializable",
        "Begin left 3 open",
    ),
    (K::BEGIN, "", "Begin left 0 open"),
    (K::START, " transaction read only", "Begin left 2 open"),
    (K::START, " transaction", "Begin left 0 open"),
    (K::START, " read only", "none"),
    (K::COMMIT, "", "Commit left 0"),
    (K::COMMIT, " work", "Commit left 0 word 1"),
    (K::COMMIT, " work and chain", "Commit left 0 word 1 chain"),
    (
        K::COMMIT,
        " transaction and no chain",
        "Commit left 0 word 1",
    ),
    (K::COMMIT, " and chain", "Commit left 0 chain"),
    (K::COMMIT, " and no chain", "Commit left 0"),
    (K::COMMIT, " and no", "none"),
    (K::COMMIT, " and", "none"),
    (K::COMMIT, " chain", "none"),
    (K::COMMIT, " work transaction", "none"),
    (K::END, " and chain work", "none"),
    (K::END, "", "Commit left 0"),
    (
        K::ROLLBACK,
        " transaction and no chain",
        "Rollback left 0 word 1",
    ),
    (K::ROLLBACK, " and chain", "Rollback left 0 chain"),
    (K::ABORT, "", "Rollback left 0"),
    (
        K::CREATE,
        " index on t",
        "CreateIndex left 0 word 1 path 5-5 open",
    ),
    (
        K::CREATE,
        " index i on t",
        "CreateIndex left 0 word 1 name 3 path 7-7 open",
    ),
    (
        K::CREATE,
        " index \"on\" on t",
        "CreateIndex left 0 word 1 name 3 path 7-7 open",
    ),
    (
        K::CREATE,
        " index if on t",
        "CreateIndex left 0 word 1 name 3 path 7-7 open",
    ),
    (
        K::CREATE,
        " index if not exists i on t",
        "CreateIndex left 0 word 1 name 9 guarded path 13-13 open",
    ),
    (K::CREATE, " index if not exists on t", "none"),
    (
        K::CREATE,
        " index concurrently on t",
        "CreateIndex left 0 word 1 concurrently 3 path 7-7 open",
    ),
    (
        K::CREATE,
        " index concurrently concurrently on t",
        "CreateIndex left 0 word 1 name 5 concurrently 3 path 9-9 open",
    ),
    (
        K::CREATE,
        " unique index on only t (a)",
        "CreateIndex left 3 word 3 unique path 9-9 open",
    ),
    (
        K::CREATE,
        " unique index concurrently if not exists i on only s.t (a)",
        "CreateIndex left 3 word 3 name 13 concurrently 5 unique guarded path 19-21 open",
    ),
    (K::CREATE, " index on", "none"),
    (K::CREATE, " index on only (a)", "none"),
    (K::CREATE, " index i \"on\" t", "none"),
    (K::CREATE, " unique unique index on t", "none"),
    (
        K::CREATE,
        " table t",
        "CreateTable left 0 word 1 path 3-3 open",
    ),
    (
        K::CREATE,
        " table if not exists t",
        "CreateTable left 0 word 1 guarded path 9-9 open",
    ),
    (
        K::CREATE,
        " table if not t",
        "CreateTable left 2 word 1 path 3-3 open",
    ),
    (
        K::CREATE,
        " global temp unlogged table t",
        "CreateTable left 0 word 7 temp path 9-9 open",
    ),
    (
        K::CREATE,
        " local temporary table t (a int)",
        "CreateTable left 4 word 5 temp path 7-7 open",
    ),
    (
        K::CREATE,
        " local table t",
        "CreateTable left 0 word 3 path 5-5 open",
    ),
    (
        K::CREATE,
        " table a.b c",
        "CreateTable left 1 word 1 path 3-5 open",
    ),
    (
        K::CREATE,
        " table a . \"b\".c (",
        "CreateTable left 1 word 1 path 3-9 open",
    ),
    (
        K::CREATE,
        " table a.",
        "CreateTable left 1 word 1 path 3-3 open",
    ),
    (K::CREATE, " table (a)", "none"),
    (K::CREATE, " table 'a'", "none"),
    (K::CREATE, " table", "none"),
    (K::CREATE, "", "none"),
    (K::AND, " chain", "none"),
    (
        K::ALTER,
        " table if exists only a.b * add x",
        "AlterTable left 2 guarded path 9-11 open",
    ),
    (K::ALTER, " table only", "none"),
    (K::ALTER, " index i", "none"),
    (
        K::SELECT,
        " a into temp table t b",
        "SelectInto left 1 temp path 9-9 open",
    ),
    (
        K::SELECT,
        " a as into into t",
        "SelectInto left 0 path 9-9 open",
    ),
    (K::SELECT, " a", "Select left 1 open"),
];

/// A text, and whether the word AS is in it outside all brackets.
const AS_OUTSIDE: &[(&str, &str)] = &[
    ("a as b", "true"),
    ("AS", "true"),
    ("(a) As", "true"),
    ("a [b] as", "true"),
    ("a (as) b", "false"),
    ("a [as] b", "false"),
    ("(a as", "false"),
    ("a) as", "false"),
    ("\"as\"", "false"),
    ("'as'", "false"),
    ("a", "false"),
    ("", "false"),
];

fn show_number(word: &str, number: Option<u32>, out: &mut TextBuilder) {
    if let Some(number) = number {
        out.debug(word, &number);
    }
}

fn show_path(path: Option<Span>, out: &mut TextBuilder) {
    if let Some(path) = path {
        out.add(" path ");
        show_span(out, path);
    }
}

fn show_kept(kept: &Captures, out: &mut TextBuilder) {
    show_number(" word ", kept.word, out);
    show_number(" name ", kept.name, out);
    show_number(" concurrently ", kept.concurrently, out);
    out.push_if(kept.unique, " unique");
    out.push_if(kept.temp, " temp");
    out.push_if(kept.guarded, " guarded");
    out.push_if(kept.chain, " chain");
    show_path(kept.path, out);
    out.push_if(kept.open_ended, " open");
}

/// The form that reads what comes after the word, in the form of the rows.
impl Reading for K {
    fn read(&self, text: &str, out: &mut TextBuilder) {
        let terminals = terminals_of(text, out);
        let mut kept = nothing_kept();
        match read_front(*self, &mut kept, &terminals) {
            Some((kind, left)) => {
                out.debug("", &kind);
                out.debug(" left ", &left.len());
                show_kept(&kept, out);
            }
            None => out.add("none"),
        }
    }
}

#[test]
fn fronts(rt: HostRuntime) {
    compare_each(&rt, rt.alloc(), FRONTS);
}

/// Whether the word AS is in a text outside all brackets.
struct Outside;

impl Reading for Outside {
    fn read(&self, text: &str, out: &mut TextBuilder) {
        let terminals = terminals_of(text, out);
        out.debug("", &has_keyword(K::AS, &terminals));
    }
}

#[test]
fn words_outside_brackets(rt: HostRuntime) {
    compare(&rt, rt.alloc(), &Outside, AS_OUTSIDE);
}
