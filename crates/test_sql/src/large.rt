//! Large texts: many columns, many actions, many operands, deep brackets.

use crate::rows::{Reading, compare_each, repeat};
use case_format::TextBuilder;
use sql_read::parse;
use sql_tree::{Body, Elem, Expr, Stmt};

fn operands(elem: &Elem) -> usize {
    if let Elem::Constraint(c) = elem {
        if let Some(Expr::Bin(parts)) = &c.expr {
            return parts.len();
        }
    }
    0
}

fn elements(elems: &[Elem]) -> usize {
    if elems.len() == 1 {
        operands(&elems[0])
    } else {
        elems.len()
    }
}

// How many elements, actions or operands the statement has; operands where its one element is a constraint.
fn size(s: &Stmt) -> usize {
    match &s.body {
        Body::Table { elems, .. } => elements(elems.as_slice()),
        Body::Alter { actions, .. } => actions.len(),
        _ => 0,
    }
}

/// The sizes of the statements of a text with a list, or why it has none.
struct List {
    /// A piece, what is between two of them, and how many there are.
    piece: &'static str,
    between: &'static str,
    count: usize,
    /// What comes next, and a piece of as many that come after it.
    middle: &'static str,
    closing: &'static str,
    /// What comes in the end.
    end: &'static str,
}

fn show_sizes(text: &str, out: &mut TextBuilder) {
    match parse(out.alloc(), text) {
        Ok(p) => {
            for s in p.tree().stmts.as_slice() {
                out.debug("", &size(s));
            }
        }
        Err(e) => out.display("", &e),
    }
}

/// The text is what comes before the list.
impl Reading for List {
    fn read(&self, text: &str, out: &mut TextBuilder) {
        let mut whole = TextBuilder::new(out.alloc());
        whole.add(text);
        repeat(&mut whole, self.piece, self.between, self.count);
        whole.add(self.middle);
        repeat(&mut whole, self.closing, "", self.count);
        whole.add(self.end);
        match whole.text() {
            Some(text) => show_sizes(text, out),
            None => out.fail(),
        }
    }
}

/// A list, what comes before it, and the size.
const LISTS: &[(List, &str, &str)] = &[
    (
        List {
            piece: "a varchar(9) NOT NULL DEFAULT 'x'",
            between: ", ",
            count: 10000,
            middle: "",
            closing: "",
            end: ");",
        },
        "CREATE TABLE t (",
        "10000",
    ),
    (
        List {
            piece: "ADD COLUMN a int DEFAULT 1",
            between: ", ",
            count: 10000,
            middle: "",
            closing: "",
            end: ";",
        },
        "ALTER TABLE t ",
        "10000",
    ),
    (
        List {
            piece: "a",
            between: " + ",
            count: 100000,
            middle: "",
            closing: "",
            end: "));",
        },
        "CREATE TABLE t (CHECK (",
        "100000",
    ),
    (
        List {
            piece: "(",
            between: "",
            count: 126,
            middle: "1",
            closing: "",
            end: "",
        },
        "CREATE TABLE t (CHECK (",
        "syntax at 0",
    ),
    // The expression of a CHECK is in two more brackets.
    (
        List {
            piece: "(",
            between: "",
            count: 0,
            middle: "a",
            closing: ")",
            end: "));",
        },
        CHECK,
        "2",
    ),
    (
        List {
            piece: "(",
            between: "",
            count: 126,
            middle: "a",
            closing: ")",
            end: "));",
        },
        CHECK,
        "2",
    ),
    (
        List {
            piece: "(",
            between: "",
            count: 127,
            middle: "a",
            closing: ")",
            end: "));",
        },
        CHECK,
        "syntax at 0",
    ),
];

const CHECK: &str = "CREATE TABLE t (CHECK (1 + ";

#[test]
fn lists(rt: HostRuntime) {
    compare_each(&rt, rt.alloc(), LISTS);
}
