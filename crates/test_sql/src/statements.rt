//! Where statements begin and end, and which of them may be read at all.

use crate::rows::{Reading, compare, compare_each, read_short, repeat, show_span};
use case_format::TextBuilder;
use sql_read::{Span, Statements, Terminal, cut, is_sound, lex, span_of};

/// A text, and of each statement the numbers of its first and its last token, and `y` where it is sound, each with a blank after
/// it.
const ROWS: &[(&str, &str)] = &[
    ("", ""),
    (" -- a\n/* b */ ", ""),
    ("a", "0-0 y "),
    (";", "0-0 y "),
    (";;", "0-0 y 1-1 y "),
    ("a;b", "0-1 y 2-2 y "),
    ("a; b;", "0-1 y 3-4 y "),
    (" ; ; ", "1-1 y 3-3 y "),
    ("a; -- b", "0-1 y "),
    ("(;);", "0-3 y "),
    ("(a;b", "0-3 n "),
    (");a", "0-2 n "),
    ("[;]", "0-2 y "),
    ("(];a", "0-2 n 3-3 y "),
    ("(;];a", "0-3 n 4-4 y "),
    ("$$;$$;", "0-1 y "),
    ("';';a", "0-1 y 2-2 y "),
    ("\";\";a", "0-1 y 2-2 y "),
    ("/* ; */ a", "2-2 y "),
    ("a -- ;\n;", "0-4 y "),
    ("select 1", "0-2 y "),
    ("a; b", "0-1 y 3-3 y "),
    ("(;", "0-1 n "),
    (")", "0-0 n "),
    ("()", "0-1 y "),
    ("(]", "0-1 n "),
    ("[)", "0-1 n "),
    ("([])", "0-3 y "),
    ("([)]", "0-3 n "),
    (")(", "0-1 n "),
    ("(a; b) ; c", "0-7 y 9-9 y "),
    ("u&\"a\"", "0-0 n "),
    ("u&'a'", "0-0 y "),
    ("begin atomic", "0-2 n "),
    ("BEGIN /* x */ Atomic x", "0-6 n "),
    ("(begin atomic)", "0-4 y "),
    ("begin (atomic)", "0-4 y "),
    ("begin; atomic", "0-1 y 3-3 y "),
    ("begin \"atomic\"", "0-2 y "),
    ("atomic begin", "0-2 y "),
];

// A statement of a walk, and the span that the call that gives all of them has for it.
fn show_statement(statement: &[Terminal], cut: Span, out: &mut TextBuilder) {
    let span = span_of(statement);
    out.push_if(cut != span, "cut otherwise ");
    show_span(out, span);
    out.add(if is_sound(statement) { " y " } else { " n " });
}

// Whether the walk has one more statement, which is then in the list.
fn has_next(
    walk: &mut Statements<'_>,
    statement: &mut Vec<Terminal>,
    out: &mut TextBuilder,
) -> bool {
    match walk.next_into(statement) {
        Ok(is_one) => is_one,
        Err(_) => {
            out.fail();
            false
        }
    }
}

// The statements of a walk one by one, which are those of the call that gives them all.
fn show_walk(walk: &mut Statements<'_>, spans: &[Span], out: &mut TextBuilder) {
    let mut statement: Vec<Terminal> = Vec::new(out.alloc());
    for cut in spans {
        let is_one = has_next(walk, &mut statement, out);
        out.push_if(!is_one, "too few ");
        show_statement(&statement, *cut, out);
    }
    let is_one = has_next(walk, &mut statement, out);
    out.push_if(is_one, "too many");
}

/// The statements of a text, in the form of the rows.
struct Walk;

impl Reading for Walk {
    fn read(&self, text: &str, out: &mut TextBuilder) {
        let Ok(toks) = lex(out.alloc(), text) else {
            return out.fail();
        };
        match cut(out.alloc(), text, &toks) {
            Ok(spans) => show_walk(&mut Statements::new(text, &toks), &spans, out),
            Err(_) => out.fail(),
        }
    }
}

#[test]
fn statements(rt: HostRuntime) {
    compare(&rt, rt.alloc(), &Walk, ROWS);
}

/// The statements of a text in round brackets that are so deep in each other.
struct Nested(usize);

impl Reading for Nested {
    fn read(&self, text: &str, out: &mut TextBuilder) {
        let mut nested = TextBuilder::new(out.alloc());
        repeat(&mut nested, "(", "", self.0);
        nested.add(text);
        repeat(&mut nested, ")", "", self.0);
        match nested.text() {
            Some(text) => read_short(&Walk, text, out),
            None => out.fail(),
        }
    }
}

/// How deep brackets are in each other, what is in them, and the statement.
const DEPTHS: &[(Nested, &str, &str)] = &[
    (Nested(1), "", "0-1 y "),
    (Nested(127), "", "0-253 y "),
    (Nested(128), "", "0-255 y "),
    (Nested(129), "", "0-257 n "),
    (Nested(200), "", "0-399 n "),
];

#[test]
fn depths(rt: HostRuntime) {
    compare_each(&rt, rt.alloc(), DEPTHS);
}
