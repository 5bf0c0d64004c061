//! What is kept of a text beside its tree, and the texts of errors. Trees are cases in `cases/forms`.

use crate::rows::{Message, Reading, compare_each, compare_row};
use case_format::TextBuilder;
use sql_read::{LintError, parse};

/// The texts of all tokens of a text, joined.
struct Joining;

impl Reading for Joining {
    fn read(&self, text: &str, out: &mut TextBuilder) {
        match parse(out.alloc(), text) {
            Ok(p) => {
                for i in 0..p.tokens().len() {
                    out.add(p.token_text(i));
                }
            }
            Err(_) => out.fail(),
        }
    }
}

/// Texts whose tokens, joined, are the text.
const TEXTS: &[&str] = &[
    "",
    "\u{feff}",
    " -- only a comment\r\n/* a /* b */ */",
    " /* a */ BEGIN -- b\n ; COMMIT ",
    "CREATE TABLE \u{e9}.\"\u{65e5}\" ()",
    "CREATE TABLE t AS SELECT $$;CREATE INDEX i ON t (a);$$;",
    "ALTER TABLE t ADD NOT NULL a NOT/**/VALID",
];

#[test]
fn tokens_make_the_text(rt: HostRuntime) {
    for (number, text) in TEXTS.iter().enumerate() {
        compare_row(&rt, rt.alloc(), number, &Joining, text, text);
    }
}

/// Errors, and their texts.
const MESSAGES: &[(Message<LintError>, &str, &str)] = &[
    (Message(LintError::TooLong), "", "text too long"),
    (
        Message(LintError::Unterminated { at: 4294967295 }),
        "",
        "unterminated at 4294967295",
    ),
    (Message(LintError::Syntax { at: 0 }), "", "syntax at 0"),
    (Message(LintError::NoMemory), "", "out of memory"),
];

#[test]
fn messages(rt: HostRuntime) {
    compare_each(&rt, rt.alloc(), MESSAGES);
}
