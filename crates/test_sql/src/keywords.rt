//! Which words are keywords (PostgreSQL manual, appendix C).

use crate::rows::{Reading, compare};
use case_format::TextBuilder;
use sql_read::{Keyword, keyword_of, same_keyword};

/// A text, and the key word that it is.
const ROWS: &[(&str, &str)] = &[
    ("as", "Some(As)"),
    ("AS", "Some(As)"),
    ("By", "Some(By)"),
    ("create", "Some(Create)"),
    ("CrEaTe", "Some(Create)"),
    ("CONCURRENTLY", "Some(Concurrently)"),
    ("characteristics", "Some(Characteristics)"),
    ("type", "Some(Type)"),
    ("row", "Some(Row)"),
    ("level", "Some(Level)"),
    ("share", "Some(Share)"),
    ("exclusive", "Some(Exclusive)"),
    ("logged", "Some(Logged)"),
    ("zone", "Some(Zone)"),
    ("abort", "Some(Abort)"),
    ("", "None"),
    ("a", "None"),
    ("creat", "None"),
    ("creates", "None"),
    ("cre@te", "None"),
    ("\"create\"", "None"),
    ("create ", "None"),
    ("characteristicss", "None"),
    ("éà", "None"),
    ("us", "None"),
    ("ſet", "None"),
];

/// The key word that a text is.
struct Words;

impl Reading for Words {
    fn read(&self, text: &str, out: &mut TextBuilder) {
        out.debug("", &keyword_of(text.as_bytes()));
    }
}

#[test]
fn keywords(rt: HostRuntime) {
    compare(&rt, rt.alloc(), &Words, ROWS);
    assert!(rt; same_keyword(Keyword::AS, Keyword::AS));
    assert!(rt; !same_keyword(Keyword::AS, Keyword::BY));
}
