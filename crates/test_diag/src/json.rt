//! Diagnostics that are read and written again.

use diag_json::{read_json, write_json};
use std::alloc::Global;
use std::test::Fail;

/// A diagnostic.
pub(crate) const ITEM: &str =
    r#"{"code":"ban-drop-index","message":"m","range":{"end":{"character":1,"line":0},"start":{"character":0,"line":0}},"severity":2,"source":"squawk"}"#;

/// A part of the diagnostic, what is in its place, and what that is when it was read and written again.
const READ: &[(&str, &str, &str)] = &[
    ("m", "m", "m"),
    ("ban-drop-index", "unused-ignore", "unused-ignore"),
    (
        r#""character":1"#,
        r#""character":4294967295"#,
        r#""character":4294967295"#,
    ),
    (
        r#""character":1"#,
        " \"character\" :\t1\r\n",
        r#""character":1"#,
    ),
    // The same keys in another order, and one that comes twice: the last counts.
    (
        r#""severity":2,"source":"squawk""#,
        r#""source":"squawk","severity":2"#,
        r#""severity":2,"source":"squawk""#,
    ),
    (
        r#""message":"m""#,
        r#""message":1,"message":"m""#,
        r#""message":"m""#,
    ),
    // What may be absent.
    (
        r#""message":"m""#,
        r#""note":"n","message":"m","help":"h""#,
        r#""help":"h","message":"m","note":"n""#,
    ),
    (
        r#""message":"m""#,
        r#""fix":{"title":"t","edits":[]},"message":"m""#,
        r#""fix":{"edits":[],"title":"t"},"message":"m""#,
    ),
    (
        r#""message":"m""#,
        r#""fix":{"edits":[{"newText":null,"range":{"end":{"character":3,"line":2},"start":{"character":1,"line":0}}}],"title":""},"message":"m""#,
        r#""fix":{"edits":[{"newText":null,"range":{"end":{"character":3,"line":2},"start":{"character":1,"line":0}}}],"title":""},"message":"m""#,
    ),
    // Each escape of a string, and bytes that have none.
    (
        r#""message":"m""#,
        r#""message":"\" \\ \/ \b \f \n \r \t \u0000 \u001F \u007f \u00e9 \ud83d\ude00 é😀""#,
        "\"message\":\"\\\" \\\\ / \\b \\f \\n \\r \\t \\u0000 \\u001f \u{7F} é 😀 é😀\"",
    ),
];

/// The list of the diagnostic with another part in place of this one.
pub(crate) fn list_with(alloc: Global, part: &str, other: &str) -> Result<String, Fail> {
    let Some((before, after)) = ITEM.split_once(part) else {
        return Err(Fail::from("no such part"));
    };
    Ok(format!(in alloc; "[{before}{other}{after}]")?)
}

/// The text of what is read, or why it is not read.
pub(crate) fn read(alloc: Global, text: &str) -> Result<String, Fail> {
    if text.len() > 100000 {
        return Err(Fail::from("a long text"));
    }
    match read_json(alloc, text) {
        Ok(diagnostics) => Ok(write_json(alloc, diagnostics.as_slice())?),
        Err(refused) => Ok(format!(in alloc; "{refused:?}")?),
    }
}

#[test]
fn read_and_written_again(rt: HostRuntime) -> Result<(), Fail> {
    for (part, other, again) in READ {
        let text = list_with(rt.alloc(), *part, *other)?;
        let want = list_with(rt.alloc(), *part, *again)?;
        let found = read(rt.alloc(), text.as_str())?;
        assert_eq!(rt; found.as_str(), want.as_str());
    }
    Ok(())
}
