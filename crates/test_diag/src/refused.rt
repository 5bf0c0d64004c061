//! Texts that are read as no diagnostics.

use crate::json::{ITEM, list_with, read};
use std::test::Fail;

/// A part of the diagnostic, and what is in its place, so that the item is the JSON of none.
const MISSHAPEN: &[(&str, &str)] = &[
    (r#""message":"m","#, ""),
    (r#","source":"squawk""#, ""),
    (r#","line":0},"start""#, r#"},"start""#),
    (r#""message":"m""#, r#""message":"m","more":1"#),
    (r#""line":0},"start""#, r#""line":0,"more":1},"start""#),
    (r#""message":"m""#, r#""message":null"#),
    (r#""message":"m""#, r#""help":null,"message":"m""#),
    (r#""message":"m""#, r#""message":"m","note":1"#),
    (r#""severity":2"#, r#""severity":1"#),
    ("squawk", "squawk "),
    ("ban-drop-index", "ban-drop-indexes"),
    ("ban-drop-index", "Ban-drop-index"),
    (r#""ban-drop-index""#, "1"),
    (r#""character":1"#, r#""character":1.5"#),
    (r#""character":1"#, r#""character":-1"#),
    (r#""character":1"#, r#""character":4294967296"#),
    (r#""character":1"#, r#""character":"1""#),
    (r#""message":"m""#, r#""fix":{"title":"t"},"message":"m""#),
    (
        r#""message":"m""#,
        r#""fix":{"edits":{},"title":"t"},"message":"m""#,
    ),
    (
        r#""message":"m""#,
        r#""fix":{"edits":[{"newText":"t"}],"title":"t"},"message":"m""#,
    ),
];

/// Texts, and why they are not read.
const REFUSED: &[(&str, &str)] = &[
    ("", "NotJson"),
    ("[", "NotJson"),
    ("[]x", "NotJson"),
    ("[01]", "NotJson"),
    (r#"["\x"]"#, "NotJson"),
    (r#"["\ud800"]"#, "NotJson"),
    ("{}", "NotList"),
    ("null", "NotList"),
    (r#""[]""#, "NotList"),
    ("[1]", "Shape { item: 0 }"),
    ("[[]]", "Shape { item: 0 }"),
    ("[{},1]", "Shape { item: 0 }"),
];

#[test]
fn misshapen(rt: HostRuntime) -> Result<(), Fail> {
    for (part, other) in MISSHAPEN {
        let text = list_with(rt.alloc(), *part, *other)?;
        let found = read(rt.alloc(), text.as_str())?;
        assert_eq!(rt; found.as_str(), "Shape { item: 0 }", "{other}");
    }
    Ok(())
}

#[test]
fn refused(rt: HostRuntime) -> Result<(), Fail> {
    for (text, why) in REFUSED {
        let found = read(rt.alloc(), *text)?;
        assert_eq!(rt; found.as_str(), *why, "{text}");
    }
    Ok(())
}

// The item that is named is the first that is none.
#[test]
fn later_items(rt: HostRuntime) -> Result<(), Fail> {
    let text = format!(in rt.alloc(); "[{ITEM},{ITEM},1,{{}},2]")?;
    let found = read(rt.alloc(), text.as_str())?;
    assert_eq!(rt; found.as_str(), "Shape { item: 2 }");
    Ok(())
}
