//! Places, columns of a terminal, and texts as they are shown.

use check_progress::{Place, SourceFile, TextSize, push_shown, width};
use std::alloc::Global;
use std::process::Abort;
use std::test::Fail;

/// A byte, and the line and the column of its place.
type Row = (u32, usize, usize);

/// Lines that end by a line feed and by both bytes, an empty one, characters of one to four bytes, one that joins the letter before it,
/// and no line feed at the end.
const TEXT: &str = "ab\r\n\né€😀e\u{301}x\n\tz";

const PLACES: &[Row] = &[
    (0, 1, 1),
    (2, 1, 3),
    (3, 1, 4),
    (4, 2, 1),
    (5, 3, 1),
    (7, 3, 2),
    (10, 3, 3),
    (14, 3, 4),
    (15, 3, 5),
    (17, 3, 6),
    (18, 3, 7),
    (19, 4, 1),
    (20, 4, 2),
    (21, 4, 3),
];

fn has_places(rt: &impl Abort, alloc: Global, text: &str, rows: &[Row]) -> Result<(), Fail> {
    if text.len() > 1000 {
        return Err(Fail::from("a long text"));
    }
    let file = SourceFile::new(alloc, "a.sql", text)?;
    for (at, line, column) in rows {
        if !text.is_char_boundary(*at as usize) {
            return Err(Fail::from("a place inside of a character"));
        }
        let want = Place {
            line: *line,
            column: *column,
        };
        assert_eq!(rt; file.place(TextSize::new(*at)), want, "at {at}");
    }
    Ok(())
}

#[test]
fn places(rt: HostRuntime) -> Result<(), Fail> {
    has_places(&rt, rt.alloc(), TEXT, PLACES)?;
    has_places(&rt, rt.alloc(), "", &[(0, 1, 1)])?;
    has_places(&rt, rt.alloc(), "\n", &[(0, 1, 1), (1, 2, 1)])
}

/// A piece, what is shown of it, and the columns that this takes.
const SHOWN: &[(&str, &str, usize)] = &[
    ("", "", 0),
    ("a b", "a b", 3),
    ("é€😀漢", "é€😀漢", 6),
    ("e\u{301}", "e\u{301}", 1),
    ("\ta\t", "    a    ", 9),
    ("a\r", "a", 1),
    ("\u{1b}[31m", "␛[31m", 5),
    ("\0\u{7f}", "␀␡", 2),
    (
        "\u{80}\u{9b}\u{9f}\u{a0}",
        "\\u{80}\\u{9b}\\u{9f}\u{a0}",
        19,
    ),
    ("\u{202a}\u{202e}", "\\u{202a}\\u{202e}", 16),
    ("\u{2066}\u{2069}", "\\u{2066}\\u{2069}", 16),
];

#[test]
fn shown(rt: HostRuntime) -> Result<(), Fail> {
    for (piece, want, columns) in SHOWN {
        if piece.len() > 1000 {
            return Err(Fail::from("a long text"));
        }
        let mut found = Vec::new(rt.alloc());
        push_shown(&mut found, piece.as_bytes())?;
        assert!(rt; found.as_slice() == want.as_bytes(), "{want}");
        assert_eq!(rt; width(*piece), *columns, "{want}");
    }
    Ok(())
}
