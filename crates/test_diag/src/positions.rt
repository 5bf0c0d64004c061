//! Positions.

use diag_json::{Pos, PosIndex};
use std::alloc::Global;
use std::process::Abort;
use std::test::Fail;

/// A line, a column, and the place that has them, if there is one.
type Row = (u32, u32, Option<u32>);

/// Three lines and an empty last one, with characters of one to four bytes, an end of a line by CRLF, and a byte order mark.
const TEXT: &str = "a😀b\né€\r\n\u{FEFF}x\n";

const PLACES: &[Row] = &[
    (0, 0, Some(0)),
    (0, 1, Some(1)),
    (0, 2, None),
    (0, 3, Some(5)),
    (0, 4, Some(6)),
    (0, 5, None),
    (0, 4294967295, None),
    (1, 0, Some(7)),
    (1, 1, Some(9)),
    (1, 2, Some(12)),
    (1, 3, Some(13)),
    (1, 4, None),
    (2, 0, Some(14)),
    (2, 1, Some(17)),
    (2, 2, Some(18)),
    (2, 3, None),
    (3, 0, Some(19)),
    (3, 1, None),
    (4, 0, None),
    (4294967295, 0, None),
];

/// A line of 201 bytes and 101 units.
const LONG: &str =
    "aéééééééééééééééééééééééééééééééééééééééééééééééééééééééééééééééééééééééééééééééééééééééééééééééééééé";

const LONG_PLACES: &[Row] = &[
    (0, 63, Some(125)),
    (0, 64, Some(127)),
    (0, 65, Some(129)),
    (0, 100, Some(199)),
    (0, 101, Some(201)),
    (0, 102, None),
    (1, 0, None),
];

const EMPTY_PLACES: &[Row] = &[(0, 0, Some(0)), (0, 1, None), (1, 0, None)];

// Each place that is found has the position that was looked for.
fn has_places(rt: &impl Abort, alloc: Global, text: &str, rows: &[Row]) -> Result<(), Fail> {
    if text.len() > 1000 {
        return Err(Fail::from("a long text"));
    }
    let index = PosIndex::new(alloc, text)?;
    for (line, col, place) in rows {
        let pos = Pos {
            line: *line,
            col: *col,
        };
        let found = index.at(pos);
        if let Some(at) = found {
            assert_eq!(rt; index.pos(at), pos);
        }
        assert_eq!(rt; found.map(|at| at.raw()), *place, "{line}:{col}");
    }
    Ok(())
}

#[test]
fn places_of_positions(rt: HostRuntime) -> Result<(), Fail> {
    for (text, rows) in [(TEXT, PLACES), (LONG, LONG_PLACES), ("", EMPTY_PLACES)] {
        has_places(&rt, rt.alloc(), text, rows)?;
    }
    Ok(())
}
