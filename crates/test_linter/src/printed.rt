//! The printed form of reports, in memory and in a sink.

ghost use Rattle.std.specs.Prelude.{◌≤◌};

use crate::held::Held;
use case_format::{TextRange, TextSize};
use squawk_cli::{
    Edit, Fix, MemSink, Rule, Text, Violation, WriteError, print_violations, write_violations,
};
use std::alloc::Global;
use std::process::Abort;
use std::test::Fail;

const PRINTED: &str = "1..2: warning[ban-drop-table]: a\\\"b\\\\c\\nd\\re
  note: n
  help: h
  fix: t
    insert 3 \"x\\\"\"
    replace 4..5 \"y\"
    delete 6..7
9..9: warning[renaming-table]: m
violations: 2
";

fn range(start: u32, end: u32) -> TextRange
    requires { start ≤ end }
{
    TextRange::new(TextSize::new(start), TextSize::new(end))
}

fn fix_of(alloc: Global) -> Result<Fix, Fail> {
    Ok(Fix {
        title: Text::fixed("t"),
        edits: vec![in alloc;
            Edit::insert(Text::fixed("x\""), TextSize::new(3)),
            Edit::replace(range(4, 5), Text::fixed("y")),
            Edit::delete(range(6, 7)),
        ]?,
    })
}

fn reports_of(alloc: Global) -> Result<Vec<Violation>, Fail> {
    let fix = fix_of(alloc)?;
    let first = Violation {
        code: Rule::BanDropTable,
        message: Text::fixed("a\"b\\c\nd\re"),
        text_range: range(1, 2),
        note: Some(Text::fixed("n")),
        help: Some(Text::fixed("h")),
        fix: Some(fix),
    };
    let second = Violation::for_range(Rule::RenamingTable, Text::fixed("m"), range(9, 9));
    Ok(vec![in alloc; first, second]?)
}

// The reports are printed so in memory.
fn prints(rt: &impl Abort, alloc: Global, reports: &[Violation], want: &str) -> Result<(), Fail> {
    let bytes = print_violations(alloc, reports)?;
    assert_eq!(rt; bytes.as_slice(), want.as_bytes());
    Ok(())
}

#[test]
fn printed(rt: HostRuntime) -> Result<(), Fail> {
    let reports = reports_of(rt.alloc())?;
    prints(&rt, rt.alloc(), reports.as_slice(), PRINTED)?;
    prints(&rt, rt.alloc(), &[], "violations: 0\n")
}

/// Writing the reports: how many bytes the sink holds at most, which of its calls fail, and what comes of it.
type Row = (usize, &'static [u32], Result<(), WriteError>);

const WRITTEN: &[Row] = &[
    (1000, &[], Ok(())),
    (PRINTED.len(), &[], Ok(())),
    (100, &[], Err(WriteError::Fault)),
    (0, &[], Err(WriteError::Fault)),
    (1000, &[0], Err(WriteError::Fault)),
];

/// What comes of writing, and what the sink holds then.
#[derive(Clone, Copy)]
struct Writing {
    result: Result<(), WriteError>,
    held: Held,
}

// Writes reports to a sink that holds so many bytes at most and fails at these of its calls.
fn written(
    alloc: Global,
    reports: &[Violation],
    capacity: usize,
    fails: &[u32],
    want: &str,
) -> Result<Writing, Fail> {
    let mut sink = MemSink::new(alloc, capacity, fails)?;
    let result = write_violations(alloc, &mut sink, reports);
    Ok(Writing {
        result,
        held: Held::by(&sink, want),
    })
}

// Writing goes as the row says, and the sink then holds as much as it can.
fn is_written(
    rt: &impl Abort,
    alloc: Global,
    reports: &[Violation],
    row: &Row,
) -> Result<(), Fail> {
    let left = written(alloc, reports, row.0, row.1, PRINTED)?;
    let length = if row.1.is_empty() {
        PRINTED.len().min(row.0)
    } else {
        0
    };
    assert_eq!(rt; left.result, row.2);
    let is_held = left.held.is_part && left.held.length == length;
    assert!(rt; is_held, "at {} and {:?}", row.0, row.2);
    Ok(())
}

#[test]
fn reports_are_written(rt: HostRuntime) -> Result<(), Fail> {
    let reports = reports_of(rt.alloc())?;
    for row in WRITTEN {
        is_written(&rt, rt.alloc(), reports.as_slice(), row)?;
    }
    Ok(())
}

/// How many reports are written in more than one piece, and how many bytes one takes.
const MANY: usize = 3000;

const LINE: &str = "9..9: warning[renaming-table]: m\n";

fn many(alloc: Global) -> Result<(Vec<Violation>, String), Fail> {
    let mut reports = Vec::new(alloc);
    let mut printed = String::new(alloc);
    for _ in 0..MANY {
        let message = Text::fixed("m");
        reports.push(Violation::for_range(Rule::RenamingTable, message, range(9, 9)))?;
        printed.push_str(LINE)?;
    }
    printed.push_str("violations: 3000\n")?;
    Ok((reports, printed))
}

// In one go, and stopped between two pieces.
fn pieces(rt: &impl Abort, alloc: Global, reports: &[Violation], want: &str) -> Result<(), Fail> {
    let all = written(alloc, reports, 200_000, &[], want)?;
    assert!(rt; all.result == Ok(()) && all.held.is_whole);
    let part = written(alloc, reports, 200_000, &[1], want)?;
    assert_eq!(rt; part.result, Err(WriteError::Fault));
    let length = part.held.length;
    assert!(rt; part.held.is_part && 0 < length && length < want.len());
    Ok(())
}

#[test]
fn written_in_pieces(rt: HostRuntime) -> Result<(), Fail> {
    let (reports, printed) = many(rt.alloc())?;
    pieces(&rt, rt.alloc(), reports.as_slice(), printed.as_str())
}
