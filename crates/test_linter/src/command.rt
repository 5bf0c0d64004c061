//! Runs over sources and sinks that fail, and the line on the error sink.

use crate::runs::{Devices, SOUND, Wanted, ran};
use squawk_cli::{MemSink, Status, say};
use std::test::Fail;

/// What is printed where nothing is reported.
const NOTHING: &str = "violations: 0\n";

const READ_FAILED: &str = "error: read failed\n";

const WRITE_FAILED: &str = "error: write failed\n";

/// Runs over `CLOSE;`: how many bytes a read gives at most and which reads fail; how many bytes the sink holds at most and
/// which writes fail; how many bytes the error sink holds at most; then the status, and what both sinks hold.
const FAULTS: &[(usize, &[u32], usize, &[u32], usize, Status, &str, &str)] = &[
    (100, &[], 14, &[], 0, Status::Clean, NOTHING, ""),
    (100, &[1], 100, &[], 100, Status::ReadFault, "", READ_FAILED),
    (1, &[0], 100, &[], 100, Status::ReadFault, "", READ_FAILED),
    (1, &[1], 100, &[], 100, Status::ReadFault, "", READ_FAILED),
    (1, &[6], 100, &[], 100, Status::ReadFault, "", READ_FAILED),
    (1, &[7], 100, &[], 100, Status::Clean, NOTHING, ""),
    (
        100,
        &[],
        100,
        &[0],
        100,
        Status::WriteFault,
        "",
        WRITE_FAILED,
    ),
    (100, &[], 0, &[], 100, Status::WriteFault, "", WRITE_FAILED),
    (
        100,
        &[],
        13,
        &[],
        100,
        Status::WriteFault,
        "violations: 0",
        WRITE_FAILED,
    ),
    (100, &[], 100, &[1], 100, Status::Clean, NOTHING, ""),
    (100, &[1], 100, &[], 0, Status::ReadFault, "", ""),
    (100, &[1], 100, &[], 6, Status::ReadFault, "", "error:"),
    (
        100,
        &[1],
        100,
        &[],
        18,
        Status::ReadFault,
        "",
        "error: read failed",
    ),
    (100, &[1], 100, &[0], 19, Status::ReadFault, "", READ_FAILED),
];

/// Runs over a text with these words: how many bytes the sink holds at most, which reads and which writes fail, the status, and
/// what the sink holds.
const MORE_FAULTS: &[(&[&str], &[u8], usize, &[u32], &[u32], Status, &str)] = &[
    (
        &["--locks"],
        b"CLOSE;",
        25,
        &[],
        &[],
        Status::Clean,
        "violations: 0\nplain: yes\n",
    ),
    (
        &["--locks"],
        b"CLOSE;",
        24,
        &[],
        &[],
        Status::WriteFault,
        "violations: 0\nplain: yes",
    ),
    (
        &["--locks"],
        b"CLOSE;",
        20,
        &[],
        &[],
        Status::WriteFault,
        "violations: 0\nplain:",
    ),
    (
        &["--locks"],
        b"CLOSE;",
        14,
        &[],
        &[],
        Status::WriteFault,
        NOTHING,
    ),
    (
        &["--locks"],
        b"CLOSE;",
        100,
        &[],
        &[0],
        Status::WriteFault,
        "",
    ),
    (
        &["--locks"],
        b"CLOSE;",
        100,
        &[],
        &[1],
        Status::WriteFault,
        NOTHING,
    ),
    (&[], b"SELECT 1;", 1000, &[1], &[], Status::ReadFault, ""),
    (&[], b"SELECT 1;", 1000, &[], &[0], Status::WriteFault, ""),
];

/// Words by which no read is made, the status of a run over a source whose first read fails, and how long the line on the
/// error sink is.
const UNREAD: &[(&[&str], Status, usize)] = &[
    (&["x"], Status::BadArguments, 21),
    (&["--generate", "4"], Status::Found, 0),
];

/// A status, the exit status of the program, and the line on the error sink.
const STATUSES: &[(Status, u8, &str)] = &[
    (Status::Clean, 0, ""),
    (Status::Found, 1, ""),
    (Status::BadArguments, 2, "error: bad arguments\n"),
    (Status::NotUtf8, 3, "error: input is not UTF-8\n"),
    (Status::TooLong, 4, "error: text too long\n"),
    (
        Status::Unterminated { at: 0 },
        4,
        "error: unterminated at 0\n",
    ),
    (
        Status::Syntax { at: 4294967295 },
        4,
        "error: syntax at 4294967295\n",
    ),
    (Status::ReadFault, 5, READ_FAILED),
    (Status::WriteFault, 6, WRITE_FAILED),
    (Status::NoMemory, 7, "error: out of memory\n"),
];

#[test]
fn faults(rt: HostRuntime) -> Result<(), Fail> {
    for row in FAULTS {
        let on = Devices {
            step: row.0,
            read_fails: row.1,
            room: row.2,
            write_fails: row.3,
            error_room: row.4,
            error_fails: &[],
        };
        let want = Wanted {
            out: row.6,
            err: row.7,
        };
        let left = ran(rt.alloc(), &[], b"CLOSE;", on, want)?;
        assert!(rt; left.is(row.5));
    }
    Ok(())
}

#[test]
fn more_faults(rt: HostRuntime) -> Result<(), Fail> {
    for row in MORE_FAULTS {
        let on = Devices {
            room: row.2,
            read_fails: row.3,
            write_fails: row.4,
            ..SOUND
        };
        let want = Wanted {
            out: row.6,
            err: "",
        };
        let left = ran(rt.alloc(), row.0, row.1, on, want)?;
        assert!(rt; left.status == row.5 && left.out.is_whole);
    }
    Ok(())
}

// Where no read is made the read that fails is still to come, and all bytes are left.
#[test]
fn nothing_is_read(rt: HostRuntime) -> Result<(), Fail> {
    for row in UNREAD {
        let on = Devices {
            read_fails: &[0],
            ..SOUND
        };
        let left = ran(
            rt.alloc(),
            row.0,
            b"BEGIN;",
            on,
            Wanted { out: "", err: "" },
        )?;
        assert!(rt; left.status == row.1 && left.err.length == row.2);
        assert_eq!(rt; left.reads, [None, Some(6)]);
    }
    Ok(())
}

#[test]
fn statuses(rt: HostRuntime) -> Result<(), Fail> {
    for row in STATUSES {
        let mut err = MemSink::new(rt.alloc(), 100, &[])?;
        say(&mut err, &row.0);
        assert_eq!(rt; row.0.code(), row.1);
        assert_eq!(rt; err.bytes(), row.2.as_bytes());
    }
    Ok(())
}
