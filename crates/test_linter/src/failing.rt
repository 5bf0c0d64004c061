//! Runs in which every call of a device fails in turn, and devices of every size that is too small.

use crate::runs::{Devices, SOUND, Wanted, ran};
use squawk_cli::Status;
use std::alloc::Global;
use std::process::Abort;
use std::test::Fail;

/// A text of 65 bytes in which an index build is reported.
const TEXT: &[u8] = b"BEGIN; CREATE TABLE t (id int); COMMIT; CREATE INDEX i ON t (id);";

/// The words that ask for that report alone.
const WORDS: &[&str] = &["--only", "require-concurrent-index-creation"];

/// The whole answer.
const PRINTED: &str =
    "40..65: warning[require-concurrent-index-creation]: during normal index creation, table updates are blocked, but reads are still allowed
  help: use `concurrently` to avoid blocking writes
  fix: Add `concurrently`
    insert 52 \" concurrently\"
violations: 1
";

const READ_FAILED: &str = "error: read failed\n";

const WRITE_FAILED: &str = "error: write failed\n";

/// What the sinks hold where a read fails.
const UNREAD: Wanted<'static> = Wanted {
    out: "",
    err: READ_FAILED,
};

/// What they hold, the sink at most, where a write fails.
const UNWRITTEN: Wanted<'static> = Wanted {
    out: PRINTED,
    err: WRITE_FAILED,
};

// Byte by byte there are 66 reads, of which the last one meets the end. The one after them is never made.
#[test]
fn no_read_fails(rt: HostRuntime) -> Result<(), Fail> {
    let on = Devices {
        step: 1,
        read_fails: &[66],
        room: PRINTED.len(),
        error_room: 0,
        ..SOUND
    };
    let want = Wanted {
        out: PRINTED,
        err: "",
    };
    let left = ran(rt.alloc(), WORDS, TEXT, on, want)?;
    assert!(rt; left.is(Status::Found));
    assert_eq!(rt; left.reads, [None, Some(0)]);
    Ok(())
}

#[test]
fn each_read_fails(rt: HostRuntime) -> Result<(), Fail> {
    for call in 0..66u32 {
        let on = Devices {
            step: 1,
            read_fails: &[call],
            ..SOUND
        };
        let left = ran(rt.alloc(), WORDS, TEXT, on, UNREAD)?;
        assert!(rt; left.is(Status::ReadFault), "at {call}");
    }
    Ok(())
}

#[test]
fn each_size_of_the_sink(rt: HostRuntime) -> Result<(), Fail> {
    for size in 0..PRINTED.len() {
        let on = Devices {
            room: size,
            ..SOUND
        };
        let left = ran(rt.alloc(), WORDS, TEXT, on, UNWRITTEN)?;
        let is_part = left.out.length <= size && left.out.is_part;
        assert!(rt;
            is_part && left.status == Status::WriteFault && left.err.is_whole,
            "at {size}"
        );
    }
    Ok(())
}

#[test]
fn each_size_of_the_error_sink(rt: HostRuntime) -> Result<(), Fail> {
    for size in 0..READ_FAILED.len() {
        let on = Devices {
            step: 1,
            read_fails: &[0],
            error_room: size,
            ..SOUND
        };
        let left = ran(rt.alloc(), WORDS, TEXT, on, UNREAD)?;
        assert!(rt;
            left.status == Status::ReadFault && left.out.is_whole && left.err.is_part,
            "at {size}"
        );
    }
    Ok(())
}

/// A run: its words and its text, which reads fail, how many bytes the sink holds at most, and the status.
type Row = (
    &'static [&'static str],
    &'static [u8],
    &'static [u32],
    usize,
    Status,
);

/// A run for each status but those of a text that is too long and of memory that runs out.
const RUNS: &[Row] = &[
    (&[], b"CLOSE;", &[], 100, Status::Clean),
    (WORDS, TEXT, &[], 1000, Status::Found),
    (&["x"], b"CLOSE;", &[], 100, Status::BadArguments),
    (&[], b"\xFF", &[], 100, Status::NotUtf8),
    (&[], b"CLOSE; 'a", &[], 100, Status::Unterminated { at: 7 }),
    (&[], b"CLOSE; foo;", &[], 100, Status::Syntax { at: 7 }),
    (&[], b"CLOSE;", &[0], 100, Status::ReadFault),
    (WORDS, TEXT, &[], 10, Status::WriteFault),
];

/// Error sinks that fail: how many bytes one holds at most, and which of its calls fail.
const FAILING: &[(usize, &[u32])] = &[(0, &[]), (8, &[]), (100, &[0]), (100, &[1]), (100, &[2])];

// Runs the row once with each error sink that fails.
fn keeps_its_status(rt: &impl Abort, alloc: Global, row: &Row) -> Result<(), Fail> {
    for (size, fails) in FAILING {
        let on = Devices {
            read_fails: row.2,
            room: row.3,
            error_room: *size,
            error_fails: fails,
            ..SOUND
        };
        let left = ran(alloc, row.0, row.1, on, UNREAD)?;
        assert_eq!(rt; left.status, row.4);
    }
    Ok(())
}

#[test]
fn a_failing_error_sink(rt: HostRuntime) -> Result<(), Fail> {
    for row in RUNS {
        keeps_its_status(&rt, rt.alloc(), row)?;
    }
    Ok(())
}
