//! Whole runs.

use crate::runs::{SOUND, Wanted, run_is};
use squawk_fix::Status;
use std::test::Fail;

/// The words, a text, the status, and what both sinks hold.
type Row = (
    &'static [&'static str],
    &'static str,
    Status,
    &'static str,
    &'static str,
);

const ROWS: &[Row] = &[
    (&[], "", Status::Clean, "", "fixed: 0\n"),
    (
        &[
            "--only",
            "require-concurrent-index-deletion,require-lock-timeout",
        ],
        "DROP INDEX i;",
        Status::Clean,
        "set lock_timeout = '1s';\nDROP INDEX concurrently i;",
        "fixed: 2\n",
    ),
    // The fix of the first column would join two words.
    (
        &["--only", "prefer-text-field,prefer-bigint-over-int"],
        "CREATE TABLE t (c varchar(100)not null, d int);",
        Status::Found,
        "CREATE TABLE t (c varchar(100)not null, d bigint);",
        "fixed: 1\n",
    ),
    // Two rules report one statement.
    (
        &["--only", "require-lock-timeout,require-statement-timeout"],
        "DROP INDEX i;",
        Status::Clean,
        "set statement_timeout = '5s';\nset lock_timeout = '1s';\nDROP INDEX i;",
        "fixed: 2\n",
    ),
    // The SET moves the statement away from its ignore comment.
    (
        &[
            "--only",
            "require-concurrent-index-deletion,require-lock-timeout",
        ],
        "-- squawk-ignore require-concurrent-index-deletion\nDROP INDEX i;",
        Status::Clean,
        "-- squawk-ignore require-concurrent-index-deletion\nset lock_timeout = '1s';\nDROP INDEX concurrently i;",
        "fixed: 2\n",
    ),
    (
        &["--only", "require-concurrent-index-deletion"],
        "-- squawk-ignore-file require-concurrent-index-deletion\nDROP INDEX i;",
        Status::Clean,
        "-- squawk-ignore-file require-concurrent-index-deletion\nDROP INDEX i;",
        "fixed: 0\n",
    ),
    // The table is new in the transaction that is assumed.
    (
        &[
            "--assume-in-transaction",
            "--only",
            "require-concurrent-index-creation",
        ],
        "CREATE TABLE t (c text); CREATE INDEX i ON t (c);",
        Status::Clean,
        "CREATE TABLE t (c text); CREATE INDEX i ON t (c);",
        "fixed: 0\n",
    ),
    // The first fix removes the comment that says that no transaction is to be assumed; still none is.
    (
        &[
            "--assume-in-transaction",
            "--only",
            "prefer-text-field,require-concurrent-index-creation",
        ],
        "CREATE TABLE t (c varchar/* squawk-disable-assume-in-transaction */(10)); CREATE INDEX i ON t (c);",
        Status::Clean,
        "CREATE TABLE t (c text); CREATE INDEX concurrently i ON t (c);",
        "fixed: 2\n",
    ),
    // A rule whose fixes are not made.
    (
        &["--only", "ban-drop-table"],
        "DROP TABLE t;",
        Status::Found,
        "DROP TABLE t;",
        "fixed: 0\n",
    ),
    (
        &[],
        "CLOSE; foo;",
        Status::Syntax { at: 7 },
        "",
        "error: syntax at 7\n",
    ),
    (
        &[],
        "SELECT 'a;",
        Status::Unterminated { at: 7 },
        "",
        "error: unterminated at 7\n",
    ),
    (
        &["--locks"],
        "CLOSE;",
        Status::BadArguments,
        "",
        "error: bad arguments\n",
    ),
];

#[test]
fn rows(rt: HostRuntime) -> Result<(), Fail> {
    for (words, text, status, out, err) in ROWS {
        let want = Wanted {
            status: *status,
            out: out.as_bytes(),
            err: err.as_bytes(),
        };
        run_is(&rt, rt.alloc(), words, text.as_bytes(), SOUND, want)?;
    }
    Ok(())
}

#[test]
fn bytes_that_are_no_text(rt: HostRuntime) -> Result<(), Fail> {
    let want = Wanted {
        status: Status::NotUtf8,
        out: b"",
        err: b"error: input is not UTF-8\n",
    };
    run_is(&rt, rt.alloc(), &[], b"CLOSE;\xff", SOUND, want)
}
