//! Builds under timeouts.

use crate::shown::are_found;
use std::test::Fail;

/// A text, and what is found in it.
const TIMEOUTS: &[(&str, &str)] = &[
    (
        "SET lock_timeout = '1s'; CREATE INDEX CONCURRENTLY i ON t (a);",
        "25..62 build-under-timeout",
    ),
    (
        "SET lock_timeout = '1s'; SET lock_timeout TO 0; REINDEX INDEX CONCURRENTLY i;",
        "",
    ),
    (
        "SET SESSION statement_timeout TO 5000; DROP INDEX CONCURRENTLY i; REINDEX TABLE CONCURRENTLY t;",
        "39..65 build-under-timeout; 66..95 build-under-timeout",
    ),
    (
        "SET lock_timeout = '1s'; SET statement_timeout = '1s'; SET lock_timeout = 0; DROP INDEX CONCURRENTLY i;",
        "77..103 build-under-timeout",
    ),
    (
        "SET lock_timeout = '1s'; SET lock_timeout = '0min'; DROP INDEX CONCURRENTLY i;",
        "",
    ),
    (
        "SET lock_timeout = '1s'; SET lock_timeout TO DEFAULT; DROP INDEX CONCURRENTLY i;",
        "",
    ),
    (
        "SET lock_timeout = '1s'; RESET lock_timeout; DROP INDEX CONCURRENTLY i;",
        "",
    ),
    (
        "SET lock_timeout = '1s'; RESET lock_timeout.x; DROP INDEX CONCURRENTLY i;",
        "47..73 build-under-timeout",
    ),
    (
        "SET \"lock_timeout\" = '1s'; RESET \"lock_timeout\"; DROP INDEX CONCURRENTLY i;",
        "",
    ),
    ("SET lock_timeout.x = '1s'; DROP INDEX CONCURRENTLY i;", ""),
    (
        "SET \"lock_timeout\" = '1s'; DROP INDEX CONCURRENTLY i;",
        "27..53 build-under-timeout",
    ),
    (
        "SET lock_timeout = '1s'; RESET ALL; DROP INDEX CONCURRENTLY i;",
        "",
    ),
    (
        "SET lock_timeout = '1s'; DISCARD ALL; DROP INDEX CONCURRENTLY i;",
        "",
    ),
    (
        "SET lock_timeout = '1s'; RESET search_path; DISCARD TEMP; DROP INDEX CONCURRENTLY i;",
        "58..84 build-under-timeout",
    ),
    (
        "SET lock_timeout = 0; SET lock_timeout = '1s'; DROP INDEX CONCURRENTLY i;",
        "47..73 build-under-timeout",
    ),
    (
        "BEGIN; SET LOCAL lock_timeout = '1s'; COMMIT; DROP INDEX CONCURRENTLY i;",
        "",
    ),
    (
        "SET lock_timeout = '1s'; SET LOCAL lock_timeout = 0; DROP INDEX CONCURRENTLY i;",
        "53..79 build-under-timeout",
    ),
    (
        "SET lock_timeout = '1s'; BEGIN; DROP INDEX CONCURRENTLY i; COMMIT;",
        "32..58 statement-in-transaction",
    ),
    (
        "SET lock_timeout = '1s'; VACUUM t; ALTER TABLE t VALIDATE CONSTRAINT c; CREATE INDEX i ON t (a); REINDEX (CONCURRENTLY false) TABLE t;",
        "",
    ),
    (
        "SET work_mem = '1s'; SET lock_timeout = '0'; CREATE INDEX CONCURRENTLY i ON t (a);",
        "",
    ),
    (
        "CREATE INDEX CONCURRENTLY i ON t (a); SET lock_timeout = '1s';",
        "",
    ),
];

#[test]
fn timeouts_found(rt: HostRuntime) -> Result<(), Fail> {
    are_found(&rt, rt.alloc(), TIMEOUTS)
}
