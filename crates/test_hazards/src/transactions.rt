//! Statements in transactions.

use crate::shown::are_found;
use std::test::Fail;

/// A text, and what is found in it.
const TRANSACTIONS: &[(&str, &str)] = &[
    (
        "BEGIN; DROP INDEX CONCURRENTLY IF EXISTS i; COMMIT;",
        "7..43 statement-in-transaction",
    ),
    ("BEGIN; COMMIT; VACUUM t;", ""),
    (
        "BEGIN; ALTER TABLE p DETACH PARTITION q CONCURRENTLY; ALTER TABLE p DETACH PARTITION r FINALIZE; COMMIT;",
        "21..52 statement-in-transaction",
    ),
    (
        "BEGIN; ALTER TABLE p DETACH PARTITION q; DROP INDEX i; COMMIT;",
        "",
    ),
    (
        "BEGIN; REINDEX INDEX CONCURRENTLY i; REINDEX SCHEMA s; REINDEX DATABASE d; REINDEX SYSTEM d; COMMIT;",
        "7..36 statement-in-transaction; 37..54 statement-in-transaction; 55..74 statement-in-transaction; 75..92 statement-in-transaction; 75..92 table-rewrite",
    ),
    (
        "BEGIN; VACUUM t; CLUSTER; ALTER SYSTEM SET a = 1; DISCARD ALL; COMMIT;",
        "7..16 statement-in-transaction; 17..25 statement-in-transaction; 17..25 table-rewrite; 26..49 statement-in-transaction; 50..62 statement-in-transaction",
    ),
    (
        "BEGIN; CREATE DATABASE d; DROP DATABASE d; ALTER DATABASE d SET TABLESPACE x; COMMIT;",
        "7..25 statement-in-transaction; 26..42 statement-in-transaction; 43..77 statement-in-transaction",
    ),
    (
        "BEGIN; CREATE TABLESPACE s LOCATION '/x'; DROP TABLESPACE s; COMMIT;",
        "7..41 statement-in-transaction; 42..60 statement-in-transaction",
    ),
    (
        "BEGIN; COMMIT PREPARED 'x'; ROLLBACK PREPARED 'x'; ROLLBACK TO a; VACUUM t; COMMIT;",
        "7..27 statement-in-transaction; 28..50 statement-in-transaction; 66..75 statement-in-transaction",
    ),
    (
        "BEGIN; COMMIT AND CHAIN; VACUUM t; ROLLBACK; VACUUM t;",
        "25..34 statement-in-transaction",
    ),
    (
        "BEGIN; ANALYZE t; REINDEX TABLE t; REINDEX INDEX i; CLUSTER t USING i; COMMIT;",
        "52..70 table-rewrite",
    ),
    (
        "BEGIN; REINDEX (CONCURRENTLY false) TABLE t; REFRESH MATERIALIZED VIEW CONCURRENTLY m; DISCARD TEMP; COMMIT;",
        "",
    ),
    (
        "BEGIN; ALTER DATABASE d SET x = 1; ALTER TYPE e ADD VALUE 'x'; CREATE INDEX CONCURRENTLY i ON t (a); COMMIT;",
        "",
    ),
    ("VACUUM t; DROP INDEX CONCURRENTLY i; DISCARD ALL;", ""),
];

#[test]
fn transactions_found(rt: HostRuntime) -> Result<(), Fail> {
    are_found(&rt, rt.alloc(), TRANSACTIONS)
}
