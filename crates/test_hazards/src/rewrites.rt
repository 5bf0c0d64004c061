//! Rewrites of tables.

use crate::shown::are_found;
use std::test::Fail;

/// A text, and what is found in it.
const REWRITES: &[(&str, &str)] = &[
    ("VACUUM FULL t;", "0..14 table-rewrite"),
    (
        "BEGIN; CREATE TABLE n (a int); CLUSTER n USING i; COMMIT; CLUSTER n USING i;",
        "58..76 table-rewrite",
    ),
    (
        "ALTER TABLE t ADD COLUMN z bigserial, SET UNLOGGED;",
        "14..36 table-rewrite; 38..50 table-rewrite",
    ),
    (
        "ALTER TABLE t SET LOGGED, SET TABLESPACE x, SET ACCESS METHOD m, ALTER COLUMN c SET EXPRESSION AS (a + 1);",
        "14..24 table-rewrite; 26..42 table-rewrite; 44..63 table-rewrite; 65..105 table-rewrite",
    ),
    (
        "ALTER TABLE t ADD z serial, ADD z serial2, ADD z serial4, ADD z serial8, ADD z smallserial NOT NULL;",
        "14..26 table-rewrite; 28..41 table-rewrite; 43..56 table-rewrite; 58..71 table-rewrite; 73..99 table-rewrite",
    ),
    ("VACUUM (FULL OFF) t; VACUUM t; REINDEX TABLE t;", ""),
    (
        "ALTER TABLE t CLUSTER ON i; ALTER TABLE t SET WITHOUT CLUSTER; ALTER TABLE t SET (fillfactor = 70); ALTER TABLE t SET SCHEMA s;",
        "",
    ),
    (
        "CREATE TABLE n (a bigserial); ALTER TABLE t ADD z bigint, ADD y a.serial, ADD x \"Serial\";",
        "",
    ),
    (
        "CREATE TEMP TABLE n (a int); CLUSTER n USING i; ALTER TABLE n SET LOGGED, ADD b serial;",
        "",
    ),
    (
        "CREATE TEMP TABLE a.n (x int); CLUSTER n USING i;",
        "31..49 table-rewrite",
    ),
    (
        "BEGIN; CREATE TABLE a.n (x int); ALTER TABLE a.n SET UNLOGGED; ALTER TABLE b.n SET UNLOGGED; COMMIT;",
        "79..91 table-rewrite",
    ),
    (
        "REINDEX SYSTEM d; CLUSTER; ALTER DATABASE d SET TABLESPACE x;",
        "0..17 table-rewrite; 18..26 table-rewrite",
    ),
    (
        "ALTER INDEX i SET TABLESPACE x; ALTER MATERIALIZED VIEW m SET TABLESPACE x;",
        "",
    ),
];

#[test]
fn rewrites_found(rt: HostRuntime) -> Result<(), Fail> {
    are_found(&rt, rt.alloc(), REWRITES)
}
