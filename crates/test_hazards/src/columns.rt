//! New columns.

use crate::shown::are_found;
use std::test::Fail;

/// A text, and what is found in it.
const COLUMNS: &[(&str, &str)] = &[
    (
        "ALTER TABLE t ADD COLUMN z int CHECK (z > 0);",
        "31..44 column-with-check",
    ),
    (
        "ALTER TABLE t ADD COLUMN z int, ADD CONSTRAINT c CHECK (z > 0) NOT VALID;",
        "",
    ),
    (
        "ALTER TABLE t ADD z int NOT NULL DEFAULT 0; CREATE TABLE n (a int CHECK (a > 0));",
        "",
    ),
    (
        "BEGIN; CREATE TABLE n (a int); ALTER TABLE n ADD z int CHECK (z > 0), ADD y json; COMMIT; ALTER TABLE n ADD x int CHECK (x > 0);",
        "114..127 column-with-check",
    ),
    (
        "ALTER TABLE t ADD z int CHECK (z > 0) NOT ENFORCED; ALTER TABLE t ADD z int CHECK (z > 0) NO INHERIT NOT ENFORCED;",
        "",
    ),
    (
        "ALTER TABLE t ADD z int CONSTRAINT c CHECK ((z > 0)) CHECK (z > 1);",
        "24..52 column-with-check; 53..66 column-with-check",
    ),
    (
        "ALTER TABLE t ADD z json CHECK (z IS NOT NULL), ADD y JSON NOT NULL;",
        "20..24 json-column; 25..46 column-with-check; 54..58 json-column",
    ),
    (
        "ALTER TABLE t ADD z json[], ADD y jsonb, ADD x a.json; CREATE TABLE n (a json);",
        "",
    ),
    (
        "CREATE TEMP TABLE n (a int); ALTER TABLE n ADD z json CHECK (z IS NOT NULL);",
        "",
    ),
    (
        "ALTER TABLE t ALTER COLUMN z TYPE json; ALTER FOREIGN TABLE t ADD z json;",
        "",
    ),
];

#[test]
fn columns_found(rt: HostRuntime) -> Result<(), Fail> {
    are_found(&rt, rt.alloc(), COLUMNS)
}
