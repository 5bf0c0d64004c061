//! Invalid indexes that are kept.

use crate::shown::are_found;
use std::test::Fail;

/// A text, and what is found in it.
const INDEXES: &[(&str, &str)] = &[
    (
        "CREATE INDEX CONCURRENTLY IF NOT EXISTS i ON t (a);",
        "0..51 invalid-index-kept",
    ),
    (
        "DROP INDEX CONCURRENTLY IF EXISTS s.i; CREATE INDEX CONCURRENTLY IF NOT EXISTS i ON s.t (a);",
        "",
    ),
    (
        "CREATE INDEX CONCURRENTLY i ON t (a); CREATE INDEX IF NOT EXISTS i ON t (a);",
        "",
    ),
    (
        "DROP INDEX CONCURRENTLY i; CREATE INDEX CONCURRENTLY IF NOT EXISTS i ON t (a);",
        "27..78 invalid-index-kept",
    ),
    (
        "DROP INDEX IF EXISTS j, i; CREATE INDEX CONCURRENTLY IF NOT EXISTS \"i\" ON t (a);",
        "",
    ),
    (
        "DROP TABLE IF EXISTS i; DROP INDEX IF EXISTS i.j; CREATE INDEX CONCURRENTLY IF NOT EXISTS i ON t (a);",
        "50..101 invalid-index-kept",
    ),
    (
        "CREATE INDEX CONCURRENTLY IF NOT EXISTS i ON t (a); DROP INDEX IF EXISTS i;",
        "0..51 invalid-index-kept",
    ),
];

/// A text, and what is found in it, where a later statement looks whether an index is valid.
const LOOKS: &[(&str, &str)] = &[
    (
        "CREATE INDEX CONCURRENTLY IF NOT EXISTS i ON t (a); DO $$ BEGIN IF NOT (SELECT indisvalid FROM pg_index WHERE indexrelid = 'i'::regclass) THEN RAISE 'i is invalid'; END IF; END $$;",
        "",
    ),
    (
        "CREATE INDEX CONCURRENTLY IF NOT EXISTS \"I\" ON t (a); SELECT indisvalid FROM pg_index WHERE indexrelid = '\"I\"'::regclass;",
        "",
    ),
    (
        "CREATE INDEX CONCURRENTLY IF NOT EXISTS i ON t (a); DO $$ BEGIN -- looks\n /* at */ ASSERT (SELECT indisvalid FROM pg_index WHERE indexrelid = 'i'::regclass); END $$;",
        "",
    ),
    (
        "CREATE INDEX CONCURRENTLY IF NOT EXISTS i ON t (a); SELECT indisvalid FROM pg_index WHERE indexrelid = 'j'::regclass;",
        "0..51 invalid-index-kept",
    ),
    (
        "CREATE INDEX CONCURRENTLY IF NOT EXISTS i ON t (a); SELECT indisvalid FROM pg_index WHERE indexrelid = 'i_old'::regclass OR indexrelid = 'my$i'::regclass;",
        "0..51 invalid-index-kept",
    ),
    (
        "SELECT indisvalid FROM pg_index WHERE indexrelid = 'i'::regclass; CREATE INDEX CONCURRENTLY IF NOT EXISTS i ON t (a);",
        "66..117 invalid-index-kept",
    ),
    (
        "CREATE INDEX CONCURRENTLY IF NOT EXISTS i ON t (a); DO $$ BEGIN -- indisvalid of 'i'\n PERFORM 1; END $$;",
        "0..51 invalid-index-kept",
    ),
    (
        "CREATE INDEX CONCURRENTLY IF NOT EXISTS i ON t (a); DELETE FROM v WHERE indisvalid AND indexrelid = 'i'::regclass;",
        "0..51 invalid-index-kept",
    ),
];

#[test]
fn indexes_found(rt: HostRuntime) -> Result<(), Fail> {
    are_found(&rt, rt.alloc(), INDEXES)
}

#[test]
fn looks_seen(rt: HostRuntime) -> Result<(), Fail> {
    are_found(&rt, rt.alloc(), LOOKS)
}
