//! Views that are filled anew.

use crate::shown::are_found;
use std::test::Fail;

/// A text, and what is found in it.
const VIEWS: &[(&str, &str)] = &[
    (
        "REFRESH MATERIALIZED VIEW m; REFRESH MATERIALIZED VIEW CONCURRENTLY m;",
        "0..28 refresh-blocks-reads",
    ),
    (
        "CREATE MATERIALIZED VIEW m AS SELECT 1; REFRESH MATERIALIZED VIEW m;",
        "",
    ),
    (
        "CREATE MATERIALIZED VIEW IF NOT EXISTS s.m AS SELECT 1; REFRESH MATERIALIZED VIEW s . m WITH DATA;",
        "",
    ),
    (
        "CREATE MATERIALIZED VIEW s.m AS SELECT 1; REFRESH MATERIALIZED VIEW m;",
        "42..70 refresh-blocks-reads",
    ),
    (
        "CREATE VIEW m AS SELECT 1; REFRESH MATERIALIZED VIEW m WITH NO DATA;",
        "27..68 refresh-blocks-reads",
    ),
    (
        "REFRESH MATERIALIZED VIEW m; CREATE MATERIALIZED VIEW m AS SELECT 1;",
        "0..28 refresh-blocks-reads",
    ),
];

#[test]
fn views_found(rt: HostRuntime) -> Result<(), Fail> {
    are_found(&rt, rt.alloc(), VIEWS)
}
