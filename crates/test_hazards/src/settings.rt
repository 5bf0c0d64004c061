//! Findings under other settings, and of some hazards alone.

use crate::shown::{is_found, settings};
use hazard_find::{Hazard, HazardSet};
use std::test::Fail;

#[test]
fn assumed_transactions(rt: HostRuntime) -> Result<(), Fail> {
    let set = settings(rt.alloc(), true, 15);
    let all = HazardSet::all_default();
    is_found(
        &rt,
        rt.alloc(),
        &set,
        &all,
        "DROP INDEX CONCURRENTLY IF EXISTS i; COMMIT; VACUUM t;",
        "0..36 statement-in-transaction",
    )?;
    is_found(
        &rt,
        rt.alloc(),
        &set,
        &all,
        "ALTER TABLE p DETACH PARTITION q CONCURRENTLY; COMMIT;",
        "14..45 statement-in-transaction",
    )?;
    is_found(&rt, rt.alloc(), &set, &all, "VACUUM t;", "")?;
    is_found(
        &rt,
        rt.alloc(),
        &set,
        &all,
        "-- squawk-disable-assume-in-transaction\nVACUUM t; COMMIT;",
        "",
    )
}

#[test]
fn later_versions(rt: HostRuntime) -> Result<(), Fail> {
    let set = settings(rt.alloc(), false, 19);
    let all = HazardSet::all_default();
    is_found(
        &rt,
        rt.alloc(),
        &set,
        &all,
        "VACUUM FULL t; CLUSTER t USING i; ALTER TABLE t SET LOGGED;",
        "48..58 table-rewrite",
    )
}

#[test]
fn some_hazards(rt: HostRuntime) -> Result<(), Fail> {
    let set = settings(rt.alloc(), false, 15);
    let mut some = HazardSet::all_default();
    some.remove(Hazard::TableRewrite);
    is_found(
        &rt,
        rt.alloc(),
        &set,
        &some,
        "VACUUM FULL t; ALTER TABLE t ADD z json;",
        "35..39 json-column",
    )?;
    is_found(
        &rt,
        rt.alloc(),
        &set,
        &HazardSet::empty(),
        "VACUUM FULL t; ALTER TABLE t ADD z json;",
        "",
    )
}
