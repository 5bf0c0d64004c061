//! Locks in order, and what waits for each.

use lint_track::LockKind;
use std::test::Fail;

/// Each lock with its strength, its printed form and what waits for it.
const KINDS: &[(LockKind, &str)] = &[
    (LockKind::Unknown, "0  []"),
    (LockKind::AccessShare, "1 `access share` [schema changes]"),
    (LockKind::RowShare, "2 `row share` [schema changes]"),
    (LockKind::RowExclusive, "3 `row exclusive` [schema changes]"),
    (
        LockKind::ShareUpdateExclusive,
        "4 `share update exclusive` [schema changes]",
    ),
    (LockKind::Share, "5 `share` [writes, schema changes]"),
    (
        LockKind::ShareRowExclusive,
        "6 `share row exclusive` [writes, schema changes]",
    ),
    (
        LockKind::Exclusive,
        "7 `exclusive` [writes, schema changes]",
    ),
    (
        LockKind::AccessExclusive,
        "8 `access exclusive` [reads, writes, schema changes]",
    ),
];

#[test]
fn kinds(rt: HostRuntime) -> Result<(), Fail> {
    for row in KINDS {
        let lock = row.0;
        let text = format!(in rt.alloc(); "{} {lock} [{}]", lock.strength(), lock.impact())?;
        assert_eq!(rt; text.as_str(), row.1);
    }
    Ok(())
}
