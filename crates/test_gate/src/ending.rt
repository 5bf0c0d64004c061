//! Files that end inside of a transaction.

use migration_gate::{ends_in_transaction, parse};
use std::test::Fail;

/// A text, whether a transaction is assumed before it, and whether one is open behind it.
const FILES: [(&str, bool, bool); 8] = [
    ("", false, false),
    ("", true, true),
    ("begin;", false, true),
    ("begin; commit;", false, false),
    ("begin; commit and chain;", false, true),
    ("commit;", true, false),
    ("rollback; start transaction;", true, true),
    ("begin; savepoint a; rollback to a;", false, true),
];

#[test]
fn open_behind_a_file(rt: HostRuntime) -> Result<(), Fail> {
    for (text, assumed, open) in &FILES {
        let file = parse(rt.alloc(), *text)?;
        assert_eq!(rt; ends_in_transaction(&file, *assumed), *open, "{text}");
    }
    Ok(())
}
