//! The tables that the open transaction created, by a path of another text.

use lint_track::TablesCreatedInTransaction;
use sql_read::{Body, NamePath, Stmt, parse};
use std::alloc::Global;
use std::test::Fail;

// The tables that the statements of a text leave created in the open transaction.
fn created_by(alloc: Global, text: &str) -> Result<TablesCreatedInTransaction, Fail> {
    let p = parse(alloc, text)?;
    let mut created = TablesCreatedInTransaction::new(alloc, false);
    for s in p.tree().stmts.as_slice() {
        created.update(&p, s)?;
    }
    Ok(created)
}

// Whether the table that the first statement of a text creates or indexes is one of these.
fn has_table_of(
    alloc: Global,
    created: &TablesCreatedInTransaction,
    text: &str,
) -> Result<bool, Fail> {
    let p = parse(alloc, text)?;
    match p.tree().stmts.as_slice() {
        [
            Stmt {
                body: Body::Table { path, .. } | Body::Index { path, .. },
                ..
            },
            ..
        ] => Ok(created.contains(&NamePath::of(alloc, &p, *path)?)),
        _ => Err(Fail::from("no path")),
    }
}

#[test]
fn path_of_another_text(rt: HostRuntime) -> Result<(), Fail> {
    let created = created_by(rt.alloc(), "BEGIN; CREATE TABLE t (id int);")?;
    assert!(rt; has_table_of(rt.alloc(), &created, "CREATE INDEX ON T (a);")?);
    assert!(rt; !has_table_of(rt.alloc(), &created, "CREATE INDEX ON \"T\" (a);")?);
    Ok(())
}
