//! The rules of the group "Indexes". Written by tools/rule_pages.py.

/// `require-concurrent-index-creation`.
pub(crate) const REQUIRE_CONCURRENT_INDEX_CREATION: &str = "require-concurrent-index-creation

  default: on
  fix:     unsafe (it fails for a partitioned table; none in a transaction,
           after a timeout that the migration sets, with `IF NOT EXISTS`, with
           `ONLY`, and on a table that it makes with `PARTITION BY`)
  lock:    SHARE, until the index is built
  manual:  CREATE INDEX,
           https://www.postgresql.org/docs/current/sql-createindex.html#SQL-CREATEINDEX-CONCURRENTLY

Every `INSERT`, `UPDATE` and `DELETE` waits until the whole index is built. On
a large table that takes minutes or hours.

Instead of

    CREATE INDEX i ON t (a);

Write in a file of its own that runs without a transaction, and can be run
again:

    SET lock_timeout = 0;
    SET statement_timeout = 0;
    CREATE INDEX CONCURRENTLY IF NOT EXISTS i ON t (a);
    RESET lock_timeout;
    RESET statement_timeout;
    -- stops at the invalid index of a failed build
    DO $$ BEGIN
      IF NOT (SELECT indisvalid FROM pg_index WHERE indexrelid = 'i'::regclass) THEN
        RAISE 'index i is invalid: REINDEX INDEX CONCURRENTLY i';
      END IF;
    END $$;

A timeout makes the build fail, even while it waits for a transaction that uses
another table: so both are 0 here, and `RESET` puts back what the session began
with. A build that fails leaves an invalid index under the name, and `IF NOT
EXISTS` takes it for the wanted one: so the last statement looks, and stops the
migration. Then mend the index by hand, without a timeout and outside of a
transaction, and run the file again:

    SET lock_timeout = 0;
    SET statement_timeout = 0;
    REINDEX INDEX CONCURRENTLY i;
    RESET lock_timeout;
    RESET statement_timeout;

Write no `DROP INDEX CONCURRENTLY IF EXISTS i` before the build: it drops a
valid index as well, when the file is run a second time. Queries are slow until
the next build ends, and where the index is unique, duplicates get in
meanwhile, at which that build fails. `IF NOT EXISTS` goes by the name alone:
an index of that name on another table or on other columns is kept as well.
Without the last statement the hazard `invalid-index-kept` reports the build.

An index with an expression has no statistics until the table is analyzed: run
`ANALYZE t` after the build.

A partitioned table takes no `CONCURRENTLY`. Build an index on each partition
as above. Then create the index of the table itself, which reads no row, and
attach those of the partitions; it is valid when all are attached. For that
moment readers of the partition wait too. In a file of its own:

    BEGIN;
    SET LOCAL lock_timeout = '1s';
    SET LOCAL statement_timeout = '5s';
    -- squawk-ignore require-concurrent-index-creation
    CREATE INDEX logs_a ON ONLY logs (a);
    ALTER INDEX logs_a ATTACH PARTITION logs_2024_a;
    COMMIT;

It does not see a build that failed and left its index invalid; timeouts that
cancel a concurrent build; whether the table is partitioned, where a concurrent
build fails, and whether a partition has the index already.

Details

- Reported: each `CREATE INDEX` and `CREATE UNIQUE INDEX` without
  `CONCURRENTLY`. The fix puts the word in.
- Not reported: an index on a table that the same open transaction created:
  nobody else sees that table yet. Without a transaction there is no such
  exception, since each statement takes effect at once.
- In PostgreSQL: a plain build takes SHARE; one with `CONCURRENTLY` takes SHARE
  UPDATE EXCLUSIVE, is slower, and may not run in a transaction block (CREATE
  INDEX, \"Building Indexes Concurrently\"; section 13.3.1).

Created before. A table that the same open transaction created is one of an
earlier `CREATE TABLE`, `CREATE TABLE AS` or `SELECT INTO` in that transaction.
`IF NOT EXISTS` counts too, though the table may have been there; a drop, and a
rollback to a savepoint, aren't noticed. A table, type or sequence that an
earlier statement creates is one that an earlier `CREATE TABLE` with a list,
`CREATE TYPE` or `CREATE SEQUENCE` names, in any transaction, without `IF NOT
EXISTS`; `CREATE TABLE AS`, `SELECT INTO` and foreign tables don't count; a
rollback or a drop isn't noticed. In both, two names must have the same parts:
`t` and `public.t` count as two tables.

    $ echo 'CREATE INDEX i ON t (a);' | ./lavkheto check --only require-concurrent-index-creation
    warning[require-concurrent-index-creation]: during normal index creation, table updates are blocked, but reads are still allowed
     --> stdin:1:1
      |
    1 | CREATE INDEX i ON t (a);
      | ^^^^^^^^^^^^^^^^^^^^^^^^
      |
      = help: use `concurrently` to avoid blocking writes
    fix: Add `concurrently` (unsafe)
      |
    1 - CREATE INDEX i ON t (a);
    1 + CREATE INDEX concurrently i ON t (a);

    Found 1 issue in 1 of 1 file

    $ echo 'BEGIN; CREATE TABLE t (id int); COMMIT; CREATE INDEX i ON t (id);' | ./lavkheto check --only require-concurrent-index-creation
    warning[require-concurrent-index-creation]: during normal index creation, table updates are blocked, but reads are still allowed
     --> stdin:1:41
      |
    1 | BEGIN; CREATE TABLE t (id int); COMMIT; CREATE INDEX i ON t (id);
      |                                         ^^^^^^^^^^^^^^^^^^^^^^^^^
      |
      = help: use `concurrently` to avoid blocking writes
    fix: Add `concurrently` (unsafe)
      |
    1 - BEGIN; CREATE TABLE t (id int); COMMIT; CREATE INDEX i ON t (id);
    1 + BEGIN; CREATE TABLE t (id int); COMMIT; CREATE INDEX concurrently i ON t (id);

    Found 1 issue in 1 of 1 file
";

/// `require-concurrent-index-deletion`.
pub(crate) const REQUIRE_CONCURRENT_INDEX_DELETION: &str = "require-concurrent-index-deletion

  default: on
  fix:     unsafe (it fails for the index of a partitioned table; none in a
           transaction, after a timeout that the migration sets, with two
           indexes and with `CASCADE`)
  lock:    ACCESS EXCLUSIVE on the table, for a moment
  manual:  DROP INDEX,
           https://www.postgresql.org/docs/current/sql-dropindex.html

The drop waits for every transaction that uses the table, and all reads and
writes that come later wait for the drop. One long query is enough to stop the
application.

Instead of

    DROP INDEX i;

Write in a file of its own that runs without a transaction:

    SET lock_timeout = 0;
    SET statement_timeout = 0;
    DROP INDEX CONCURRENTLY IF EXISTS i;
    RESET lock_timeout;
    RESET statement_timeout;

A timeout here leaves the index invalid: then run the file again. The index of
a `UNIQUE` or `PRIMARY KEY` constraint goes with `DROP CONSTRAINT`, and that of
a partitioned table takes no `CONCURRENTLY`: for both set a short
`lock_timeout`.

It does not see `DROP INDEX CONCURRENTLY` in a transaction, where PostgreSQL
refuses it; which queries the index served (`ban-drop-index`).

Details

- Reported: each `DROP INDEX` without `CONCURRENTLY`. The fix puts the word in.
- Not reported: an index that goes with its table or its constraint.
- False alarms: an index that the same transaction made.
- In PostgreSQL: ACCESS EXCLUSIVE on the table. With `CONCURRENTLY` it blocks
  nobody, may not run in a transaction block, drops one index, and takes no
  `CASCADE` (DROP INDEX).

    $ echo 'DROP INDEX i;' | ./lavkheto check --only require-concurrent-index-deletion
    warning[require-concurrent-index-deletion]: a normal `drop index` acquires an `access exclusive` lock on the table, blocking other accesses until the index drop can complete
     --> stdin:1:1
      |
    1 | DROP INDEX i;
      | ^^^^^^^^^^^^^
      |
      = help: drop the index `concurrently`
    fix: Add `concurrently` (unsafe)
      |
    1 - DROP INDEX i;
    1 + DROP INDEX concurrently i;

    Found 1 issue in 1 of 1 file
";

/// `require-concurrent-reindex`.
pub(crate) const REQUIRE_CONCURRENT_REINDEX: &str = "require-concurrent-reindex

  default: on
  fix:     unsafe (it skips invalid indexes and those of exclusion constraints;
           none in a transaction, after a timeout that the migration sets, of
           system catalogs, and before version 12)
  lock:    SHARE on the table and ACCESS EXCLUSIVE on each index, until they
           are rebuilt
  manual:  REINDEX,
           https://www.postgresql.org/docs/current/sql-reindex.html#SQL-REINDEX-CONCURRENTLY

Writes wait until all indexes are rebuilt. So does nearly every query, since
planning it opens each index.

Instead of

    REINDEX TABLE t;

Write in a file of its own that runs without a transaction:

    SET lock_timeout = 0;
    SET statement_timeout = 0;
    REINDEX TABLE CONCURRENTLY t;
    RESET lock_timeout;
    RESET statement_timeout;

If it fails it leaves an invalid index whose name ends with `_ccnew`: drop that
one and begin again. `REINDEX TABLE CONCURRENTLY` passes over an index that is
invalid already; `REINDEX INDEX CONCURRENTLY` mends it.

It does not see `REINDEX .. CONCURRENTLY` in a transaction, where PostgreSQL
refuses it; an index left invalid.

Details

- Reported: each `REINDEX` of an index, a table, a schema or a database that is
  not concurrent. The fix puts the word in.
- Not reported: `REINDEX SYSTEM`, which can't be done so. An option that begins
  with `CONCURRENTLY` counts whatever its value: `REINDEX (CONCURRENTLY false)
  TABLE t` is left alone.
- In PostgreSQL: SHARE on the table, and ACCESS EXCLUSIVE on the index that is
  rebuilt, which each query that might use it waits for; with `CONCURRENTLY`
  SHARE UPDATE EXCLUSIVE, from PostgreSQL 12 on (REINDEX, Notes and \"Rebuilding
  Indexes Concurrently\").

    $ echo 'REINDEX TABLE t;' | ./lavkheto check --only require-concurrent-reindex
    warning[require-concurrent-reindex]: reindexing a table or index without `concurrently` blocks reads and writes
     --> stdin:1:1
      |
    1 | REINDEX TABLE t;
      | ^^^^^^^^^^^^^^^^
      |
      = help: use `concurrently` to avoid blocking reads and writes
    fix: Add `concurrently` (unsafe)
      |
    1 - REINDEX TABLE t;
    1 + REINDEX TABLE concurrently t;

    Found 1 issue in 1 of 1 file
";

/// `ban-concurrent-index-creation-in-transaction`.
pub(crate) const BAN_CONCURRENT_INDEX_CREATION_IN_TRANSACTION: &str =
    "ban-concurrent-index-creation-in-transaction

  default: on
  fix:     none
  lock:    none, it fails
  manual:  CREATE INDEX,
           https://www.postgresql.org/docs/current/sql-createindex.html#SQL-CREATEINDEX-CONCURRENTLY

A concurrent build needs several transactions of its own. So the migration
fails at this statement, each time it is run.

Instead of

    BEGIN; CREATE INDEX CONCURRENTLY i ON t (a); COMMIT;

Write in a file of its own that runs without a transaction, as at
`require-concurrent-index-creation`, which says what to do where it stops:

    SET lock_timeout = 0;
    SET statement_timeout = 0;
    CREATE INDEX CONCURRENTLY IF NOT EXISTS i ON t (a);
    RESET lock_timeout;
    RESET statement_timeout;
    -- stops at the invalid index of a failed build
    DO $$ BEGIN
      IF NOT (SELECT indisvalid FROM pg_index WHERE indexrelid = 'i'::regclass) THEN
        RAISE 'index i is invalid: REINDEX INDEX CONCURRENTLY i';
      END IF;
    END $$;

It does not see `DROP INDEX CONCURRENTLY`, `REINDEX .. CONCURRENTLY` and
`DETACH PARTITION .. CONCURRENTLY` in a transaction, which fail as well; a tool
that puts the file into a transaction, unless you say
`--assume-in-transaction`, and then not in a file of one statement.

Details

- Reported: the word `CONCURRENTLY` of each `CREATE INDEX CONCURRENTLY` in an
  open transaction: after a `BEGIN` without a `COMMIT` or `ROLLBACK` since,
  after `COMMIT AND CHAIN` or `ROLLBACK AND CHAIN`, or where
  `--assume-in-transaction` is given and no end came.
- Not reported: a text of one statement, since a tool can run such a migration
  without a transaction; an index without `CONCURRENTLY`; `DROP INDEX
  CONCURRENTLY` and `REINDEX CONCURRENTLY`, which PostgreSQL refuses in a
  transaction as well.
- In PostgreSQL: a concurrent build can't run inside a transaction block, since
  it needs several transactions of its own (CREATE INDEX, \"Building Indexes
  Concurrently\").

    $ echo 'BEGIN; CREATE INDEX CONCURRENTLY i ON t (a); COMMIT;' | ./lavkheto check --only ban-concurrent-index-creation-in-transaction
    warning[ban-concurrent-index-creation-in-transaction]: while regular index creation can happen inside a transaction, this is not allowed when the `concurrently` option is used
     --> stdin:1:21
      |
    1 | BEGIN; CREATE INDEX CONCURRENTLY i ON t (a); COMMIT;
      |                     ^^^^^^^^^^^^
      |
      = help: build the index outside any transactions

    Found 1 issue in 1 of 1 file
";

/// `ban-drop-index`.
pub(crate) const BAN_DROP_INDEX: &str = "ban-drop-index

  default: off
  fix:     none
  lock:    ACCESS EXCLUSIVE on the table, for a moment; none that hurts with
           `CONCURRENTLY`
  manual:  DROP INDEX,
           https://www.postgresql.org/docs/current/sql-dropindex.html

Queries that the index served become slow, all at once. Without a unique index,
duplicates get in.

Instead of

    DROP INDEX i;

Write in a file of its own that runs without a transaction:

    SET lock_timeout = 0;
    SET statement_timeout = 0;
    -- pg_stat_user_indexes shows no scan since May, on the replicas too
    -- squawk-ignore ban-drop-index
    DROP INDEX CONCURRENTLY IF EXISTS i;
    RESET lock_timeout;
    RESET statement_timeout;

It does not see indexes that go with their table, column or constraint.

Details

- Reported: each `DROP INDEX`, with and without `CONCURRENTLY`.
- In PostgreSQL: `DROP INDEX` takes ACCESS EXCLUSIVE on the table; with
  `CONCURRENTLY` it blocks nobody, and may not run in a transaction block (DROP
  INDEX).

    $ echo 'DROP INDEX i;' | ./lavkheto check --only ban-drop-index
    warning[ban-drop-index]: dropping an index may remove a guarantee or change query plans for existing clients
     --> stdin:1:1
      |
    1 | DROP INDEX i;
      | ^^^^^^^^^^^^^

    Found 1 issue in 1 of 1 file
";
