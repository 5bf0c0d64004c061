//! The hazards. Written by tools/rule_pages.py.

/// `statement-in-transaction`.
pub(crate) const STATEMENT_IN_TRANSACTION: &str = "statement-in-transaction

  default: on
  fix:     none
  lock:    none, it fails
  manual:  DROP INDEX,
           https://www.postgresql.org/docs/current/sql-dropindex.html

PostgreSQL refuses some statements in a transaction. So the migration fails at
this statement, and is rolled back, each time it is run.

Instead of

    BEGIN; DROP INDEX CONCURRENTLY IF EXISTS i; COMMIT;

Write in a file of its own that runs without a transaction:

    SET lock_timeout = 0;
    SET statement_timeout = 0;
    DROP INDEX CONCURRENTLY IF EXISTS i;
    RESET lock_timeout;
    RESET statement_timeout;

It does not see a tool that puts the file into a transaction, unless you say
`--assume-in-transaction`, and then not in a file of one statement; a file that
is sent as one query (`psql -c`), which is a transaction too; `REINDEX TABLE`
of a partitioned table and `CREATE SUBSCRIPTION`, which fail as well; what
fails outside of a transaction (`LOCK TABLE`, `SAVEPOINT`, `DECLARE` of a
cursor); `SET TRANSACTION` after a query; a new value of an enum that is used
in its transaction, also where that transaction created the type.

Details

- Reported: in an open transaction, as at
  `ban-concurrent-index-creation-in-transaction`: `DROP INDEX CONCURRENTLY`;
  `REINDEX .. CONCURRENTLY`, and `REINDEX` of a schema, a database or the
  system; `DETACH PARTITION .. CONCURRENTLY`, at the action; `VACUUM`;
  `CLUSTER` without a table; `CREATE DATABASE`, `DROP DATABASE`, `ALTER
  DATABASE .. SET TABLESPACE`; `CREATE TABLESPACE`, `DROP TABLESPACE`; `ALTER
  SYSTEM`; `DISCARD ALL`; `COMMIT PREPARED`, `ROLLBACK PREPARED`.
- Not reported: a text of one statement; `CREATE INDEX CONCURRENTLY`, which
  that rule reports; what may be in a transaction: `ANALYZE`, `REINDEX TABLE`,
  `CLUSTER` of a table, `REINDEX (CONCURRENTLY false)`, `REFRESH MATERIALIZED
  VIEW CONCURRENTLY`, `DISCARD TEMP`, `DETACH PARTITION .. FINALIZE`.
- In PostgreSQL: each of them was tried: \"cannot run inside a transaction
  block\", also with `IF EXISTS` and a name that isn't there.
- False alarms: none is known.

    $ echo 'BEGIN; DROP INDEX CONCURRENTLY IF EXISTS i; COMMIT;' | ./lavkheto check --only statement-in-transaction
    warning[statement-in-transaction]: `drop index concurrently` always fails inside a transaction
     --> stdin:1:8
      |
    1 | BEGIN; DROP INDEX CONCURRENTLY IF EXISTS i; COMMIT;
      |        ^^^^^^^^^^^^^^^^^^^^^^^^^^^^^^^^^^^^
      |
      = note: the transaction is rolled back, each time the migration is run
      = help: move it to a migration that runs without a transaction

    Found 1 issue in 1 of 1 file
";

/// `table-rewrite`.
pub(crate) const TABLE_REWRITE: &str = "table-rewrite

  default: on
  fix:     none
  lock:    ACCESS EXCLUSIVE, until the table and its indexes are written anew
  manual:  ALTER TABLE,
           https://www.postgresql.org/docs/current/sql-altertable.html#SQL-ALTERTABLE-NOTES

Nobody can read or write the table until all of it is written anew. That took a
second for 400,000 rows, where a plain column took a third of a millisecond; it
grows with the table.

Instead of

    ALTER TABLE t ADD COLUMN c bigserial;

Write a plain column first, and fill it:

    BEGIN;
    SET LOCAL lock_timeout = '1s';
    SET LOCAL statement_timeout = '5s';
    ALTER TABLE t ADD COLUMN c bigint;
    COMMIT;

    -- the old rows, some thousands at a time, each time in a transaction of its own
    UPDATE t SET c = id WHERE id BETWEEN 1 AND 10000 AND c IS NULL;

Let no tool put one transaction around both. Then make it `NOT NULL`
(`adding-not-nullable-field`), and add the identity (`ban-alter-identity`),
which begins above the greatest value. In place of `VACUUM FULL` and `CLUSTER`
use pg_repack, or `REPACK (CONCURRENTLY)` (`prefer-repack`) from PostgreSQL 19
on. pg_repack moves a table to another tablespace too.

It does not see what a rule reports already: another type, a default that is
computed for each row, a stored generated column, an identity column; a domain
with a constraint as the type of a new column.

Details

- Reported: `VACUUM FULL`, always; of an old table `CLUSTER`, also without a
  table; both before version 19 alone (`--pg-major`; 15 where none is given),
  since `prefer-repack` reports them from 19 on. `REINDEX SYSTEM`. Of the
  actions of an `ALTER TABLE` of an old table: `SET LOGGED`, `SET UNLOGGED`,
  `SET TABLESPACE`, `SET ACCESS METHOD`, `SET EXPRESSION` of a column, and `ADD
  COLUMN` of the type `serial`, `smallserial`, `bigserial`, `serial2`,
  `serial4` or `serial8`.
- Not reported: `VACUUM (FULL OFF)`; `CLUSTER ON`, `SET WITHOUT CLUSTER`, `SET
  (..)`; the columns of a `CREATE TABLE`; what is moved by `ALTER TABLE ALL IN
  TABLESPACE`, `ALTER INDEX` or `ALTER MATERIALIZED VIEW`.
- In PostgreSQL: ACCESS EXCLUSIVE, and new files for the table and all its
  indexes. Of 400,000 rows `ADD COLUMN .. bigserial` took 1060 milliseconds,
  `SET LOGGED` 892, `CLUSTER` 753, `VACUUM FULL` 736, `SET UNLOGGED` 441. `SET
  TABLESPACE` copies the files, in 55. `REINDEX SYSTEM`, another access method,
  and `SET EXPRESSION` (PostgreSQL 17) are from the manual.
- False alarms: `SET LOGGED` of a logged table, and `SET TABLESPACE` and `SET
  ACCESS METHOD` to the present one, write nothing.

    $ echo 'ALTER TABLE t ADD COLUMN c bigserial;' | ./lavkheto check --only table-rewrite
    warning[table-rewrite]: a new serial column rewrites the whole table while nobody can read or write it
     --> stdin:1:15
      |
    1 | ALTER TABLE t ADD COLUMN c bigserial;
      |               ^^^^^^^^^^^^^^^^^^^^^^
      |
      = help: add a `bigint` column without default, fill it in batches, prove not null by a validated check, then `add generated by default as identity (start with ..)`

    Found 1 issue in 1 of 1 file

    $ echo 'VACUUM FULL t;' | ./lavkheto check --only table-rewrite
    warning[table-rewrite]: `vacuum full` rewrites the whole table while nobody can read or write it
     --> stdin:1:1
      |
    1 | VACUUM FULL t;
      | ^^^^^^^^^^^^^^
      |
      = help: use pg_repack, or `repack (concurrently)` from 19 on

    Found 1 issue in 1 of 1 file
";

/// `column-with-check`.
pub(crate) const COLUMN_WITH_CHECK: &str = "column-with-check

  default: on
  fix:     none
  lock:    ACCESS EXCLUSIVE, until every row is read
  manual:  ALTER TABLE,
           https://www.postgresql.org/docs/current/sql-altertable.html

All rows are read to check them, though the column is new. Reads and writes
wait for that long: 37 milliseconds for 400,000 rows, where the column alone
took a third of one.

Instead of

    ALTER TABLE t ADD COLUMN c bigint CHECK (c > 0);

Write two files:

    BEGIN;
    SET LOCAL lock_timeout = '1s';
    SET LOCAL statement_timeout = '5s';
    ALTER TABLE t ADD COLUMN c bigint, ADD CONSTRAINT c_positive CHECK (c > 0) NOT VALID;
    COMMIT;

In a second file, which can be run again where it is cancelled:

    -- each row is read, while others read and write the table
    BEGIN;
    SET LOCAL lock_timeout = '1s';
    SET LOCAL statement_timeout = 0;
    ALTER TABLE t VALIDATE CONSTRAINT c_positive;
    COMMIT;

It does not see a check that comes with the column's type, which is a domain:
that writes the table anew.

Details

- Reported: each `CHECK` of a column that an `ALTER TABLE` adds to an old
  table, with and without a default.
- Not reported: a `CHECK` with `NOT ENFORCED` (PostgreSQL 18); the columns of a
  `CREATE TABLE`; a `CHECK` that is added beside the column, which is for
  `constraint-missing-not-valid`.
- In PostgreSQL: `ADD COLUMN .. CHECK` scans the table under ACCESS EXCLUSIVE
  (\"verifying table\"); a check that is added as `NOT VALID` doesn't.
- False alarms: none is known.

    $ echo 'ALTER TABLE t ADD COLUMN c bigint CHECK (c > 0);' | ./lavkheto check --only column-with-check
    warning[column-with-check]: a `check` of a new column scans the whole table while reads and writes wait
     --> stdin:1:35
      |
    1 | ALTER TABLE t ADD COLUMN c bigint CHECK (c > 0);
      |                                   ^^^^^^^^^^^^^
      |
      = help: add the column, add the check as a `not valid` constraint, and validate it in a later transaction

    Found 1 issue in 1 of 1 file
";

/// `build-under-timeout`.
pub(crate) const BUILD_UNDER_TIMEOUT: &str = "build-under-timeout

  default: on
  fix:     none
  lock:    SHARE UPDATE EXCLUSIVE, until the build ends or is cancelled
  manual:  CREATE INDEX,
           https://www.postgresql.org/docs/current/sql-createindex.html#SQL-CREATEINDEX-CONCURRENTLY

A timeout that cancels a concurrent build leaves an invalid index: writes keep
it up to date, and no query uses it. A build waits for transactions on other
tables too, and the time counts.

Instead of

    SET lock_timeout = '1s'; CREATE INDEX CONCURRENTLY i ON t (a);

Write in a file of its own that runs without a transaction, and can be run
again:

    SET lock_timeout = 0;
    SET statement_timeout = 0;
    CREATE INDEX CONCURRENTLY IF NOT EXISTS i ON t (a);
    RESET lock_timeout;
    RESET statement_timeout;
    -- stops at the invalid index of a failed build
    DO $$ BEGIN
      IF NOT (SELECT indisvalid FROM pg_index WHERE indexrelid = 'i'::regclass) THEN
        RAISE 'index i is invalid: REINDEX INDEX CONCURRENTLY i';
      END IF;
    END $$;

Where more follows in the session, set both again after the build: nothing
reports a statement that runs under the `0`.

It does not see timeouts that the role, the database or the server has;
`set_config`; a `0` that is still in force at a later statement.

Details

- Reported: `CREATE INDEX`, `DROP INDEX` and `REINDEX` with `CONCURRENTLY`,
  outside of a transaction, where the last `SET lock_timeout` or the last `SET
  statement_timeout` before it says a time other than 0. It is one report for
  both.
- Not reported: a build in a transaction, which fails; where the text sets no
  timeout, or `SET LOCAL` did, or `RESET` or `DISCARD ALL` came since; `0`,
  also as a string and with `ms`, `s`, `min` or `h`; `DEFAULT`; a value with a
  sign, or in dollar or double quotes.
- In PostgreSQL: with `lock_timeout = '500ms'` and one reader of another table
  the build was cancelled, and its index was invalid (`indisvalid`); with
  `statement_timeout` the same. A `REINDEX` leaves an invalid index whose name
  ends with `_ccnew`, a `DROP INDEX` the index itself, invalid.
- False alarms: a table on which the build is always faster than the timeout,
  while nothing else runs.

    $ echo \"SET lock_timeout = '1s'; CREATE INDEX CONCURRENTLY i ON t (a);\" | ./lavkheto check --only build-under-timeout
    warning[build-under-timeout]: a timeout can cancel this build and leave an invalid index
     --> stdin:1:26
      |
    1 | SET lock_timeout = '1s'; CREATE INDEX CONCURRENTLY i ON t (a);
      |                          ^^^^^^^^^^^^^^^^^^^^^^^^^^^^^^^^^^^^^
      |
      = note: `lock_timeout` also counts while it waits for transactions on other tables
      = help: `set lock_timeout = 0; set statement_timeout = 0;` before it, and set both again after it

    Found 1 issue in 1 of 1 file
";

/// `invalid-index-kept`.
pub(crate) const INVALID_INDEX_KEPT: &str = "invalid-index-kept

  default: on
  fix:     none
  lock:    none, nothing is built
  manual:  CREATE INDEX,
           https://www.postgresql.org/docs/current/sql-createindex.html#SQL-CREATEINDEX-CONCURRENTLY

A concurrent build that failed leaves an invalid index under the name. When the
migration is run again, `IF NOT EXISTS` takes it for the index and says so in a
NOTICE: the migration succeeds, and no query ever uses the index.

Instead of

    CREATE INDEX CONCURRENTLY IF NOT EXISTS i ON t (a);

Write in a file of its own that runs without a transaction, and can be run
again, a look at the index behind the build, which stops the migration at an
invalid one:

    SET lock_timeout = 0;
    SET statement_timeout = 0;
    CREATE INDEX CONCURRENTLY IF NOT EXISTS i ON t (a);
    RESET lock_timeout;
    RESET statement_timeout;
    -- stops at the invalid index of a failed build
    DO $$ BEGIN
      IF NOT (SELECT indisvalid FROM pg_index WHERE indexrelid = 'i'::regclass) THEN
        RAISE 'index i is invalid: REINDEX INDEX CONCURRENTLY i';
      END IF;
    END $$;

Where it stops, mend the index by hand: `REINDEX INDEX CONCURRENTLY i`, without
a timeout and outside of a transaction. For a unique index take the duplicates
away first. Then run the file again. An index that you know to be invalid may
be dropped as well, by hand, with `DROP INDEX CONCURRENTLY i`; no query loses
anything by that.

A `DROP INDEX CONCURRENTLY IF EXISTS i` in the file, before the build, is let
through too. But write none: it drops a valid index as well, when the file is
run a second time. Queries lose the index until it is built again; a unique one
keeps duplicates out no more, and they make the build fail; and one that a
constraint uses by now can't be dropped, so that the migration fails.

It does not see whether an index of that name is there, and whether it is
valid; whether the look stops the migration, and of which schema the index is
that it looks at; a look in a function, in another file, by another column or
by a list of all invalid indexes.

Details

- Reported: each `CREATE INDEX CONCURRENTLY IF NOT EXISTS` of a name at which
  no later statement of the text looks, and which no earlier `DROP INDEX .. IF
  EXISTS` of it has. Of the drop only the last part of the path is compared, so
  `s.i` and `i` count as one.
- A look is a `DO` block or a `SELECT` (one behind `WITH` too) with two words
  in it: `indisvalid`, the column of `pg_index`, and the name of the index,
  without its schema and its quotes. Upper and lower case don't count, and `i`
  is no word of `i_old`. Words may be in the strings of the statement, such as
  the code of the `DO` block, and not in comments. In such code a comment ends
  with its line, or with its `*/`; behind a comment in a comment nothing is
  seen. A `--` or `/*` in a string of the code counts as a comment.
- Not reported: the same without `IF NOT EXISTS`, where the second run fails;
  without `CONCURRENTLY`, where a build that fails leaves nothing.
- In PostgreSQL: the second run said \"already exists, skipping\", with status 0,
  and the index stayed invalid. The look stopped at it, and no more when
  `REINDEX INDEX CONCURRENTLY` had mended it.
- False alarms: a migration that is never run twice, or whose first build never
  fails; one that looks at the index in a way that is not seen.

    $ echo 'CREATE INDEX CONCURRENTLY IF NOT EXISTS i ON t (a);' | ./lavkheto check --only invalid-index-kept
    warning[invalid-index-kept]: after a failed build `if not exists` keeps the invalid index
     --> stdin:1:1
      |
    1 | CREATE INDEX CONCURRENTLY IF NOT EXISTS i ON t (a);
      | ^^^^^^^^^^^^^^^^^^^^^^^^^^^^^^^^^^^^^^^^^^^^^^^^^^^
      |
      = help: after it, a `do` block that stops where `indisvalid` is false; then `reindex index concurrently i`

    Found 1 issue in 1 of 1 file
";

/// `refresh-blocks-reads`.
pub(crate) const REFRESH_BLOCKS_READS: &str = "refresh-blocks-reads

  default: on
  fix:     none
  lock:    ACCESS EXCLUSIVE on the view, until its query has run
  manual:  REFRESH MATERIALIZED VIEW,
           https://www.postgresql.org/docs/current/sql-refreshmaterializedview.html

Whoever reads the view waits until its query has run. Where the query took 1.5
seconds a reader waited 1.2; with `CONCURRENTLY` less than two milliseconds.

Instead of

    REFRESH MATERIALIZED VIEW m;

Write

    SET lock_timeout = '1s';
    SET statement_timeout = 0;
    REFRESH MATERIALIZED VIEW CONCURRENTLY m;

It needs a unique index of the view, on columns alone and over all rows. It may
be in a transaction.

It does not see whether the view is filled, and whether it has such an index.

Details

- Reported: each `REFRESH MATERIALIZED VIEW` without `CONCURRENTLY`.
- Not reported: a view that an earlier `CREATE MATERIALIZED VIEW` of the text
  makes, which nobody reads yet: its first filling can't be concurrent.
- In PostgreSQL: ACCESS EXCLUSIVE on the view; with `CONCURRENTLY` EXCLUSIVE,
  under which reads go on.
- False alarms: the first filling of a view that another migration made `WITH
  NO DATA`; `WITH NO DATA`, which is quick, but after which each read of the
  view fails.

    $ echo 'REFRESH MATERIALIZED VIEW m;' | ./lavkheto check --only refresh-blocks-reads
    warning[refresh-blocks-reads]: readers of the view wait until its query has run
     --> stdin:1:1
      |
    1 | REFRESH MATERIALIZED VIEW m;
      | ^^^^^^^^^^^^^^^^^^^^^^^^^^^^
      |
      = help: `concurrently`, which needs a unique index on columns

    Found 1 issue in 1 of 1 file
";

/// `json-column`.
pub(crate) const JSON_COLUMN: &str = "json-column

  default: on
  fix:     none
  lock:    ACCESS EXCLUSIVE, for a moment
  manual:  JSON Types,
           https://www.postgresql.org/docs/current/datatype-json.html

`json` has no equality. Queries that worked fail from then on: `SELECT
DISTINCT` of all columns, `GROUP BY` of all columns, `UNION`.

Instead of

    ALTER TABLE t ADD COLUMN c json;

Write

    BEGIN;
    SET LOCAL lock_timeout = '1s';
    SET LOCAL statement_timeout = '5s';
    ALTER TABLE t ADD COLUMN c jsonb;
    COMMIT;

`jsonb` keeps neither blanks, nor the order of keys, nor a key that is there
twice. Where the text itself is needed take `text`.

It does not see `ALTER COLUMN .. TYPE json`, which `changing-column-type`
reports; which queries there are.

Details

- Reported: the type `json` of a column that an `ALTER TABLE` adds to an old
  table.
- Not reported: `jsonb`; `json[]`; the columns of a `CREATE TABLE`, which no
  query reads yet.
- In PostgreSQL: `SELECT DISTINCT * FROM t` worked before the column was added
  and failed afterwards: \"could not identify an equality operator for type
  json\". Nor can the column be indexed.
- False alarms: a table of which no query compares whole rows.

    $ echo 'ALTER TABLE t ADD COLUMN c json;' | ./lavkheto check --only json-column
    warning[json-column]: `json` has no equality: `select distinct` and `group by` of all columns fail
     --> stdin:1:28
      |
    1 | ALTER TABLE t ADD COLUMN c json;
      |                            ^^^^
      |
      = help: `jsonb`

    Found 1 issue in 1 of 1 file
";
