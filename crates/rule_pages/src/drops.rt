//! The rules of the group "Drops". Written by tools/rule_pages.py.

/// `ban-drop-database`.
pub(crate) const BAN_DROP_DATABASE: &str = "ban-drop-database

  default: on
  fix:     none
  lock:    none on tables; it needs a database without sessions
  manual:  DROP DATABASE,
           https://www.postgresql.org/docs/current/sql-dropdatabase.html

All data in it is lost, at once and for good. No transaction can undo it.

Instead of

    DROP DATABASE d;

Write nothing of it in a migration. Take a backup, and drop the database by
hand.

It does not see what a backup holds.

Details

- Reported: each `DROP DATABASE`.
- In PostgreSQL: it runs in no transaction block and cannot be undone. `WITH
  (FORCE)` ends the sessions that still use it (DROP DATABASE).

    $ echo 'DROP DATABASE d;' | ./lavkheto check --only ban-drop-database
    warning[ban-drop-database]: dropping a database may break existing clients
     --> stdin:1:1
      |
    1 | DROP DATABASE d;
      | ^^^^^^^^^^^^^^^^

    Found 1 issue in 1 of 1 file
";

/// `ban-drop-table`.
pub(crate) const BAN_DROP_TABLE: &str = "ban-drop-table

  default: on
  fix:     none
  lock:    ACCESS EXCLUSIVE on it and on each table that its foreign keys refer
           to, for a moment
  manual:  DROP TABLE,
           https://www.postgresql.org/docs/current/sql-droptable.html

The table goes with its rows, indexes and triggers. Every client that still
uses it fails.

The rules of this group report a whole statement, once, however many objects it
names, with and without `IF EXISTS` and `CASCADE`. The safe way is the same for
all: release a version that does without the object, see that nothing uses it
any more, and drop it in a later migration. Without `CASCADE`, PostgreSQL
refuses to drop what other objects depend on (section 5.15); with it they go
too.

Instead of

    DROP TABLE IF EXISTS a, b CASCADE;

Write the drop in a later migration, as above. A renamed table that nobody
misses for a week is easier to bring back than a dropped one.

    SET lock_timeout = '1s';
    SET statement_timeout = '5s';
    -- nothing has used it since release 41
    -- squawk-ignore ban-drop-table
    DROP TABLE IF EXISTS a;

A partition takes the partitioned table and the default partition with it: all
three are under ACCESS EXCLUSIVE, and who reads any partition through the table
waits. Detach it (`require-concurrent-partition-detach`) first, in a file of
its own; then the drop locks it alone.

It does not see whether the table is a partition; tables that go with their
schema, owner, type or extension (`CASCADE`, `DROP OWNED`).

Details

- Reported: each `DROP TABLE` and `DROP FOREIGN TABLE`.
- In PostgreSQL: ACCESS EXCLUSIVE on the table and on those that its foreign
  keys refer to, which may be busy ones; of a partition also on the partitioned
  table and the default partition (section 13.3.1; DROP TABLE and DROP FOREIGN
  TABLE).

    $ echo 'DROP TABLE IF EXISTS a, b CASCADE;' | ./lavkheto check --only ban-drop-table
    warning[ban-drop-table]: dropping a table may break existing clients
     --> stdin:1:1
      |
    1 | DROP TABLE IF EXISTS a, b CASCADE;
      | ^^^^^^^^^^^^^^^^^^^^^^^^^^^^^^^^^^

    Found 1 issue in 1 of 1 file
";

/// `ban-drop-view`.
pub(crate) const BAN_DROP_VIEW: &str = "ban-drop-view

  default: on
  fix:     none
  lock:    ACCESS EXCLUSIVE on the view, for a moment
  manual:  DROP VIEW, https://www.postgresql.org/docs/current/sql-dropview.html

Clients that read the view fail. The rows of a materialized view are lost.

The rules of this group report a whole statement, once, however many objects it
names, with and without `IF EXISTS` and `CASCADE`. The safe way is the same for
all: release a version that does without the object, see that nothing uses it
any more, and drop it in a later migration. Without `CASCADE`, PostgreSQL
refuses to drop what other objects depend on (section 5.15); with it they go
too.

Instead of

    DROP VIEW v;

Write the drop in a later migration, as above. To change a view, `CREATE OR
REPLACE VIEW` keeps it in place, as long as its columns stay and new ones come
last.

    SET lock_timeout = '1s';
    SET statement_timeout = '5s';
    -- nothing has used it since release 41
    -- squawk-ignore ban-drop-view
    DROP VIEW IF EXISTS v;

It does not see views that go with their table (`DROP TABLE .. CASCADE`).

Details

- Reported: each `DROP VIEW` and `DROP MATERIALIZED VIEW`.
- In PostgreSQL: ACCESS EXCLUSIVE on the view (DROP VIEW and DROP MATERIALIZED
  VIEW).

    $ echo 'DROP VIEW v;' | ./lavkheto check --only ban-drop-view
    warning[ban-drop-view]: dropping a view may break existing clients
     --> stdin:1:1
      |
    1 | DROP VIEW v;
      | ^^^^^^^^^^^^

    Found 1 issue in 1 of 1 file
";

/// `ban-drop-function`.
pub(crate) const BAN_DROP_FUNCTION: &str = "ban-drop-function

  default: on
  fix:     none
  lock:    none on tables
  manual:  DROP FUNCTION,
           https://www.postgresql.org/docs/current/sql-dropfunction.html

Clients that call it fail, and so do statements that they have prepared.

The rules of this group report a whole statement, once, however many objects it
names, with and without `IF EXISTS` and `CASCADE`. The safe way is the same for
all: release a version that does without the object, see that nothing uses it
any more, and drop it in a later migration. Without `CASCADE`, PostgreSQL
refuses to drop what other objects depend on (section 5.15); with it they go
too.

Instead of

    DROP AGGREGATE a(int);

Write the drop in a later migration, as above. Give a new version of a function
another name or other parameters, and keep both for a while.

    SET lock_timeout = '1s';
    SET statement_timeout = '5s';
    -- nothing has called it since release 41
    -- squawk-ignore ban-drop-function
    DROP FUNCTION IF EXISTS f(int);

It does not see calls in the bodies of other functions: PostgreSQL doesn't know
these either, and drops the function.

Details

- Reported: each `DROP FUNCTION`, `DROP PROCEDURE`, `DROP ROUTINE` and `DROP
  AGGREGATE`.
- In PostgreSQL: the pages of these statements.

    $ echo 'DROP AGGREGATE a(int);' | ./lavkheto check --only ban-drop-function
    warning[ban-drop-function]: dropping an aggregate may break existing clients
     --> stdin:1:1
      |
    1 | DROP AGGREGATE a(int);
      | ^^^^^^^^^^^^^^^^^^^^^^

    Found 1 issue in 1 of 1 file
";

/// `ban-drop-type`.
pub(crate) const BAN_DROP_TYPE: &str = "ban-drop-type

  default: on
  fix:     none
  lock:    none on tables; with `CASCADE` ACCESS EXCLUSIVE on each table that
           loses a column or an index
  manual:  DROP TYPE, https://www.postgresql.org/docs/current/sql-droptype.html

Queries that use the type, the cast or the operator fail. With `CASCADE` the
columns of the type go too, and the indexes of the operator class.

The rules of this group report a whole statement, once, however many objects it
names, with and without `IF EXISTS` and `CASCADE`. The safe way is the same for
all: release a version that does without the object, see that nothing uses it
any more, and drop it in a later migration. Without `CASCADE`, PostgreSQL
refuses to drop what other objects depend on (section 5.15); with it they go
too.

Instead of

    DROP OPERATOR + (pair, pair);

Write the drop in a later migration, as above.

    SET lock_timeout = '1s';
    SET statement_timeout = '5s';
    -- no column and no client has used it since release 41
    -- squawk-ignore ban-drop-type
    DROP TYPE IF EXISTS mood;

It does not see types that go with their schema or extension.

Details

- Reported: each `DROP TYPE`, `DROP CAST`, `DROP OPERATOR`, `DROP OPERATOR
  CLASS` and `DROP OPERATOR FAMILY`.
- Not reported: `DROP DOMAIN`, which has a rule of its own (`ban-drop-domain`).
- In PostgreSQL: the pages of these statements.

    $ echo 'DROP OPERATOR + (pair, pair);' | ./lavkheto check --only ban-drop-type
    warning[ban-drop-type]: dropping an operator may break existing clients
     --> stdin:1:1
      |
    1 | DROP OPERATOR + (pair, pair);
      | ^^^^^^^^^^^^^^^^^^^^^^^^^^^^^

    Found 1 issue in 1 of 1 file
";

/// `ban-drop-trigger`.
pub(crate) const BAN_DROP_TRIGGER: &str = "ban-drop-trigger

  default: off
  fix:     none
  lock:    ACCESS EXCLUSIVE on the table, for a moment
  manual:  DROP TRIGGER,
           https://www.postgresql.org/docs/current/sql-droptrigger.html

What the trigger did is no longer done: checks, audit rows, copies of values.
No client gets an error.

The rules of this group report a whole statement, once, however many objects it
names, with and without `IF EXISTS` and `CASCADE`. The safe way is the same for
all: release a version that does without the object, see that nothing uses it
any more, and drop it in a later migration. Without `CASCADE`, PostgreSQL
refuses to drop what other objects depend on (section 5.15); with it they go
too.

Instead of

    DROP TRIGGER audit ON t;

Write the drop in a later migration, as above; move the trigger's work into the
application first.

    SET lock_timeout = '1s';
    SET statement_timeout = '5s';
    -- release 41 writes the audit rows itself
    -- squawk-ignore ban-drop-trigger
    DROP TRIGGER IF EXISTS audit ON t;

It does not see triggers that go with their function (`DROP FUNCTION ..
CASCADE`).

Details

- Reported: each `DROP TRIGGER`.
- Not reported: `DROP EVENT TRIGGER`.
- In PostgreSQL: ACCESS EXCLUSIVE on the table, for a moment (DROP TRIGGER).

    $ echo 'DROP TRIGGER audit ON t;' | ./lavkheto check --only ban-drop-trigger
    warning[ban-drop-trigger]: dropping a trigger may silently change behavior for existing clients
     --> stdin:1:1
      |
    1 | DROP TRIGGER audit ON t;
      | ^^^^^^^^^^^^^^^^^^^^^^^^

    Found 1 issue in 1 of 1 file
";

/// `ban-drop-schema`.
pub(crate) const BAN_DROP_SCHEMA: &str = "ban-drop-schema

  default: on
  fix:     none
  lock:    none on an empty schema; with `CASCADE` ACCESS EXCLUSIVE on all
           tables in it
  manual:  DROP SCHEMA,
           https://www.postgresql.org/docs/current/sql-dropschema.html

Clients that name an object in it fail. Those that have the schema in their
search path fail, or find another object of the same name.

The rules of this group report a whole statement, once, however many objects it
names, with and without `IF EXISTS` and `CASCADE`. The safe way is the same for
all: release a version that does without the object, see that nothing uses it
any more, and drop it in a later migration. Without `CASCADE`, PostgreSQL
refuses to drop what other objects depend on (section 5.15); with it they go
too.

Instead of

    DROP SCHEMA o;

Write the drop in a later migration, as above. Drop or move the objects one by
one, and the empty schema last:

    SET lock_timeout = '1s';
    SET statement_timeout = '5s';
    -- it is empty, and in nobody's search path
    -- squawk-ignore ban-drop-schema
    DROP SCHEMA IF EXISTS o;

It does not see whether the schema is empty.

Details

- Reported: each `DROP SCHEMA`.
- In PostgreSQL: without `CASCADE` only an empty schema is dropped (DROP
  SCHEMA; section 5.10.3).

    $ echo 'DROP SCHEMA o;' | ./lavkheto check --only ban-drop-schema
    warning[ban-drop-schema]: dropping a schema may break existing clients
     --> stdin:1:1
      |
    1 | DROP SCHEMA o;
      | ^^^^^^^^^^^^^^

    Found 1 issue in 1 of 1 file
";

/// `ban-drop-sequence`.
pub(crate) const BAN_DROP_SEQUENCE: &str = "ban-drop-sequence

  default: on
  fix:     none
  lock:    ACCESS EXCLUSIVE on the sequence, for a moment
  manual:  DROP SEQUENCE,
           https://www.postgresql.org/docs/current/sql-dropsequence.html

Clients that call `nextval` on it fail. With `CASCADE` the defaults that use it
go, and an `INSERT` that relied on one fails.

The rules of this group report a whole statement, once, however many objects it
names, with and without `IF EXISTS` and `CASCADE`. The safe way is the same for
all: release a version that does without the object, see that nothing uses it
any more, and drop it in a later migration. Without `CASCADE`, PostgreSQL
refuses to drop what other objects depend on (section 5.15); with it they go
too.

Instead of

    DROP SEQUENCE o;

Write the drop in a later migration, as above.

    SET lock_timeout = '1s';
    SET statement_timeout = '5s';
    -- no default and no client has used it since release 41
    -- squawk-ignore ban-drop-sequence
    DROP SEQUENCE IF EXISTS o;

It does not see sequences that go with the column that owns them.

Details

- Reported: each `DROP SEQUENCE`.
- In PostgreSQL: DROP SEQUENCE.

    $ echo 'DROP SEQUENCE o;' | ./lavkheto check --only ban-drop-sequence
    warning[ban-drop-sequence]: dropping a sequence may break existing clients
     --> stdin:1:1
      |
    1 | DROP SEQUENCE o;
      | ^^^^^^^^^^^^^^^^

    Found 1 issue in 1 of 1 file
";

/// `ban-drop-domain`.
pub(crate) const BAN_DROP_DOMAIN: &str = "ban-drop-domain

  default: on
  fix:     none
  lock:    none on tables; with `CASCADE` ACCESS EXCLUSIVE on each table that
           loses a column
  manual:  DROP DOMAIN,
           https://www.postgresql.org/docs/current/sql-dropdomain.html

Queries and functions that name the domain fail. With `CASCADE` the columns of
the domain go too.

The rules of this group report a whole statement, once, however many objects it
names, with and without `IF EXISTS` and `CASCADE`. The safe way is the same for
all: release a version that does without the object, see that nothing uses it
any more, and drop it in a later migration. Without `CASCADE`, PostgreSQL
refuses to drop what other objects depend on (section 5.15); with it they go
too.

Instead of

    DROP DOMAIN o;

Write the drop in a later migration, as above. Give the columns the plain type
first; that writes nothing (`changing-column-type`).

    SET lock_timeout = '1s';
    SET statement_timeout = '5s';
    -- no column and no function has used it since release 41
    -- squawk-ignore ban-drop-domain
    DROP DOMAIN IF EXISTS o;

It does not see domains that go with their schema or extension.

Details

- Reported: each `DROP DOMAIN`.
- In PostgreSQL: DROP DOMAIN.

    $ echo 'DROP DOMAIN o;' | ./lavkheto check --only ban-drop-domain
    warning[ban-drop-domain]: dropping a domain may break existing clients
     --> stdin:1:1
      |
    1 | DROP DOMAIN o;
      | ^^^^^^^^^^^^^^

    Found 1 issue in 1 of 1 file
";

/// `ban-drop-extension`.
pub(crate) const BAN_DROP_EXTENSION: &str = "ban-drop-extension

  default: on
  fix:     none
  lock:    none on tables; with `CASCADE` ACCESS EXCLUSIVE on each table that
           loses a column or an index
  manual:  DROP EXTENSION,
           https://www.postgresql.org/docs/current/sql-dropextension.html

Its functions, types and operators go with it, and clients that use one of them
fail.

The rules of this group report a whole statement, once, however many objects it
names, with and without `IF EXISTS` and `CASCADE`. The safe way is the same for
all: release a version that does without the object, see that nothing uses it
any more, and drop it in a later migration. Without `CASCADE`, PostgreSQL
refuses to drop what other objects depend on (section 5.15); with it they go
too.

Instead of

    DROP EXTENSION pg_trgm;

Write the drop in a later migration, as above.

    SET lock_timeout = '1s';
    SET statement_timeout = '5s';
    -- no index and no query has used it since release 41
    -- squawk-ignore ban-drop-extension
    DROP EXTENSION IF EXISTS pg_trgm;

It does not see which objects belong to the extension.

Details

- Reported: each `DROP EXTENSION`.
- In PostgreSQL: DROP EXTENSION; \"Packaging Related Objects into an Extension\".

    $ echo 'DROP EXTENSION pg_trgm;' | ./lavkheto check --only ban-drop-extension
    warning[ban-drop-extension]: dropping an extension also removes its functions, types, and other objects, which may break existing clients
     --> stdin:1:1
      |
    1 | DROP EXTENSION pg_trgm;
      | ^^^^^^^^^^^^^^^^^^^^^^^

    Found 1 issue in 1 of 1 file
";

/// `ban-truncate-cascade`.
pub(crate) const BAN_TRUNCATE_CASCADE: &str = "ban-truncate-cascade

  default: on
  fix:     none
  lock:    ACCESS EXCLUSIVE on each of the tables, until the transaction ends
  manual:  TRUNCATE, https://www.postgresql.org/docs/current/sql-truncate.html

Tables that nobody named lose all rows, at once. Which ones depends on the
foreign keys that are there.

Instead of

    TRUNCATE t CASCADE;

Write the name of every table that is to be emptied:

    SET lock_timeout = '1s';
    SET statement_timeout = '5s';
    TRUNCATE t, orders;

It does not see `TRUNCATE` of a table in use, and `DELETE` of all its rows.

Details

- Reported: the word `CASCADE` of a `TRUNCATE`.
- Not reported: `TRUNCATE` without it, which PostgreSQL refuses where another
  table refers to the named ones.
- In PostgreSQL: ACCESS EXCLUSIVE on each of them (TRUNCATE, \"CASCADE\" and
  Notes).

    $ echo 'TRUNCATE t CASCADE;' | ./lavkheto check --only ban-truncate-cascade
    warning[ban-truncate-cascade]: `cascade` recursively truncates every table with a foreign key to the truncated tables
     --> stdin:1:12
      |
    1 | TRUNCATE t CASCADE;
      |            ^^^^^^^
      |
      = note: with foreign keys set up as `a <- b <- c`, truncating `a` also truncates `b` and `c`
      = help: remove the `cascade` and list exactly which tables to truncate

    Found 1 issue in 1 of 1 file
";

/// `require-concurrent-partition-detach`.
pub(crate) const REQUIRE_CONCURRENT_PARTITION_DETACH: &str = "require-concurrent-partition-detach

  default: on
  fix:     unsafe (adds `CONCURRENTLY`, which fails where there is a default
           partition; none in a transaction and before version 14)
  lock:    ACCESS EXCLUSIVE on the partitioned table, the partition and a
           default partition, for a moment
  manual:  ALTER TABLE,
           https://www.postgresql.org/docs/current/sql-altertable.html#SQL-ALTERTABLE-DETACH-PARTITION

All reads and writes of the partitioned table wait, first for the lock and then
for the detachment.

Instead of

    ALTER TABLE t DETACH PARTITION p;

Write from PostgreSQL 14 on, in a file of its own that runs without a
transaction:

    SET lock_timeout = 0;
    SET statement_timeout = 0;
    -- squawk-ignore prefer-robust-stmts
    ALTER TABLE t DETACH PARTITION p CONCURRENTLY;
    RESET lock_timeout;
    RESET statement_timeout;

It waits for all who use the partitioned table, without holding anybody up;
then it takes ACCESS EXCLUSIVE on the partition alone, and who reads the
partition by its own name waits. If it is interrupted, `ALTER TABLE t DETACH
PARTITION p FINALIZE` ends it. A second run fails, since the partition is gone.
Beside a default partition it is refused: there set a short `lock_timeout`, and
detach it plainly. Before PostgreSQL 14 there is no `CONCURRENTLY` here, though
the report and its fix ask for it with `--pg-major 13` too.

It does not see `DETACH PARTITION .. CONCURRENTLY` in a transaction, where
PostgreSQL refuses it.

Details

- Reported: each `DETACH PARTITION` of an `ALTER TABLE` with neither
  `CONCURRENTLY` nor `FINALIZE`. The fix puts the first word in.
- In PostgreSQL: ACCESS EXCLUSIVE on the partitioned table, on the partition,
  and on a default partition if there is one. With `CONCURRENTLY` SHARE UPDATE
  EXCLUSIVE on the partitioned table and, in a second transaction, ACCESS
  EXCLUSIVE on the partition, from PostgreSQL 14 on. It is refused where the
  table has a default partition. `FINALIZE` ends one that was interrupted
  (ALTER TABLE, \"DETACH PARTITION\").

    $ echo 'ALTER TABLE t DETACH PARTITION p;' | ./lavkheto check --only require-concurrent-partition-detach
    warning[require-concurrent-partition-detach]: detaching a partition requires an `access exclusive` lock, which prevents reads and writes to the table
     --> stdin:1:15
      |
    1 | ALTER TABLE t DETACH PARTITION p;
      |               ^^^^^^^^^^^^^^^^^^
      |
      = help: detach the partition `concurrently`
    fix: Add `concurrently` (unsafe)
      |
    1 - ALTER TABLE t DETACH PARTITION p;
    1 + ALTER TABLE t DETACH PARTITION p concurrently;

    Found 1 issue in 1 of 1 file
";

/// `ban-detach-inheritance`.
pub(crate) const BAN_DETACH_INHERITANCE: &str = "ban-detach-inheritance

  default: off
  fix:     none
  lock:    see `require-concurrent-partition-detach`; `NO INHERIT`: ACCESS
           EXCLUSIVE, for a moment
  manual:  ALTER TABLE,
           https://www.postgresql.org/docs/current/sql-altertable.html#SQL-ALTERTABLE-DETACH-PARTITION

Queries of the parent table no longer find the rows; no error shows it. An
`INSERT` into the parent whose partition is gone fails, or its row goes to the
default partition.

Instead of

    ALTER TABLE logs DETACH PARTITION logs_2024 CONCURRENTLY;

Write from PostgreSQL 14 on, in a file of its own that runs without a
transaction:

    SET lock_timeout = 0;
    SET statement_timeout = 0;
    -- release 41 reads old rows from logs_2024 itself
    -- squawk-ignore ban-detach-inheritance, prefer-robust-stmts
    ALTER TABLE logs DETACH PARTITION logs_2024 CONCURRENTLY;
    RESET lock_timeout;
    RESET statement_timeout;

It does not see a partition that is dropped.

Details

- Reported: each `DETACH PARTITION`, also with `CONCURRENTLY` or `FINALIZE`,
  and each `NO INHERIT` of an `ALTER TABLE`.
- Not reported: both of a table that an earlier statement creates. For `DETACH
  PARTITION` that is the partitioned table, whether or not the text creates the
  partition. `NO INHERIT` of a constraint is left alone.
- In PostgreSQL: section 5.12.2.2, \"Partition Maintenance\"; section 5.11,
  \"Inheritance\"; ALTER TABLE, \"DETACH PARTITION\" and \"NO INHERIT\".

Created before. A table that the same open transaction created is one of an
earlier `CREATE TABLE`, `CREATE TABLE AS` or `SELECT INTO` in that transaction.
`IF NOT EXISTS` counts too, though the table may have been there; a drop, and a
rollback to a savepoint, aren't noticed. A table, type or sequence that an
earlier statement creates is one that an earlier `CREATE TABLE` with a list,
`CREATE TYPE` or `CREATE SEQUENCE` names, in any transaction, without `IF NOT
EXISTS`; `CREATE TABLE AS`, `SELECT INTO` and foreign tables don't count; a
rollback or a drop isn't noticed. In both, two names must have the same parts:
`t` and `public.t` count as two tables.

    $ echo 'ALTER TABLE logs DETACH PARTITION logs_2024 CONCURRENTLY;' | ./lavkheto check --only ban-detach-inheritance
    warning[ban-detach-inheritance]: detaching a partition changes which rows existing clients can read and write through the parent table
     --> stdin:1:18
      |
    1 | ALTER TABLE logs DETACH PARTITION logs_2024 CONCURRENTLY;
      |                  ^^^^^^^^^^^^^^^^^^^^^^^^^^^^^^^^^^^^^^^

    Found 1 issue in 1 of 1 file
";
