//! The rules of the group "Settings and options". Written by tools/rule_pages.py.

/// `ban-alter-function-options`.
pub(crate) const BAN_ALTER_FUNCTION_OPTIONS: &str = "ban-alter-function-options

  default: off
  fix:     none
  lock:    none on tables
  manual:  ALTER FUNCTION,
           https://www.postgresql.org/docs/current/sql-alterfunction.html

The function runs with other privileges or settings, or queries that call it
get another plan.

Instead of

    ALTER FUNCTION f(int) STRICT IMMUTABLE;

Write a function of another name with the new options:

    SET lock_timeout = '1s';
    SET statement_timeout = '5s';
    CREATE FUNCTION f2(n int) RETURNS int LANGUAGE sql STRICT IMMUTABLE AS 'SELECT n + 1';

It does not see whether the function is what it says: one that is wrongly
`IMMUTABLE` makes wrong indexes.

Details

- Reported: options of `ALTER FUNCTION`, `ALTER PROCEDURE` and `ALTER ROUTINE`,
  such as `STABLE`, `SECURITY DEFINER`, `COST` or `SET search_path = ...`: all
  of them in one report.
- Not reported: `RENAME TO`, `OWNER TO` and `SET SCHEMA`, which have other
  rules; `DEPENDS ON EXTENSION`.
- In PostgreSQL: a function with a wrong volatility gives wrong results, for
  example from an index (ALTER FUNCTION; \"Function Volatility Categories\").

    $ echo 'ALTER FUNCTION f(int) STRICT IMMUTABLE;' | ./lavkheto check --only ban-alter-function-options
    warning[ban-alter-function-options]: changing function options may change behavior for existing clients
     --> stdin:1:23
      |
    1 | ALTER FUNCTION f(int) STRICT IMMUTABLE;
      |                       ^^^^^^^^^^^^^^^^

    Found 1 issue in 1 of 1 file
";

/// `ban-alter-view-options`.
pub(crate) const BAN_ALTER_VIEW_OPTIONS: &str = "ban-alter-view-options

  default: off
  fix:     none
  lock:    ACCESS EXCLUSIVE on the view, for a moment
  manual:  ALTER VIEW,
           https://www.postgresql.org/docs/current/sql-alterview.html

`security_invoker` changes whose privileges are checked, and `check_option`
which writes are refused.

Instead of

    ALTER VIEW v SET (security_barrier = true, check_option = local);

Write a view of another name with the new options:

    BEGIN;
    SET LOCAL lock_timeout = '1s';
    SET LOCAL statement_timeout = '5s';
    CREATE VIEW v2 WITH (security_barrier = true, check_option = local) AS SELECT a FROM t;
    GRANT SELECT ON v2 TO app;
    COMMIT;

It does not see options that `CREATE OR REPLACE VIEW` resets
(`ban-replace-view-function`).

Details

- Reported: `SET (...)` and `RESET (...)` of `ALTER VIEW`.
- Not reported: those of a materialized view or a table.
- In PostgreSQL: ALTER VIEW; CREATE VIEW, \"Parameters\".

    $ echo 'ALTER VIEW v SET (security_barrier = true, check_option = local);' | ./lavkheto check --only ban-alter-view-options
    warning[ban-alter-view-options]: changing view options may change behavior for existing clients
     --> stdin:1:14
      |
    1 | ALTER VIEW v SET (security_barrier = true, check_option = local);
      |              ^^^^^^^^^^^^^^^^^^^^^^^^^^^^^^^^^^^^^^^^^^^^^^^^^^^

    Found 1 issue in 1 of 1 file
";

/// `ban-alter-database-options`.
pub(crate) const BAN_ALTER_DATABASE_OPTIONS: &str = "ban-alter-database-options

  default: off
  fix:     none
  lock:    none on tables
  manual:  ALTER DATABASE,
           https://www.postgresql.org/docs/current/sql-alterdatabase.html

Clients cannot connect, or their statements run under another setting.

Instead of

    ALTER DATABASE d CONNECTION LIMIT 3;

Write it for one role first, or set it in the application's sessions:

    SET lock_timeout = '1s';
    SET statement_timeout = '5s';
    ALTER ROLE app SET work_mem = '64MB';

It does not see sessions that are open: they keep the old setting.

Details

- Reported: of `ALTER DATABASE`: options such as `CONNECTION LIMIT`,
  `ALLOW_CONNECTIONS` or `REFRESH COLLATION VERSION`; and `SET` and `RESET` of
  a setting.
- Not reported: `SET TABLESPACE`; `RENAME TO` and `OWNER TO`, which have other
  rules.
- In PostgreSQL: a setting takes effect in new sessions only (ALTER DATABASE).

    $ echo 'ALTER DATABASE d CONNECTION LIMIT 3;' | ./lavkheto check --only ban-alter-database-options
    warning[ban-alter-database-options]: changing database options may change behavior for existing clients
     --> stdin:1:18
      |
    1 | ALTER DATABASE d CONNECTION LIMIT 3;
      |                  ^^^^^^^^^^^^^^^^^^

    Found 1 issue in 1 of 1 file
";

/// `ban-alter-system-options`.
pub(crate) const BAN_ALTER_SYSTEM_OPTIONS: &str = "ban-alter-system-options

  default: off
  fix:     none
  lock:    none on tables
  manual:  ALTER SYSTEM,
           https://www.postgresql.org/docs/current/sql-altersystem.html

The setting holds for all databases of the server, from the next reload or
restart on, which may be weeks later.

Instead of

    ALTER SYSTEM SET wal_level = replica;

Write nothing of it in a migration: keep the server's settings where the server
is configured.

It does not see `pg_reload_conf()`, and settings that a function changes.

Details

- Reported: `ALTER SYSTEM SET` and `ALTER SYSTEM RESET`.
- In PostgreSQL: it writes `postgresql.auto.conf`, and runs in no transaction
  block (ALTER SYSTEM).

    $ echo 'ALTER SYSTEM SET wal_level = replica;' | ./lavkheto check --only ban-alter-system-options
    warning[ban-alter-system-options]: changing server configuration may change behavior for existing clients
     --> stdin:1:14
      |
    1 | ALTER SYSTEM SET wal_level = replica;
      |              ^^^^^^^^^^^^^^^^^^^^^^^

    Found 1 issue in 1 of 1 file
";

/// `ban-alter-extension`.
pub(crate) const BAN_ALTER_EXTENSION: &str = "ban-alter-extension

  default: off
  fix:     none
  lock:    depends on the update's script
  manual:  ALTER EXTENSION,
           https://www.postgresql.org/docs/current/sql-alterextension.html

An update may change or remove functions and types that clients use. An object
that is taken out of an extension stays when the extension is dropped, and is
dumped by itself.

Instead of

    ALTER EXTENSION pg_trgm UPDATE TO '1.6';

Write it when you have read the update's script and tried it on a copy, and the
new library is on all servers:

    SET lock_timeout = '1s';
    SET statement_timeout = '5s';
    -- read and tried: it adds functions
    -- squawk-ignore ban-alter-extension
    ALTER EXTENSION pg_trgm UPDATE TO '1.6';

It does not see what the script does, and which locks it takes.

Details

- Reported: `UPDATE` and `DROP` of `ALTER EXTENSION`.
- Not reported: `ADD`; `SET SCHEMA`, which `ban-set-schema` reports.
- In PostgreSQL: ALTER EXTENSION; \"Packaging Related Objects into an
  Extension\".

    $ echo \"ALTER EXTENSION pg_trgm UPDATE TO '1.6';\" | ./lavkheto check --only ban-alter-extension
    warning[ban-alter-extension]: updating an extension can change or remove objects used by existing clients
     --> stdin:1:25
      |
    1 | ALTER EXTENSION pg_trgm UPDATE TO '1.6';
      |                         ^^^^^^^^^^^^^^^

    Found 1 issue in 1 of 1 file
";

/// `ban-alter-sequence-values`.
pub(crate) const BAN_ALTER_SEQUENCE_VALUES: &str = "ban-alter-sequence-values

  default: off
  fix:     none
  lock:    SHARE ROW EXCLUSIVE on the sequence: who asks for a number waits
           until the transaction ends
  manual:  ALTER SEQUENCE,
           https://www.postgresql.org/docs/current/sql-altersequence.html

A sequence that begins again gives values that were given before: an `INSERT`
then fails at the primary key, or two rows share a number. With another
increment or limit clients get values that they don't expect, or none.

Instead of

    ALTER SEQUENCE ids RESTART WITH 1 OWNED BY t.id;

Write a number above all that are in use or cached:

    SET lock_timeout = '1s';
    SET statement_timeout = '5s';
    -- the greatest value is below a million
    -- squawk-ignore ban-alter-sequence-values
    ALTER SEQUENCE ids RESTART WITH 1000001;

It does not see `setval(..)`, and which values are in use.

Details

- Reported: each option of an `ALTER SEQUENCE` but `OWNED BY`, `SEQUENCE NAME`,
  `SET LOGGED` and `SET UNLOGGED`; each `RESTART` and each `SET` of a
  sequence's option of an identity column, in `ALTER TABLE`.
- Not reported: a sequence or a table that an earlier statement creates; `SET
  GENERATED`, which is `ban-alter-identity`'s; a name, an owner or a schema;
  `TRUNCATE ... RESTART IDENTITY`.
- In PostgreSQL: sessions that ask for a number wait until the transaction
  ends; then they go on by the new options, but first give the values that they
  have cached (ALTER SEQUENCE, \"restart\" and Notes; ALTER TABLE, \"RESTART\").

Created before. A table that the same open transaction created is one of an
earlier `CREATE TABLE`, `CREATE TABLE AS` or `SELECT INTO` in that transaction.
`IF NOT EXISTS` counts too, though the table may have been there; a drop, and a
rollback to a savepoint, aren't noticed. A table, type or sequence that an
earlier statement creates is one that an earlier `CREATE TABLE` with a list,
`CREATE TYPE` or `CREATE SEQUENCE` names, in any transaction, without `IF NOT
EXISTS`; `CREATE TABLE AS`, `SELECT INTO` and foreign tables don't count; a
rollback or a drop isn't noticed. In both, two names must have the same parts:
`t` and `public.t` count as two tables.

    $ echo 'ALTER SEQUENCE ids RESTART WITH 1 OWNED BY t.id;' | ./lavkheto check --only ban-alter-sequence-values
    warning[ban-alter-sequence-values]: changing a sequence option can change values generated for existing clients
     --> stdin:1:20
      |
    1 | ALTER SEQUENCE ids RESTART WITH 1 OWNED BY t.id;
      |                    ^^^^^^^^^^^^^^

    Found 1 issue in 1 of 1 file
";
