//! The rules of the group "Transactions and timeouts". Written by tools/rule_pages.py.

/// `prefer-robust-stmts`.
pub(crate) const PREFER_ROBUST_STMTS: &str = "prefer-robust-stmts

  default: on
  fix:     unsafe (`IF [NOT] EXISTS` goes by the name alone, and takes an
           invalid index or another table for the wanted one)
  lock:    none of its own
  manual:  Transactions,
           https://www.postgresql.org/docs/current/tutorial-transactions.html

A migration that fails half way, at a lock timeout for example, leaves its
first statements done. When it is run again it stops at the first of them, and
somebody must mend the database by hand, in the middle of a deployment.

Instead of

    ALTER TABLE t DROP CONSTRAINT k, DROP a, OWNER TO u;

Write one transaction, which is undone as a whole:

    BEGIN;
    SET LOCAL lock_timeout = '1s';
    SET LOCAL statement_timeout = '5s';
    -- squawk-ignore ban-drop-constraint, ban-drop-column
    ALTER TABLE t DROP CONSTRAINT k, DROP a, OWNER TO u;
    COMMIT;

Or, for what runs outside of a transaction only, a file of its own with
statements that can be run again, as at `require-concurrent-index-creation`:

    SET lock_timeout = 0;
    SET statement_timeout = 0;
    CREATE INDEX CONCURRENTLY IF NOT EXISTS t_b ON t (b);
    RESET lock_timeout;
    RESET statement_timeout;
    -- stops at the invalid index of a failed build
    DO $$ BEGIN
      IF NOT (SELECT indisvalid FROM pg_index WHERE indexrelid = 't_b'::regclass) THEN
        RAISE 'index t_b is invalid: REINDEX INDEX CONCURRENTLY t_b';
      END IF;
    END $$;

Two transactions in one file can't be run again where the second one fails,
since the first one is done: the linter doesn't see that. Write two files. And
`IF EXISTS` and `IF NOT EXISTS` are not free: they take the lock of the
statement first, and look then. `ADD COLUMN IF NOT EXISTS` of a column that is
there, and `DROP CONSTRAINT IF EXISTS` of none, take ACCESS EXCLUSIVE, `CREATE
INDEX IF NOT EXISTS` SHARE, with the queue behind it; `CREATE TABLE IF NOT
EXISTS` of a table that is there, and `DROP TABLE IF EXISTS` of none, take
none. So don't run such a text at each start of an application.

It does not see every `ALTER` but `ALTER TABLE`, and `CREATE` and `DROP` of
most kinds; whether a statement that can be run again does the same again.

Details

- Reported: outside of a transaction:
  - `DROP CONSTRAINT` and `DROP COLUMN` without `IF EXISTS`, and `ADD COLUMN`
    without `IF NOT EXISTS`, of an `ALTER TABLE`. The fix inserts the words
    after `CONSTRAINT` or `COLUMN`; where `COLUMN` is left out there is no fix.
  - Every other action of an `ALTER TABLE`, also one that can be run twice
    (`OWNER TO`, `VALIDATE CONSTRAINT`) or says `IF EXISTS` (`DROP IDENTITY`,
    `DROP EXPRESSION`).
  - `CREATE INDEX` of an index with a name and `CREATE TABLE` without `IF NOT
    EXISTS`; `DROP INDEX`, `DROP TABLE` and `DROP TYPE` without `IF EXISTS`.
    Each has a fix.

  In a transaction, only `CREATE INDEX CONCURRENTLY` of an index with a name,
  which never runs in one.
- Not reported: `VALIDATE CONSTRAINT` after a `DROP CONSTRAINT` of the same
  name, and `ADD CONSTRAINT` after one with no other `ADD CONSTRAINT` of that
  name between them, since a second run begins by dropping it. Only the name is
  compared, and not the table. A temporary table with `ON COMMIT DROP`, `CREATE
  TABLE AS`, `SELECT INTO`; an index without a name; `CREATE` and `DROP` of
  other kinds, and every `ALTER` but `ALTER TABLE`.
- What counts as a transaction: from `BEGIN` to a plain `COMMIT` or `ROLLBACK`;
  with `--assume-in-transaction` from the start of the text. A text with at
  least one block from a `BEGIN` to the next `COMMIT` or `ROLLBACK` (of any
  form) with an `UPDATE` of `alembic_version` between them counts as Alembic's:
  there only these blocks are transactions, and not its first one, which has an
  `INSERT`; and `--assume-in-transaction` puts the whole text into a
  transaction.
- In PostgreSQL: what a transaction did is undone as a whole where it fails
  (section 3.4); without one each statement stays done. `IF EXISTS` and `IF NOT
  EXISTS` give a notice in place of the error (ALTER TABLE, CREATE INDEX,
  CREATE TABLE, DROP INDEX, DROP TABLE, DROP TYPE). `IF NOT EXISTS` compares
  the name alone: an invalid index that a build with `CONCURRENTLY` left is
  there too.

    $ echo 'ALTER TABLE t DROP CONSTRAINT k, DROP a, OWNER TO u;' | ./lavkheto check --only prefer-robust-stmts
    warning[prefer-robust-stmts]: missing `if exists`, the migration can't be rerun if it fails part way through
     --> stdin:1:15
      |
    1 | ALTER TABLE t DROP CONSTRAINT k, DROP a, OWNER TO u;
      |               ^^^^^^^^^^^^^^^^^
      |
    fix: Insert `if exists` (unsafe)
      |
    1 - ALTER TABLE t DROP CONSTRAINT k, DROP a, OWNER TO u;
    1 + ALTER TABLE t DROP CONSTRAINT if exists k, DROP a, OWNER TO u;

    warning[prefer-robust-stmts]: missing `if exists`, the migration can't be rerun if it fails part way through
     --> stdin:1:34
      |
    1 | ALTER TABLE t DROP CONSTRAINT k, DROP a, OWNER TO u;
      |                                  ^^^^^^

    warning[prefer-robust-stmts]: missing transaction, the migration can't be rerun if it fails part way through
     --> stdin:1:42
      |
    1 | ALTER TABLE t DROP CONSTRAINT k, DROP a, OWNER TO u;
      |                                          ^^^^^^^^^^

    Found 3 issues in 1 of 1 file
";

/// `transaction-nesting`.
pub(crate) const TRANSACTION_NESTING: &str = "transaction-nesting

  default: on
  fix:     none
  lock:    none of its own
  manual:  BEGIN, https://www.postgresql.org/docs/current/sql-begin.html

The transaction ends at another place than its author thinks. Statements after
it run one by one, and where one fails the migration stays half done; in the
transaction of a migration tool, a `COMMIT` makes permanent what the tool has
not recorded yet.

Instead of

    BEGIN; BEGIN; COMMIT; COMMIT;

Write one transaction after the other, each with its own end; a savepoint for a
part that may fail:

    BEGIN;
    SAVEPOINT before;
    INSERT INTO t (id) VALUES (0);
    RELEASE SAVEPOINT before;
    COMMIT;

It does not see transactions that a function or a procedure ends.

Details

- Reported: each `BEGIN` (or `START TRANSACTION`) where the last `BEGIN`,
  `COMMIT` or `ROLLBACK` before is a `BEGIN`, and each `COMMIT` (`END`) and
  `ROLLBACK` (`ABORT`) where it isn't. With `--assume-in-transaction` each of
  them is reported, since the transaction is the migration tool's.
- What counts: every form of an end: `COMMIT AND CHAIN`, `ROLLBACK TO
  SAVEPOINT` and `COMMIT PREPARED` too. So a `COMMIT` after `ROLLBACK TO
  SAVEPOINT`, or after `COMMIT AND CHAIN`, is reported though a transaction is
  open; ignore it there. So are `COMMIT PREPARED` and `ROLLBACK PREPARED`,
  which PostgreSQL takes only outside of a transaction. `SAVEPOINT`, `RELEASE`
  and `PREPARE TRANSACTION` count for nothing, so that a `BEGIN` after `PREPARE
  TRANSACTION` is reported.
- In PostgreSQL: transactions don't nest. `BEGIN` in a transaction, and a plain
  `COMMIT` or `ROLLBACK` outside of one, do nothing but warn (BEGIN, \"Notes\";
  COMMIT, \"Notes\"; ROLLBACK, \"Notes\"; section 3.4).

    $ echo 'BEGIN; BEGIN; COMMIT; COMMIT;' | ./lavkheto check --only transaction-nesting
    warning[transaction-nesting]: there is an existing transaction already in progress
     --> stdin:1:8
      |
    1 | BEGIN; BEGIN; COMMIT; COMMIT;
      |        ^^^^^^
      |
      = help: move these statements to a separate migration file, or turn off the `assume-in-transaction` setting

    warning[transaction-nesting]: there is no transaction to `commit` or `rollback`
     --> stdin:1:23
      |
    1 | BEGIN; BEGIN; COMMIT; COMMIT;
      |                       ^^^^^^^
      |
      = help: `begin` a transaction at an earlier point in the migration or remove this statement

    Found 2 issues in 1 of 1 file
";

/// `ban-uncommitted-transaction`.
pub(crate) const BAN_UNCOMMITTED_TRANSACTION: &str = "ban-uncommitted-transaction

  default: on
  fix:     unsafe (if the last statement has no semicolon, put one there)
  lock:    all locks of the migration, until the session ends
  manual:  COMMIT, https://www.postgresql.org/docs/current/sql-commit.html

When the session ends, PostgreSQL rolls the transaction back: the migration
seems to have run, and nothing of it is there. Until then its locks are held,
and clients wait.

Instead of

    BEGIN;
    SELECT 1;

Write

    BEGIN;
    SELECT 1;
    COMMIT;

It does not see a transaction that `COMMIT AND CHAIN` begins.

Details

- Reported: the last `BEGIN` of the text, where no `COMMIT` and no `ROLLBACK`
  of any form comes after it. The fix adds `COMMIT;` on a line of its own at
  the end of the text. Where the last statement has no semicolon, put one there
  first.
- Not reported: a transaction that `--assume-in-transaction` assumes: its end
  is the tool's. One that `COMMIT AND CHAIN` or `ROLLBACK AND CHAIN` begins, or
  that goes on after `ROLLBACK TO SAVEPOINT`. A `BEGIN` before `PREPARE
  TRANSACTION` is reported, though nothing is open after that.
- In PostgreSQL: COMMIT, ROLLBACK, and section 3.4, \"Transactions\".

    $ printf 'BEGIN;\\nSELECT 1;\\n' | ./lavkheto check --only ban-uncommitted-transaction
    warning[ban-uncommitted-transaction]: transaction never committed or rolled back
     --> stdin:1:1
      |
    1 | BEGIN;
      | ^^^^^^
      |
      = help: add a `commit` or `rollback` statement to complete the transaction
    fix: Add `commit` (unsafe)
      |
    3 - 
    3 + 
    4 + COMMIT;
    5 + 

    Found 1 issue in 1 of 1 file
";

/// `require-lock-timeout`.
pub(crate) const REQUIRE_LOCK_TIMEOUT: &str = "require-lock-timeout

  default: on
  fix:     unsafe (outside of a transaction the `SET` stays for the session;
           none in a migration that builds, drops or rebuilds an index)
  lock:    that of the statement, and the queue behind it
  manual:  lock_timeout,
           https://www.postgresql.org/docs/current/runtime-config-client.html#GUC-LOCK-TIMEOUT

A statement that waits for a lock makes every later statement on that table
wait after it, reads included. One long query elsewhere, and the whole
application stops.

Instead of

    ALTER TABLE t ADD COLUMN c text;

Write the timeout, and run the migration again when it gives up:

    BEGIN;
    SET LOCAL lock_timeout = '1s';
    SET LOCAL statement_timeout = '5s';
    ALTER TABLE t ADD COLUMN c text;
    COMMIT;

`SET LOCAL` ends with the transaction. A plain `SET` stays in the session:
behind a pooler such as pgbouncer the next client gets it. Around `CREATE INDEX
CONCURRENTLY`, `DROP INDEX CONCURRENTLY`, `REINDEX .. CONCURRENTLY` and `DETACH
PARTITION .. CONCURRENTLY` set both timeouts to 0. While they wait they hold
nobody up, but for who reads the detached partition by its own name; and one
that is cancelled leaves an invalid index or half a detachment.

A setting that sets nothing satisfies this rule and
`require-statement-timeout`, and no hazard speaks of it. After each of these a
statement waits without end, or not as long as it seems:

- `SET lock_timeout = 0`, as before a build, and nothing after it: no timeout
- `SET LOCAL` outside of a transaction: nothing changes; PostgreSQL warns
- `SET LOCAL` in a transaction, and a statement after its `COMMIT` or in the
  next `BEGIN`: what was in force before
- `SET` in a transaction that is rolled back: what was in force before
- `RESET lock_timeout`, `RESET ALL`, `DISCARD ALL` after it: what the session
  began with, often no timeout
- `SET lock_timeout = 5`: 5 milliseconds
- `SET lock_timeout = '1h'`: an hour, in which all later statements on the
  table wait

It does not see a timeout around a concurrent build; one that the tool, the
role or the database sets; whether the value is a good one, and whether it is
still in force.

Details

- Reported: the first statement of the text that may be slow, where no `SET
  lock_timeout` comes before it. The message and the note name the lock that it
  takes, where one is known. Slow are all `ALTER`, `CREATE` and `DROP`
  statements (a `CREATE TABLE` with a list only with a foreign key; not
  `PARTITION OF` and `OF`, although `PARTITION OF` takes ACCESS EXCLUSIVE on
  the parent), and `CLUSTER`, `COMMENT ON`, `IMPORT FOREIGN SCHEMA`, `LOAD`,
  `LOCK`, `REFRESH`, `REINDEX`, `SELECT INTO`, `TRUNCATE` and `VACUUM`. The fix
  puts `set lock_timeout = '1s';` before the first statement of the text, after
  the comments there.
- What counts as a setting: `SET`, `SET SESSION` and `SET LOCAL`, with `=` or
  `TO`, whatever the value, and also before a `COMMIT` that ends it. `SET
  LOCAL` counts outside of a transaction too, where PostgreSQL ignores it with
  a warning; a later `RESET` or `DISCARD` isn't noticed. Not `set_config(..)`,
  or a name of two parts.
- In PostgreSQL: `lock_timeout` cancels a statement that waits longer for a
  lock; it is off by default (section 20.11.1; the locks are in section
  13.3.1).

    $ echo 'ALTER TABLE t ADD COLUMN c text;' | ./lavkheto check --only require-lock-timeout
    warning[require-lock-timeout]: missing `set lock_timeout` before potentially slow `access exclusive` lock operations
     --> stdin:1:1
      |
    1 | ALTER TABLE t ADD COLUMN c text;
      | ^^^^^^^^^^^^^^^^^^^^^^^^^^^^^^^^
      |
      = note: statement requires: `access exclusive` lock; blocking: reads, writes, schema changes
      = help: configure a `lock_timeout` before this statement
    fix: Add lock timeout (unsafe)
      |
    1 - ALTER TABLE t ADD COLUMN c text;
    1 + set lock_timeout = '1s';
    2 + ALTER TABLE t ADD COLUMN c text;

    Found 1 issue in 1 of 1 file
";

/// `require-statement-timeout`.
pub(crate) const REQUIRE_STATEMENT_TIMEOUT: &str = "require-statement-timeout

  default: on
  fix:     unsafe (outside of a transaction the `SET` stays for the session;
           none in a migration that builds, drops or rebuilds an index)
  lock:    that of the statement
  manual:  statement_timeout,
           https://www.postgresql.org/docs/current/runtime-config-client.html#GUC-STATEMENT-TIMEOUT

A statement that takes much longer than expected holds its locks as long as it
runs.

Instead of

    ALTER TABLE t ADD COLUMN c text;

Write

    BEGIN;
    SET LOCAL lock_timeout = '1s';
    SET LOCAL statement_timeout = '5s';
    ALTER TABLE t ADD COLUMN c text;
    COMMIT;

Set it to 0 for a statement that takes long and holds nobody up: with `SET
LOCAL` in the transaction of a `VALIDATE CONSTRAINT`, with `SET` before one
with `CONCURRENTLY`.

It does not see the same as `require-lock-timeout`.

Details

- Reported: the statement that `require-lock-timeout` looks for, where no `SET
  statement_timeout` comes before it. The fix puts `set statement_timeout =
  '5s';` at the same place. `require-timeout-settings` names both rules.
- In PostgreSQL: `statement_timeout` cancels a statement that takes longer; it
  is off by default (section 20.11.1).

    $ echo 'ALTER TABLE t ADD COLUMN c text;' | ./lavkheto check --only require-statement-timeout
    warning[require-statement-timeout]: missing `set statement_timeout` before potentially slow operations
     --> stdin:1:1
      |
    1 | ALTER TABLE t ADD COLUMN c text;
      | ^^^^^^^^^^^^^^^^^^^^^^^^^^^^^^^^
      |
      = help: configure a `statement_timeout` before this statement
    fix: Add statement timeout (unsafe)
      |
    1 - ALTER TABLE t ADD COLUMN c text;
    1 + set statement_timeout = '5s';
    2 + ALTER TABLE t ADD COLUMN c text;

    Found 1 issue in 1 of 1 file
";

/// `prefer-repack`.
pub(crate) const PREFER_REPACK: &str = "prefer-repack

  default: on
  fix:     unsafe (none in a transaction, where it fails)
  lock:    ACCESS EXCLUSIVE, until the table and its indexes are written anew
  manual:  CLUSTER, https://www.postgresql.org/docs/current/sql-cluster.html

Both write the whole table anew, and nobody can read or write it until they are
done.

Instead of

    CLUSTER t USING i;

Write from PostgreSQL 19 on, in a migration that runs without a transaction:

    SET lock_timeout = 0;
    SET statement_timeout = 0;
    REPACK (CONCURRENTLY) t USING INDEX i;
    RESET lock_timeout;
    RESET statement_timeout;

One table at a time. Before 19, use the extension pg_repack, or a quiet hour.

It does not see `CLUSTER` and `VACUUM FULL` for an earlier version, which is
assumed without `--pg-major 19`.

Details

- Reported: each `CLUSTER`, and each `VACUUM` with `FULL`, where `--pg-major`
  is at least 19. The fix is `repack (concurrently)` with the same tables and
  index, as the text has them, and without other options. A `VACUUM FULL`
  without tables has no fix.
- Not reported: the same for an earlier version, which is also assumed without
  `--pg-major`; a `VACUUM` that isn't full, as `VACUUM (FULL OFF) t`; `ALTER
  TABLE .. CLUSTER ON`, which rewrites nothing.
- In PostgreSQL: both take ACCESS EXCLUSIVE. `REPACK` has the option
  `CONCURRENTLY`, with which the table stays in use (REPACK, of the manual of
  version 19; CLUSTER; VACUUM, \"FULL\"; section 13.3.1).

    $ echo 'CLUSTER t USING i;' | ./lavkheto check --only prefer-repack --pg-major 19
    warning[prefer-repack]: `cluster` requires an `access exclusive` lock which blocks reads and writes to the table
     --> stdin:1:1
      |
    1 | CLUSTER t USING i;
      | ^^^^^^^^^^^^^^^^^^
      |
      = help: use `repack` to rewrite the table without blocking reads and writes
    fix: Replace with `repack (concurrently)` (unsafe)
      |
    1 - CLUSTER t USING i;
    1 + repack (concurrently) t using index i;

    Found 1 issue in 1 of 1 file
";
