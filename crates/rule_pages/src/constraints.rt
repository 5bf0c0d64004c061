//! The rules of the group "Constraints". Written by tools/rule_pages.py.

/// `constraint-missing-not-valid`.
pub(crate) const CONSTRAINT_MISSING_NOT_VALID: &str = "constraint-missing-not-valid

  default: on
  fix:     none
  lock:    ACCESS EXCLUSIVE, until each row is checked; of a foreign key SHARE
           ROW EXCLUSIVE on both tables
  manual:  ALTER TABLE,
           https://www.postgresql.org/docs/current/sql-altertable.html#SQL-ALTERTABLE-NOTES

PostgreSQL checks every row, or builds an index, and clients wait for that
long.

Instead of

    ALTER TABLE t ADD CONSTRAINT k CHECK (a > 0);

Write two files:

    BEGIN;
    SET LOCAL lock_timeout = '1s';
    SET LOCAL statement_timeout = '5s';
    ALTER TABLE t ADD CONSTRAINT k CHECK (a > 0) NOT VALID;
    COMMIT;

The second file can be run again where it is cancelled, which the first one
can't when it is done:

    -- each row is read, while others read and write the table
    BEGIN;
    SET LOCAL lock_timeout = '1s';
    SET LOCAL statement_timeout = 0;
    ALTER TABLE t VALIDATE CONSTRAINT k;
    COMMIT;

`NOT VALID` is for `CHECK` and `FOREIGN KEY` and, from PostgreSQL 18 on, `NOT
NULL`; a foreign key of a partitioned table takes it from 18 on, and before
(`adding-foreign-key-constraint`) each partition does. PostgreSQL refuses it
for the others, whatever the help says. For `UNIQUE`
(`disallowed-unique-constraint`) and `PRIMARY KEY`
(`adding-serial-primary-key-field`) build the index first. For `EXCLUDE` there
is no such way: add it while nobody uses the table, or to a new table. A
constraint with `NOT ENFORCED` (PostgreSQL 18) checks nothing, and is reported
all the same: ignore it.

It does not see `ADD COLUMN a int CHECK (a > 0)`, which reads the whole table
under ACCESS EXCLUSIVE, with and without a default; `SET NOT NULL` of a domain
and `VALIDATE CONSTRAINT` of a domain.

Details

- Reported: two things.
  - Each table constraint that an `ALTER TABLE` adds, named or not, of any
    kind: `CHECK`, `FOREIGN KEY`, `NOT NULL`, `UNIQUE`, `PRIMARY KEY`,
    `EXCLUDE`. It is left alone with `NOT VALID` (outside of brackets), and as
    `UNIQUE USING INDEX` or `PRIMARY KEY USING INDEX`.
  - Each `VALIDATE CONSTRAINT` in an open transaction that earlier added a
    constraint of that name with `NOT VALID`. Only the name is compared, and
    not the table.
- Not reported: a constraint on a table that the same open transaction created
  (its `VALIDATE CONSTRAINT` is reported all the same); the constraints of a
  new table, or of a new column (`ADD COLUMN a int CHECK (a > 0)`); `ALTER
  FOREIGN TABLE` and `ALTER DOMAIN`; `SET NOT NULL`.
- In PostgreSQL: adding a constraint takes ACCESS EXCLUSIVE, so that reads wait
  too; a foreign key takes SHARE ROW EXCLUSIVE on both tables, under which
  reads go on. `NOT VALID` leaves the check of old rows out. `VALIDATE
  CONSTRAINT` makes it under SHARE UPDATE EXCLUSIVE; in the same transaction
  the lock of the addition is still held. Its message says that reads are
  blocked then: of a foreign key only writes are (ALTER TABLE, \"ADD
  table_constraint [ NOT VALID ]\", \"VALIDATE CONSTRAINT\" and Notes).

    $ echo 'ALTER TABLE t ADD CONSTRAINT k CHECK (a > 0);' | ./lavkheto check --only constraint-missing-not-valid
    warning[constraint-missing-not-valid]: by default new constraints require a table scan and block writes to the table while that scan occurs
     --> stdin:1:15
      |
    1 | ALTER TABLE t ADD CONSTRAINT k CHECK (a > 0);
      |               ^^^^^^^^^^^^^^^^^^^^^^^^^^^^^^
      |
      = help: use `not valid` with a later `validate constraint` call

    Found 1 issue in 1 of 1 file

    $ echo 'BEGIN; ALTER TABLE t ADD CONSTRAINT k CHECK (a > 0) NOT VALID; ALTER TABLE t VALIDATE CONSTRAINT k; COMMIT;' | ./lavkheto check --only constraint-missing-not-valid
    warning[constraint-missing-not-valid]: using `not valid` and `validate constraint` in the same transaction will block all reads while the constraint is validated
     --> stdin:1:78
      |
    1 | BEGIN; ALTER TABLE t ADD CONSTRAINT k CHECK (a > 0) NOT VALID; ALTER TABLE t VALIDATE CONSTRAINT k; COMMIT;
      |                                                                              ^^^^^^^^^^^^^^^^^^^^^
      |
      = help: add constraint as `not valid` in one transaction and `validate constraint` in a separate transaction

    Found 1 issue in 1 of 1 file
";

/// `adding-foreign-key-constraint`.
pub(crate) const ADDING_FOREIGN_KEY_CONSTRAINT: &str = "adding-foreign-key-constraint

  default: on
  fix:     none
  lock:    SHARE ROW EXCLUSIVE on both tables, until each row is looked up
  manual:  ALTER TABLE,
           https://www.postgresql.org/docs/current/sql-altertable.html#SQL-ALTERTABLE-NOTES

Every row is looked up in the referenced table. Writes to both tables wait for
that long.

Instead of

    ALTER TABLE t ADD FOREIGN KEY (a) REFERENCES u (b);

Write two files:

    BEGIN;
    SET LOCAL lock_timeout = '1s';
    SET LOCAL statement_timeout = '5s';
    ALTER TABLE t ADD CONSTRAINT t_a_fkey FOREIGN KEY (a) REFERENCES u (b) NOT VALID;
    COMMIT;

The second file can be run again where it is cancelled:

    -- each row is looked up, while others read and write both tables
    BEGIN;
    SET LOCAL lock_timeout = '1s';
    SET LOCAL statement_timeout = 0;
    ALTER TABLE t VALIDATE CONSTRAINT t_a_fkey;
    COMMIT;

For a new column add the column first, without `REFERENCES`, and then the key
in the same way. Have an index on the referencing column: without one each
`DELETE` in the referenced table reads the whole referencing one.

Before PostgreSQL 18 a foreign key of a partitioned table takes no `NOT VALID`:
PostgreSQL refuses it, and the linter doesn't know. Add and validate a key as
above on each partition. Then add the key of the partitioned table, which finds
them and reads no row. It takes SHARE ROW EXCLUSIVE on all partitions, and
ACCESS EXCLUSIVE on the referenced table for a moment; a partition whose key
isn't validated is read then:

    BEGIN;
    SET LOCAL lock_timeout = '1s';
    SET LOCAL statement_timeout = '5s';
    -- squawk-ignore constraint-missing-not-valid, adding-foreign-key-constraint
    ALTER TABLE logs ADD CONSTRAINT logs_a_fkey FOREIGN KEY (a) REFERENCES u (b);
    COMMIT;

It does not see foreign keys in `CREATE TABLE`, which take SHARE ROW EXCLUSIVE
on the referenced table: writes to it wait until the transaction ends; a
missing index on the referencing column.

Details

- Reported: each `FOREIGN KEY` that an `ALTER TABLE` adds without `NOT VALID`,
  at the constraint, also with `NOT ENFORCED`; and each `REFERENCES` of a
  column that it adds.
- Not reported: a `FOREIGN KEY` on a table that the same open transaction
  created. A `REFERENCES` of a new column is reported there too, and whatever
  words follow it. Foreign keys in `CREATE TABLE` are left alone.
- False alarms: a `REFERENCES` of a new column without a default, which reads
  no row.
- In PostgreSQL: SHARE ROW EXCLUSIVE on both tables; for a column that is
  added, ACCESS EXCLUSIVE on its table. A column that is added without a
  default has no row to look up (ALTER TABLE, \"ADD table_constraint\" and \"ADD
  COLUMN\"). `NOT VALID` leaves the look-up of old rows out; `VALIDATE
  CONSTRAINT` makes it under SHARE UPDATE EXCLUSIVE on the table and ROW SHARE
  on the referenced one (ALTER TABLE, \"VALIDATE CONSTRAINT\" and Notes).

    $ echo 'ALTER TABLE t ADD FOREIGN KEY (a) REFERENCES u (b);' | ./lavkheto check --only adding-foreign-key-constraint
    warning[adding-foreign-key-constraint]: adding a foreign key constraint requires a table scan and a `share row exclusive` lock on both tables, which blocks writes to each table
     --> stdin:1:19
      |
    1 | ALTER TABLE t ADD FOREIGN KEY (a) REFERENCES u (b);
      |                   ^^^^^^^^^^^^^^^^^^^^^^^^^^^^^^^^
      |
      = help: add `not valid` to the constraint in one transaction and then `validate` the constraint in a separate transaction

    Found 1 issue in 1 of 1 file
";

/// `adding-serial-primary-key-field`.
pub(crate) const ADDING_SERIAL_PRIMARY_KEY_FIELD: &str = "adding-serial-primary-key-field

  default: on
  fix:     none
  lock:    ACCESS EXCLUSIVE, until the index is built
  manual:  ALTER TABLE,
           https://www.postgresql.org/docs/current/sql-altertable.html

An index is built, and all rows are searched for nulls, while nobody reads or
writes the table.

Instead of

    ALTER TABLE t ADD PRIMARY KEY (id);

Write two files, with columns that are `NOT NULL` already (else see
`adding-not-nullable-field` first). One runs without a transaction, and can be
run again; `require-concurrent-index-creation` says what to do where it stops:

    SET lock_timeout = 0;
    SET statement_timeout = 0;
    CREATE UNIQUE INDEX CONCURRENTLY IF NOT EXISTS t_pkey ON t (id);
    RESET lock_timeout;
    RESET statement_timeout;
    -- stops at the invalid index of a failed build
    DO $$ BEGIN
      IF NOT (SELECT indisvalid FROM pg_index WHERE indexrelid = 't_pkey'::regclass) THEN
        RAISE 'index t_pkey is invalid: REINDEX INDEX CONCURRENTLY t_pkey';
      END IF;
    END $$;

The second one is a transaction. Where it runs into its timeout, run this one
again: the index stays.

    BEGIN;
    SET LOCAL lock_timeout = '1s';
    SET LOCAL statement_timeout = '5s';
    ALTER TABLE t ADD CONSTRAINT t_pkey PRIMARY KEY USING INDEX t_pkey;
    COMMIT;

It does not see whether the columns of a key with `USING INDEX` are `NOT NULL`:
if not, all rows are searched for nulls under ACCESS EXCLUSIVE, unless a
validated `CHECK` says `id IS NOT NULL`.

Details

- Reported: each `PRIMARY KEY` that an `ALTER TABLE` adds, as a constraint of
  the table or of a column that it adds.
- Not reported: `ADD PRIMARY KEY USING INDEX`, with a name or without one; a
  primary key of either form on a table that the same open transaction created.
  The column need not be a serial one, in spite of the rule's name.
- In PostgreSQL: ACCESS EXCLUSIVE until the index is complete (ALTER TABLE,
  \"ADD table_constraint\"). With `USING INDEX` an index that was built before
  becomes the key; where its columns are not `NOT NULL` yet, they are still
  searched for nulls (\"ADD table_constraint_using_index\").

    $ echo 'ALTER TABLE t ADD PRIMARY KEY (id);' | ./lavkheto check --only adding-serial-primary-key-field
    warning[adding-serial-primary-key-field]: adding a primary key constraint requires an `access exclusive` lock that will block all reads and writes to the table while the primary key index is built
     --> stdin:1:19
      |
    1 | ALTER TABLE t ADD PRIMARY KEY (id);
      |                   ^^^^^^^^^^^^^^^^
      |
      = help: add the `primary key` constraint `using` an index

    Found 1 issue in 1 of 1 file
";

/// `disallowed-unique-constraint`.
pub(crate) const DISALLOWED_UNIQUE_CONSTRAINT: &str = "disallowed-unique-constraint

  default: on
  fix:     none
  lock:    ACCESS EXCLUSIVE, until the index is built
  manual:  ALTER TABLE,
           https://www.postgresql.org/docs/current/sql-altertable.html

Reads and writes of the table wait until the whole index is built.

Instead of

    ALTER TABLE t ADD CONSTRAINT t_b_key UNIQUE (b);

Write two files. One runs without a transaction, and can be run again;
`require-concurrent-index-creation` says what to do where it stops:

    SET lock_timeout = 0;
    SET statement_timeout = 0;
    CREATE UNIQUE INDEX CONCURRENTLY IF NOT EXISTS t_b_key ON t (b);
    RESET lock_timeout;
    RESET statement_timeout;
    -- stops at the invalid index of a failed build
    DO $$ BEGIN
      IF NOT (SELECT indisvalid FROM pg_index WHERE indexrelid = 't_b_key'::regclass) THEN
        RAISE 'index t_b_key is invalid: REINDEX INDEX CONCURRENTLY t_b_key';
      END IF;
    END $$;

The second one is a transaction. Where it runs into its timeout, run this one
again: the index stays.

    BEGIN;
    SET LOCAL lock_timeout = '1s';
    SET LOCAL statement_timeout = '5s';
    ALTER TABLE t ADD CONSTRAINT t_b_key UNIQUE USING INDEX t_b_key;
    COMMIT;

It does not see duplicates: the build fails at the first one, and leaves an
invalid index, which slows writes, and may refuse new duplicates, until it is
dropped or mended. Take the duplicates away first.

Details

- Reported: each `UNIQUE` that an `ALTER TABLE` adds, at the constraint; and
  each `UNIQUE` of a column that it adds.
- Not reported: `ADD UNIQUE USING INDEX`, with a name or without one; a
  `UNIQUE` on a table that the same open transaction created. A `UNIQUE` of a
  new column is reported there too. `CREATE UNIQUE INDEX` has a rule of its own
  (`require-concurrent-index-creation`).
- In PostgreSQL: ACCESS EXCLUSIVE until the index is complete (ALTER TABLE,
  \"ADD table_constraint\"). With `USING INDEX` an index that was built before
  becomes the constraint at once (\"ADD table_constraint_using_index\").

    $ echo 'ALTER TABLE t ADD CONSTRAINT t_b_key UNIQUE (b);' | ./lavkheto check --only disallowed-unique-constraint
    warning[disallowed-unique-constraint]: adding a `unique` constraint requires an `access exclusive` lock which blocks reads and writes to the table while the index is built
     --> stdin:1:19
      |
    1 | ALTER TABLE t ADD CONSTRAINT t_b_key UNIQUE (b);
      |                   ^^^^^^^^^^^^^^^^^^^^^^^^^^^^^
      |
      = help: create an index `concurrently` and create the constraint using the index

    Found 1 issue in 1 of 1 file

    $ echo 'ALTER TABLE t ADD COLUMN c int UNIQUE;' | ./lavkheto check --only disallowed-unique-constraint
    warning[disallowed-unique-constraint]: adding a `unique` constraint requires an `access exclusive` lock which blocks reads and writes to the table while the index is built
     --> stdin:1:32
      |
    1 | ALTER TABLE t ADD COLUMN c int UNIQUE;
      |                                ^^^^^^
      |
      = help: create an index `concurrently` and create the constraint using the index

    Found 1 issue in 1 of 1 file
";

/// `adding-not-nullable-field`.
pub(crate) const ADDING_NOT_NULLABLE_FIELD: &str = "adding-not-nullable-field

  default: on
  fix:     none
  lock:    ACCESS EXCLUSIVE, until every row is read
  manual:  ALTER TABLE,
           https://www.postgresql.org/docs/current/sql-altertable.html

Reads and writes wait until every row has been looked at. On a large table that
takes minutes.

Instead of

    ALTER TABLE t ALTER COLUMN a SET NOT NULL;

Write from PostgreSQL 18 on the constraint itself as not valid, and validate it
in a second file (from the manual of version 18):

    BEGIN;
    SET LOCAL lock_timeout = '1s';
    SET LOCAL statement_timeout = '5s';
    ALTER TABLE t ADD CONSTRAINT t_a_not_null NOT NULL a NOT VALID;
    COMMIT;

    -- each row is read, while others read and write the table
    BEGIN;
    SET LOCAL lock_timeout = '1s';
    SET LOCAL statement_timeout = 0;
    ALTER TABLE t VALIDATE CONSTRAINT t_a_not_null;
    COMMIT;

From PostgreSQL 12 to 17 a check that says it comes first, in a file of its
own:

    BEGIN;
    SET LOCAL lock_timeout = '1s';
    SET LOCAL statement_timeout = '5s';
    ALTER TABLE t ADD CONSTRAINT a_not_null CHECK (a IS NOT NULL) NOT VALID;
    COMMIT;

The second file has two transactions, so it must not run inside of a tool's. It
can be run again until its second one is done:

    -- each row is read, while others read and write the table
    BEGIN;
    SET LOCAL lock_timeout = '1s';
    SET LOCAL statement_timeout = 0;
    ALTER TABLE t VALIDATE CONSTRAINT a_not_null;
    COMMIT;

    -- no row is read
    BEGIN;
    SET LOCAL lock_timeout = '1s';
    SET LOCAL statement_timeout = '5s';
    ALTER TABLE t ALTER COLUMN a SET NOT NULL;
    -- squawk-ignore ban-drop-constraint
    ALTER TABLE t DROP CONSTRAINT a_not_null;
    COMMIT;

Never both in one `ALTER TABLE`: in `ALTER TABLE t ALTER a SET NOT NULL, DROP
CONSTRAINT a_not_null` the drop comes first, and the whole table is read under
ACCESS EXCLUSIVE. Nor does every check prove it: `a IS NOT NULL` alone or as a
part of an `AND` does, `a > 0` and `a IS NOT NULL OR b > 0` don't, though the
linter excuses them too.

It does not see that a check was dropped, or its validation rolled back, before
`SET NOT NULL` or in the same `ALTER TABLE`; that a check says something else;
what a check of another migration says.

Details

- Reported: each `SET NOT NULL` of an `ALTER TABLE`.
- Not reported: from PostgreSQL 12 on (`--pg-major`), a column that an earlier
  `VALIDATE CONSTRAINT` on the same table excuses. Where the text shows that
  the constraint is a check `COLUMN IS NOT NULL` of this table, added earlier
  by `ADD CONSTRAINT NAME CHECK (COLUMN IS NOT NULL) NOT VALID`, the validation
  excuses this column alone. Where it shows none, as when another migration
  added it, or shows one of another table, the validation excuses every column
  of its table. Of two such checks of one name the last one before the
  validation counts. So it does where the text shows a constraint of another
  form, such as a foreign key or `CHECK (a > 0)`. That the check was dropped
  since, or its validation rolled back, isn't noticed: drop it in a later
  statement. A table is identified by its last name, so that `s.t` and `t`
  count as one. `ALTER FOREIGN TABLE`, `ALTER DOMAIN`, and the columns of
  `CREATE TABLE` and `ADD COLUMN` are not looked at.
- False alarms: a column that is `NOT NULL` already; one for which a check of
  an earlier migration proves it; a table that the same transaction created.
- In PostgreSQL: `SET NOT NULL` takes ACCESS EXCLUSIVE and scans the table for
  nulls; from version 12 on it does not scan where a valid `CHECK` proves that
  there are none (ALTER TABLE, \"SET/DROP NOT NULL\"). `VALIDATE CONSTRAINT`
  scans too, under SHARE UPDATE EXCLUSIVE (ALTER TABLE, \"VALIDATE CONSTRAINT\"
  and Notes).

    $ echo 'ALTER TABLE t ALTER COLUMN a SET NOT NULL;' | ./lavkheto check --only adding-not-nullable-field
    warning[adding-not-nullable-field]: setting a column `not null` blocks reads while the table is scanned
     --> stdin:1:30
      |
    1 | ALTER TABLE t ALTER COLUMN a SET NOT NULL;
      |                              ^^^^^^^^^^^^
      |
      = help: make the field nullable and use a `check` constraint instead

    Found 1 issue in 1 of 1 file
";

/// `ban-new-write-restriction`.
pub(crate) const BAN_NEW_WRITE_RESTRICTION: &str = "ban-new-write-restriction

  default: off
  fix:     none
  lock:    that of the statement: ACCESS EXCLUSIVE for a moment, where it is
           `NOT VALID`
  manual:  Constraints,
           https://www.postgresql.org/docs/current/ddl-constraints.html

Clients of the old version were written before the constraint. Where they write
what it forbids, their statement fails from then on; `NOT VALID` leaves out old
rows alone.

Instead of

    ALTER TABLE t ADD CONSTRAINT k CHECK (a > 0) NOT VALID;

Write

    BEGIN;
    SET LOCAL lock_timeout = '1s';
    SET LOCAL statement_timeout = '5s';
    -- release 41 keeps to it, and no older one runs
    -- squawk-ignore ban-new-write-restriction
    ALTER TABLE t ADD CONSTRAINT k CHECK (a > 0) NOT VALID;
    COMMIT;

It does not see triggers and rules that refuse a write; a constraint that a
domain gets in another migration.

Details

- Reported:
  - of an `ALTER TABLE`: each constraint that is added, also as `NOT VALID` or
    `USING INDEX`; each `SET NOT NULL`; each `NOT NULL`, `REFERENCES`, `CHECK`,
    `UNIQUE` and `PRIMARY KEY` of a column that is added; each `ALTER
    CONSTRAINT` that says `ENFORCED`, `DEFERRABLE`, `NOT DEFERRABLE` or
    `INITIALLY`;
  - of an `ALTER FOREIGN TABLE` the same, but for `ALTER CONSTRAINT`;
  - `SET NOT NULL` of an `ALTER DOMAIN`, and each constraint that it adds;
  - each `CREATE UNIQUE INDEX`.
- Not reported: what is done to a table that an earlier statement creates;
  constraints in `CREATE TABLE` and `CREATE DOMAIN`; `ALTER CONSTRAINT ... NOT
  ENFORCED` alone; `NULL`, `DEFAULT` and `GENERATED` of a new column.
- In PostgreSQL: a constraint is checked on every later `INSERT` and `UPDATE`
  (section 5.5; ALTER TABLE, \"ADD table_constraint [ NOT VALID ]\" and \"ALTER
  CONSTRAINT\"; CREATE INDEX, \"UNIQUE\"; CREATE DOMAIN, Notes). One of a foreign
  table is not checked by PostgreSQL itself (ALTER FOREIGN TABLE, \"ADD
  table_constraint\"; CREATE FOREIGN TABLE, Notes).

Created before. A table that the same open transaction created is one of an
earlier `CREATE TABLE`, `CREATE TABLE AS` or `SELECT INTO` in that transaction.
`IF NOT EXISTS` counts too, though the table may have been there; a drop, and a
rollback to a savepoint, aren't noticed. A table, type or sequence that an
earlier statement creates is one that an earlier `CREATE TABLE` with a list,
`CREATE TYPE` or `CREATE SEQUENCE` names, in any transaction, without `IF NOT
EXISTS`; `CREATE TABLE AS`, `SELECT INTO` and foreign tables don't count; a
rollback or a drop isn't noticed. In both, two names must have the same parts:
`t` and `public.t` count as two tables.

    $ echo 'ALTER TABLE t ADD CONSTRAINT k CHECK (a > 0) NOT VALID;' | ./lavkheto check --only ban-new-write-restriction
    warning[ban-new-write-restriction]: a new constraint can reject writes from existing clients, even when it is `not valid`
     --> stdin:1:15
      |
    1 | ALTER TABLE t ADD CONSTRAINT k CHECK (a > 0) NOT VALID;
      |               ^^^^^^^^^^^^^^^^^^^^^^^^^^^^^^^^^^^^^^^^

    Found 1 issue in 1 of 1 file
";

/// `ban-drop-constraint`.
pub(crate) const BAN_DROP_CONSTRAINT: &str = "ban-drop-constraint

  default: on
  fix:     none
  lock:    ACCESS EXCLUSIVE, for a moment; of a foreign key on both tables
  manual:  ALTER TABLE,
           https://www.postgresql.org/docs/current/sql-altertable.html

Clients rely on what the constraint kept out: duplicates, rows without a
parent, values out of range. Such rows can be written from then on, and must be
found and mended before the constraint can come back.

Instead of

    ALTER TABLE t DROP CONSTRAINT k;

Write the drop in a later migration, when released code does without the
constraint. To replace a constraint, add the new one before you drop the old
one.

    BEGIN;
    SET LOCAL lock_timeout = '1s';
    SET LOCAL statement_timeout = '5s';
    -- release 41 does without it
    -- squawk-ignore ban-drop-constraint
    ALTER TABLE t DROP CONSTRAINT k;
    COMMIT;

It does not see constraints that go with a column or a type (`DROP COLUMN`,
`DROP .. CASCADE`).

Details

- Reported: each `DROP CONSTRAINT` of `ALTER TABLE`, `ALTER FOREIGN TABLE` and
  `ALTER DOMAIN`; and the words `NOT ENFORCED` of an `ALTER CONSTRAINT`, which
  turn a constraint off (from PostgreSQL 18 on).
- Not reported: `DROP NOT NULL`, which has a rule of its own
  (`ban-drop-not-null`); `ALTER CONSTRAINT` that changes only when a constraint
  is checked, such as `DEFERRABLE`.
- In PostgreSQL: ACCESS EXCLUSIVE, for a moment, for a foreign key on both
  tables; `ALTER DOMAIN` locks no table (ALTER TABLE, \"DROP CONSTRAINT\" and
  \"ALTER CONSTRAINT\"; ALTER DOMAIN).

    $ echo 'ALTER TABLE t DROP CONSTRAINT k;' | ./lavkheto check --only ban-drop-constraint
    warning[ban-drop-constraint]: dropping a constraint may remove a guarantee that existing clients assume
     --> stdin:1:15
      |
    1 | ALTER TABLE t DROP CONSTRAINT k;
      |               ^^^^^^^^^^^^^^^^^

    Found 1 issue in 1 of 1 file
";

/// `ban-drop-not-null`.
pub(crate) const BAN_DROP_NOT_NULL: &str = "ban-drop-not-null

  default: on
  fix:     none
  lock:    ACCESS EXCLUSIVE, for a moment; of a domain none
  manual:  ALTER TABLE,
           https://www.postgresql.org/docs/current/sql-altertable.html

Clients written for a column without nulls may fail on the first null.

Instead of

    ALTER TABLE t ALTER COLUMN a DROP NOT NULL;

Write it after a release that can read a null, and before one that writes a
null:

    BEGIN;
    SET LOCAL lock_timeout = '1s';
    SET LOCAL statement_timeout = '5s';
    -- release 41 reads nulls
    -- squawk-ignore ban-drop-not-null
    ALTER TABLE t ALTER COLUMN a DROP NOT NULL;
    COMMIT;

It does not see `DROP CONSTRAINT` of a not-null constraint by its name, which
is `ban-drop-constraint`'s.

Details

- Reported: each `DROP NOT NULL` of a column (`ALTER TABLE`, `ALTER FOREIGN
  TABLE`) or of a domain (`ALTER DOMAIN`).
- Not reported: `DROP CONSTRAINT` of a named not-null constraint, which
  `ban-drop-constraint` reports.
- In PostgreSQL: ACCESS EXCLUSIVE, for a moment; no row is read; `ALTER DOMAIN`
  locks no table (ALTER TABLE, \"SET/DROP NOT NULL\"; ALTER DOMAIN).

    $ echo 'ALTER TABLE t ALTER COLUMN a DROP NOT NULL;' | ./lavkheto check --only ban-drop-not-null
    warning[ban-drop-not-null]: dropping a `not null` constraint may break existing clients
     --> stdin:1:30
      |
    1 | ALTER TABLE t ALTER COLUMN a DROP NOT NULL;
      |                              ^^^^^^^^^^^^^

    Found 1 issue in 1 of 1 file

    $ echo 'ALTER DOMAIN d DROP NOT NULL;' | ./lavkheto check --only ban-drop-not-null
    warning[ban-drop-not-null]: dropping a `not null` constraint may break existing clients
     --> stdin:1:16
      |
    1 | ALTER DOMAIN d DROP NOT NULL;
      |                ^^^^^^^^^^^^^

    Found 1 issue in 1 of 1 file
";

/// `ban-create-domain-with-constraint`.
pub(crate) const BAN_CREATE_DOMAIN_WITH_CONSTRAINT: &str = "ban-create-domain-with-constraint

  default: on
  fix:     none
  lock:    none now
  manual:  CREATE DOMAIN,
           https://www.postgresql.org/docs/current/sql-createdomain.html

It hurts at the next change. A constraint of a domain is checked in every
column of the domain, in all tables, in one statement; it can't be changed
table by table.

Instead of

    CREATE DOMAIN email AS text NOT NULL CHECK (VALUE LIKE '%@%');

Write

    CREATE TABLE IF NOT EXISTS persons (id bigint GENERATED BY DEFAULT AS IDENTITY PRIMARY KEY, email text NOT NULL CHECK (email LIKE '%@%'));

It does not see a column of such a domain that `ALTER TABLE` adds: it rewrites
the whole table, with and without a default.

Details

- Reported: each `CREATE DOMAIN` with a constraint, once, from its first
  constraint to its last. `DEFAULT` and `NULL` count as constraints here.
- Not reported: a domain that is just another name for a type, also with
  `COLLATE`.
- In PostgreSQL: a column of a domain with a constraint rewrites the table when
  it is added (ALTER TABLE, Notes; CREATE DOMAIN and ALTER DOMAIN, Notes).

    $ echo \"CREATE DOMAIN email AS text NOT NULL CHECK (VALUE LIKE '%@%');\" | ./lavkheto check --only ban-create-domain-with-constraint
    warning[ban-create-domain-with-constraint]: domains with constraints have poor support for online migrations
     --> stdin:1:29
      |
    1 | CREATE DOMAIN email AS text NOT NULL CHECK (VALUE LIKE '%@%');
      |                             ^^^^^^^^^^^^^^^^^^^^^^^^^^^^^^^^^
      |
      = help: use table and column constraints instead

    Found 1 issue in 1 of 1 file
";

/// `ban-alter-domain-with-add-constraint`.
pub(crate) const BAN_ALTER_DOMAIN_WITH_ADD_CONSTRAINT: &str = "ban-alter-domain-with-add-constraint

  default: on
  fix:     none
  lock:    SHARE on each table with a column of the domain, until every row is
           read
  manual:  ALTER DOMAIN,
           https://www.postgresql.org/docs/current/sql-alterdomain.html

Every table with a column of the domain is read, and writes to it wait for that
long.

Instead of

    ALTER DOMAIN d ADD CHECK (VALUE > 0);

Write the constraint on each table, one after the other, in two files each:

    BEGIN;
    SET LOCAL lock_timeout = '1s';
    SET LOCAL statement_timeout = '5s';
    ALTER TABLE t ADD CONSTRAINT t_c_positive CHECK (c > 0) NOT VALID;
    COMMIT;

In a second file:

    BEGIN;
    SET LOCAL lock_timeout = '1s';
    SET LOCAL statement_timeout = 0;
    ALTER TABLE t VALIDATE CONSTRAINT t_c_positive;
    COMMIT;

Where it must be the domain's, add the `CHECK` with `NOT VALID`, which locks no
table, and ignore the report. Its validation reads each table, and writes wait
for that long before PostgreSQL 18: do it in a quiet hour.

It does not see `SET NOT NULL` and `VALIDATE CONSTRAINT` of a domain. Both read
every table that has a column of it, under SHARE.

Details

- Reported: each constraint that `ALTER DOMAIN` adds (`ADD CONSTRAINT`, `ADD
  CHECK`, `ADD NOT NULL`), with `NOT VALID` too.
- Not reported: `SET NOT NULL`, `SET DEFAULT` and `VALIDATE CONSTRAINT` of a
  domain.
- False alarms: `NOT VALID`, which locks no table, and a domain that no table
  uses.
- In PostgreSQL: all columns of the domain are checked, unless `NOT VALID` is
  given (ALTER DOMAIN, \"ADD domain_constraint [ NOT VALID ]\" and Notes).

    $ echo 'ALTER DOMAIN d ADD CHECK (VALUE > 0);' | ./lavkheto check --only ban-alter-domain-with-add-constraint
    warning[ban-alter-domain-with-add-constraint]: domains with constraints have poor support for online migrations
     --> stdin:1:16
      |
    1 | ALTER DOMAIN d ADD CHECK (VALUE > 0);
      |                ^^^^^^^^^^^^^^^^^^^^^
      |
      = help: use table and column constraints instead

    Found 1 issue in 1 of 1 file
";
