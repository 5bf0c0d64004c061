//! The rules of the group "Columns and types". Written by tools/rule_pages.py.

/// `changing-column-type`.
pub(crate) const CHANGING_COLUMN_TYPE: &str = "changing-column-type

  default: on
  fix:     none
  lock:    ACCESS EXCLUSIVE, mostly until the table and its indexes are written
           anew
  manual:  ALTER TABLE,
           https://www.postgresql.org/docs/current/sql-altertable.html#SQL-ALTERTABLE-NOTES

Reads and writes wait until the last row is copied. Clients that read the old
type may fail on the new one.

Instead of

    ALTER TABLE t ALTER COLUMN a TYPE bigint;

Write a new column beside the old one, which a trigger keeps equal. First:

    BEGIN;
    SET LOCAL lock_timeout = '1s';
    SET LOCAL statement_timeout = '5s';
    ALTER TABLE t ADD COLUMN a_new bigint;
    CREATE FUNCTION t_a_new() RETURNS trigger LANGUAGE plpgsql AS $$
    BEGIN
      NEW.a_new := NEW.a;
      RETURN NEW;
    END $$;
    CREATE TRIGGER t_a_new BEFORE INSERT OR UPDATE ON t FOR EACH ROW EXECUTE FUNCTION t_a_new();
    COMMIT;

    -- the old rows, some thousands at a time, each time in a transaction of its own
    UPDATE t SET a_new = a WHERE id BETWEEN 1 AND 10000 AND a_new IS DISTINCT FROM a;

In this file the transaction and the batches are apart: let no tool put one
transaction around both. Then what else the old column has, each in its safe
way: indexes, `NOT NULL`, keys, defaults. A foreign key that refers to the
column, and a view that names it, or a function with a body in `BEGIN ATOMIC`,
refuse the drop: replace them first, each by one of the new column. At last, in
one short transaction:

    BEGIN;
    SET LOCAL lock_timeout = '1s';
    SET LOCAL statement_timeout = '5s';
    DROP TRIGGER t_a_new ON t;
    -- squawk-ignore ban-drop-function
    DROP FUNCTION t_a_new();
    -- squawk-ignore ban-drop-column
    ALTER TABLE t DROP COLUMN a;
    -- squawk-ignore renaming-column
    ALTER TABLE t RENAME COLUMN a_new TO a;
    COMMIT;

A serial key has a sequence that goes with the column, and that is an `integer`
itself: it ends at 2147483647, whatever the column is by then. So the last
transaction is another one. Before it `id_new` is filled and kept equal as
above, is `NOT NULL` (`adding-not-nullable-field`), and has a unique index
(`disallowed-unique-constraint`), `t_id_new_key`:

    BEGIN;
    SET LOCAL lock_timeout = '1s';
    SET LOCAL statement_timeout = '5s';
    ALTER SEQUENCE t_id_seq AS bigint OWNED BY t.id_new;
    ALTER TABLE t ALTER COLUMN id_new SET DEFAULT nextval('t_id_seq');
    DROP TRIGGER t_id_new ON t;
    -- squawk-ignore ban-drop-function
    DROP FUNCTION t_id_new();
    -- squawk-ignore ban-drop-column
    ALTER TABLE t DROP COLUMN id;
    -- squawk-ignore renaming-column
    ALTER TABLE t RENAME COLUMN id_new TO id;
    ALTER TABLE t ADD CONSTRAINT t_pkey PRIMARY KEY USING INDEX t_id_new_key;
    COMMIT;

`ALTER COLUMN id TYPE bigint` of a serial column leaves its sequence an
`integer` too: `ALTER SEQUENCE t_id_seq AS bigint` belongs to it. That of an
identity column is changed with the column.

Prepared statements of open sessions that return the column fail until they are
prepared anew, since its type is another one: \"cached plan must not change
result type\".

Both tables of a key. Where a foreign key refers to the column, or the column
refers to another table, the change takes ACCESS EXCLUSIVE on both tables; and
where it is none of the quick ones below, both are read to check the key again.

Statistics go. Each change of a type, the quick ones too, throws away what
PostgreSQL knows of the column's values, and of extended statistics and indexes
with expressions over it. Autovacuum doesn't come for that, and queries may get
bad plans at once: run `ANALYZE t` right after the transaction. `ANALYZE t (a)`
doesn't bring extended statistics over several columns back.

Ignore the report only where you know that the change is quick:

- a longer `varchar`, a greater precision of `numeric` with the same scale,
  `varchar` to `text`: writes and reads nothing, if no index with an expression
  or a `WHERE` and no `CHECK` uses the column
- the same, where one does: rebuilds these indexes, and reads the whole table
  for the `CHECK`
- another collation: rebuilds every index of the column
- `timestamp` to `timestamptz`: writes nothing where the session's TimeZone is
  UTC; else writes the table anew
- `int` to `bigint`, a shorter `varchar`, another scale of `numeric`, `char` to
  `text`, `json` to `jsonb`: writes the table and all its indexes anew

It does not see which of these a change is: no types are compared.

Details

- Reported: each `ALTER COLUMN ... TYPE` and `SET DATA TYPE` of `ALTER TABLE`
  and `ALTER FOREIGN TABLE`, and each `ALTER ATTRIBUTE` of `ALTER TYPE`. The
  types are not compared: a change that rewrites nothing, such as from
  `varchar(50)` to `text`, is reported as well.
- False alarms: what is called quick above; a table that the same transaction
  created, and a composite type that no table uses.
- In PostgreSQL: as said above (ALTER TABLE, \"SET DATA TYPE\" and Notes). `ALTER
  ATTRIBUTE` is refused while a table has a column of the type. A typed table
  (`CREATE TABLE .. OF`) is written anew by it, with `CASCADE` (ALTER TYPE,
  \"ALTER ATTRIBUTE\").

    $ echo 'ALTER TABLE t ALTER COLUMN a TYPE bigint;' | ./lavkheto check --only changing-column-type
    warning[changing-column-type]: changing a column type rewrites the table under an `access exclusive` lock
     --> stdin:1:30
      |
    1 | ALTER TABLE t ALTER COLUMN a TYPE bigint;
      |                              ^^^^^^^^^^^
      |
      = note: the lock blocks reads and writes while the table is rewritten, and the new type may break other clients reading from the table

    Found 1 issue in 1 of 1 file
";

/// `adding-field-with-default`.
pub(crate) const ADDING_FIELD_WITH_DEFAULT: &str = "adding-field-with-default

  default: on
  fix:     none
  lock:    ACCESS EXCLUSIVE, until the table and its indexes are written anew
  manual:  ALTER TABLE,
           https://www.postgresql.org/docs/current/sql-altertable.html#SQL-ALTERTABLE-NOTES

Each row gets a value of its own, so the whole table is written anew. Reads and
writes wait for that long.

Instead of

    ALTER TABLE t ADD COLUMN token uuid DEFAULT gen_random_uuid();

Write

    BEGIN;
    SET LOCAL lock_timeout = '1s';
    SET LOCAL statement_timeout = '5s';
    ALTER TABLE t ADD COLUMN token uuid;
    -- for new rows alone
    ALTER TABLE t ALTER COLUMN token SET DEFAULT gen_random_uuid();
    COMMIT;

    -- the old rows, some thousands at a time, each time in a transaction of its own
    UPDATE t SET token = gen_random_uuid() WHERE id BETWEEN 1 AND 10000 AND token IS NULL;

Let no tool put one transaction around both: the lock of the first would be
held until the last row is filled.

For a stored generated column add a plain one, let a trigger fill it, and fill
the old rows, as at `changing-column-type`. For an identity column add a plain
`bigint` and fill it, make it `NOT NULL` (`adding-not-nullable-field`), and
then add the identity (`ban-alter-identity`), which begins above the greatest
value.

A value in a form that the rule doesn't know is reported though nothing is
rewritten: `-1`, `(now())`, `interval '1 day'`, `CURRENT_DATE`, `CURRENT_USER`,
`LOCALTIME`, `CURRENT_TIMESTAMP(3)`, `lower('A')`, `date_trunc('day', now())`,
`to_char(now(), 'YYYY')`, `jsonb_build_object()`. Write `'-1'`, `now()`, `'1
day'::interval`; name a function of your own with `--non-volatile`; ignore the
report of the others.

It does not see `bigserial` and the other serial types, and a domain with a
constraint as the column's type, with or without a default: both rewrite the
table. An array that holds a volatile call, `ARRAY[random()]`, does so too.

Details

- Reported: of the columns that an `ALTER TABLE` adds, each `DEFAULT`, at its
  value, and each `GENERATED`, of an expression or of an identity. From version
  11 on (`--pg-major`; 15 where none is given) a `DEFAULT` is reported only
  where its value may be volatile; a `GENERATED` always, also a `VIRTUAL` one
  (PostgreSQL 18), which rewrites nothing.
- Not reported: a value that is a number, a string, `TRUE`, `FALSE`, `NULL`, an
  array (whatever it holds), `CURRENT_TIMESTAMP`, a call without arguments of
  `now`, `transaction_timestamp`, `statement_timestamp`, `current_database`,
  `current_schema`, `version`, `pi` or a function given by `--non-volatile`; or
  made of such by operators, casts and `COLLATE`. Everything else counts as
  volatile: a value in brackets, a sign before a number (`-1`), a type before a
  string (`interval '1 day'`), a function with its schema. `SET DEFAULT` writes
  no rows and is left alone. So is a serial type, although it is a volatile
  default. A new table excuses nothing.
- In PostgreSQL: with a volatile default, a stored generated column, an
  identity column or a domain with a constraint, ACCESS EXCLUSIVE while the
  table and its indexes are rewritten. A default that isn't volatile is
  computed once and kept for the whole table, from version 11 on (ALTER TABLE,
  Notes; \"Function Volatility Categories\").

    $ echo 'ALTER TABLE t ADD COLUMN token uuid DEFAULT gen_random_uuid();' | ./lavkheto check --only adding-field-with-default
    warning[adding-field-with-default]: adding a column with a volatile default rewrites the table under an `access exclusive` lock
     --> stdin:1:45
      |
    1 | ALTER TABLE t ADD COLUMN token uuid DEFAULT gen_random_uuid();
      |                                             ^^^^^^^^^^^^^^^^^
      |
      = note: in Postgres 11+, non-volatile defaults can be added without a rewrite
      = help: add the column as nullable, backfill existing rows, and add a trigger to update the column on write instead

    Found 1 issue in 1 of 1 file
";

/// `adding-required-field`.
pub(crate) const ADDING_REQUIRED_FIELD: &str = "adding-required-field

  default: on
  fix:     none
  lock:    ACCESS EXCLUSIVE, for a moment; on a table with rows it fails
  manual:  ALTER TABLE,
           https://www.postgresql.org/docs/current/sql-altertable.html

On a table with rows the statement fails, since they have no value. On an empty
one every client that doesn't know the column yet can't insert any more.

Instead of

    ALTER TABLE t ADD COLUMN c int NOT NULL;

Write

    BEGIN;
    SET LOCAL lock_timeout = '1s';
    SET LOCAL statement_timeout = '5s';
    -- one value for all old rows: no row is written
    ALTER TABLE t ADD COLUMN c bigint NOT NULL DEFAULT 0;
    COMMIT;

Where each row needs a value of its own, add the column without `NOT NULL`, let
all clients write it, fill the old rows in batches, then set `NOT NULL`
(`adding-not-nullable-field`).

It does not see serial types: they have a value for each row, and are reported
all the same, though what hurts is the rewrite.

Details

- Reported: each `ADD COLUMN` of an `ALTER TABLE` whose column is `NOT NULL`
  and has neither a `DEFAULT` nor a `GENERATED`.
- Not reported: a column that is a `PRIMARY KEY` without the words `NOT NULL`;
  `SET NOT NULL` and `ADD NOT NULL` of a column that is there. A new table
  excuses nothing, and a serial type counts as no default.
- In PostgreSQL: ALTER TABLE, \"ADD COLUMN\"; section 5.5.2, \"Not-Null
  Constraints\".

    $ echo 'ALTER TABLE t ADD COLUMN c int NOT NULL;' | ./lavkheto check --only adding-required-field
    warning[adding-required-field]: adding a new column that is `not null` and has no default value to an existing table effectively makes it required
     --> stdin:1:15
      |
    1 | ALTER TABLE t ADD COLUMN c int NOT NULL;
      |               ^^^^^^^^^^^^^^^^^^^^^^^^^
      |
      = help: make the field nullable or add a non-volatile default

    Found 1 issue in 1 of 1 file
";

/// `ban-add-column`.
pub(crate) const BAN_ADD_COLUMN: &str = "ban-add-column

  default: off
  fix:     none
  lock:    ACCESS EXCLUSIVE, for a moment
  manual:  ALTER TABLE,
           https://www.postgresql.org/docs/current/sql-altertable.html

A client that selects `*` and reads values by their places gets one more.
`INSERT INTO u SELECT * FROM t` has one more value than `u` has columns, and
fails. A statement with `*` that a session has prepared, as many drivers do,
fails with \"cached plan must not change result type\" until it is prepared anew;
one that names its columns goes on.

Instead of

    ALTER TABLE t ADD COLUMN c int;

Write

    BEGIN;
    SET LOCAL lock_timeout = '1s';
    SET LOCAL statement_timeout = '5s';
    -- each client names the columns that it reads and writes
    -- squawk-ignore ban-add-column
    ALTER TABLE t ADD COLUMN c bigint;
    COMMIT;

It does not see what makes the addition slow: see `adding-field-with-default`
and what a clean answer does not see.

Details

- Reported: each `ADD COLUMN` of an `ALTER TABLE` or `ALTER FOREIGN TABLE`,
  with and without the word `COLUMN`.
- Not reported: a column of a table that an earlier statement creates; an
  attribute of a composite type, which has a rule of its own
  (`ban-add-composite-attribute`).
- In PostgreSQL: a new column is the last one of the table (ALTER TABLE, \"ADD
  COLUMN\"); without a list of columns an `INSERT` gives its values to the
  columns in their declared order (INSERT, \"Description\").

Created before. A table that the same open transaction created is one of an
earlier `CREATE TABLE`, `CREATE TABLE AS` or `SELECT INTO` in that transaction.
`IF NOT EXISTS` counts too, though the table may have been there; a drop, and a
rollback to a savepoint, aren't noticed. A table, type or sequence that an
earlier statement creates is one that an earlier `CREATE TABLE` with a list,
`CREATE TYPE` or `CREATE SEQUENCE` names, in any transaction, without `IF NOT
EXISTS`; `CREATE TABLE AS`, `SELECT INTO` and foreign tables don't count; a
rollback or a drop isn't noticed. In both, two names must have the same parts:
`t` and `public.t` count as two tables.

    $ echo 'ALTER TABLE t ADD COLUMN c int;' | ./lavkheto check --only ban-add-column
    warning[ban-add-column]: adding a column changes the shape of rows existing clients receive and can break positional inserts
     --> stdin:1:15
      |
    1 | ALTER TABLE t ADD COLUMN c int;
      |               ^^^^^^^^^^^^^^^^

    Found 1 issue in 1 of 1 file
";

/// `ban-drop-column`.
pub(crate) const BAN_DROP_COLUMN: &str = "ban-drop-column

  default: on
  fix:     none
  lock:    ACCESS EXCLUSIVE, for a moment
  manual:  ALTER TABLE,
           https://www.postgresql.org/docs/current/sql-altertable.html

Each client that still names the column fails, and so does the old version of
the application while the new one is rolled out. Many ORMs name every column in
every query. A prepared statement with `*` fails with \"cached plan must not
change result type\" until it is prepared anew.

Instead of

    ALTER TABLE users ADD COLUMN mail text, DROP COLUMN email;

Write the drop in a later migration, when released code names the column
nowhere. From when an `INSERT` leaves it out, the column must be nullable or
have a default:

    BEGIN;
    SET LOCAL lock_timeout = '1s';
    SET LOCAL statement_timeout = '5s';
    -- release 41 and all later ones name it nowhere
    -- squawk-ignore ban-drop-column
    ALTER TABLE users DROP COLUMN email;
    COMMIT;

It does not see which views, functions and indexes use the column. A view
refuses the drop, and so does a function with a body in `BEGIN ATOMIC`; one
with a body in a string fails later. Its indexes go with it, those over several
columns too, and so does the sequence that it owns.

Details

- Reported: each `DROP COLUMN` of `ALTER TABLE` and `ALTER FOREIGN TABLE`, the
  word `COLUMN` left out or not, and each `DROP ATTRIBUTE` of `ALTER TYPE`.
- In PostgreSQL: ACCESS EXCLUSIVE, for a moment: the column is only hidden, and
  its space is reclaimed as rows are updated. Indexes and constraints over it
  go too (ALTER TABLE, \"DROP COLUMN\" and Notes; ALTER TYPE, \"DROP ATTRIBUTE\").

    $ echo 'ALTER TABLE users ADD COLUMN mail text, DROP COLUMN email;' | ./lavkheto check --only ban-drop-column
    warning[ban-drop-column]: dropping a column may break existing clients
     --> stdin:1:41
      |
    1 | ALTER TABLE users ADD COLUMN mail text, DROP COLUMN email;
      |                                         ^^^^^^^^^^^^^^^^^

    Found 1 issue in 1 of 1 file
";

/// `ban-drop-default`.
pub(crate) const BAN_DROP_DEFAULT: &str = "ban-drop-default

  default: on
  fix:     none
  lock:    ACCESS EXCLUSIVE, for a moment; of a domain none
  manual:  ALTER TABLE,
           https://www.postgresql.org/docs/current/sql-altertable.html

An `INSERT` that leaves the column out writes a null from then on, or fails
where the column allows none.

Instead of

    ALTER TABLE t ALTER COLUMN a DROP DEFAULT;

Write

    BEGIN;
    SET LOCAL lock_timeout = '1s';
    SET LOCAL statement_timeout = '5s';
    -- release 41 always gives the value
    -- squawk-ignore ban-drop-default
    ALTER TABLE t ALTER COLUMN a DROP DEFAULT;
    COMMIT;

It does not see a default that goes with its sequence or function (`DROP ..
CASCADE`).

Details

- Reported: each `DROP DEFAULT` of a column of `ALTER TABLE`, `ALTER FOREIGN
  TABLE` or `ALTER VIEW`, and of `ALTER DOMAIN`.
- In PostgreSQL: ACCESS EXCLUSIVE, for a moment; `ALTER DOMAIN` locks no table;
  rows that exist keep their values (ALTER TABLE, \"SET/DROP DEFAULT\"; ALTER
  VIEW; ALTER DOMAIN).

    $ echo 'ALTER TABLE t ALTER COLUMN a DROP DEFAULT;' | ./lavkheto check --only ban-drop-default
    warning[ban-drop-default]: dropping a column default may break existing clients
     --> stdin:1:30
      |
    1 | ALTER TABLE t ALTER COLUMN a DROP DEFAULT;
      |                              ^^^^^^^^^^^^

    Found 1 issue in 1 of 1 file

    $ echo 'ALTER DOMAIN d DROP DEFAULT;' | ./lavkheto check --only ban-drop-default
    warning[ban-drop-default]: dropping a column default may break existing clients
     --> stdin:1:16
      |
    1 | ALTER DOMAIN d DROP DEFAULT;
      |                ^^^^^^^^^^^^

    Found 1 issue in 1 of 1 file
";

/// `ban-set-default`.
pub(crate) const BAN_SET_DEFAULT: &str = "ban-set-default

  default: off
  fix:     none
  lock:    ACCESS EXCLUSIVE, for a moment; of a domain none
  manual:  ALTER TABLE,
           https://www.postgresql.org/docs/current/sql-altertable.html

An `INSERT` that leaves the column out writes another value from then on, and
no error shows it.

Instead of

    ALTER TABLE t ALTER COLUMN a SET DEFAULT 1;

Write

    BEGIN;
    SET LOCAL lock_timeout = '1s';
    SET LOCAL statement_timeout = '5s';
    -- release 41 always gives the value itself
    -- squawk-ignore ban-set-default
    ALTER TABLE t ALTER COLUMN a SET DEFAULT 1;
    COMMIT;

It does not see a function that the default calls and that gives other values
from now on.

Details

- Reported: each `SET DEFAULT` of a column of `ALTER TABLE`, `ALTER FOREIGN
  TABLE` or `ALTER VIEW`, and of `ALTER DOMAIN`.
- Not reported: the default of a new column or a new table.
- In PostgreSQL: ACCESS EXCLUSIVE, for a moment; `ALTER DOMAIN` locks no table;
  rows that exist keep their values (ALTER TABLE, \"SET/DROP DEFAULT\"; ALTER
  VIEW; ALTER DOMAIN).

    $ echo 'ALTER TABLE t ALTER COLUMN a SET DEFAULT 1;' | ./lavkheto check --only ban-set-default
    warning[ban-set-default]: setting a column default may silently change values written by existing clients
     --> stdin:1:30
      |
    1 | ALTER TABLE t ALTER COLUMN a SET DEFAULT 1;
      |                              ^^^^^^^^^^^^^

    Found 1 issue in 1 of 1 file

    $ echo 'ALTER DOMAIN d SET DEFAULT 1;' | ./lavkheto check --only ban-set-default
    warning[ban-set-default]: setting a column default may silently change values written by existing clients
     --> stdin:1:16
      |
    1 | ALTER DOMAIN d SET DEFAULT 1;
      |                ^^^^^^^^^^^^^

    Found 1 issue in 1 of 1 file
";

/// `ban-alter-identity`.
pub(crate) const BAN_ALTER_IDENTITY: &str = "ban-alter-identity

  default: on
  fix:     none
  lock:    ACCESS EXCLUSIVE, for a moment
  manual:  ALTER TABLE,
           https://www.postgresql.org/docs/current/sql-altertable.html

With `GENERATED ALWAYS` an `INSERT` that gives a value fails. Without the
identity one that gives none fails, since the column allows no nulls.

Instead of

    ALTER TABLE t ALTER COLUMN a ADD GENERATED BY DEFAULT AS IDENTITY;

Write a number above all values that are in use. The sequence begins at 1
otherwise, and the next `INSERT` fails with a duplicate key, or two rows share
a number:

    BEGIN;
    SET LOCAL lock_timeout = '1s';
    SET LOCAL statement_timeout = '5s';
    -- the column is NOT NULL, and its greatest value is below a million
    -- squawk-ignore ban-alter-identity
    ALTER TABLE t ALTER COLUMN a ADD GENERATED BY DEFAULT AS IDENTITY (START WITH 1000001);
    COMMIT;

The column must be `NOT NULL` (`adding-not-nullable-field`) and have no
default. Before a column becomes `GENERATED ALWAYS`, release code that leaves
it out. Before `DROP IDENTITY`, make it `GENERATED BY DEFAULT`, and release
code that always gives the value.

It does not see where the sequence begins, and which values the column has.

Details

- Reported: `ADD GENERATED`, `DROP IDENTITY` and `SET GENERATED ALWAYS` of a
  column, in `ALTER TABLE`.
- Not reported: `SET GENERATED BY DEFAULT`, after which every `INSERT` still
  works; an identity column that is added.
- In PostgreSQL: the column must be `NOT NULL` before, and the sequence of the
  identity begins at 1 if no `START WITH` is given (ALTER TABLE, \"ADD
  GENERATED\", \"SET GENERATED\" and \"DROP IDENTITY\"; section 5.3).

    $ echo 'ALTER TABLE t ALTER COLUMN a ADD GENERATED BY DEFAULT AS IDENTITY;' | ./lavkheto check --only ban-alter-identity
    warning[ban-alter-identity]: changing column identity may break inserts from existing clients
     --> stdin:1:30
      |
    1 | ALTER TABLE t ALTER COLUMN a ADD GENERATED BY DEFAULT AS IDENTITY;
      |                              ^^^^^^^^^^^^^^^^^^^^^^^^^^^^^^^^^^^^

    Found 1 issue in 1 of 1 file
";

/// `ban-drop-generated-expression`.
pub(crate) const BAN_DROP_GENERATED_EXPRESSION: &str = "ban-drop-generated-expression

  default: on
  fix:     none
  lock:    ACCESS EXCLUSIVE, for a moment
  manual:  ALTER TABLE,
           https://www.postgresql.org/docs/current/sql-altertable.html

The column becomes a plain one. Its values stay as they are, and no longer
follow the columns they came from.

Instead of

    ALTER TABLE t ALTER COLUMN a DROP EXPRESSION;

Write a trigger that goes on with the work, in the same transaction. The
application can't do it: before the change PostgreSQL refuses its value.

    BEGIN;
    SET LOCAL lock_timeout = '1s';
    SET LOCAL statement_timeout = '5s';
    CREATE FUNCTION t_a() RETURNS trigger LANGUAGE plpgsql AS $$
    BEGIN
      NEW.a := NEW.b * 2;
      RETURN NEW;
    END $$;
    -- squawk-ignore ban-drop-generated-expression
    ALTER TABLE t ALTER COLUMN a DROP EXPRESSION;
    CREATE TRIGGER t_a BEFORE INSERT OR UPDATE ON t FOR EACH ROW EXECUTE FUNCTION t_a();
    COMMIT;

It does not see whether a trigger goes on with the work.

Details

- Reported: each `DROP EXPRESSION` of a column, in `ALTER TABLE`.
- In PostgreSQL: ACCESS EXCLUSIVE, for a moment; for stored generated columns
  only (ALTER TABLE, \"DROP EXPRESSION\").

    $ echo 'ALTER TABLE t ALTER COLUMN a DROP EXPRESSION;' | ./lavkheto check --only ban-drop-generated-expression
    warning[ban-drop-generated-expression]: dropping a generated expression may break existing clients
     --> stdin:1:30
      |
    1 | ALTER TABLE t ALTER COLUMN a DROP EXPRESSION;
      |                              ^^^^^^^^^^^^^^^

    Found 1 issue in 1 of 1 file
";

/// `ban-alter-generated-expression`.
pub(crate) const BAN_ALTER_GENERATED_EXPRESSION: &str = "ban-alter-generated-expression

  default: off
  fix:     none
  lock:    ACCESS EXCLUSIVE, until the table and its indexes are written anew
  manual:  ALTER TABLE,
           https://www.postgresql.org/docs/current/sql-altertable.html

A new expression changes what clients read. A generated column takes no value,
so a client that writes every column it finds fails.

`SET EXPRESSION` is of PostgreSQL 17.

Instead of

    ALTER TABLE t ALTER COLUMN a SET EXPRESSION AS (b + 1);

Write a new column that a trigger fills:

    BEGIN;
    SET LOCAL lock_timeout = '1s';
    SET LOCAL statement_timeout = '5s';
    ALTER TABLE t ADD COLUMN a_new bigint;
    CREATE FUNCTION t_a_new() RETURNS trigger LANGUAGE plpgsql AS $$
    BEGIN
      NEW.a_new := NEW.b + 1;
      RETURN NEW;
    END $$;
    CREATE TRIGGER t_a_new BEFORE INSERT OR UPDATE ON t FOR EACH ROW EXECUTE FUNCTION t_a_new();
    COMMIT;

    -- the old rows, some thousands at a time, each time in a transaction of its own
    UPDATE t SET a_new = b + 1 WHERE id BETWEEN 1 AND 10000 AND a_new IS NULL;

Let no tool put one transaction around both.

It does not see a function in the expression that gives other values from now
on.

Details

- Reported: each `SET EXPRESSION` of a column, and each `GENERATED` of a column
  that `ALTER TABLE` adds. An identity column (`GENERATED ... AS IDENTITY`)
  counts too.
- Not reported: generated columns of a new table.
- In PostgreSQL: `SET EXPRESSION` rewrites a stored column, and adding a stored
  one or an identity column rewrites the table, under ACCESS EXCLUSIVE (ALTER
  TABLE, \"SET EXPRESSION\", \"ADD COLUMN\" and Notes; section 5.4).

    $ echo 'ALTER TABLE t ALTER COLUMN a SET EXPRESSION AS (b + 1);' | ./lavkheto check --only ban-alter-generated-expression
    warning[ban-alter-generated-expression]: changing a generated column expression may change values read by existing clients
     --> stdin:1:30
      |
    1 | ALTER TABLE t ALTER COLUMN a SET EXPRESSION AS (b + 1);
      |                              ^^^^^^^^^^^^^^^^^^^^^^^^^

    Found 1 issue in 1 of 1 file
";
