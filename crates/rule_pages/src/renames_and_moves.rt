//! The rules of the group "Renames and moves". Written by tools/rule_pages.py.

/// `renaming-column`.
pub(crate) const RENAMING_COLUMN: &str = "renaming-column

  default: on
  fix:     none
  lock:    ACCESS EXCLUSIVE, for a moment
  manual:  ALTER TABLE,
           https://www.postgresql.org/docs/current/sql-altertable.html

Clients that use the old name fail from then on, and those that use the new
name fail until then. Results have the new name too, which breaks clients that
look columns up by name.

Instead of

    ALTER TABLE users RENAME email TO mail;

Write a new column, which a trigger keeps equal to the old one in both
directions. First:

    BEGIN;
    SET LOCAL lock_timeout = '1s';
    SET LOCAL statement_timeout = '5s';
    ALTER TABLE users ADD COLUMN mail text;
    CREATE FUNCTION users_mail() RETURNS trigger LANGUAGE plpgsql AS $$
    BEGIN
      IF TG_OP = 'INSERT' THEN
        NEW.mail := coalesce(NEW.mail, NEW.email);
        NEW.email := NEW.mail;
      ELSIF NEW.mail IS DISTINCT FROM OLD.mail THEN
        NEW.email := NEW.mail;
      ELSE
        NEW.mail := NEW.email;
      END IF;
      RETURN NEW;
    END $$;
    CREATE TRIGGER users_mail BEFORE INSERT OR UPDATE ON users FOR EACH ROW EXECUTE FUNCTION users_mail();
    COMMIT;

    -- the old rows, some thousands at a time, each time in a transaction of its own
    UPDATE users SET mail = email WHERE id BETWEEN 1 AND 10000 AND mail IS DISTINCT FROM email;

Let no tool put one transaction around both. Until all old rows are filled, let
no client write a null under the new name: the trigger takes it for an old
client's row, and undoes it. Then indexes and constraints, each in its safe
way, but no default of the new column while any client writes the old one: an
old client's `INSERT` would store the default in both columns, and its own
value is lost without an error. When no release names the old column any more,
the new one gets its default, and in a transaction:

    BEGIN;
    SET LOCAL lock_timeout = '1s';
    SET LOCAL statement_timeout = '5s';
    DROP TRIGGER users_mail ON users;
    -- squawk-ignore ban-drop-function
    DROP FUNCTION users_mail();
    -- squawk-ignore ban-drop-column
    ALTER TABLE users DROP COLUMN email;
    COMMIT;

Or keep the column, and give it the new name in a view.

It does not see who uses which name.

Details

- Reported: each `RENAME COLUMN old TO new`, the word `COLUMN` left out or not,
  of `ALTER TABLE`, `ALTER FOREIGN TABLE`, `ALTER VIEW` and `ALTER MATERIALIZED
  VIEW`; and each `RENAME ATTRIBUTE` of `ALTER TYPE`.
- In PostgreSQL: ALTER TABLE, \"RENAME\"; ALTER VIEW; ALTER MATERIALIZED VIEW;
  ALTER TYPE, \"RENAME ATTRIBUTE\".

    $ echo 'ALTER TABLE users RENAME email TO mail;' | ./lavkheto check --only renaming-column
    warning[renaming-column]: renaming a column may break existing clients
     --> stdin:1:19
      |
    1 | ALTER TABLE users RENAME email TO mail;
      |                   ^^^^^^^^^^^^^^^^^^^^

    Found 1 issue in 1 of 1 file
";

/// `renaming-table`.
pub(crate) const RENAMING_TABLE: &str = "renaming-table

  default: on
  fix:     none
  lock:    ACCESS EXCLUSIVE, for a moment
  manual:  ALTER TABLE,
           https://www.postgresql.org/docs/current/sql-altertable.html

Clients that use the old name fail from then on, and those that use the new
name fail until then.

Instead of

    ALTER TABLE users RENAME TO accounts;

Write from PostgreSQL 15 on a view under the old name, with the rights of the
table, in the same transaction:

    BEGIN;
    SET LOCAL lock_timeout = '1s';
    SET LOCAL statement_timeout = '5s';
    -- squawk-ignore renaming-table
    ALTER TABLE users RENAME TO accounts;
    CREATE VIEW users WITH (security_invoker = true) AS SELECT * FROM accounts;
    -- each GRANT that the table has
    GRANT SELECT, INSERT, UPDATE, DELETE ON users TO app;
    COMMIT;

Grants stay with the table: without the `GRANT` the application is refused.
Without `security_invoker` (PostgreSQL 15 and later) the view reads as its
owner, and shows every row in spite of row level security: before 15 give no
table with row level security such a view. PostgreSQL writes through such a
view. But `COPY users FROM` fails, no foreign key can refer to the view, and
columns that the table gets later aren't in it. Drop the view when nothing uses
it.

It does not see whether a view is there, and what it lets through.

Details

- Reported: each `RENAME TO` of `ALTER TABLE`.
- Not reported: that of a foreign table, a view or an index, which
  `renaming-object` reports.
- In PostgreSQL: ALTER TABLE, \"RENAME\".

    $ echo 'ALTER TABLE users RENAME TO accounts;' | ./lavkheto check --only renaming-table
    warning[renaming-table]: renaming a table may break existing clients
     --> stdin:1:19
      |
    1 | ALTER TABLE users RENAME TO accounts;
      |                   ^^^^^^^^^^^^^^^^^^

    Found 1 issue in 1 of 1 file
";

/// `renaming-object`.
pub(crate) const RENAMING_OBJECT: &str = "renaming-object

  default: on
  fix:     none
  lock:    depends on the object: none on tables for a function, SHARE UPDATE
           EXCLUSIVE for an index, ACCESS EXCLUSIVE for a view
  manual:  ALTER INDEX,
           https://www.postgresql.org/docs/current/sql-alterindex.html

A role cannot log in, a function is not found, an error is no longer recognized
by the name of its constraint, a client reads a value that it doesn't know.

Instead of

    ALTER FUNCTION total() RENAME TO sum_of_orders;

Write the object under its new name beside the old one, where that is possible:

    SET lock_timeout = '1s';
    SET statement_timeout = '5s';
    CREATE FUNCTION sum_of_orders() RETURNS bigint LANGUAGE sql AS 'SELECT 1';

The name of an index or of a constraint is often used by nobody: then ignore
the report.

It does not see publications, rules, servers, tablespaces and other kinds
(below).

Details

- Reported:
  - `RENAME TO` of an aggregate, database, domain, foreign table, function,
    group, index, materialized view, policy, procedure, role, routine, schema,
    sequence, trigger, type, user or view;
  - `RENAME CONSTRAINT` of `ALTER TABLE` and `ALTER DOMAIN`;
  - `RENAME VALUE` of `ALTER TYPE`, which renames a value of an enum.
- Not reported: tables and columns, which have rules of their own
  (`renaming-table`, `renaming-column`); other kinds, such as a publication, a
  rule, a server or a tablespace.
- In PostgreSQL: the RENAME forms of the ALTER pages. `ALTER INDEX ... RENAME`
  takes only SHARE UPDATE EXCLUSIVE (ALTER INDEX).

    $ echo 'ALTER FUNCTION total() RENAME TO sum_of_orders;' | ./lavkheto check --only renaming-object
    warning[renaming-object]: renaming a function may break existing clients
     --> stdin:1:24
      |
    1 | ALTER FUNCTION total() RENAME TO sum_of_orders;
      |                        ^^^^^^^^^^^^^^^^^^^^^^^

    Found 1 issue in 1 of 1 file

    $ echo 'ALTER FOREIGN TABLE t RENAME TO n;' | ./lavkheto check --only renaming-object
    warning[renaming-object]: renaming a foreign table may break existing clients
     --> stdin:1:23
      |
    1 | ALTER FOREIGN TABLE t RENAME TO n;
      |                       ^^^^^^^^^^^

    Found 1 issue in 1 of 1 file
";

/// `ban-set-schema`.
pub(crate) const BAN_SET_SCHEMA: &str = "ban-set-schema

  default: on
  fix:     none
  lock:    ACCESS EXCLUSIVE, for a moment
  manual:  ALTER TABLE,
           https://www.postgresql.org/docs/current/sql-altertable.html

Clients that name the old schema fail. Those that name none fail where the new
schema is not in their search path.

Instead of

    ALTER TABLE t SET SCHEMA n;

Write a view under the old name, as at `renaming-table`, which says what such a
view can't do:

    BEGIN;
    SET LOCAL lock_timeout = '1s';
    SET LOCAL statement_timeout = '5s';
    -- squawk-ignore ban-set-schema
    ALTER TABLE t SET SCHEMA n;
    CREATE VIEW public.t WITH (security_invoker = true) AS SELECT * FROM n.t;
    -- each GRANT that the table has, and the right to the new schema
    GRANT SELECT, INSERT, UPDATE, DELETE ON public.t TO app;
    GRANT USAGE ON SCHEMA n TO app;
    COMMIT;

Or put both schemas into every search path before you move the table.

It does not see search paths, and functions that name the old schema.

Details

- Reported: each `SET SCHEMA` of a table, foreign table, view, materialized
  view, sequence, type, domain, function, procedure, routine, aggregate or
  extension.
- Not reported: that of other kinds, such as a collation, an operator or a
  statistics object.
- In PostgreSQL: a table's indexes, constraints and owned sequences move with
  it (ALTER TABLE, \"SET SCHEMA\"; section 5.10.3).

    $ echo 'ALTER TABLE t SET SCHEMA n;' | ./lavkheto check --only ban-set-schema
    warning[ban-set-schema]: moving an object to another schema may break existing clients
     --> stdin:1:15
      |
    1 | ALTER TABLE t SET SCHEMA n;
      |               ^^^^^^^^^^^^

    Found 1 issue in 1 of 1 file
";
