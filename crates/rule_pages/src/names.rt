//! The rules of the group "Names". Written by tools/rule_pages.py.

/// `require-table-schema`.
pub(crate) const REQUIRE_TABLE_SCHEMA: &str = "require-table-schema

  default: off
  fix:     none
  lock:    none of its own
  manual:  The Schema Search Path,
           https://www.postgresql.org/docs/current/ddl-schemas.html#DDL-SCHEMAS-PATH

Which table is meant depends on the search path of the session that runs the
migration. Under another role it may be another table, or a new one in another
schema.

Instead of

    ALTER TABLE t ADD COLUMN c text;

Write

    BEGIN;
    SET LOCAL lock_timeout = '1s';
    SET LOCAL statement_timeout = '5s';
    ALTER TABLE public.t ADD COLUMN c text;
    COMMIT;

It does not see tables of other statements (below), types and functions without
a schema.

Details

- Reported: the table's name where it has no schema, in `CREATE TABLE`, `CREATE
  TABLE AS` and `ALTER TABLE`, and each such name in `DROP TABLE`.
- Not reported: the name of a temporary table that is created; tables of other
  statements (`SELECT INTO`, `CREATE INDEX`, `TRUNCATE`, foreign tables), of
  `REFERENCES` and of `PARTITION OF`. Of `ALTER TABLE ALL IN TABLESPACE` the
  word `ALL` is reported.
- In PostgreSQL: section 5.10.3, \"The Schema Search Path\".

    $ echo 'ALTER TABLE t ADD COLUMN c text;' | ./lavkheto check --only require-table-schema
    warning[require-table-schema]: table name is not schema-qualified
     --> stdin:1:13
      |
    1 | ALTER TABLE t ADD COLUMN c text;
      |             ^
      |
      = help: qualify the name with its schema, e.g. `public.my_table`

    Found 1 issue in 1 of 1 file

    $ echo 'DROP TABLE a, app.b;' | ./lavkheto check --only require-table-schema
    warning[require-table-schema]: table name is not schema-qualified
     --> stdin:1:12
      |
    1 | DROP TABLE a, app.b;
      |            ^
      |
      = help: qualify the name with its schema, e.g. `public.my_table`

    Found 1 issue in 1 of 1 file
";

/// `identifier-too-long`.
pub(crate) const IDENTIFIER_TOO_LONG: &str = "identifier-too-long

  default: on
  fix:     safe (it writes what PostgreSQL keeps; none for a variable of psql)
  lock:    none of its own
  manual:  Identifiers,
           https://www.postgresql.org/docs/current/sql-syntax-lexical.html#SQL-SYNTAX-IDENTIFIERS

The object gets another name than the migration says, with no more than a
NOTICE. A second long name that begins alike becomes the same name, so the
statement fails, or changes the first object; tools that look for the whole
name in the catalogs don't find it.

Instead of

    ALTER INDEX i RENAME TO index_orders_on_customer_id_and_status_and_created_at_and_region;

Write

    SET lock_timeout = '1s';
    SET statement_timeout = '5s';
    -- squawk-ignore renaming-object
    ALTER INDEX i RENAME TO orders_by_customer_status_created_region;

It does not see names in strings, so in function bodies; a long name right
before a quoted one, which the fix joins to it.

Details

- Reported: each word and each quoted name of more than 63 bytes, wherever it
  is in a statement, each time. The fix puts the name there that PostgreSQL
  keeps.
- Not reported: names in comments and strings, so in a function body that is a
  string. A name with `\"\"` in it is reported, but has no fix.
- In PostgreSQL: `NAMEDATALEN` is 64, so 63 bytes are kept, and fewer where a
  character would be cut (section 4.1.1).

    $ echo 'ALTER INDEX i RENAME TO index_orders_on_customer_id_and_status_and_created_at_and_region;' | ./lavkheto check --only identifier-too-long
    warning[identifier-too-long]: `index_orders_on_customer_id_and_status_and_created_at_and_region` is too long and will be truncated to 63 bytes
     --> stdin:1:25
      |
    1 | ALTER INDEX i RENAME TO index_orders_on_customer_id_and_status_and_created_at_and_region;
      |                         ^^^^^^^^^^^^^^^^^^^^^^^^^^^^^^^^^^^^^^^^^^^^^^^^^^^^^^^^^^^^^^^^
      |
    fix: Rename to `index_orders_on_customer_id_and_status_and_created_at_and_regio`
      |
    1 - ALTER INDEX i RENAME TO index_orders_on_customer_id_and_status_and_created_at_and_region;
    1 + ALTER INDEX i RENAME TO index_orders_on_customer_id_and_status_and_created_at_and_regio;

    Found 1 issue in 1 of 1 file
";

/// `ban-duplicate-column-assignments`.
pub(crate) const BAN_DUPLICATE_COLUMN_ASSIGNMENTS: &str = "ban-duplicate-column-assignments

  default: on
  fix:     unsafe (it keeps the last assignment)
  lock:    none, it fails
  manual:  UPDATE, https://www.postgresql.org/docs/current/sql-update.html

PostgreSQL refuses the statement only when it runs, so the migration stops in
the middle of a deploy.

Instead of

    UPDATE t SET state = 'new', sent = 1, state = 'old';

Write

    UPDATE t SET sent = 1, state = 'old' WHERE id = 1;

It does not see an `UPDATE` without `WHERE`, which locks every row.

Details

- Reported: each name that is twice or more in one list: the columns of `CREATE
  TABLE` (with `AS` and `FOREIGN` too), of a view, of what a view without
  column names selects, of `SELECT INTO`, the list of an `INSERT` or a `MERGE`,
  and a `SET` clause. Names are equal where their first 63 bytes are. In a
  `SET` clause the fix deletes all parts but the last one that sets the column.
- Not reported: elements and fields of one column, as in `SET a[1] = 1, a[2] =
  2`, unless the whole column is there too; names in two lists or clauses; what
  `CREATE TABLE AS` selects; columns of `ON CONFLICT (..)` and of constraints.
  In a selection, names without `AS` (`1 a`), of a call or a cast, and all
  names where it is in brackets or after `WITH`; a statement within `WITH`.
- No fix where one of the earlier parts is a list, as in `SET (a, b) = (1, 2),
  a = 3`. A comment after a deleted part's comma stays.
- In PostgreSQL: \"column .. specified more than once\" and \"multiple assignments
  to same column\" (UPDATE, INSERT, CREATE TABLE, CREATE VIEW; section 4.1.1 on
  equal names).

    $ echo \"UPDATE t SET state = 'new', sent = 1, state = 'old';\" | ./lavkheto check --only ban-duplicate-column-assignments
    warning[ban-duplicate-column-assignments]: multiple assignments to the same column `state`
     --> stdin:1:14
      |
    1 | UPDATE t SET state = 'new', sent = 1, state = 'old';
      |              ^^^^^

    warning[ban-duplicate-column-assignments]: multiple assignments to the same column `state`
     --> stdin:1:39
      |
    1 | UPDATE t SET state = 'new', sent = 1, state = 'old';
      |                                       ^^^^^
      |
    fix: Delete all but the last assignment to `state` (unsafe)
      |
    1 - UPDATE t SET state = 'new', sent = 1, state = 'old';
    1 + UPDATE t SET sent = 1, state = 'old';

    Found 2 issues in 1 of 1 file
";
