//! The rules of the group "Behavior and replication". Written by tools/rule_pages.py.

/// `ban-disable-trigger`.
pub(crate) const BAN_DISABLE_TRIGGER: &str = "ban-disable-trigger

  default: off
  fix:     none
  lock:    SHARE ROW EXCLUSIVE, for a moment; rules and row security: ACCESS
           EXCLUSIVE
  manual:  ALTER TABLE,
           https://www.postgresql.org/docs/current/sql-altertable.html

A trigger or rule that is off does no work for the application, and one that is
on again may refuse or change its writes. No error shows it.

Instead of

    ALTER TABLE t ENABLE REPLICA TRIGGER audit;

Write to load data without triggers, the session's own switch, which no other
session feels:

    BEGIN;
    SET LOCAL session_replication_role = 'replica';
    INSERT INTO t (id, a) SELECT id, a FROM staging;
    COMMIT;

Only a superuser may set it, or from PostgreSQL 15 on who has `GRANT SET ON
PARAMETER session_replication_role`. Foreign keys are not checked then.

It does not see `session_replication_role`, and triggers that a function turns
off.

Details

- Reported: in `ALTER TABLE`, each `DISABLE TRIGGER`, `ENABLE TRIGGER`, `ENABLE
  ALWAYS TRIGGER` and `ENABLE REPLICA TRIGGER`, and the same four with `RULE`;
  also `DISABLE`, `FORCE` and `NO FORCE ROW LEVEL SECURITY`.
- Not reported: `ENABLE ROW LEVEL SECURITY`; `ban-alter-row-level-security`
  reports all four.
- In PostgreSQL: triggers take SHARE ROW EXCLUSIVE, rules and row security
  ACCESS EXCLUSIVE (ALTER TABLE, \"DISABLE/ENABLE [ REPLICA | ALWAYS ] TRIGGER\"
  and \"RULE\").

    $ echo 'ALTER TABLE t ENABLE REPLICA TRIGGER audit;' | ./lavkheto check --only ban-disable-trigger
    warning[ban-disable-trigger]: making a trigger or rule replica-only stops it firing for normal application writes
     --> stdin:1:15
      |
    1 | ALTER TABLE t ENABLE REPLICA TRIGGER audit;
      |               ^^^^^^^^^^^^^^^^^^^^^^^^^^^^
      |
      = note: earlier application revisions may depend on its side effects

    Found 1 issue in 1 of 1 file
";

/// `ban-replica-identity`.
pub(crate) const BAN_REPLICA_IDENTITY: &str = "ban-replica-identity

  default: off
  fix:     none
  lock:    ACCESS EXCLUSIVE, for a moment
  manual:  ALTER TABLE,
           https://www.postgresql.org/docs/current/sql-altertable.html#SQL-ALTERTABLE-REPLICA-IDENTITY

Subscribers no longer get rows. Or an `UPDATE` or `DELETE` fails on the
publisher, since nothing says which row it changed.

Instead of

    ALTER TABLE t REPLICA IDENTITY FULL;

Write it when the subscriptions are changed, and watch the replication slots. A
unique index on columns that are `NOT NULL` does with less than the whole old
row:

    BEGIN;
    SET LOCAL lock_timeout = '1s';
    SET LOCAL statement_timeout = '5s';
    -- squawk-ignore ban-replica-identity
    ALTER TABLE t REPLICA IDENTITY USING INDEX t_a;
    COMMIT;

It does not see an index that is dropped while it is the replica identity.

Details

- Reported: each `REPLICA IDENTITY` of `ALTER TABLE`; each `DROP PUBLICATION`;
  each `DROP` and each `SET` of `ALTER PUBLICATION`.
- Not reported: `ADD`, `RENAME TO` and `OWNER TO` of `ALTER PUBLICATION` (the
  last is `ban-revoke`'s).
- In PostgreSQL: ALTER TABLE, \"REPLICA IDENTITY\"; ALTER PUBLICATION; chapter
  \"Logical Replication\", \"Publication\".

    $ echo 'ALTER TABLE t REPLICA IDENTITY FULL;' | ./lavkheto check --only ban-replica-identity
    warning[ban-replica-identity]: changing replica identity may silently change replication for existing clients
     --> stdin:1:15
      |
    1 | ALTER TABLE t REPLICA IDENTITY FULL;
      |               ^^^^^^^^^^^^^^^^^^^^^

    Found 1 issue in 1 of 1 file
";

/// `ban-replace-view-function`.
pub(crate) const BAN_REPLACE_VIEW_FUNCTION: &str = "ban-replace-view-function

  default: off
  fix:     none
  lock:    ACCESS EXCLUSIVE on a view, SHARE ROW EXCLUSIVE on a trigger's
           table, for a moment; a function: none
  manual:  CREATE VIEW,
           https://www.postgresql.org/docs/current/sql-createview.html

The old version of the application gets the new behavior at once, while it
still runs. What the new text doesn't repeat is reset: a function loses
`SECURITY DEFINER` and its `SET`, a view its options.

Instead of

    CREATE OR REPLACE VIEW v AS SELECT 1;

Write the new version under another name, beside the old one:

    BEGIN;
    SET LOCAL lock_timeout = '1s';
    SET LOCAL statement_timeout = '5s';
    CREATE VIEW v2 WITH (security_invoker = true) AS SELECT a FROM t;
    GRANT SELECT ON v2 TO app;
    COMMIT;

It does not see what the old object was.

Details

- Reported: each `CREATE OR REPLACE` of a view, function, procedure, trigger,
  rule or aggregate.
- Not reported: plain `CREATE`; `CREATE OR REPLACE` of a language or a
  transform.
- In PostgreSQL: the object keeps its owner and its privileges; all else is as
  the new text says (CREATE VIEW, CREATE FUNCTION). Replacing a view takes
  ACCESS EXCLUSIVE on it, replacing a trigger SHARE ROW EXCLUSIVE on its table
  (section 13.3.1).

    $ echo 'CREATE OR REPLACE VIEW v AS SELECT 1;' | ./lavkheto check --only ban-replace-view-function
    warning[ban-replace-view-function]: replacing a view, function, or procedure may silently change behavior for existing clients
     --> stdin:1:1
      |
    1 | CREATE OR REPLACE VIEW v AS SELECT 1;
      | ^^^^^^^^^^^^^^^^^^^^^^^^^^^^^^^^^^^^^

    Found 1 issue in 1 of 1 file
";
