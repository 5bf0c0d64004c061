//! The rules of the group "Access and security". Written by tools/rule_pages.py.

/// `ban-revoke`.
pub(crate) const BAN_REVOKE: &str = "ban-revoke

  default: off
  fix:     none
  lock:    `OWNER TO`: ACCESS EXCLUSIVE, for a moment; `REVOKE`: none
  manual:  REVOKE, https://www.postgresql.org/docs/current/sql-revoke.html

Clients that rely on the privilege, the owner or the membership are refused,
some of them only at their next login.

Instead of

    ALTER TABLE t OWNER TO u;

Write what the new role needs, move the clients to it, and take away what the
old one has in a later migration:

    GRANT SELECT, INSERT, UPDATE, DELETE ON t TO app;

And when no client uses the old role any more:

    -- squawk-ignore ban-revoke
    REVOKE ALL ON t FROM old_app;

It does not see privileges that go with a dropped and newly created object.

Details

- Reported:
  - `REVOKE`, of privileges and of roles, and `ALTER DEFAULT PRIVILEGES ...
    REVOKE`;
  - `OWNER TO` of every `ALTER` that the linter looks into: a table, foreign
    table, view, materialized view, index, sequence, type, domain, function,
    procedure, routine, aggregate, database, schema, publication;
  - `DROP ROLE` and `DROP USER`, `DROP OWNED`, `REASSIGN OWNED`, and `ALTER
    GROUP ... DROP USER`.
- Not reported: `GRANT`; `DROP GROUP`; `OWNER TO` of other kinds, such as a
  large object, a server or a tablespace.
- In PostgreSQL: a privilege is checked at each statement, so its loss is felt
  at once. An owner may drop and change the object; the old one no longer can
  (section 5.8; REVOKE; REASSIGN OWNED).

    $ echo 'ALTER TABLE t OWNER TO u;' | ./lavkheto check --only ban-revoke
    warning[ban-revoke]: changing object ownership may break existing clients
     --> stdin:1:15
      |
    1 | ALTER TABLE t OWNER TO u;
      |               ^^^^^^^^^^

    Found 1 issue in 1 of 1 file
";

/// `ban-create-policy`.
pub(crate) const BAN_CREATE_POLICY: &str = "ban-create-policy

  default: off
  fix:     none
  lock:    ACCESS EXCLUSIVE on the table, for a moment
  manual:  CREATE POLICY,
           https://www.postgresql.org/docs/current/sql-createpolicy.html

A permissive policy shows more rows, a restrictive one fewer, to sessions that
are open already.

Instead of

    CREATE POLICY p ON t;

Write it when you have tried it with the application's role, on a copy:

    SET lock_timeout = '1s';
    SET statement_timeout = '5s';
    -- tried with the role app
    -- squawk-ignore ban-create-policy
    CREATE POLICY p ON t FOR SELECT TO app USING (a < 100);

It does not see whether row level security is on.

Details

- Reported: each `CREATE POLICY`.
- In PostgreSQL: ACCESS EXCLUSIVE on the table. A policy acts only where row
  level security is enabled for the table (CREATE POLICY; section 5.9).

    $ echo 'CREATE POLICY p ON t;' | ./lavkheto check --only ban-create-policy
    warning[ban-create-policy]: creating a policy may change access for existing clients
     --> stdin:1:1
      |
    1 | CREATE POLICY p ON t;
      | ^^^^^^^^^^^^^^^^^^^^^

    Found 1 issue in 1 of 1 file
";

/// `ban-drop-policy`.
pub(crate) const BAN_DROP_POLICY: &str = "ban-drop-policy

  default: off
  fix:     none
  lock:    ACCESS EXCLUSIVE on the table, for a moment
  manual:  DROP POLICY,
           https://www.postgresql.org/docs/current/sql-droppolicy.html

A table without its policy shows other rows than before; without its last
permissive policy it shows none, since row level security stays on. Without its
rule a statement does something else.

Instead of

    DROP POLICY p ON t;

Write the policy that replaces it first. Permissive policies are joined by OR:

    BEGIN;
    SET LOCAL lock_timeout = '1s';
    SET LOCAL statement_timeout = '5s';
    CREATE POLICY p2 ON t TO app USING (a < 200);
    -- squawk-ignore ban-drop-policy
    DROP POLICY p ON t;
    COMMIT;

It does not see whether another policy is left.

Details

- Reported: each `DROP POLICY` and `DROP RULE`.
- In PostgreSQL: ACCESS EXCLUSIVE on the table. Restrictive policies alone let
  no row through (DROP POLICY, DROP RULE; section 5.9).

    $ echo 'DROP POLICY p ON t;' | ./lavkheto check --only ban-drop-policy
    warning[ban-drop-policy]: dropping a policy or rule may silently change behavior for existing clients
     --> stdin:1:1
      |
    1 | DROP POLICY p ON t;
      | ^^^^^^^^^^^^^^^^^^^

    Found 1 issue in 1 of 1 file
";

/// `ban-alter-policy-condition`.
pub(crate) const BAN_ALTER_POLICY_CONDITION: &str = "ban-alter-policy-condition

  default: off
  fix:     none
  lock:    ACCESS EXCLUSIVE on the table, for a moment
  manual:  ALTER POLICY,
           https://www.postgresql.org/docs/current/sql-alterpolicy.html

Clients see other rows, or their writes are refused.

Instead of

    ALTER POLICY p ON t USING (a > 0);

Write it when you have tried it with the application's role, on a copy:

    SET lock_timeout = '1s';
    SET statement_timeout = '5s';
    -- tried with the role app
    -- squawk-ignore ban-alter-policy-condition
    ALTER POLICY p ON t USING (a > 0);

It does not see a function in the condition that answers otherwise from now on.

Details

- Reported: `USING (...)` and `WITH CHECK (...)` of `ALTER POLICY`, each by
  itself.
- In PostgreSQL: ACCESS EXCLUSIVE on the table (ALTER POLICY; section 5.9).

    $ echo 'ALTER POLICY p ON t USING (a > 0);' | ./lavkheto check --only ban-alter-policy-condition
    warning[ban-alter-policy-condition]: changing a policy condition may change access for existing clients
     --> stdin:1:21
      |
    1 | ALTER POLICY p ON t USING (a > 0);
      |                     ^^^^^^^^^^^^^

    Found 1 issue in 1 of 1 file
";

/// `ban-alter-policy-roles`.
pub(crate) const BAN_ALTER_POLICY_ROLES: &str = "ban-alter-policy-roles

  default: off
  fix:     none
  lock:    ACCESS EXCLUSIVE on the table, for a moment
  manual:  ALTER POLICY,
           https://www.postgresql.org/docs/current/sql-alterpolicy.html

A role that a policy no longer names may see no row.

Instead of

    ALTER POLICY p ON t TO app, CURRENT_USER;

Write first both the old and the new roles, and the new ones alone when no
client uses the old ones:

    SET lock_timeout = '1s';
    SET statement_timeout = '5s';
    -- old_app stays until release 42
    -- squawk-ignore ban-alter-policy-roles
    ALTER POLICY p ON t TO old_app, app;

It does not see who is a member of which role.

Details

- Reported: `TO role, ...` of `ALTER POLICY`.
- Not reported: `RENAME TO`, which `renaming-object` reports.
- In PostgreSQL: ACCESS EXCLUSIVE on the table (ALTER POLICY; section 5.9).

    $ echo 'ALTER POLICY p ON t TO app, CURRENT_USER;' | ./lavkheto check --only ban-alter-policy-roles
    warning[ban-alter-policy-roles]: changing policy roles may change access for existing clients
     --> stdin:1:21
      |
    1 | ALTER POLICY p ON t TO app, CURRENT_USER;
      |                     ^^^^^^^^^^^^^^^^^^^^

    Found 1 issue in 1 of 1 file
";

/// `ban-alter-row-level-security`.
pub(crate) const BAN_ALTER_ROW_LEVEL_SECURITY: &str = "ban-alter-row-level-security

  default: off
  fix:     none
  lock:    ACCESS EXCLUSIVE, for a moment
  manual:  Row Security Policies,
           https://www.postgresql.org/docs/current/ddl-rowsecurity.html

Once it is on, a table without a policy shows no rows, except to its owner, to
superusers and to roles with `BYPASSRLS`. Once it is off, every row is shown;
`FORCE` puts the owner under the policies too, which is often the role of the
application.

Instead of

    ALTER TABLE t ENABLE ROW LEVEL SECURITY;

Write the policies first, in the same transaction at the latest:

    BEGIN;
    SET LOCAL lock_timeout = '1s';
    SET LOCAL statement_timeout = '5s';
    CREATE POLICY p ON t TO app USING (a < 100);
    -- squawk-ignore ban-alter-row-level-security
    ALTER TABLE t ENABLE ROW LEVEL SECURITY;
    COMMIT;

It does not see which policies the table has, and views that read it as their
owner.

Details

- Reported: `ENABLE`, `DISABLE`, `FORCE` and `NO FORCE ROW LEVEL SECURITY` of
  `ALTER TABLE`.
- In PostgreSQL: ACCESS EXCLUSIVE, for a moment (ALTER TABLE, \"DISABLE/ENABLE
  ROW LEVEL SECURITY\"; section 5.9).

    $ echo 'ALTER TABLE t ENABLE ROW LEVEL SECURITY;' | ./lavkheto check --only ban-alter-row-level-security
    warning[ban-alter-row-level-security]: changing row level security may change access for existing clients
     --> stdin:1:15
      |
    1 | ALTER TABLE t ENABLE ROW LEVEL SECURITY;
      |               ^^^^^^^^^^^^^^^^^^^^^^^^^

    Found 1 issue in 1 of 1 file
";

/// `ban-alter-role-options`.
pub(crate) const BAN_ALTER_ROLE_OPTIONS: &str = "ban-alter-role-options

  default: off
  fix:     none
  lock:    none on tables
  manual:  ALTER ROLE,
           https://www.postgresql.org/docs/current/sql-alterrole.html

Clients cannot log in, or may do less than before. A setting changes how their
statements run.

Instead of

    ALTER ROLE r NOLOGIN CREATEDB;

Write a second role with the new options, and move the clients to it:

    SET lock_timeout = '1s';
    SET statement_timeout = '5s';
    CREATE ROLE r2 LOGIN CREATEDB;

It does not see settings that a database or the server has for the role.

Details

- Reported: of `ALTER ROLE` and `ALTER USER`: attributes such as `NOLOGIN`,
  `PASSWORD`, `CONNECTION LIMIT` or `SUPERUSER`, with or without `WITH`; and
  `SET` and `RESET` of a setting, with or without `IN DATABASE`.
- Not reported: `RENAME TO` (`renaming-object`); `CREATE ROLE`; `ALTER GROUP
  ... ADD USER`.
- In PostgreSQL: a setting takes effect at the next login, so that sessions
  differ for a while (ALTER ROLE).

    $ echo 'ALTER ROLE r NOLOGIN CREATEDB;' | ./lavkheto check --only ban-alter-role-options
    warning[ban-alter-role-options]: changing role options may change access for existing clients
     --> stdin:1:14
      |
    1 | ALTER ROLE r NOLOGIN CREATEDB;
      |              ^^^^^^^^^^^^^^^^

    Found 1 issue in 1 of 1 file
";
