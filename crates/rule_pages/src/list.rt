//! All rules and hazards. Written by tools/rule_pages.py.

/// All rules by group, and then all hazards, a line each: whether it is on by default, its fix and its lock.
pub const RULE_LIST: &str =
    "Rule                                          Default  Fix             Lock

Indexes
require-concurrent-index-creation             on       unsafe          SHARE, until the index is built
require-concurrent-index-deletion             on       unsafe          ACCESS EXCLUSIVE on the table, for a moment
require-concurrent-reindex                    on       unsafe          SHARE on the table and ACCESS EXCLUSIVE on each index, until they are rebuilt
ban-concurrent-index-creation-in-transaction  on       none            none, it fails
ban-drop-index                                off      none            ACCESS EXCLUSIVE on the table, for a moment; none that hurts with `CONCURRENTLY`

Constraints
constraint-missing-not-valid                  on       none            ACCESS EXCLUSIVE, until each row is checked; of a foreign key SHARE ROW EXCLUSIVE on both tables
adding-foreign-key-constraint                 on       none            SHARE ROW EXCLUSIVE on both tables, until each row is looked up
adding-serial-primary-key-field               on       none            ACCESS EXCLUSIVE, until the index is built
disallowed-unique-constraint                  on       none            ACCESS EXCLUSIVE, until the index is built
adding-not-nullable-field                     on       none            ACCESS EXCLUSIVE, until every row is read
ban-new-write-restriction                     off      none            that of the statement: ACCESS EXCLUSIVE for a moment, where it is `NOT VALID`
ban-drop-constraint                           on       none            ACCESS EXCLUSIVE, for a moment; of a foreign key on both tables
ban-drop-not-null                             on       none            ACCESS EXCLUSIVE, for a moment; of a domain none
ban-create-domain-with-constraint             on       none            none now
ban-alter-domain-with-add-constraint          on       none            SHARE on each table with a column of the domain, until every row is read

Columns and types
changing-column-type                          on       none            ACCESS EXCLUSIVE, mostly until the table and its indexes are written anew
adding-field-with-default                     on       none            ACCESS EXCLUSIVE, until the table and its indexes are written anew
adding-required-field                         on       none            ACCESS EXCLUSIVE, for a moment; on a table with rows it fails
ban-add-column                                off      none            ACCESS EXCLUSIVE, for a moment
ban-drop-column                               on       none            ACCESS EXCLUSIVE, for a moment
ban-drop-default                              on       none            ACCESS EXCLUSIVE, for a moment; of a domain none
ban-set-default                               off      none            ACCESS EXCLUSIVE, for a moment; of a domain none
ban-alter-identity                            on       none            ACCESS EXCLUSIVE, for a moment
ban-drop-generated-expression                 on       none            ACCESS EXCLUSIVE, for a moment
ban-alter-generated-expression                off      none            ACCESS EXCLUSIVE, until the table and its indexes are written anew
prefer-bigint-over-int                        on       unsafe          none now; a wider type rewrites the table one day
prefer-bigint-over-smallint                   on       unsafe          none now; a wider type rewrites the table one day
prefer-identity                               on       unsafe          none in a new table; in `ADD COLUMN` ACCESS EXCLUSIVE, until the table is written anew
prefer-text-field                             on       unsafe          none now; a longer limit takes ACCESS EXCLUSIVE for a moment, a shorter one until the table is written anew
prefer-timestamp-tz                           on       unsafe          none now; a later change rewrites the table, unless the session's TimeZone is UTC
ban-char-field                                on       unsafe          none now; a later change rewrites the table
require-enum-value-ordering                   on       template        none on tables
ban-add-enum-value                            off      none            none on tables
ban-add-composite-attribute                   off      none            ACCESS EXCLUSIVE on the type, for a moment

Drops
ban-drop-database                             on       none            none on tables; it needs a database without sessions
ban-drop-table                                on       none            ACCESS EXCLUSIVE on it and on each table that its foreign keys refer to, for a moment
ban-drop-view                                 on       none            ACCESS EXCLUSIVE on the view, for a moment
ban-drop-function                             on       none            none on tables
ban-drop-type                                 on       none            none on tables; with `CASCADE` ACCESS EXCLUSIVE on each table that loses a column or an index
ban-drop-trigger                              off      none            ACCESS EXCLUSIVE on the table, for a moment
ban-drop-schema                               on       none            none on an empty schema; with `CASCADE` ACCESS EXCLUSIVE on all tables in it
ban-drop-sequence                             on       none            ACCESS EXCLUSIVE on the sequence, for a moment
ban-drop-domain                               on       none            none on tables; with `CASCADE` ACCESS EXCLUSIVE on each table that loses a column
ban-drop-extension                            on       none            none on tables; with `CASCADE` ACCESS EXCLUSIVE on each table that loses a column or an index
ban-truncate-cascade                          on       none            ACCESS EXCLUSIVE on each of the tables, until the transaction ends
require-concurrent-partition-detach           on       unsafe          ACCESS EXCLUSIVE on the partitioned table, the partition and a default partition, for a moment
ban-detach-inheritance                        off      none            see `require-concurrent-partition-detach`; `NO INHERIT`: ACCESS EXCLUSIVE, for a moment

Renames and moves
renaming-column                               on       none            ACCESS EXCLUSIVE, for a moment
renaming-table                                on       none            ACCESS EXCLUSIVE, for a moment
renaming-object                               on       none            depends on the object: none on tables for a function, SHARE UPDATE EXCLUSIVE for an index, ACCESS EXCLUSIVE for a view
ban-set-schema                                on       none            ACCESS EXCLUSIVE, for a moment

Behavior and replication
ban-disable-trigger                           off      none            SHARE ROW EXCLUSIVE, for a moment; rules and row security: ACCESS EXCLUSIVE
ban-replica-identity                          off      none            ACCESS EXCLUSIVE, for a moment
ban-replace-view-function                     off      none            ACCESS EXCLUSIVE on a view, SHARE ROW EXCLUSIVE on a trigger's table, for a moment; a function: none

Access and security
ban-revoke                                    off      none            `OWNER TO`: ACCESS EXCLUSIVE, for a moment; `REVOKE`: none
ban-create-policy                             off      none            ACCESS EXCLUSIVE on the table, for a moment
ban-drop-policy                               off      none            ACCESS EXCLUSIVE on the table, for a moment
ban-alter-policy-condition                    off      none            ACCESS EXCLUSIVE on the table, for a moment
ban-alter-policy-roles                        off      none            ACCESS EXCLUSIVE on the table, for a moment
ban-alter-row-level-security                  off      none            ACCESS EXCLUSIVE, for a moment
ban-alter-role-options                        off      none            none on tables

Settings and options
ban-alter-function-options                    off      none            none on tables
ban-alter-view-options                        off      none            ACCESS EXCLUSIVE on the view, for a moment
ban-alter-database-options                    off      none            none on tables
ban-alter-system-options                      off      none            none on tables
ban-alter-extension                           off      none            depends on the update's script
ban-alter-sequence-values                     off      none            SHARE ROW EXCLUSIVE on the sequence: who asks for a number waits until the transaction ends

Transactions and timeouts
prefer-robust-stmts                           on       unsafe          none of its own
transaction-nesting                           on       none            none of its own
ban-uncommitted-transaction                   on       unsafe          all locks of the migration, until the session ends
require-lock-timeout                          on       unsafe          that of the statement, and the queue behind it
require-statement-timeout                     on       unsafe          that of the statement
prefer-repack                                 on       unsafe          ACCESS EXCLUSIVE, until the table and its indexes are written anew

Names
require-table-schema                          off      none            none of its own
identifier-too-long                           on       safe            none of its own
ban-duplicate-column-assignments              on       unsafe          none, it fails

Ignore comments
unused-ignore                                 on       none            none

require-timeout-settings                      alias    of `require-lock-timeout` and `require-statement-timeout`

Hazards
statement-in-transaction                      on       none            none, it fails
table-rewrite                                 on       none            ACCESS EXCLUSIVE, until the table and its indexes are written anew
column-with-check                             on       none            ACCESS EXCLUSIVE, until every row is read
build-under-timeout                           on       none            SHARE UPDATE EXCLUSIVE, until the build ends or is cancelled
invalid-index-kept                            on       none            none, nothing is built
refresh-blocks-reads                          on       none            ACCESS EXCLUSIVE on the view, until its query has run
json-column                                   on       none            ACCESS EXCLUSIVE, for a moment
";
