//! The rules, and what is known of each.
ghost use Rattle.std.specs.Prelude.{◌≡◌, ◌<◌, Some, map, slice_get};
ghost use Rattle.lint_base.specs.RuleFacts.{facts};
ghost use Rattle.lint_base.specs.Rules.{all_rules, expansion_of, facts_of, is_opt_in, name_of, number_of, rule_count};

use Enabled::{AliasOf, ByDefault, ByName};
use std::fmt;

/// A rule, by which reports are named, enabled and ignored.
#[derive(Clone, Copy, Debug, PartialEq, Eq, Hash)]
pub enum Rule {
    /// `CREATE INDEX` without `CONCURRENTLY` blocks writes while the index is built.
    RequireConcurrentIndexCreation,
    /// `DROP INDEX` without `CONCURRENTLY` blocks reads and writes.
    RequireConcurrentIndexDeletion,
    /// A constraint added without `NOT VALID` scans the table under a lock.
    ConstraintMissingNotValid,
    /// A new column with a volatile default rewrites the table.
    AddingFieldWithDefault,
    /// A new foreign key scans the table and locks both tables.
    AddingForeignKeyConstraint,
    /// A change of a column's type may rewrite the table and break clients.
    ChangingColumnType,
    /// `SET NOT NULL` scans the table under a lock.
    AddingNotNullableField,
    /// A new primary key builds its index under a lock.
    AddingSerialPrimaryKeyField,
    /// A renamed column breaks clients that use the old name.
    RenamingColumn,
    /// A renamed table breaks clients that use the old name.
    RenamingTable,
    /// A new unique constraint builds its index under a lock.
    DisallowedUniqueConstraint,
    /// `DROP DATABASE`.
    BanDropDatabase,
    /// A 32-bit integer column may run out of numbers.
    PreferBigintOverInt,
    /// A 16-bit integer column may run out of numbers.
    PreferBigintOverSmallint,
    /// A serial column, where an identity column is easier to manage.
    PreferIdentity,
    /// `CLUSTER` and `VACUUM FULL`, where `REPACK` can work concurrently.
    PreferRepack,
    /// A statement that cannot be run again after a migration failed halfway.
    PreferRobustStmts,
    /// A `varchar` with a length, the change of which takes a lock.
    PreferTextField,
    /// A timestamp without a time zone.
    PreferTimestampTz,
    /// A `char` column, which pads its values with blanks.
    BanCharField,
    /// `DROP COLUMN`.
    BanDropColumn,
    /// `DROP TABLE`.
    BanDropTable,
    /// `DROP NOT NULL`.
    BanDropNotNull,
    /// A `BEGIN` inside a transaction, or a `COMMIT` outside one.
    TransactionNesting,
    /// A new column that is `NOT NULL` and has no default.
    AddingRequiredField,
    /// `CREATE INDEX CONCURRENTLY` inside a transaction.
    BanConcurrentIndexCreationInTransaction,
    /// An ignore comment with an unknown name, or one that covers nothing.
    UnusedIgnore,
    /// `CREATE DOMAIN` with a constraint.
    BanCreateDomainWithConstraint,
    /// `ALTER DOMAIN` that adds a constraint.
    BanAlterDomainWithAddConstraint,
    /// `TRUNCATE` with `CASCADE`, which empties referencing tables too.
    BanTruncateCascade,
    /// An alias of the two rules on timeouts.
    RequireTimeoutSettings,
    /// A transaction that the text leaves open.
    BanUncommittedTransaction,
    /// `ADD VALUE` without `BEFORE` or `AFTER`.
    RequireEnumValueOrdering,
    /// A table's name without its schema.
    RequireTableSchema,
    /// A name of more than 63 bytes, which PostgreSQL cuts.
    IdentifierTooLong,
    /// `DETACH PARTITION` without `CONCURRENTLY`.
    RequireConcurrentPartitionDetach,
    /// `REINDEX` without `CONCURRENTLY`.
    RequireConcurrentReindex,
    /// A slow statement before `lock_timeout` is set.
    RequireLockTimeout,
    /// A slow statement before `statement_timeout` is set.
    RequireStatementTimeout,
    /// A column that one list names twice.
    BanDuplicateColumnAssignments,
    /// `DROP VIEW`.
    BanDropView,
    /// `DROP FUNCTION` and its like.
    BanDropFunction,
    /// `DROP TYPE` and its like.
    BanDropType,
    /// `DROP DEFAULT`.
    BanDropDefault,
    /// `DROP TRIGGER`.
    BanDropTrigger,
    /// `DROP SCHEMA`.
    BanDropSchema,
    /// `DROP SEQUENCE`.
    BanDropSequence,
    /// `DROP DOMAIN`.
    BanDropDomain,
    /// `DROP CONSTRAINT`, and a constraint that is no longer enforced.
    BanDropConstraint,
    /// `DROP EXPRESSION`.
    BanDropGeneratedExpression,
    /// A renamed object that is neither a table nor a column: a foreign table, a view, an index, a role and others.
    RenamingObject,
    /// `SET SCHEMA`.
    BanSetSchema,
    /// A change of how an identity column gets its values.
    BanAlterIdentity,
    /// `DROP EXTENSION`.
    BanDropExtension,
    /// A change of a generated column's expression, or a generated column that is added.
    BanAlterGeneratedExpression,
    /// `DROP INDEX`.
    BanDropIndex,
    /// `SET DEFAULT`.
    BanSetDefault,
    /// A trigger or rule that is enabled or disabled, or a change of row security.
    BanDisableTrigger,
    /// A change of what is replicated.
    BanReplicaIdentity,
    /// `DROP POLICY` and `DROP RULE`.
    BanDropPolicy,
    /// `REVOKE`, and a new owner.
    BanRevoke,
    /// `CREATE OR REPLACE`.
    BanReplaceViewFunction,
    /// A change of a policy's condition.
    BanAlterPolicyCondition,
    /// A change of a policy's roles.
    BanAlterPolicyRoles,
    /// `CREATE POLICY`.
    BanCreatePolicy,
    /// A change of a function's options.
    BanAlterFunctionOptions,
    /// A change of a view's options.
    BanAlterViewOptions,
    /// A change of a role's options.
    BanAlterRoleOptions,
    /// A change of a database's options.
    BanAlterDatabaseOptions,
    /// A change of row level security.
    BanAlterRowLevelSecurity,
    /// A new restriction that may refuse clients' writes.
    BanNewWriteRestriction,
    /// `ADD VALUE`.
    BanAddEnumValue,
    /// `ADD ATTRIBUTE`.
    BanAddCompositeAttribute,
    /// `ADD COLUMN`.
    BanAddColumn,
    /// `NO INHERIT` and `DETACH PARTITION`.
    BanDetachInheritance,
    /// A change of the values that a sequence gives.
    BanAlterSequenceValues,
    /// `ALTER SYSTEM`.
    BanAlterSystemOptions,
    /// `ALTER EXTENSION` with `UPDATE` or `DROP`.
    BanAlterExtension,
}

/// How many rules there are.
pub(crate) const RULE_COUNT: usize = 78;

/// How a rule comes into a set of rules.
#[derive(Clone, Copy)]
enum Enabled {
    /// It is in the default set.
    ByDefault,
    /// Only its own name puts it in.
    ByName,
    /// It is another name for these rules, and only that name puts them in.
    AliasOf(&'static [Rule]),
}

/// What is known of a rule: its printed name, and how it is enabled.
type Facts = (&'static str, Enabled);

/// The facts of each rule, in declaration order.
static FACTS: [Facts; RULE_COUNT] = [
    ("require-concurrent-index-creation", ByDefault),
    ("require-concurrent-index-deletion", ByDefault),
    ("constraint-missing-not-valid", ByDefault),
    ("adding-field-with-default", ByDefault),
    ("adding-foreign-key-constraint", ByDefault),
    ("changing-column-type", ByDefault),
    ("adding-not-nullable-field", ByDefault),
    ("adding-serial-primary-key-field", ByDefault),
    ("renaming-column", ByDefault),
    ("renaming-table", ByDefault),
    ("disallowed-unique-constraint", ByDefault),
    ("ban-drop-database", ByDefault),
    ("prefer-bigint-over-int", ByDefault),
    ("prefer-bigint-over-smallint", ByDefault),
    ("prefer-identity", ByDefault),
    ("prefer-repack", ByDefault),
    ("prefer-robust-stmts", ByDefault),
    ("prefer-text-field", ByDefault),
    ("prefer-timestamp-tz", ByDefault),
    ("ban-char-field", ByDefault),
    ("ban-drop-column", ByDefault),
    ("ban-drop-table", ByDefault),
    ("ban-drop-not-null", ByDefault),
    ("transaction-nesting", ByDefault),
    ("adding-required-field", ByDefault),
    ("ban-concurrent-index-creation-in-transaction", ByDefault),
    ("unused-ignore", ByDefault),
    ("ban-create-domain-with-constraint", ByDefault),
    ("ban-alter-domain-with-add-constraint", ByDefault),
    ("ban-truncate-cascade", ByDefault),
    (
        "require-timeout-settings",
        AliasOf(&[Rule::RequireLockTimeout, Rule::RequireStatementTimeout]),
    ),
    ("ban-uncommitted-transaction", ByDefault),
    ("require-enum-value-ordering", ByDefault),
    ("require-table-schema", ByName),
    ("identifier-too-long", ByDefault),
    ("require-concurrent-partition-detach", ByDefault),
    ("require-concurrent-reindex", ByDefault),
    ("require-lock-timeout", ByDefault),
    ("require-statement-timeout", ByDefault),
    ("ban-duplicate-column-assignments", ByDefault),
    ("ban-drop-view", ByDefault),
    ("ban-drop-function", ByDefault),
    ("ban-drop-type", ByDefault),
    ("ban-drop-default", ByDefault),
    ("ban-drop-trigger", ByName),
    ("ban-drop-schema", ByDefault),
    ("ban-drop-sequence", ByDefault),
    ("ban-drop-domain", ByDefault),
    ("ban-drop-constraint", ByDefault),
    ("ban-drop-generated-expression", ByDefault),
    ("renaming-object", ByDefault),
    ("ban-set-schema", ByDefault),
    ("ban-alter-identity", ByDefault),
    ("ban-drop-extension", ByDefault),
    ("ban-alter-generated-expression", ByName),
    ("ban-drop-index", ByName),
    ("ban-set-default", ByName),
    ("ban-disable-trigger", ByName),
    ("ban-replica-identity", ByName),
    ("ban-drop-policy", ByName),
    ("ban-revoke", ByName),
    ("ban-replace-view-function", ByName),
    ("ban-alter-policy-condition", ByName),
    ("ban-alter-policy-roles", ByName),
    ("ban-create-policy", ByName),
    ("ban-alter-function-options", ByName),
    ("ban-alter-view-options", ByName),
    ("ban-alter-role-options", ByName),
    ("ban-alter-database-options", ByName),
    ("ban-alter-row-level-security", ByName),
    ("ban-new-write-restriction", ByName),
    ("ban-add-enum-value", ByName),
    ("ban-add-composite-attribute", ByName),
    ("ban-add-column", ByName),
    ("ban-detach-inheritance", ByName),
    ("ban-alter-sequence-values", ByName),
    ("ban-alter-system-options", ByName),
    ("ban-alter-extension", ByName),
];

// What is known of a rule.
fn facts_of(rule: Rule) -> &'static Facts
    ensures { facts result.now ≡ facts_of rule }
{
    facts_in(&FACTS, rule)
}

// What a table of all rules says of one.
fn facts_in(table: &'static [Facts], rule: Rule) -> &'static Facts
    requires { map facts table.now ≡ map facts_of all_rules }
    ensures { facts result.now ≡ facts_of rule }
{
    &table[rule.number()]
}

impl Rule {
    /// Every rule, in declaration order.
    pub const ALL: [Rule; RULE_COUNT] = [
        Rule::RequireConcurrentIndexCreation,
        Rule::RequireConcurrentIndexDeletion,
        Rule::ConstraintMissingNotValid,
        Rule::AddingFieldWithDefault,
        Rule::AddingForeignKeyConstraint,
        Rule::ChangingColumnType,
        Rule::AddingNotNullableField,
        Rule::AddingSerialPrimaryKeyField,
        Rule::RenamingColumn,
        Rule::RenamingTable,
        Rule::DisallowedUniqueConstraint,
        Rule::BanDropDatabase,
        Rule::PreferBigintOverInt,
        Rule::PreferBigintOverSmallint,
        Rule::PreferIdentity,
        Rule::PreferRepack,
        Rule::PreferRobustStmts,
        Rule::PreferTextField,
        Rule::PreferTimestampTz,
        Rule::BanCharField,
        Rule::BanDropColumn,
        Rule::BanDropTable,
        Rule::BanDropNotNull,
        Rule::TransactionNesting,
        Rule::AddingRequiredField,
        Rule::BanConcurrentIndexCreationInTransaction,
        Rule::UnusedIgnore,
        Rule::BanCreateDomainWithConstraint,
        Rule::BanAlterDomainWithAddConstraint,
        Rule::BanTruncateCascade,
        Rule::RequireTimeoutSettings,
        Rule::BanUncommittedTransaction,
        Rule::RequireEnumValueOrdering,
        Rule::RequireTableSchema,
        Rule::IdentifierTooLong,
        Rule::RequireConcurrentPartitionDetach,
        Rule::RequireConcurrentReindex,
        Rule::RequireLockTimeout,
        Rule::RequireStatementTimeout,
        Rule::BanDuplicateColumnAssignments,
        Rule::BanDropView,
        Rule::BanDropFunction,
        Rule::BanDropType,
        Rule::BanDropDefault,
        Rule::BanDropTrigger,
        Rule::BanDropSchema,
        Rule::BanDropSequence,
        Rule::BanDropDomain,
        Rule::BanDropConstraint,
        Rule::BanDropGeneratedExpression,
        Rule::RenamingObject,
        Rule::BanSetSchema,
        Rule::BanAlterIdentity,
        Rule::BanDropExtension,
        Rule::BanAlterGeneratedExpression,
        Rule::BanDropIndex,
        Rule::BanSetDefault,
        Rule::BanDisableTrigger,
        Rule::BanReplicaIdentity,
        Rule::BanDropPolicy,
        Rule::BanRevoke,
        Rule::BanReplaceViewFunction,
        Rule::BanAlterPolicyCondition,
        Rule::BanAlterPolicyRoles,
        Rule::BanCreatePolicy,
        Rule::BanAlterFunctionOptions,
        Rule::BanAlterViewOptions,
        Rule::BanAlterRoleOptions,
        Rule::BanAlterDatabaseOptions,
        Rule::BanAlterRowLevelSecurity,
        Rule::BanNewWriteRestriction,
        Rule::BanAddEnumValue,
        Rule::BanAddCompositeAttribute,
        Rule::BanAddColumn,
        Rule::BanDetachInheritance,
        Rule::BanAlterSequenceValues,
        Rule::BanAlterSystemOptions,
        Rule::BanAlterExtension,
    ];

    /// The rule's place in declaration order, from 0.
    pub(crate) fn number(self) -> usize
        ensures value { result ≡ number_of self }
        ensures place { slice_get all_rules result ≡ Some self }
        ensures within { result < rule_count }
    {
        self as usize
    }

    /// The rule at a place in declaration order, from 0, if there is one.
    #[tactic(auto, unfolding(crate::specs::Rules::all_rules))]
    pub(crate) fn with_number(number: usize) -> Option<Rule>
        ensures { result ≡ slice_get all_rules number }
    {
        rule_at(&Rule::ALL, number)
    }

    /// The printed name: the variant's words in lower case, joined by `-`.
    pub fn name(&self) -> &'static str
        ensures { result.now ≡ name_of self.now }
    {
        let (name, _) = facts_of(*self);
        name
    }

    /// Whether the rule is left out of the default set.
    pub fn is_opt_in(&self) -> bool
        ensures { result ≡ is_opt_in self.now }
    {
        let (_, enabled) = facts_of(*self);
        !matches!(enabled, ByDefault)
    }

    /// The rules that an alias expands to, in declaration order; empty for any other rule.
    pub fn expands_to(&self) -> &'static [Rule]
        ensures { result.now ≡ expansion_of self.now }
    {
        let (_, enabled) = facts_of(*self);
        match enabled {
            AliasOf(rules) => rules,
            ByDefault | ByName => &[],
        }
    }
}

impl fmt::Display for Rule {
    ghost use Rattle.std.specs.Prelude.{Some};
    ghost use Rattle.lint_base.specs.Rules.{name_of};

    ghost output = { λ rule. Some (name_of rule) };

    fn fmt<W: fmt::Write>(&self, f: &mut fmt::Formatter<W>) -> fmt::Result {
        fmt::Display::fmt(&self.name(), f)
    }
}

// The rule at an index, if there is one.
fn rule_at(rules: &[Rule], index: usize) -> Option<Rule>
    ensures { result ≡ slice_get rules.now index }
{
    rules.get(index).copied()
}
