//! The pages of rules and hazards. Written by tools/rule_pages.py.
ghost use Rattle.std.specs.Prelude.{◌≡◌};
ghost use Rattle.rule_pages.specs.Pages.{code_page_of, hazard_page_of, page_of};

use crate::{
    access_and_security, aliases, behavior_and_replication, columns_and_types,
    columns_and_types_more, constraints, drops, hazards, ignore_comments, indexes, names,
    renames_and_moves, settings_and_options, transactions_and_timeouts,
};
use lint_report::{Code, Hazard, Rule};

/// What docs/RULES.md says of a rule: plain text of lines that end with a line feed, of 79 columns but for code and addresses.
#[tactic(auto, unfolding(crate::specs::Pages::page_of))]
pub fn rule_page(rule: Rule) -> &'static str
    ensures { result.now ≡ page_of rule }
{
    match rule {
        Rule::RequireConcurrentIndexCreation => indexes::REQUIRE_CONCURRENT_INDEX_CREATION,
        Rule::RequireConcurrentIndexDeletion => indexes::REQUIRE_CONCURRENT_INDEX_DELETION,
        Rule::ConstraintMissingNotValid => constraints::CONSTRAINT_MISSING_NOT_VALID,
        Rule::AddingFieldWithDefault => columns_and_types::ADDING_FIELD_WITH_DEFAULT,
        Rule::AddingForeignKeyConstraint => constraints::ADDING_FOREIGN_KEY_CONSTRAINT,
        Rule::ChangingColumnType => columns_and_types::CHANGING_COLUMN_TYPE,
        Rule::AddingNotNullableField => constraints::ADDING_NOT_NULLABLE_FIELD,
        Rule::AddingSerialPrimaryKeyField => constraints::ADDING_SERIAL_PRIMARY_KEY_FIELD,
        Rule::RenamingColumn => renames_and_moves::RENAMING_COLUMN,
        Rule::RenamingTable => renames_and_moves::RENAMING_TABLE,
        Rule::DisallowedUniqueConstraint => constraints::DISALLOWED_UNIQUE_CONSTRAINT,
        Rule::BanDropDatabase => drops::BAN_DROP_DATABASE,
        Rule::PreferBigintOverInt => columns_and_types_more::PREFER_BIGINT_OVER_INT,
        Rule::PreferBigintOverSmallint => columns_and_types_more::PREFER_BIGINT_OVER_SMALLINT,
        Rule::PreferIdentity => columns_and_types_more::PREFER_IDENTITY,
        Rule::PreferRepack => transactions_and_timeouts::PREFER_REPACK,
        Rule::PreferRobustStmts => transactions_and_timeouts::PREFER_ROBUST_STMTS,
        Rule::PreferTextField => columns_and_types_more::PREFER_TEXT_FIELD,
        Rule::PreferTimestampTz => columns_and_types_more::PREFER_TIMESTAMP_TZ,
        Rule::BanCharField => columns_and_types_more::BAN_CHAR_FIELD,
        Rule::BanDropColumn => columns_and_types::BAN_DROP_COLUMN,
        Rule::BanDropTable => drops::BAN_DROP_TABLE,
        Rule::BanDropNotNull => constraints::BAN_DROP_NOT_NULL,
        Rule::TransactionNesting => transactions_and_timeouts::TRANSACTION_NESTING,
        Rule::AddingRequiredField => columns_and_types::ADDING_REQUIRED_FIELD,
        Rule::BanConcurrentIndexCreationInTransaction => {
            indexes::BAN_CONCURRENT_INDEX_CREATION_IN_TRANSACTION
        }
        Rule::UnusedIgnore => ignore_comments::UNUSED_IGNORE,
        Rule::BanCreateDomainWithConstraint => constraints::BAN_CREATE_DOMAIN_WITH_CONSTRAINT,
        Rule::BanAlterDomainWithAddConstraint => constraints::BAN_ALTER_DOMAIN_WITH_ADD_CONSTRAINT,
        Rule::BanTruncateCascade => drops::BAN_TRUNCATE_CASCADE,
        Rule::RequireTimeoutSettings => aliases::REQUIRE_TIMEOUT_SETTINGS,
        Rule::BanUncommittedTransaction => transactions_and_timeouts::BAN_UNCOMMITTED_TRANSACTION,
        Rule::RequireEnumValueOrdering => columns_and_types_more::REQUIRE_ENUM_VALUE_ORDERING,
        Rule::RequireTableSchema => names::REQUIRE_TABLE_SCHEMA,
        Rule::IdentifierTooLong => names::IDENTIFIER_TOO_LONG,
        Rule::RequireConcurrentPartitionDetach => drops::REQUIRE_CONCURRENT_PARTITION_DETACH,
        Rule::RequireConcurrentReindex => indexes::REQUIRE_CONCURRENT_REINDEX,
        Rule::RequireLockTimeout => transactions_and_timeouts::REQUIRE_LOCK_TIMEOUT,
        Rule::RequireStatementTimeout => transactions_and_timeouts::REQUIRE_STATEMENT_TIMEOUT,
        Rule::BanDuplicateColumnAssignments => names::BAN_DUPLICATE_COLUMN_ASSIGNMENTS,
        Rule::BanDropView => drops::BAN_DROP_VIEW,
        Rule::BanDropFunction => drops::BAN_DROP_FUNCTION,
        Rule::BanDropType => drops::BAN_DROP_TYPE,
        Rule::BanDropDefault => columns_and_types::BAN_DROP_DEFAULT,
        Rule::BanDropTrigger => drops::BAN_DROP_TRIGGER,
        Rule::BanDropSchema => drops::BAN_DROP_SCHEMA,
        Rule::BanDropSequence => drops::BAN_DROP_SEQUENCE,
        Rule::BanDropDomain => drops::BAN_DROP_DOMAIN,
        Rule::BanDropConstraint => constraints::BAN_DROP_CONSTRAINT,
        Rule::BanDropGeneratedExpression => columns_and_types::BAN_DROP_GENERATED_EXPRESSION,
        Rule::RenamingObject => renames_and_moves::RENAMING_OBJECT,
        Rule::BanSetSchema => renames_and_moves::BAN_SET_SCHEMA,
        Rule::BanAlterIdentity => columns_and_types::BAN_ALTER_IDENTITY,
        Rule::BanDropExtension => drops::BAN_DROP_EXTENSION,
        Rule::BanAlterGeneratedExpression => columns_and_types::BAN_ALTER_GENERATED_EXPRESSION,
        Rule::BanDropIndex => indexes::BAN_DROP_INDEX,
        Rule::BanSetDefault => columns_and_types::BAN_SET_DEFAULT,
        Rule::BanDisableTrigger => behavior_and_replication::BAN_DISABLE_TRIGGER,
        Rule::BanReplicaIdentity => behavior_and_replication::BAN_REPLICA_IDENTITY,
        Rule::BanDropPolicy => access_and_security::BAN_DROP_POLICY,
        Rule::BanRevoke => access_and_security::BAN_REVOKE,
        Rule::BanReplaceViewFunction => behavior_and_replication::BAN_REPLACE_VIEW_FUNCTION,
        Rule::BanAlterPolicyCondition => access_and_security::BAN_ALTER_POLICY_CONDITION,
        Rule::BanAlterPolicyRoles => access_and_security::BAN_ALTER_POLICY_ROLES,
        Rule::BanCreatePolicy => access_and_security::BAN_CREATE_POLICY,
        Rule::BanAlterFunctionOptions => settings_and_options::BAN_ALTER_FUNCTION_OPTIONS,
        Rule::BanAlterViewOptions => settings_and_options::BAN_ALTER_VIEW_OPTIONS,
        Rule::BanAlterRoleOptions => access_and_security::BAN_ALTER_ROLE_OPTIONS,
        Rule::BanAlterDatabaseOptions => settings_and_options::BAN_ALTER_DATABASE_OPTIONS,
        Rule::BanAlterRowLevelSecurity => access_and_security::BAN_ALTER_ROW_LEVEL_SECURITY,
        Rule::BanNewWriteRestriction => constraints::BAN_NEW_WRITE_RESTRICTION,
        Rule::BanAddEnumValue => columns_and_types_more::BAN_ADD_ENUM_VALUE,
        Rule::BanAddCompositeAttribute => columns_and_types_more::BAN_ADD_COMPOSITE_ATTRIBUTE,
        Rule::BanAddColumn => columns_and_types::BAN_ADD_COLUMN,
        Rule::BanDetachInheritance => drops::BAN_DETACH_INHERITANCE,
        Rule::BanAlterSequenceValues => settings_and_options::BAN_ALTER_SEQUENCE_VALUES,
        Rule::BanAlterSystemOptions => settings_and_options::BAN_ALTER_SYSTEM_OPTIONS,
        Rule::BanAlterExtension => settings_and_options::BAN_ALTER_EXTENSION,
    }
}

// The same of a hazard.
#[tactic(auto, unfolding(crate::specs::Pages::hazard_page_of))]
fn hazard_page(hazard: Hazard) -> &'static str
    ensures { result.now ≡ hazard_page_of hazard }
{
    match hazard {
        Hazard::StatementInTransaction => hazards::STATEMENT_IN_TRANSACTION,
        Hazard::TableRewrite => hazards::TABLE_REWRITE,
        Hazard::ColumnWithCheck => hazards::COLUMN_WITH_CHECK,
        Hazard::BuildUnderTimeout => hazards::BUILD_UNDER_TIMEOUT,
        Hazard::InvalidIndexKept => hazards::INVALID_INDEX_KEPT,
        Hazard::RefreshBlocksReads => hazards::REFRESH_BLOCKS_READS,
        Hazard::JsonColumn => hazards::JSON_COLUMN,
    }
}

/// What docs/RULES.md says of a rule or a hazard, as [`rule_page`] has it.
pub fn code_page(code: Code) -> &'static str
    ensures { result.now ≡ code_page_of code }
{
    match code {
        Code::Rule(rule) => rule_page(rule),
        Code::Hazard(hazard) => hazard_page(hazard),
    }
}
