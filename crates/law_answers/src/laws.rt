//! Each entry is in the table of its rule.

ghost use Rattle.pass_groups.specs.OwnTable.{group2_table, group3_table, group4_table, group5_table};
ghost use Rattle.law_answers.specs.Tables.{AllAreInTheirTables, EntriesAreInTheirTables, IsCoded};

use law_type_fixes::{
    BanUncommittedTransaction, PreferBigintOverInt, PreferBigintOverSmallint, PreferIdentity,
    PreferRepack, PreferTextField, PreferTimestamptz, RequireConcurrentIndexCreation,
    RequireConcurrentIndexDeletion, RequireConcurrentPartitionDetach, RequireConcurrentReindex,
    RequireEnumValueOrdering, RequireTimeoutSettings, StepPass, TransactionNesting,
};
use pass_groups::{
    BEFORE_CONSTRAINTS, BanAlterDomainWithAddConstraint, BanCreateDomainWithConstraint,
    BanDropFunction, BanDropType, BanDropView, BanDuplicateColumnAssignments, BanTruncateCascade,
    ConstraintMissingNotValid, DisallowUniqueConstraint, Group1, Group6, Group7, Group8,
    IdentifierTooLong, PreferRobustStmts, RenamingColumn, RenamingTable, RequireTableSchema,
};

/// Each entry of a pass is of one of its rules.
fn coded<P: StepPass>(_pass: &P)
    ensures { IsCoded (P.own _pass.now) (P.table _pass.now) }
{}

fn second_group()
    ensures { AllAreInTheirTables group2_table }
{
    coded(&BEFORE_CONSTRAINTS);
    coded(&ConstraintMissingNotValid);
    coded(&DisallowUniqueConstraint);
    coded(&PreferBigintOverInt);
    coded(&PreferBigintOverSmallint)
}

fn third_group()
    ensures { AllAreInTheirTables group3_table }
{
    coded(&PreferIdentity);
    coded(&PreferRepack);
    coded(&PreferRobustStmts);
    coded(&PreferTextField);
    coded(&PreferTimestamptz);
    coded(&RenamingColumn);
    coded(&RenamingTable);
    coded(&RequireConcurrentIndexCreation)
}

fn fourth_group()
    ensures { AllAreInTheirTables group4_table }
{
    coded(&RequireConcurrentIndexDeletion);
    coded(&BanCreateDomainWithConstraint);
    coded(&BanAlterDomainWithAddConstraint);
    coded(&TransactionNesting);
    coded(&BanTruncateCascade);
    coded(&RequireTimeoutSettings);
    coded(&BanUncommittedTransaction);
    coded(&RequireEnumValueOrdering)
}

fn fifth_group()
    ensures { AllAreInTheirTables group5_table }
{
    coded(&RequireTableSchema);
    coded(&IdentifierTooLong);
    coded(&RequireConcurrentPartitionDetach);
    coded(&RequireConcurrentReindex);
    coded(&BanDuplicateColumnAssignments);
    coded(&BanDropView);
    coded(&BanDropFunction);
    coded(&BanDropType)
}

/// An entry of all passes is in the table of its rule's pass, if it is of one of the ten rules whose fixes are known to
/// mend a text.
pub fn entries_are_in_their_tables()
    ensures { EntriesAreInTheirTables }
{
    coded(&Group1);
    second_group();
    third_group();
    fourth_group();
    fifth_group();
    coded(&Group6);
    coded(&Group7);
    coded(&Group8)
}
