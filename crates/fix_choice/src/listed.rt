//! The rules whose fixes are made.
ghost use Rattle.std.specs.Prelude.{◌≡◌};
ghost use Rattle.law_fix_steps.specs.Leaves as follow;
ghost use Rattle.law_fix_steps.specs.Listed as spec;

use fix_edit::Rule;

/// Whether the fixes of this rule are made: those that put CONCURRENTLY into a text, set a timeout or write another column type.
pub fn is_listed(rule: Rule) -> bool
    ensures { result ≡ spec.is_listed rule }
{
    matches!(
        rule,
        Rule::RequireConcurrentIndexCreation
            | Rule::RequireConcurrentIndexDeletion
            | Rule::RequireConcurrentPartitionDetach
            | Rule::RequireConcurrentReindex
            | Rule::RequireLockTimeout
            | Rule::RequireStatementTimeout
            | Rule::PreferBigintOverInt
            | Rule::PreferBigintOverSmallint
            | Rule::PreferTextField
            | Rule::PreferTimestampTz
    )
}

/// Whether the fixes of this rule are followed from one text to the next (`law_fix_steps`): those of the listed rules that neither
/// detach a partition nor set a timeout.
pub fn is_followed(rule: Rule) -> bool
    ensures { result ≡ follow.is_followed rule }
{
    matches!(
        rule,
        Rule::RequireConcurrentIndexCreation
            | Rule::RequireConcurrentIndexDeletion
            | Rule::RequireConcurrentReindex
            | Rule::PreferBigintOverInt
            | Rule::PreferBigintOverSmallint
            | Rule::PreferTextField
            | Rule::PreferTimestampTz
    )
}
