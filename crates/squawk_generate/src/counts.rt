//! How many reports each rule has.
ghost use Rattle.std.specs.Prelude.{◌≡◌, ◌<◌, ℕ, slice_index};
ghost use Rattle.lint_base.specs.declared.rule.Rule.{Rule};
ghost use Rattle.lint_base.specs.Rules.{number_of};
ghost use Rattle.squawk_generate.specs.Summary.{count_of};

use lint_base::{Rule, Violation};

/// How many rules there are.
const RULES: usize = Rule::ALL.len();

/// For each rule, at its place in declaration order, how many reports it has.
pub(crate) type Counts = [usize; RULES];

/// The rule's place in declaration order, from 0.
#[tactic(auto, using(crate::proofs::Counting::number_fits), unfolding(lint_base::specs::Rules::number_of))]
pub(crate) fn number(rule: Rule) -> usize
    ensures value { result ≡ number_of rule }
    ensures within { result < RULES }
{
    rule as usize
}

/// The counts of all rules, by one walk over the reports.
pub(crate) fn counts_of(violations: &[Violation]) -> Counts
    ensures { (rule : Rule) → slice_index result (number_of rule) ≡ count_of violations.now rule }
{
    let mut counts = [0; RULES];
    for violation in violations {
        counts[number(violation.code)] += 1;
    }
    counts
}
