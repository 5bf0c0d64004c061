//! Sets of rules, by what is in them.
ghost use Rattle.std.specs.Prelude.{◌≡◌, ◌==◌, ◌||◌};
ghost use Rattle.lint_base.specs.declared.rule.Rule.{Rule};
ghost use Rattle.lint_base.specs.Rules.{number_of};
ghost use Rattle.lint_base.specs.RuleSets.{has};

use lint_base::{Rule, RuleSet};

/// A set and one more rule.
pub(crate) fn with_rule(set: RuleSet, rule: Rule) -> RuleSet
    ensures { (q : Rule) → has result q ≡ (has set q || number_of q == number_of rule) }
{
    let mut all = set;
    all.insert(rule);
    all
}
