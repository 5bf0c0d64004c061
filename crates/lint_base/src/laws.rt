//! Laws of the definitions.

ghost use Rattle.std.specs.Prelude.{◌≡◌, List, length};
ghost use Rattle.lint_base.specs.declared.rule.Rule.{Rule};
ghost use Rattle.lint_base.specs.RuleSets.{IsOfRules, Rules, both_rules, has, no_rules, rules_in, with_rule, without_rule};
ghost use Rattle.lint_base.specs.Rules.{all_rules, rule_count};

/// Two sets with the same rules are equal, where both have bits for rules alone. The empty set and the set of a list do, and so does
/// what is made of such sets by putting a rule in, by taking one out and by joining two: each call of [`crate::RuleSet`] gives one
/// of these.
pub fn sets_are_their_rules()
    ensures same { (a b : Rules) → IsOfRules a → IsOfRules b → ((r : Rule) → has a r ≡ has b r) → a ≡ b }
    ensures none { IsOfRules no_rules }
    ensures listed { (rules : List Rule) → IsOfRules (rules_in rules) }
    ensures inserted { (set : Rules) (r : Rule) → IsOfRules set → IsOfRules (with_rule set r) }
    ensures removed { (set : Rules) (r : Rule) → IsOfRules set → IsOfRules (without_rule set r) }
    ensures joined { (a b : Rules) → IsOfRules a → IsOfRules b → IsOfRules (both_rules a b) }
    ensures all { length all_rules ≡ rule_count }
{}
