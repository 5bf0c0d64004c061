//! The rules that lists choose.
ghost use Rattle.std.specs.Prelude.{◌≡◌, [], fold, filter};
ghost use Rattle.lint_base.specs.declared.rule.Rule.{Rule};
ghost use Rattle.lint_base.specs.RuleChoice.{is_alias, is_chosen, is_named, rules_that, with_expansion, with_expansions};
ghost use Rattle.lint_base.specs.RuleSets.{default_rules, has, with_rule, without_rule};

use crate::rule::Rule;
use crate::rule_set::RuleSet;

impl RuleSet {
    /// The rules of the default set, the rules of `include` and what they stand for, but not those
    /// of `exclude` and what they stand for, and no alias.
    pub fn chosen(include: &[Rule], exclude: &[Rule]) -> RuleSet
        ensures value { result ≡ rules_that (is_chosen include.now exclude.now) }
        ensures rules { (r : Rule) → has result r ≡ is_chosen include.now exclude.now r }
        ensures none { include.now ≡ [] → exclude.now ≡ [] → result ≡ default_rules }
    {
        let mut rules = RuleSet::all_default();
        insert_all(&mut rules, include);
        remove_all(&mut rules, exclude);
        remove_aliases(&mut rules, &Rule::ALL);
        rules
    }

    /// These rules, aliases too, and what they stand for.
    pub fn named(rules: &[Rule]) -> RuleSet
        ensures value { result ≡ rules_that (is_named rules.now) }
        ensures rules { (r : Rule) → has result r ≡ is_named rules.now r }
    {
        let mut set = RuleSet::empty();
        insert_all(&mut set, rules);
        set
    }

    /// Puts a rule and what it stands for in.
    pub fn insert_with_expansion(&mut self, rule: Rule)
        ensures { self.new ≡ fold with_rule self.old (with_expansion rule) }
    {
        self.insert(rule);
        for other in rule.expands_to() {
            self.insert(*other);
        }
    }
}

// Puts the rules of a list and what they stand for into a set.
fn insert_all(set: &mut RuleSet, rules: &[Rule])
    ensures { set.new ≡ fold with_rule set.old (with_expansions rules.now) }
{
    for rule in rules {
        set.insert_with_expansion(*rule);
    }
}

// Takes the rules of a list and what they stand for out of a set.
fn remove_all(set: &mut RuleSet, rules: &[Rule])
    ensures { set.new ≡ fold without_rule set.old (with_expansions rules.now) }
{
    for rule in rules {
        remove(set, *rule);
    }
}

// Takes a rule and what it stands for out of a set.
fn remove(set: &mut RuleSet, rule: Rule)
    ensures { set.new ≡ fold without_rule set.old (with_expansion rule) }
{
    set.remove(rule);
    for other in rule.expands_to() {
        set.remove(*other);
    }
}

// Takes the aliases of a list out of a set.
fn remove_aliases(set: &mut RuleSet, rules: &[Rule])
    ensures { set.new ≡ fold without_rule set.old (filter is_alias rules.now) }
{
    for rule in rules {
        if !rule.expands_to().is_empty() {
            set.remove(*rule);
        }
    }
}
