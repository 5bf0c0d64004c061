//! Sets of rules.
ghost use Rattle.std.specs.Prelude.{◌≡◌, ◌≢◌, ◌&&◌, ◌||◌, false, true, filter, not};
ghost use Rattle.std.specs.List.{list_any};
ghost use Rattle.lint_base.specs.declared.rule.Rule.{Rule};
ghost use Rattle.lint_base.specs.RuleSets.{both_rules, default_rules, has, no_rules, rules_in, rules_of, with_rule, without_rule};
ghost use Rattle.lint_base.specs.Rules.{all_rules, is_opt_in};
ghost use Rattle.std.specs.Iterator.{YieldsFirst, item_count};

use crate::rule::{RULE_COUNT, Rule};
use std::marker::Model;

/// The bits of all rules.
const RULE_BITS: u128 = (1 << RULE_COUNT) - 1;

/// A set of rules.
#[derive(Clone, Copy, Debug, PartialEq, Eq)]
pub struct RuleSet {
    bits: u128,
}

impl Model for RuleSet {
    ghost use Rattle.lint_base.specs.RuleSets.{Rules};

    ghost Value = { Rules };

    ghost view = { λ set. record { bits = set.bits } };

    ghost inverse = { λ rules. record { bits = rules.bits } };
}

impl RuleSet {
    /// The set without a rule.
    pub fn empty() -> RuleSet
        ensures value { result ≡ no_rules }
        ensures none { (q : Rule) → has result q ≡ false }
    {
        RuleSet { bits: 0 }
    }

    /// The set of all rules that are not opt-in.
    #[tactic(auto, using(crate::proofs::RuleSets::has_default_rules), unfolding(crate::specs::Rules::all_rules))]
    pub fn all_default() -> RuleSet
        ensures value { result ≡ default_rules }
        ensures rules { (q : Rule) → has result q ≡ not (is_opt_in q) }
    {
        RuleSet::defaults_of(&Rule::ALL)
    }

    // The set of the rules in a list that are not opt-in.
    fn defaults_of(rules: &[Rule]) -> RuleSet
        ensures { result ≡ rules_in (filter (λ r. not (is_opt_in r)) rules.now) }
    {
        let mut set = RuleSet::empty();
        for rule in rules {
            if !rule.is_opt_in() {
                set.insert(*rule);
            }
        }
        set
    }

    /// Puts a rule in.
    pub fn insert(&mut self, r: Rule)
        ensures value { self.new ≡ with_rule self.old r }
        ensures inserted { has self.new r ≡ true }
        ensures others { (q : Rule) → q ≢ r → has self.new q ≡ has self.old q }
    {
        self.bits |= 1 << r.number();
    }

    /// Takes a rule out.
    pub fn remove(&mut self, r: Rule)
        ensures value { self.new ≡ without_rule self.old r }
        ensures removed { has self.new r ≡ false }
        ensures others { (q : Rule) → q ≢ r → has self.new q ≡ has self.old q }
    {
        self.bits &= !(1 << r.number());
    }

    /// The rules of both sets.
    pub fn union(self, other: RuleSet) -> RuleSet
        ensures value { result ≡ both_rules self other }
        ensures rules { (q : Rule) → has result q ≡ (has self q || has other q) }
    {
        RuleSet {
            bits: self.bits | other.bits,
        }
    }

    /// Whether some rule is in both sets.
    pub fn intersects(self, other: RuleSet) -> bool
        ensures { result ≡ list_any (λ r. has self r && has other r) all_rules }
    {
        self.bits & other.bits & RULE_BITS != 0
    }

    /// Whether a rule is in the set.
    #[tactic(auto, unfolding(crate::specs::RuleSets::has))]
    pub fn contains(&self, r: Rule) -> bool
        ensures { result ≡ has self.now r }
    {
        (self.bits >> r.number()) & 1 == 1
    }

    /// The rules in the set, in declaration order.
    pub fn iter(&self) -> RuleSetIter
        ensures { result ≡ rules_of self.now }
    {
        RuleSetIter {
            set: *self,
            next: 0,
        }
    }
}

/// The rules of a set that are left, in declaration order.
#[derive(Clone, Debug, Drop)]
pub struct RuleSetIter {
    set: RuleSet,
    next: usize,
}

impl Model for RuleSetIter {
    ghost use Rattle.std.specs.Prelude.{List};
    ghost use Rattle.lint_base.specs.declared.rule.Rule.{Rule};
    ghost use Rattle.lint_base.specs.RuleSets.{rules_from};

    ghost Value = { List Rule };

    ghost view = { λ iter. rules_from iter.set iter.next };
}

impl Iterator for RuleSetIter {
    type Item = Rule;

    ghost next_gives = { YieldsFirst (λ rules. rules) };

    ghost remaining = { item_count (λ rules. rules) };

    fn next(&mut self) -> Option<Rule> {
        while let Some(rule) = Rule::with_number(self.next) {
            self.next += 1;
            if self.set.contains(rule) {
                return Some(rule);
            }
        }
        None
    }
}
