//! The linter, and the rules that it is made with.
ghost use Rattle.std.specs.Prelude.{◌≡◌, [], not};
ghost use Rattle.fix_edit.specs.lint_base.declared.rule.Rule.{Rule};
ghost use Rattle.fix_edit.specs.lint_base.RuleChoice.{is_chosen, is_named, rules_that};
ghost use Rattle.fix_edit.specs.lint_base.RuleSets.{default_rules, has};
ghost use Rattle.fix_edit.specs.lint_base.Rules.{is_opt_in};

use fix_edit::{LinterSettings, Rule, RuleSet};

/// A linter: the rules that are enabled, and its settings.
#[derive(Debug, Drop)]
pub struct Linter {
    /// The rules that are enabled.
    pub rules: RuleSet,
    /// Its settings.
    pub settings: LinterSettings,
}

impl Linter {
    /// A linter with the rules of the default set. It takes no memory.
    pub fn with_default_rules(settings: LinterSettings) -> Linter
        ensures value { result.rules ≡ default_rules }
        ensures rules { (r : Rule) → has result.rules r ≡ not (is_opt_in r) }
        ensures settings { result.settings ≡ settings }
    {
        Linter {
            rules: RuleSet::all_default(),
            settings,
        }
    }

    /// A linter with the rules of the default set, the rules of `include` and what they stand for,
    /// but not those of `exclude` and what they stand for, and with no alias. It takes no memory.
    pub fn with_rules(include: &[Rule], exclude: &[Rule], settings: LinterSettings) -> Linter
        ensures value { result.rules ≡ rules_that (is_chosen include.now exclude.now) }
        ensures rules { (r : Rule) → has result.rules r ≡ is_chosen include.now exclude.now r }
        ensures none { include.now ≡ [] → exclude.now ≡ [] → result.rules ≡ default_rules }
        ensures settings { result.settings ≡ settings }
    {
        Linter {
            rules: RuleSet::chosen(include, exclude),
            settings,
        }
    }

    /// A linter with these rules, aliases too, and what they stand for. It takes no memory.
    pub fn from(rules: &[Rule], settings: LinterSettings) -> Linter
        ensures value { result.rules ≡ rules_that (is_named rules.now) }
        ensures rules { (r : Rule) → has result.rules r ≡ is_named rules.now r }
        ensures settings { result.settings ≡ settings }
    {
        Linter {
            rules: RuleSet::named(rules),
            settings,
        }
    }
}
