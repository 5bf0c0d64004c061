//! Which rules a linter is made with.

use squawk_cli::{Linter, LinterSettings, Names, Rule, RuleSet};
use std::alloc::Global;
use std::test::Fail;

// What is included, what is excluded, and how many rules that gives.
const WITH_RULES: [(&[Rule], &[Rule], usize); 9] = [
    (&[], &[], 51),
    (
        &[Rule::RequireTimeoutSettings],
        &[Rule::RequireLockTimeout],
        50,
    ),
    (&[], &[Rule::RequireTimeoutSettings], 49),
    (&[Rule::RequireTimeoutSettings], &[], 51),
    (&[Rule::BanAddColumn], &[], 52),
    (&[Rule::BanAddColumn, Rule::BanAddColumn], &[], 52),
    (&[Rule::BanAddColumn], &[Rule::BanAddColumn], 51),
    (&[Rule::BanDropTable], &[], 51),
    (
        &[Rule::RequireTableSchema],
        &[Rule::BanDropTable, Rule::UnusedIgnore],
        50,
    ),
];

// Exactly which rules are asked for, and how many that gives.
const FROM: [(&[Rule], usize); 5] = [
    (&[], 0),
    (&[Rule::RequireTimeoutSettings], 3),
    (&[Rule::RequireTimeoutSettings, Rule::RequireLockTimeout], 3),
    (&[Rule::BanAddColumn], 1),
    (&Rule::ALL, Rule::ALL.len()),
];

fn settings(alloc: Global) -> LinterSettings {
    LinterSettings {
        pg_version: [15, 0, 0],
        assume_in_transaction: false,
        non_volatile: Names::new(alloc),
    }
}

// How many rules a set has.
fn count(rules: &RuleSet) -> usize {
    Rule::ALL
        .iter()
        .filter(|rule| rules.contains(**rule))
        .count()
}

#[test]
fn rules_are_included_and_excluded(rt: HostRuntime) -> Result<(), Fail> {
    for (include, exclude, rules) in &WITH_RULES {
        let linter = Linter::with_rules(include, exclude, settings(rt.alloc()));
        assert_eq!(rt; count(&linter.rules), *rules);
    }
    Ok(())
}

#[test]
fn rules_are_named(rt: HostRuntime) -> Result<(), Fail> {
    for (rules, number) in &FROM {
        let linter = Linter::from(rules, settings(rt.alloc()));
        assert_eq!(rt; count(&linter.rules), *number);
    }
    Ok(())
}

#[test]
fn an_excluded_rule_of_an_alias_is_out(rt: HostRuntime) -> Result<(), Fail> {
    let linter = Linter::with_rules(
        &[Rule::RequireTimeoutSettings],
        &[Rule::RequireLockTimeout],
        settings(rt.alloc()),
    );
    for rule in &Rule::ALL {
        let is_in = !rule.is_opt_in() && *rule != Rule::RequireLockTimeout;
        assert_eq!(rt; linter.rules.contains(*rule), is_in);
    }
    Ok(())
}

#[test]
fn the_alias_is_kept_by_name(rt: HostRuntime) -> Result<(), Fail> {
    let linter = Linter::from(&[Rule::RequireTimeoutSettings], settings(rt.alloc()));
    for rule in &Rule::ALL {
        let is_in = *rule == Rule::RequireTimeoutSettings
            || *rule == Rule::RequireLockTimeout
            || *rule == Rule::RequireStatementTimeout;
        assert_eq!(rt; linter.rules.contains(*rule), is_in);
    }
    Ok(())
}
