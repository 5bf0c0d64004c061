//! What is tested of rules and sets of rules.

use lint_track::{Rule, RuleNameError, RuleSet, UnknownName};
use std::alloc::{AllocError, Global};
use std::process::Abort;
use std::test::Fail;

// A rule is printed as its name, by which all but the one of unused names are found, and it is in the default set or opt-in.
fn is_known(rt: &impl Abort, alloc: Global, rule: Rule) -> Result<(), Fail> {
    let name = rule.name();
    let is_named = rule != Rule::UnusedIgnore;
    assert_eq!(rt; format!(in alloc; "{rule}")?.as_str(), name);
    assert!(rt; is_found(name, is_named.then_some(rule)), "at {name}");
    assert!(rt;
        RuleSet::all_default().contains(rule) != rule.is_opt_in(),
        "at {name}"
    );
    Ok(())
}

#[test]
fn each_rule(rt: HostRuntime) -> Result<(), Fail> {
    for rule in &Rule::ALL {
        is_known(&rt, rt.alloc(), *rule)?;
    }
    Ok(())
}

#[test]
fn the_default_set_has_51_rules(rt: HostRuntime) {
    let set = RuleSet::all_default();
    assert_eq!(rt;
        Rule::ALL.iter().filter(|rule| set.contains(**rule)).count(),
        51
    );
}

#[test]
fn the_alias_expands_to_two(rt: HostRuntime) {
    for rule in &Rule::ALL {
        let expansion: &[Rule] = match *rule {
            Rule::RequireTimeoutSettings => {
                &[Rule::RequireLockTimeout, Rule::RequireStatementTimeout]
            }
            _ => &[],
        };
        assert!(rt; rule.expands_to() == expansion);
    }
}

/// A text, and the rule that it names, printed, or what is printed of the error.
const NAMED: [(&str, &str); 6] = [
    ("prefer-timestamptz", "prefer-timestamp-tz"),
    ("prefer-timestamp-tz", "prefer-timestamp-tz"),
    (
        "Ban-drop-table",
        "Ban-drop-table: invalid rule name Ban-drop-table",
    ),
    (
        "ban-drop-table ",
        "ban-drop-table : invalid rule name ban-drop-table ",
    ),
    ("", ": invalid rule name "),
    (
        "unused-ignore",
        "unused-ignore: invalid rule name unused-ignore",
    ),
];

// The rule of a name, or the name that is kept with the error, and what is printed of it.
fn named(alloc: Global, name: &str) -> Result<String, AllocError> {
    match Rule::from_str(alloc, name) {
        Ok(rule) => format!(in alloc; "{rule}"),
        Err(RuleNameError::Unknown(unknown)) => {
            format!(in alloc; "{}: {unknown}", unknown.as_str())
        }
        Err(RuleNameError::NoMemory) => Err(AllocError),
    }
}

// Whether a text names this rule, or none, by the call that takes no memory.
fn is_found(text: &str, rule: Option<Rule>) -> bool {
    match (Rule::try_from(text), rule) {
        (Ok(found), Some(rule)) => found == rule,
        (Err(UnknownName), None) => true,
        _ => false,
    }
}

#[test]
fn names_of_rules(rt: HostRuntime) -> Result<(), Fail> {
    for (text, want) in &NAMED {
        assert_eq!(rt; named(rt.alloc(), text)?.as_str(), *want);
        let is_named = *want == "prefer-timestamp-tz";
        assert!(rt; is_found(text, is_named.then_some(Rule::PreferTimestampTz)));
    }
    Ok(())
}

// What is printed of a name that no rule has.
fn refused(alloc: Global, name: &str) -> Result<String, AllocError> {
    match Rule::from_str(alloc, name) {
        Ok(_) => Ok(String::new(alloc)),
        Err(e) => format!(in alloc; "{e}"),
    }
}

#[test]
fn errors_print_their_texts(rt: HostRuntime) -> Result<(), Fail> {
    let printed = format!(in rt.alloc(); "{UnknownName}, {}", RuleNameError::NoMemory)?;
    assert_eq!(rt; printed.as_str(), "unknown rule name, out of memory");
    let printed = refused(rt.alloc(), "unused-ignore")?;
    assert_eq!(rt; printed.as_str(), "invalid rule name unused-ignore");
    Ok(())
}

/// Three rules, in the order in which they are declared.
const IN_ORDER: [Rule; 3] = [
    Rule::RequireConcurrentIndexCreation,
    Rule::BanDropTable,
    Rule::BanAlterExtension,
];

#[test]
fn sets_hold_rules_in_order(rt: HostRuntime) {
    let mut set = RuleSet::empty();
    assert!(rt; set.iter().next().is_none());
    set.insert(Rule::BanAlterExtension);
    set.insert(Rule::RequireConcurrentIndexCreation);
    set.insert(Rule::BanDropTable);
    set.insert(Rule::BanDropTable);
    let mut rules = set.iter();
    for rule in &IN_ORDER {
        assert!(rt; rules.next() == Some(*rule));
    }
    assert!(rt; rules.next().is_none());
    set.remove(Rule::BanDropTable);
    set.remove(Rule::BanDropColumn);
    assert!(rt; !set.contains(Rule::BanDropTable) && set.contains(Rule::BanAlterExtension));
}
