//! Rules by their names.
ghost use Rattle.std.specs.Prelude.{◌≡◌, ◌↔◌, ℕ, List, Contains, find};
ghost use Rattle.std.specs.Result.{result_ok};
ghost use Rattle.lint_base.specs.declared.rule.Rule.{Rule};
ghost use Rattle.lint_base.specs.RuleNames.{accepted_names, is_printed_name, rule_named, same_rule};
ghost use Rattle.lint_base.specs.Rules.{all_rules};

use crate::rule::Rule;
use crate::rule_slots::{SHORTEST_NAME, number_named};
use crate::text::Text;
use std::alloc::{AllocError, Global};
use std::marker::Model;
use thiserror::Error;

// The second spelling of the rule on timestamps.
const SECOND_SPELLING: &str = "prefer-timestamptz";

// Whether a text is a rule's printed name, and names it.
#[tactic(auto, unfolding(crate::specs::RuleNames::same_rule))]
fn is_printed_name(text: &str, rule: Rule) -> bool
    ensures { result ≡ is_printed_name text.now rule }
{
    rule != Rule::UnusedIgnore && rule.name() == text
}

// The rule that a text names.
#[tactic(auto, unfolding(crate::specs::RuleNames::rule_named))]
fn rule_named(text: &str) -> Option<Rule>
    ensures { result ≡ rule_named text.now }
{
    if text == SECOND_SPELLING {
        return Some(Rule::PreferTimestampTz);
    }
    rule_with_name(text)
}

// The rule of which a text is the printed name, and names it.
fn rule_with_name(text: &str) -> Option<Rule>
    ensures { result ≡ find (is_printed_name text.now) all_rules }
{
    if text.len() < SHORTEST_NAME {
        return None;
    }
    let rule = Rule::with_number(number_named(text.as_bytes()))?;
    if is_printed_name(text, rule) {
        Some(rule)
    } else {
        None
    }
}

/// A text names no rule.
#[derive(Clone, Copy, Debug, PartialEq, Eq, Error)]
#[error("unknown rule name")]
pub struct UnknownName;

impl TryFrom<&str> for Rule {
    ghost use Rattle.std.specs.Prelude.{◌≡◌, ◌↔◌, Contains, IfErr};
    ghost use Rattle.lint_base.specs.declared.rule.Rule.{Rule};
    ghost use Rattle.lint_base.specs.RuleNames.{NamesRule, accepted_names};

    type Error = UnknownName;

    ghost try_from_gives = { λ text r. NamesRule text.now r };

    /// The rule that a text names: its printed name, or the second spelling of one rule.
    ///
    /// The error comes exactly where the text names no rule; `unused-ignore` names none. It takes
    /// no memory.
    fn try_from(value: &str) -> Result<Rule, UnknownName> {
        rule_named(value).ok_or(UnknownName)
    }
}

/// A text that names no rule.
#[derive(Debug, Drop, PartialEq, Eq, Error)]
#[error("invalid rule name {name}")]
pub struct UnknownRuleName {
    name: Text,
}

impl Model for UnknownRuleName {
    ghost use Rattle.std.specs.Prelude.{List, ℕ};

    ghost Value = { List ℕ };

    ghost view = { λ unknown. unknown.name };

    ghost inverse = { λ bytes. record { name = bytes } };
}

impl UnknownRuleName {
    /// The text itself.
    pub fn as_str(&self) -> &str
        ensures { result.now ≡ self.now }
    {
        self.name.as_str()
    }
}

/// Why no rule was found by a name.
#[derive(Debug, Drop, PartialEq, Eq, Error)]
pub enum RuleNameError {
    /// The text names no rule.
    #[error(transparent)]
    Unknown(#[from] UnknownRuleName),
    /// There was no memory to keep a text that names no rule.
    #[error("out of memory")]
    NoMemory,
}

impl Rule {
    /// The rule that a text names, as [`Rule::try_from`] finds it; where there is none, the error
    /// keeps the text.
    ///
    /// `Unknown` and `NoMemory` both come only where the text names no rule: a name that is found
    /// takes no memory.
    pub fn from_str(alloc: Global, s: &str) -> Result<Rule, RuleNameError>
        ensures value { result_ok result ≡ rule_named s.now }
        ensures named { (q : Rule) → (result ≡ Ok q) ↔ Contains (accepted_names q) s.now }
        ensures unknown { (text : List ℕ) → result ≡ Err (RuleNameError.Unknown text) → text ≡ s.now }
    {
        match Rule::try_from(s) {
            Ok(rule) => Ok(rule),
            Err(UnknownName) => Err(unknown_rule_name(alloc, s)),
        }
    }
}

// The error for a text that names no rule.
fn unknown_rule_name(alloc: Global, s: &str) -> RuleNameError
    ensures { (text : List ℕ) → result ≡ RuleNameError.Unknown text → text ≡ s.now }
{
    match String::from_str(alloc, s) {
        Ok(text) => RuleNameError::Unknown(UnknownRuleName {
            name: Text::made(text),
        }),
        Err(AllocError) => RuleNameError::NoMemory,
    }
}
