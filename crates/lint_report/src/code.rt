//! What reports go by.
ghost use Rattle.std.specs.Prelude.{◌≡◌};
ghost use Rattle.lint_report.specs.Codes as spec;

use hazard_base::{Hazard, Rule, hazard_named};

/// What a report goes by. No text names both a rule and a hazard.
#[derive(Clone, Copy, Debug, PartialEq, Eq)]
pub enum Code {
    /// A rule of Squawk's.
    Rule(Rule),
    /// A hazard, of which Squawk knows nothing.
    Hazard(Hazard),
}

impl Code {
    /// The printed name.
    pub fn name(self) -> &'static str
        ensures { result.now ≡ spec.name_of self }
    {
        match self {
            Code::Rule(rule) => rule.name(),
            Code::Hazard(hazard) => hazard.name(),
        }
    }
}

/// What a text names: the rule that it names in options and comments, or else the hazard of which it is the printed name.
#[tactic(auto, unfolding(crate::specs::Codes::code_named))]
pub fn code_named(text: &str) -> Option<Code>
    ensures { result ≡ spec.code_named text.now }
{
    match Rule::try_from(text) {
        Ok(rule) => Some(Code::Rule(rule)),
        Err(_) => match hazard_named(text) {
            Some(hazard) => Some(Code::Hazard(hazard)),
            None => None,
        },
    }
}
