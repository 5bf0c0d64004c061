//! Why a configuration is refused.
ghost use Rattle.std.specs.Prelude.{◌≡◌, ◌++◌, IfOk, string_bytes};
ghost use Rattle.check_config.specs.Faults.{message_of};

use lint_report::Text;
use std::alloc::{AllocError, Global};

/// Why a configuration is refused.
#[derive(Debug, Drop)]
pub enum ConfigFault {
    /// It is not TOML from this byte on, with what was expected there.
    NotToml(usize, Text),
    /// There is no such key.
    UnknownKey(Text),
    /// There is neither such a rule nor such a hazard.
    UnknownRule(Text),
    /// The value of this key is none that it can have.
    BadValue(Text),
}

/// Why no configuration was read.
#[derive(Debug, Drop)]
pub enum ConfigError {
    /// The text is refused.
    Refused(ConfigFault),
    /// Memory ran out.
    NoMemory,
}

// Two texts, one after the other.
fn joined(alloc: Global, front: &str, rest: &str) -> Result<String, AllocError>
    ensures { IfOk result (λ text. string_bytes text ≡ front.now ++ rest.now) }
{
    let mut text = String::from_str(alloc, front)?;
    text.push_str(rest)?;
    Ok(text)
}

impl ConfigFault {
    /// What is wrong with what, on one line, as `unknown key: exclude_rules`. The error comes when memory runs out.
    pub fn message(&self, alloc: Global) -> Result<String, AllocError>
        ensures { IfOk result (λ text. string_bytes text ≡ message_of self.now) }
    {
        match self {
            ConfigFault::NotToml(_, what) => joined(alloc, "not TOML: ", what.as_str()),
            ConfigFault::UnknownKey(key) => joined(alloc, "unknown key: ", key.as_str()),
            ConfigFault::UnknownRule(rule) => joined(alloc, "unknown rule: ", rule.as_str()),
            ConfigFault::BadValue(key) => joined(alloc, "bad value: ", key.as_str()),
        }
    }
}
