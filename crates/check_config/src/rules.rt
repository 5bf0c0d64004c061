//! Lists of rules and hazards.
ghost use Rattle.std.specs.Prelude.{◌≡◌, IfErr, IfOk, Ok, find, is_some, option_map};
ghost use Rattle.lint_report.specs.Codes.{code_named};
ghost use Rattle.toml.specs.View.{table_view};
ghost use Rattle.check_config.specs.Config as spec;
ghost use Rattle.check_config.specs.Readings.{IsRefused};

use crate::fault::{ConfigError, ConfigFault};
use crate::texts::texts_at;
use lint_report::{Text, code_named};
use squawk_run::Words;
use std::alloc::Global;
use toml::Table;

// Whether a text names neither a rule nor a hazard.
fn is_unknown_rule(name: &str) -> bool
    ensures { result ≡ spec.is_unknown_rule name.now }
{
    code_named(name).is_none()
}

// The first text that names neither.
fn unknown_rule(names: &Words) -> Option<&str>
    ensures { option_map (λ name. name.now) result ≡ find spec.is_unknown_rule names.now }
{
    for i in 0..names.len() {
        let name = names.get(i);
        if is_unknown_rule(name) {
            return Some(name);
        }
    }
    None
}

// The error of a text that names neither.
fn unknown_error(alloc: Global, name: &str) -> ConfigError
    ensures { spec.IsUnknownRule name.now result }
{
    match String::from_str(alloc, name) {
        Ok(name) => ConfigError::Refused(ConfigFault::UnknownRule(Text::made(name))),
        Err(_) => ConfigError::NoMemory,
    }
}

// Texts that name rules and hazards.
fn known_rules(alloc: Global, names: Words) -> Result<Words, ConfigError>
    ensures taken { IfOk result (λ rules. spec.known_rules names ≡ Ok rules) }
    ensures refused { IfErr result (IsRefused (spec.known_rules names)) }
{
    match unknown_rule(&names) {
        Some(name) => Err(unknown_error(alloc, name)),
        None => Ok(names),
    }
}

/// The names of rules and hazards at a key, none where the key is not there.
pub(crate) fn rules_at(
    alloc: Global,
    table: &Table,
    key: &'static str,
) -> Result<Words, ConfigError>
    ensures taken { IfOk result (λ rules. spec.rules_at key.entry.now (table_view table.now) ≡ Ok rules) }
    ensures refused { IfErr result (IsRefused (spec.rules_at key.entry.now (table_view table.now))) }
{
    match texts_at(alloc, table, key) {
        Ok(names) => known_rules(alloc, names),
        Err(error) => Err(error),
    }
}
