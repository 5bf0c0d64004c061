//! From a text to a configuration.
ghost use Rattle.std.specs.Prelude.{◌≡◌, IfErr, IfOk, Ok, option_map};
ghost use Rattle.toml.specs.View.{table_view};
ghost use Rattle.check_config.specs.Config as spec;
ghost use Rattle.check_config.specs.Readings.{IsReading, IsRefused, IsRefusedReading, IsTomlError};

use crate::config::Config;
use crate::fault::{ConfigError, ConfigFault};
use crate::rules::rules_at;
use crate::texts::texts_at;
use crate::version::{flag_at, version_at};
use lint_report::Text;
use std::alloc::Global;
use toml::Table;
use toml::de::Error;

// Whether a key is one of a configuration.
fn is_key(name: &str) -> bool
    ensures { result ≡ spec.is_key name.now }
{
    name == "excluded_rules"
        || name == "included_rules"
        || name == "excluded_paths"
        || name == "pg_version"
        || name == "assume_in_transaction"
}

// The first key, in order of bytes, that a configuration can't have.
fn unknown_key(table: &Table) -> Option<&str>
    ensures { option_map (λ key. key.now) result ≡ spec.unknown_key (table_view table.now) }
{
    for (key, _value) in table.iter() {
        if !is_key(key.as_str()) {
            return Some(key.as_str());
        }
    }
    None
}

// What the keys of a table say, if they are those of a configuration.
fn values_in(alloc: Global, table: &Table) -> Result<Config, ConfigError>
    ensures taken { IfOk result (λ config. spec.values_in (table_view table.now) ≡ Ok config) }
    ensures refused { IfErr result (IsRefused (spec.values_in (table_view table.now))) }
{
    let excluded_rules = rules_at(alloc, table, "excluded_rules")?;
    let included_rules = rules_at(alloc, table, "included_rules")?;
    let excluded_paths = texts_at(alloc, table, "excluded_paths")?;
    let pg_version = version_at(alloc, table)?;
    let assume_in_transaction = flag_at(table)?;
    Ok(Config {
        excluded_rules,
        included_rules,
        excluded_paths,
        pg_version,
        assume_in_transaction,
    })
}

// The error of a key that there isn't.
fn unknown_error(alloc: Global, key: &str) -> ConfigError
    ensures { spec.IsUnknownKey key.now result }
{
    match String::from_str(alloc, key) {
        Ok(key) => ConfigError::Refused(ConfigFault::UnknownKey(Text::made(key))),
        Err(_) => ConfigError::NoMemory,
    }
}

// What a table says.
fn config_in(alloc: Global, table: &Table) -> Result<Config, ConfigError>
    ensures taken { IfOk result (λ config. spec.config_in (table_view table.now) ≡ Ok config) }
    ensures refused { IfErr result (IsRefused (spec.config_in (table_view table.now))) }
{
    match unknown_key(table) {
        Some(key) => Err(unknown_error(alloc, key)),
        None => values_in(alloc, table),
    }
}

// The error of a text that is not TOML.
fn not_toml(alloc: Global, error: &Error) -> ConfigError
    ensures { IsTomlError error.now result }
{
    let Some(span) = error.span() else {
        return ConfigError::NoMemory;
    };
    match String::from_str(alloc, error.message()) {
        Ok(message) => {
            ConfigError::Refused(ConfigFault::NotToml(span.start, Text::made(message)))
        }
        Err(_) => ConfigError::NoMemory,
    }
}

/// Reads the text of a configuration: TOML with the keys `excluded_rules`, `included_rules` and `excluded_paths` (lists of texts),
/// `pg_version` (a text of one to three numbers with dots between them) and `assume_in_transaction` (true or false), none of which must be
/// there. The first fault is told in this order: the text is not TOML; a key is unknown, the first in order of its bytes; a value of the
/// keys in the order above is bad, or names neither a rule nor a hazard.
pub fn read_config(alloc: Global, text: &str) -> Result<Config, ConfigError>
    ensures taken { IfOk result (λ config. IsReading text.now (Ok config)) }
    ensures refused { IfErr result (IsRefusedReading text.now) }
{
    match toml::table_from_str(alloc, text) {
        Ok(table) => config_in(alloc, &table),
        Err(error) => Err(not_toml(alloc, &error)),
    }
}
