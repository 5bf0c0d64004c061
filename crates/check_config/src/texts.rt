//! Values of a table, and lists of texts.
ghost use Rattle.std.specs.Prelude.{◌≡◌, IfErr, IfOk, Ok, option_map};
ghost use Rattle.toml.specs.Data.{get_member};
ghost use Rattle.toml.specs.View.{items_view, table_view, view};
ghost use Rattle.check_config.specs.Config as spec;
ghost use Rattle.check_config.specs.Readings.{IsRefused};

use crate::fault::{ConfigError, ConfigFault};
use lint_report::{NoMemory, Text};
use squawk_run::Words;
use std::alloc::Global;
use toml::{Table, Value};

/// The value of a key.
pub(crate) fn value_at<'a>(table: &'a Table, key: &str) -> Option<&'a Value>
    ensures { option_map (λ value. view value.now) result ≡ get_member key.now (table_view table.now) }
{
    table.get(key)
}

/// The error of a key whose value is none that it can have.
pub(crate) fn bad_value(key: &'static str) -> ConfigError
    ensures { result ≡ spec.bad_value key.entry.now }
{
    ConfigError::Refused(ConfigFault::BadValue(Text::fixed(key)))
}

// The texts of a list, if it has nothing else.
fn texts_of(alloc: Global, items: &[Value]) -> Result<Option<Words>, NoMemory>
    ensures { IfOk result (λ texts. texts ≡ spec.texts_of (items_view items.now)) }
{
    let mut texts = Words::new(alloc);
    for item in items {
        match item.as_str() {
            Some(text) => texts.push(text)?,
            None => return Ok(None),
        }
    }
    Ok(Some(texts))
}

// The texts of a value, if it is a list of texts.
fn text_list(alloc: Global, value: &Value) -> Result<Option<Words>, NoMemory>
    ensures { IfOk result (λ texts. texts ≡ spec.text_list (view value.now)) }
{
    match value.as_array() {
        Some(items) => texts_of(alloc, items.as_slice()),
        None => Ok(None),
    }
}

// The texts of the value that a key has, if it has one.
fn texts_by(alloc: Global, key: &'static str, value: Option<&Value>) -> Result<Words, ConfigError>
    ensures taken { IfOk result (λ texts. spec.texts_by key.entry.now (option_map (λ v. view v.now) value.entry) ≡ Ok texts) }
    ensures refused { IfErr result (IsRefused (spec.texts_by key.entry.now (option_map (λ v. view v.now) value.entry))) }
{
    let Some(value) = value else {
        return Ok(Words::new(alloc));
    };
    match text_list(alloc, value) {
        Ok(Some(texts)) => Ok(texts),
        Ok(None) => Err(bad_value(key)),
        Err(NoMemory) => Err(ConfigError::NoMemory),
    }
}

/// The texts at a key, none where the key is not there.
pub(crate) fn texts_at(
    alloc: Global,
    table: &Table,
    key: &'static str,
) -> Result<Words, ConfigError>
    ensures taken { IfOk result (λ texts. spec.texts_at key.entry.now (table_view table.now) ≡ Ok texts) }
    ensures refused { IfErr result (IsRefused (spec.texts_at key.entry.now (table_view table.now))) }
{
    texts_by(alloc, key, value_at(table, key))
}
