//! The version of PostgreSQL.
ghost use Rattle.std.specs.Prelude.{◌≡◌, IfErr, IfOk, Ok, map, option_map};
ghost use Rattle.std.specs.Char.{is_ascii_digit};
ghost use Rattle.std.specs.List.{list_all, slice_split};
ghost use Rattle.toml.specs.View.{table_view, view};
ghost use Rattle.check_config.specs.Config as spec;
ghost use Rattle.check_config.specs.Readings.{IsRefused};

use crate::fault::ConfigError;
use crate::texts::{bad_value, value_at};
use lint_report::NoMemory;
use squawk_run::Words;
use std::alloc::{AllocError, Global};
use toml::{Table, Value};

// The most digits of a part of a version.
const MOST_DIGITS: usize = 9;

// The most parts of a version.
const MOST_PARTS: usize = 3;

// Whether each byte of a text is a digit.
fn has_digits_alone(text: &str) -> bool
    ensures { result ≡ list_all is_ascii_digit text.now }
{
    text.bytes().all(|b| b.is_ascii_digit())
}

// Whether a text is a part of a version.
fn is_part(text: &str) -> bool
    ensures { result ≡ spec.is_part text.now }
{
    !text.is_empty() && text.len() <= MOST_DIGITS && has_digits_alone(text)
}

// Whether each text is a part of a version.
fn are_parts(parts: &[&str]) -> bool
    ensures { result ≡ list_all (λ part. spec.is_part part.now) parts.now }
{
    parts.iter().all(|part| is_part(part))
}

// Whether texts are the parts of a version.
fn is_version(parts: &[&str]) -> bool
    ensures { result ≡ spec.is_version (map (λ part. part.now) parts.now) }
{
    parts.len() <= MOST_PARTS && are_parts(parts)
}

// What is between the dots of a text.
fn between_dots(alloc: Global, text: &str) -> Result<Vec<&str>, AllocError>
    ensures { IfOk result (λ parts. map (λ part. part.now) parts.items ≡ slice_split spec.is_dot text.now) }
{
    text.split('.').collect(alloc)
}

// Copies of texts.
fn copied(alloc: Global, texts: &[&str]) -> Result<Words, NoMemory>
    ensures { IfOk result (λ words. words ≡ map (λ text. text.now) texts.now) }
{
    let mut words = Words::new(alloc);
    for text in texts {
        words.push(text)?;
    }
    Ok(words)
}

// The parts of a version.
fn version_parts(alloc: Global, text: &str) -> Result<Option<Words>, NoMemory>
    ensures { IfOk result (λ parts. parts ≡ spec.version_parts text.now) }
{
    let parts = between_dots(alloc, text)?;
    if !is_version(parts.as_slice()) {
        return Ok(None);
    }
    Ok(Some(copied(alloc, parts.as_slice())?))
}

// The parts of the version that a value is.
fn version_of(alloc: Global, value: &Value) -> Result<Option<Words>, NoMemory>
    ensures { IfOk result (λ parts. parts ≡ spec.version_of (view value.now)) }
{
    match value.as_str() {
        Some(text) => version_parts(alloc, text),
        None => Ok(None),
    }
}

// The parts of the version that the key's value is, if it has one.
fn version_by(alloc: Global, value: Option<&Value>) -> Result<Words, ConfigError>
    ensures taken { IfOk result (λ parts. spec.version_by (option_map (λ v. view v.now) value.entry) ≡ Ok parts) }
    ensures refused { IfErr result (IsRefused (spec.version_by (option_map (λ v. view v.now) value.entry))) }
{
    let Some(value) = value else {
        return Ok(Words::new(alloc));
    };
    match version_of(alloc, value) {
        Ok(Some(parts)) => Ok(parts),
        Ok(None) => Err(bad_value("pg_version")),
        Err(NoMemory) => Err(ConfigError::NoMemory),
    }
}

/// The parts of the version that a table chooses, none where it chooses none.
pub(crate) fn version_at(alloc: Global, table: &Table) -> Result<Words, ConfigError>
    ensures taken { IfOk result (λ parts. spec.version_at (table_view table.now) ≡ Ok parts) }
    ensures refused { IfErr result (IsRefused (spec.version_at (table_view table.now))) }
{
    version_by(alloc, value_at(table, "pg_version"))
}

// Whether the key's value is true, if it has one.
fn flag_by(value: Option<&Value>) -> Result<bool, ConfigError>
    ensures taken { IfOk result (λ flag. spec.flag_by (option_map (λ v. view v.now) value.entry) ≡ Ok flag) }
    ensures refused { IfErr result (IsRefused (spec.flag_by (option_map (λ v. view v.now) value.entry))) }
{
    let Some(value) = value else {
        return Ok(false);
    };
    match value.as_bool() {
        Some(flag) => Ok(flag),
        None => Err(bad_value("assume_in_transaction")),
    }
}

/// Whether a table says that a migration runs in a transaction.
pub(crate) fn flag_at(table: &Table) -> Result<bool, ConfigError>
    ensures taken { IfOk result (λ flag. spec.flag_at (table_view table.now) ≡ Ok flag) }
    ensures refused { IfErr result (IsRefused (spec.flag_at (table_view table.now))) }
{
    flag_by(value_at(table, "assume_in_transaction"))
}
