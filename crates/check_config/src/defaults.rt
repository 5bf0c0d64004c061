//! Keys as default words.
ghost use Rattle.std.specs.Prelude.{◌≡◌, ◌<◌, ◌++◌, IfOk, OnOk, slice_get, string_bytes};
ghost use Rattle.std.specs.List.{join_with_byte};
ghost use Rattle.check_config.specs.Defaults as spec;

use crate::config::Config;
use lint_report::NoMemory;
use squawk_run::{Words, has_foreign_word};
use std::alloc::{AllocError, Global};

// A copy of words.
fn copied(alloc: Global, words: &Words) -> Result<Words, NoMemory>
    ensures { IfOk result (λ all. all ≡ words.now) }
{
    let mut all = Words::new(alloc);
    for i in 0..words.len() {
        all.push(words.get(i))?;
    }
    Ok(all)
}

// Names with commas between them.
fn joined(alloc: Global, names: &Words) -> Result<String, AllocError>
    ensures { IfOk result (λ text. string_bytes text ≡ join_with_byte 44 names.now) }
{
    if names.is_empty() {
        return Ok(String::new(alloc));
    }
    let mut text = String::from_str(alloc, names.get(0))?;
    for i in 1..names.len() {
        text.push_str(",")?;
        text.push_str(names.get(i))?;
    }
    Ok(text)
}

// The word of a name and a value.
fn valued(alloc: Global, name: &str, value: &str) -> Result<String, AllocError>
    ensures { IfOk result (λ word. string_bytes word ≡ spec.valued name.now value.now) }
{
    let mut word = String::from_str(alloc, "--")?;
    word.push_str(name)?;
    word.push_str("=")?;
    word.push_str(value)?;
    Ok(word)
}

// Adds the word of a list of rules, where there are some and the line does not choose them.
fn push_rules(
    alloc: Global,
    all: &mut Words,
    line: &Words,
    name: &str,
    rules: &Words,
) -> Result<(), NoMemory>
    ensures { OnOk result (all.new ≡ all.old ++ spec.rule_words line.now name.now rules.now) }
{
    if rules.is_empty() || has_foreign_word(line, &["only", name]) {
        return Ok(());
    }
    let list = joined(alloc, rules)?;
    let word = valued(alloc, name, list.as_str())?;
    all.push(word.as_str())
}

// Adds the word of a part of the version, where there is one.
fn push_part(
    alloc: Global,
    all: &mut Words,
    name: &str,
    parts: &Words,
    i: usize,
) -> Result<(), NoMemory>
    ensures { OnOk result (all.new ≡ all.old ++ spec.part_words name.now (slice_get parts.now i)) }
{
    if i >= parts.len() {
        return Ok(());
    }
    let word = valued(alloc, name, parts.get(i))?;
    all.push(word.as_str())
}

// Adds the words of the version, where the line has no part of one.
fn push_version(alloc: Global, all: &mut Words, line: &Words, parts: &Words) -> Result<(), NoMemory>
    ensures { OnOk result (all.new ≡ all.old ++ spec.version_words line.now parts.now) }
{
    if has_foreign_word(line, &["pg-major", "pg-minor", "pg-patch"]) {
        return Ok(());
    }
    push_part(alloc, all, "pg-major", parts, 0)?;
    push_part(alloc, all, "pg-minor", parts, 1)?;
    push_part(alloc, all, "pg-patch", parts, 2)
}

// Adds the word for a transaction that was begun before, where the line does not have it.
fn push_flag(all: &mut Words, line: &Words, is_assumed: bool) -> Result<(), NoMemory>
    ensures { OnOk result (all.new ≡ all.old ++ spec.flag_words line.now is_assumed) }
{
    if !is_assumed || has_foreign_word(line, &["assume-in-transaction"]) {
        return Ok(());
    }
    all.push("--assume-in-transaction")
}

/// The words that the linter is asked by: those of the line, and of each key that the line has no word for the word that means the same.
/// `--only` on the line silences both lists of rules, and one part of the version all of the configuration's. The error comes when memory
/// runs out.
pub fn linter_words(alloc: Global, config: &Config, line: &Words) -> Result<Words, NoMemory>
    ensures { IfOk result (λ all. all ≡ spec.linter_words config.now line.now) }
{
    let mut all = copied(alloc, line)?;
    push_rules(alloc, &mut all, line, "include", &config.included_rules)?;
    push_rules(alloc, &mut all, line, "exclude", &config.excluded_rules)?;
    push_version(alloc, &mut all, line, &config.pg_version)?;
    push_flag(&mut all, line, config.assume_in_transaction)?;
    Ok(all)
}
