//! The configuration that a row of words names.

use case_format::{Fault, TextBuilder};
use squawk_cli::{Config, Rule, RuleSet, Words, read_words};
use std::alloc::Global;

fn count(rules: &RuleSet) -> usize {
    Rule::ALL
        .iter()
        .filter(|rule| rules.contains(**rule))
        .count()
}

/// How many rules and names there are and the version, then what else is asked for.
fn summary(alloc: Global, config: &Config) -> Result<String, Fault> {
    let settings = &config.linter.settings;
    let [major, minor, patch] = settings.pg_version;
    let mut row = TextBuilder::new(alloc);
    row.debug("", &count(&config.linter.rules));
    row.debug(" rules, ", &settings.non_volatile.len());
    row.debug(" names, ", &major);
    row.debug(".", &minor);
    row.debug(".", &patch);
    row.push_if(settings.assume_in_transaction, ", assumed");
    row.push_if(config.locks, ", locks");
    if let Some(seed) = config.generate {
        row.debug(", generate ", &seed);
    }
    row.finish()
}

/// The configuration that words with `|` between them name, or `refused`. Used by tests only; no contract.
pub(crate) fn configured(alloc: Global, row: &str) -> Result<String, Fault> {
    let mut words = Words::new(alloc);
    if !row.is_empty() {
        for word in row.split('|') {
            words.push(word)?;
        }
    }
    match read_words(alloc, &words)? {
        Some(config) => summary(alloc, &config),
        None => Ok(String::from_str(alloc, "refused")?),
    }
}
