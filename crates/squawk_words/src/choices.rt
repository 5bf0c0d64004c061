//! What words choose.
ghost use Rattle.std.specs.Prelude.{◌≡◌, ◌↔◌, IfOk, IsSome, Some, None, option_map};
ghost use Rattle.squawk_words.specs.Command.{said_by};
ghost use Rattle.squawk_words.specs.Choices.{IsAccepted, choices_by, choices_of, rules_by, said_of, version_by};

use crate::given::{Given, given_words};
use crate::values::{groups_by, names_by, number_or, rule_list, rules_or_none};
use crate::words::Words;
use lint_base::{LinterSettings, NoMemory, RuleSet};
use std::alloc::Global;

/// What the words of a command line choose.
#[derive(Debug, Drop)]
pub struct Choices {
    /// The rules that are enabled.
    pub rules: RuleSet,
    /// The linter's settings.
    pub settings: LinterSettings,
    /// Whether `--locks` is there: the work that the text does under locks is asked for too.
    pub locks: bool,
    /// How many groups of made statements `--generate` asks for, 0 to 100000, or `None` without it. Beside `--locks` there are
    /// none.
    pub generate: Option<u32>,
}

/// What words choose, or `None` exactly where the words are refused.
///
/// A word is one of these, each at most once and in any order. A value follows as the next word,
/// which does not begin with `-`, or after a `=`.
///
/// - `--only LIST`: exactly these rules, and what they stand for; not beside the next two.
/// - `--include LIST`, `--exclude LIST`: the rules of the default set, with and without these.
/// - `--non-volatile LIST`: functions that count as not volatile, beside the standard ones.
/// - `--assume-in-transaction`: the text is run inside a transaction that was begun before it.
/// - `--pg-major N`, `--pg-minor N`, `--pg-patch N`: the version of PostgreSQL, 15, 0 and 0 where a
///   word is left out. N is from 0 to 2147483647.
/// - `--locks`: the work that the text does under locks is listed too.
/// - `--generate N`: N groups of made statements are checked in place of a text; not beside `--locks`.
///   N is from 0 to 100000.
///
/// A LIST is split at commas, and no item is empty; N is one to ten digits. The error comes when
/// memory runs out.
pub fn read_choices(alloc: Global, words: &Words) -> Result<Option<Choices>, NoMemory>
    ensures value { IfOk result (λ choices. choices ≡ choices_of words.now) }
    ensures accepted { IfOk result (λ choices. IsSome choices ↔ IsAccepted words.now) }
{
    match read_given(alloc, words)? {
        None => Ok(None),
        Some(given) => choices_by(alloc, given),
    }
}

/// The values of words, not yet read, or `None` exactly where the words are refused whatever their values are. The error comes when memory
/// runs out.
pub fn read_given<'w>(alloc: Global, words: &'w Words) -> Result<Option<Given<'w>>, NoMemory>
    ensures { IfOk result (λ given. option_map said_by given ≡ said_of words.entry.now) }
{
    given_words(alloc, words.as_slice())
}

/// What values choose, or `None` exactly where one of them can't be read. The error comes when memory runs out.
pub fn choices_by(alloc: Global, given: Given<'_>) -> Result<Option<Choices>, NoMemory>
    ensures { IfOk result (λ choices. choices ≡ choices_by (said_by given.entry)) }
{
    let Some(pg_version) = version_by(given.pg_major, given.pg_minor, given.pg_patch) else {
        return Ok(None);
    };
    let Some(generate) = groups_by(given.locks, given.generate) else {
        return Ok(None);
    };
    let Some(non_volatile) = names_by(alloc, given.non_volatile)? else {
        return Ok(None);
    };
    let Some(rules) = rules_by(alloc, given.only, given.include, given.exclude)? else {
        return Ok(None);
    };
    let settings = LinterSettings {
        pg_version,
        assume_in_transaction: given.assume_in_transaction,
        non_volatile,
    };
    Ok(Some(Choices {
        rules,
        settings,
        locks: given.locks,
        generate,
    }))
}

// The version: major, minor, patch.
fn version_by(major: Option<&str>, minor: Option<&str>, patch: Option<&str>) -> Option<[i32; 3]>
    ensures { result ≡ version_by (option_map (λ s. s.now) major.entry) (option_map (λ s. s.now) minor.entry) (option_map (λ s. s.now) patch.entry) }
{
    let major = number_or(15, major)?;
    let minor = number_or(0, minor)?;
    let patch = number_or(0, patch)?;
    Some([major, minor, patch])
}

// The rules by the lists of rules, if each can be read and they may be given together.
fn rules_by(
    alloc: Global,
    only: Option<&str>,
    include: Option<&str>,
    exclude: Option<&str>,
) -> Result<Option<RuleSet>, NoMemory>
    ensures { IfOk result (λ rules. rules
        ≡ rules_by (option_map (λ s. s.now) only.entry) (option_map (λ s. s.now) include.entry) (option_map (λ s. s.now) exclude.entry)) }
{
    if let Some(only) = only {
        if include.is_some() || exclude.is_some() {
            return Ok(None);
        }
        return match rule_list(alloc, only)? {
            None => Ok(None),
            Some(rules) => Ok(Some(RuleSet::named(rules.as_slice()))),
        };
    }
    let Some(included) = rules_or_none(alloc, include)? else {
        return Ok(None);
    };
    let Some(excluded) = rules_or_none(alloc, exclude)? else {
        return Ok(None);
    };
    Ok(Some(RuleSet::chosen(included.as_slice(), excluded.as_slice())))
}
