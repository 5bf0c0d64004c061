//! The values of the words, read by `clap`.
ghost use Rattle.std.specs.Prelude.{◌≡◌, IfOk, fold, map, option_map, string_bytes};
ghost use Rattle.std.specs.List.{list_all};
ghost use Rattle.clap.specs.Words.{app_of, found_of, with_rule};
ghost use Rattle.squawk_words.specs.Command.{IsGiven, app, flag_rule, is_tidy, option_rule, rule_names, said_by, version_names, with_name};
ghost use Rattle.squawk_words.specs.Choices.{said_of};

use clap::error::ErrorKind;
use clap::{Arg, ArgAction, ArgMatches, Command};
use lint_base::NoMemory;
use std::alloc::{AllocError, Global};

/// The values of words, not yet read: of each name that takes one the value that it is set to, and of each other whether it is there.
#[derive(Clone, Copy)]
pub struct Given<'w> {
    pub only: Option<&'w str>,
    pub include: Option<&'w str>,
    pub exclude: Option<&'w str>,
    pub non_volatile: Option<&'w str>,
    pub pg_major: Option<&'w str>,
    pub pg_minor: Option<&'w str>,
    pub pg_patch: Option<&'w str>,
    pub generate: Option<&'w str>,
    pub assume_in_transaction: bool,
    pub locks: bool,
}

/// The values of the words, or `None` exactly where the words are refused. The error comes when
/// memory runs out.
pub(crate) fn given_words<'w>(
    alloc: Global,
    words: &'w [String],
) -> Result<Option<Given<'w>>, NoMemory>
    ensures { IfOk result (λ given. option_map said_by given ≡ said_of (map string_bytes words.entry.now)) }
{
    if !all_tidy(words) {
        return Ok(None);
    }
    let command = command(alloc)?;
    match command.try_get_matches_from(words) {
        Ok(matches) => Ok(Some(given_of(&matches))),
        Err(error) => match error.kind() {
            ErrorKind::OutOfMemory => Err(NoMemory),
            _ => Ok(None),
        },
    }
}

// `clap` would take `--` at the end of the words, and `-` as a value: no word begins with `-` but
// those that have a name after `--`.
fn all_tidy(words: &[String]) -> bool
    ensures { result ≡ list_all (λ word. is_tidy (string_bytes word)) words.now }
{
    words.iter().all(|word| is_tidy(word.as_str()))
}

// Whether a word does not begin with `-`, or is `--` and at least one byte more.
fn is_tidy(word: &str) -> bool
    ensures { result ≡ is_tidy word.now }
{
    match word.as_bytes() {
        [] => true,
        [x] => *x != b'-',
        [x, _] => *x != b'-',
        [x, y, _, ..] => *x != b'-' || *y == b'-',
    }
}

// The command: the words that there are, and no other.
fn command<'w>(alloc: Global) -> Result<Command<'w>, AllocError>
    ensures { IfOk result (λ c. app_of c ≡ app) }
{
    let bare = Command::new(alloc, "squawk")
        .no_binary_name(true)
        .disable_help_flag(true);
    let with_rules = with_rule_names(bare, alloc)?;
    let with_non_volatile = with_option(with_rules, alloc, "non-volatile")?;
    let with_version = with_version_names(with_non_volatile, alloc)?;
    let with_generate = with_option(with_version, alloc, "generate")?;
    let with_assumed = with_flag(with_generate, alloc, "assume-in-transaction")?;
    with_flag(with_assumed, alloc, "locks")
}

// A command and the names whose values choose rules.
fn with_rule_names<'w>(command: Command<'w>, alloc: Global) -> Result<Command<'w>, AllocError>
    ensures { IfOk result (λ c. app_of c ≡ fold with_name (app_of command.entry) rule_names) }
{
    let with_only = with_option(command, alloc, "only")?;
    let with_include = with_option(with_only, alloc, "include")?;
    with_option(with_include, alloc, "exclude")
}

// A command and the names whose values are the parts of a version.
fn with_version_names<'w>(command: Command<'w>, alloc: Global) -> Result<Command<'w>, AllocError>
    ensures { IfOk result (λ c. app_of c ≡ fold with_name (app_of command.entry) version_names) }
{
    let with_major = with_option(command, alloc, "pg-major")?;
    let with_minor = with_option(with_major, alloc, "pg-minor")?;
    with_option(with_minor, alloc, "pg-patch")
}

// A command and one more name that takes a value.
fn with_option<'w>(
    command: Command<'w>,
    alloc: Global,
    name: &'w str,
) -> Result<Command<'w>, AllocError>
    ensures { IfOk result (λ c. app_of c ≡ with_rule (app_of command.entry) (option_rule name.entry.now)) }
{
    command.arg(Arg::new(alloc, name).long(name))
}

// A command and one more name that takes no value.
fn with_flag<'w>(
    command: Command<'w>,
    alloc: Global,
    name: &'w str,
) -> Result<Command<'w>, AllocError>
    ensures { IfOk result (λ c. app_of c ≡ with_rule (app_of command.entry) (flag_rule name.entry.now)) }
{
    command.arg(Arg::new(alloc, name).long(name).action(ArgAction::SetTrue))
}

// The values that were found.
fn given_of<'w>(matches: &ArgMatches<'w>) -> Given<'w>
    ensures { IsGiven (found_of matches.now) (said_by result) }
{
    Given {
        only: matches.get_str("only"),
        include: matches.get_str("include"),
        exclude: matches.get_str("exclude"),
        non_volatile: matches.get_str("non-volatile"),
        pg_major: matches.get_str("pg-major"),
        pg_minor: matches.get_str("pg-minor"),
        pg_patch: matches.get_str("pg-patch"),
        generate: matches.get_str("generate"),
        assume_in_transaction: matches.get_flag("assume-in-transaction"),
        locks: matches.get_flag("locks"),
    }
}
