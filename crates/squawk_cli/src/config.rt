//! The configuration that words name.
ghost use Rattle.std.specs.Prelude.{◌≡◌, ◌≤◌, ◌↔◌, IfOk, IfSome, IsSome};
ghost use Rattle.squawk_run.specs.squawk_words.Choices.{IsAccepted};
ghost use Rattle.squawk_cli.specs.Config.{config_by, config_of};

use squawk_linter::{Linter, NoMemory};
use squawk_run::{Choices, Words, read_choices};
use std::alloc::Global;

/// What the words of a command line ask for.
#[derive(Debug, Drop)]
pub struct Config {
    /// The linter, with its rules and settings.
    pub linter: Linter,
    /// Whether the work under locks is asked for too.
    pub locks: bool,
    /// How many groups of made statements are to be linted in place of an input, if any are.
    pub generate: Option<u32>,
}

/// The configuration that words name, or `None` exactly where the words are refused. Which words
/// there are, [`squawk_words::read_choices`] says.
///
/// The error comes when memory runs out.
pub fn read_words(alloc: Global, words: &Words) -> Result<Option<Config>, NoMemory>
    ensures value { IfOk result (λ config. config ≡ config_of words.now) }
    ensures accepted { IfOk result (λ config. IsSome config ↔ IsAccepted words.now) }
    ensures few { IfOk result (λ config. IfSome config (λ c. IfSome c.generate (λ n. n ≤ 100000))) }
{
    match read_choices(alloc, words)? {
        None => Ok(None),
        Some(choices) => Ok(Some(config_by(choices))),
    }
}

// The configuration by what words choose.
fn config_by(choices: Choices) -> Config
    ensures { result ≡ config_by choices }
{
    let Choices {
        rules,
        settings,
        locks,
        generate,
    } = choices;
    Config {
        linter: Linter { rules, settings },
        locks,
        generate,
    }
}
