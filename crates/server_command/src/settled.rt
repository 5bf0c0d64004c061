//! The linter that the words and the configuration of a folder choose.
ghost use Rattle.std.specs.Prelude.{◌≡◌, ◌≤◌, IfErr, IfOk};
ghost use Rattle.server_command.specs.Settled as spec;
ghost use Rattle.server_command.specs.Settled.{IsChosenAlone, IsChosenBy, IsRefusedFor, IsSettled, IsUnchosen};
ghost use Rattle.config_file.specs.check_config.Config.{empty};
ghost use Rattle.refused_word.specs.devices.Contents.{KeepsContents};

use crate::outcome::Refusal;
use config_file::{Config, LoadError, folder_config, linter_words};
use lsp_linter::{Linter, Linting, TextLinter};
use refused_word::{CodeChoices, FileStore, NoMemory, Words, read_code_choices, words_line};
use std::alloc::Global;

// What finds reports with what is chosen.
fn linting_by(chosen: CodeChoices) -> Linting
    ensures { result ≡ spec.linting_by chosen }
{
    let linter = Linter {
        rules: chosen.choices.rules,
        settings: chosen.choices.settings,
    };
    Linting {
        linter: TextLinter {
            linter,
            hazards: chosen.hazards,
        },
    }
}

// What the words of the line and the configuration choose together, or the line about them where they are refused.
fn chosen(
    alloc: Global,
    config: &Config,
    line: &Words,
) -> Result<Result<CodeChoices, Vec<u8>>, NoMemory>
    ensures chosen { IfOk result (λ found. IfOk found (IsChosenBy config.now line.now)) }
    ensures unchosen { IfOk result (λ found. IfErr found (λ said. IsUnchosen config.now line.now said.items)) }
{
    let words = linter_words(alloc, config, line)?;
    match read_code_choices(alloc, &words)? {
        Some(choices) => Ok(Ok(choices)),
        None => Ok(Err(words_line(alloc, &words)?)),
    }
}

/// What finds reports by the words of the line alone, or the line about them where they are refused.
pub(crate) fn alone(alloc: Global, line: &Words) -> Result<Result<Linting, Vec<u8>>, NoMemory>
    ensures chosen { IfOk result (λ found. IfOk found (IsChosenAlone line.now)) }
    ensures unchosen { IfOk result (λ found. IfErr found (λ said. IsUnchosen empty line.now said.items)) }
{
    let config = Config::empty(alloc);
    match chosen(alloc, &config, line)? {
        Ok(choices) => Ok(Ok(linting_by(choices))),
        Err(said) => Ok(Err(said)),
    }
}

/// What finds reports by the words of the line and the configuration that is found from a folder on, or why nothing is chosen there.
pub(crate) fn settled_in<F: FileStore>(
    alloc: Global,
    line: &Words,
    files: &mut F,
    folder: &str,
) -> Result<Result<Linting, Refusal>, NoMemory>
    ensures settled { IfOk result (λ found. IfOk found (IsSettled (F.content files.old) folder.now line.now)) }
    ensures refused { IfOk result (λ found. IfErr found (IsRefusedFor (F.content files.old) (F.faults files.old) (F.faults files.new) folder.now line.now)) }
    ensures kept { KeepsContents (F.content files.old) (F.content files.new) }
    ensures later { F.faults files.old ≤ F.faults files.new }
{
    let config = match folder_config(alloc, files, folder) {
        Ok(config) => config,
        Err(LoadError::Refused(line)) => return Ok(Err(Refusal::Config(line))),
        Err(LoadError::NoMemory) => return Err(NoMemory),
    };
    match chosen(alloc, &config, line)? {
        Ok(choices) => Ok(Ok(linting_by(choices))),
        Err(said) => Ok(Err(Refusal::Words(said))),
    }
}
