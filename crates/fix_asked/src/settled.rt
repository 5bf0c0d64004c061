//! The linter that the words and the configuration choose.
ghost use Rattle.std.specs.Prelude.{◌≡◌, ◌≤◌, IfErr, IfOk};
ghost use Rattle.config_file.specs.devices.Contents.{KeepsContents};
ghost use Rattle.fix_asked.specs.Settled as spec;
ghost use Rattle.fix_asked.specs.Settled.{IsChosenBy, IsSettled, IsUnchosen, IsUnsettled};

use crate::failure::{Failure, failure_of};
use config_file::{Config, FileStore, NoMemory, Stop, Words, linter_words, load_config};
use fix_run::{CodeChoices, Fault, Request, fault_line, read_code_choices};
use std::alloc::Global;

/// What the words and the configuration choose. Hazards have no fixes.
#[derive(Drop)]
pub(crate) struct Settled {
    /// The rules and the settings.
    pub(crate) choices: CodeChoices,
    /// The configuration.
    pub(crate) config: Config,
}

/// The failure of words that are refused.
pub(crate) fn refused(alloc: Global, fault: &Fault) -> Failure
    ensures { spec.IsLineOf fault.now result }
{
    match fault_line(alloc, fault) {
        Ok(line) => Failure::Words(line),
        Err(NoMemory) => Failure::Stop(Stop::NoMemory),
    }
}

// What words choose, or why they are refused.
#[tactic(auto, using(crate::proofs::Settling::words_refused))]
fn chosen_by(alloc: Global, words: Words) -> Result<CodeChoices, Failure>
    ensures chosen { IfOk result (spec.AreChoicesOf words) }
    ensures unchosen { IfErr result (spec.AreRefused words) }
{
    match read_code_choices(alloc, &words) {
        Ok(Some(choices)) => Ok(choices),
        Ok(None) => Err(refused(alloc, &Fault::Linter(words))),
        Err(NoMemory) => Err(Failure::Stop(Stop::NoMemory)),
    }
}

// What the words of the line and the configuration choose together.
fn chosen(alloc: Global, config: &Config, line: &Words) -> Result<CodeChoices, Failure>
    ensures chosen { IfOk result (IsChosenBy config.now line.now) }
    ensures unchosen { IfErr result (IsUnchosen config.now line.now) }
{
    match linter_words(alloc, config, line) {
        Ok(words) => chosen_by(alloc, words),
        Err(NoMemory) => Err(Failure::Stop(Stop::NoMemory)),
    }
}

/// What the words of a request and the configuration choose.
#[tactic(auto, using(crate::proofs::Settling::not_loaded, crate::proofs::Settling::not_chosen))]
pub(crate) fn settle<F: FileStore>(
    alloc: Global,
    request: &Request,
    files: &mut F,
) -> Result<Settled, Failure>
    ensures settled { IfOk result (IsSettled (F.content files.old) request.now) }
    ensures unsettled { IfErr result (IsUnsettled (F.content files.old) (F.faults files.old) (F.faults files.new) request.now) }
    ensures kept { KeepsContents (F.content files.old) (F.content files.new) }
    ensures later { F.faults files.old ≤ F.faults files.new }
{
    let config = match load_config(alloc, files, &request.config) {
        Ok(config) => config,
        Err(error) => return Err(failure_of(error)),
    };
    match chosen(alloc, &config, &request.linter) {
        Ok(choices) => Ok(Settled { choices, config }),
        Err(failure) => Err(failure),
    }
}
