//! The linter of a workspace.
ghost use Rattle.std.specs.Prelude.{◌≡◌, ◌≤◌, IfErr, IfOk, string_bytes};
ghost use Rattle.refused_word.specs.devices.Contents.{KeepsContents};
ghost use Rattle.server_command.specs.Workspace.{Enters, IsFirst, Refuses, WorkspaceShows};
ghost use Rattle.server_command.specs.Settled.{IsRefusedFor, IsSaidOf, IsSettled, IsText, IsUnchosen, folder_of};
ghost use Rattle.config_file.specs.check_config.Config.{empty};
ghost use Rattle.server_command.specs.Asked.{linter_words};

use crate::asked::linter_words;
use crate::outcome::Refusal;
use crate::settled::{alone, settled_in};
use lsp_linter::Linting;
use lsp_serve::{Checker, Enter, Report};
use refused_word::{FileStore, NoMemory, Text, Words, text_in};
use std::alloc::Global;

/// What finds the reports of a workspace: a linter that the words choose, and from the entry of the workspace on the configuration too.
#[derive(Drop)]
pub struct Workspace<F> {
    files: F,
    line: Words,
    linting: Linting,
}

// The folder of a root, with a slash at its end.
fn folder_of(alloc: Global, root: &Option<Text>) -> Result<String, NoMemory>
    ensures { IfOk result (λ folder. string_bytes folder ≡ folder_of root.now) }
{
    let mut folder = String::new(alloc);
    if let Some(root) = root {
        folder.push_str(root.as_str())?;
        folder.push_str("/")?;
    }
    Ok(folder)
}

// What finds reports in the workspace of a root, by the words of the line and its configuration, or why nothing is chosen there.
fn settled_at<F: FileStore>(
    alloc: Global,
    line: &Words,
    files: &mut F,
    root: &Option<Text>,
) -> Result<Result<Linting, Refusal>, NoMemory>
    ensures settled { IfOk result (λ found. IfOk found (IsSettled (F.content files.old) (folder_of root.now) line.now)) }
    ensures refused { IfOk result (λ found. IfErr found (IsRefusedFor (F.content files.old) (F.faults files.old) (F.faults files.new) (folder_of root.now) line.now)) }
    ensures kept { KeepsContents (F.content files.old) (F.content files.new) }
    ensures later { F.faults files.old ≤ F.faults files.new }
{
    let folder = folder_of(alloc, root)?;
    settled_in(alloc, line, files, folder.as_str())
}

// A text of these bytes, or words in place of it.
fn text_of(alloc: Global, bytes: &[u8]) -> Result<Text, NoMemory>
    ensures { IfOk result (IsText bytes.now) }
{
    match text_in(bytes) {
        Ok(text) => Ok(Text::made(String::from_str(alloc, text)?)),
        Err(_) => Ok(Text::fixed("error: the configuration is refused")),
    }
}

// What is said of a refusal: its line, without the line feed.
fn said_of(alloc: Global, refusal: &Refusal) -> Result<Text, NoMemory>
    ensures { IfOk result (IsSaidOf refusal.now) }
{
    let line = refusal.line();
    text_of(alloc, &line[..line.len().saturating_sub(1)])
}

impl<F: FileStore> Checker for Workspace<F> {
    ghost shows = { λ workspace text found. WorkspaceShows workspace text found };

    fn check(&mut self, alloc: Global, text: &str) -> Result<Vec<Report>, NoMemory> {
        self.linting.check(alloc, text)
    }
}

impl<F: FileStore> Enter for Workspace<F> {
    ghost enters = { Enters F.content F.faults };

    ghost refuses = { Refuses F.content F.faults };

    fn enter(&mut self, alloc: Global, root: &Option<Text>) -> Result<Option<Text>, NoMemory> {
        match settled_at(alloc, &self.line, &mut self.files, root)? {
            Ok(linting) => {
                self.linting = linting;
                Ok(None)
            }
            Err(refusal) => Ok(Some(said_of(alloc, &refusal)?)),
        }
    }
}

/// The linter of a workspace that is not entered, by the words after the first, but for `--stdio`, or the line about them where they are
/// refused.
pub(crate) fn first_linter<F: FileStore + Drop>(
    alloc: Global,
    words: &Words,
    files: F,
) -> Result<Result<Workspace<F>, Vec<u8>>, NoMemory>
    ensures first { IfOk result (λ found. IfOk found (IsFirst files (linter_words words.now))) }
    ensures unchosen { IfOk result (λ found. IfErr found (λ said. IsUnchosen empty (linter_words words.now) said.items)) }
{
    let line = linter_words(alloc, words)?;
    match alone(alloc, &line)? {
        Ok(linting) => Ok(Ok(Workspace {
            files,
            line,
            linting,
        })),
        Err(said) => Ok(Err(said)),
    }
}
