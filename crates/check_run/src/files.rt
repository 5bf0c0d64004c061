//! Files, one by one.
ghost use Rattle.std.specs.Prelude.{◌≡◌, [], ◌<◌, ◌≤◌, ◌^◌, ℕ, All, IfOk, List, None, length};
ghost use Rattle.std.specs.Str.{IsUtf8};
ghost use Rattle.checked_file.specs.Files.{linted_of};
ghost use Rattle.checked_file.specs.Sound.{IsSound};
ghost use Rattle.checked_file.specs.declared.checked.Linted.{Linted};
ghost use Rattle.sql_files.specs.devices.Contents.{KeepsContents};
ghost use Rattle.check_run.specs.Checks.{AreChecked, IsChecked, IsEmpty, IsUnreadBy};

use crate::lint::Lint;
use crate::progress::Progress;
use checked_file::{Answer, Checked, Linted, NoMemory, Refusal, Text};
use sql_files::{FileError, FileStore, Words};
use std::alloc::Global;

/// A file of a name, and what came of it. The error comes when memory runs out.
pub(crate) fn named(alloc: Global, name: &str, linted: Linted) -> Result<Checked, NoMemory>
    ensures name { IfOk result (λ file. file.name ≡ name.now) }
    ensures utf8 { IfOk result (λ file. IsUtf8 file.name) }
    ensures linted { IfOk result (λ file. linted_of file ≡ linted) }
{
    let name = Text::made(String::from_str(alloc, name)?);
    Ok(Checked {
        name,
        bytes: linted.bytes,
        passed: linted.passed,
        answer: linted.answer,
    })
}

/// What comes of a file of which nothing was read.
pub(crate) fn unread_by(alloc: Global, refusal: Refusal) -> Linted
    ensures answer { result.answer ≡ Answer.Refused refusal }
    ensures bytes { result.bytes.items ≡ [] }
    ensures passed { result.passed ≡ None }
{
    Linted {
        bytes: Vec::new(alloc),
        passed: None,
        answer: Answer::Refused(refusal),
    }
}

// A file of a name that was not read, by the error. The error `NoMemory` ends the run.
fn unread(alloc: Global, name: &str, error: FileError) -> Result<Checked, NoMemory>
    ensures name { IfOk result (λ file. file.name ≡ name.now) }
    ensures unread { IfOk result (λ file. IsUnreadBy error file.answer) }
    ensures empty { IfOk result IsEmpty }
    ensures sound { IfOk result IsSound }
{
    let refusal = match error {
        FileError::NoMemory => return Err(NoMemory),
        FileError::Missing => Refusal::Missing,
        FileError::Fault => Refusal::Unreadable,
        FileError::TooLong => Refusal::TooLong,
    };
    let file = named(alloc, name, unread_by(alloc, refusal))?;
    Ok(file)
}

/// What comes of the bytes of a file. The error comes when memory runs out.
pub(crate) fn answered<L: Lint>(
    alloc: Global,
    linter: &mut L,
    name: &str,
    bytes: Vec<u8>,
) -> Result<Checked, NoMemory>
    requires { length bytes.items < 2 ^ 32 }
    ensures name { IfOk result (λ file. file.name ≡ name.now) }
    ensures answer { IfOk result (λ file. L.answers linter.old bytes.items (linted_of file)) }
    ensures sound { IfOk result IsSound }
    ensures same { (bytes : List ℕ) (linted : Linted) → L.answers linter.new bytes linted → L.answers linter.old bytes linted }
{
    let linted = linter.lint(alloc, bytes)?;
    let file = named(alloc, name, linted)?;
    Ok(file)
}

// What comes of a file.
fn check_file<F: FileStore, L: Lint>(
    alloc: Global,
    linter: &mut L,
    files: &mut F,
    name: &str,
) -> Result<Checked, NoMemory>
    ensures checked { IfOk result (IsChecked (L.answers linter.old) (F.content files.old name.now) (F.faults files.old) (F.faults files.new) name.now) }
    ensures sound { IfOk result IsSound }
    ensures kept { KeepsContents (F.content files.old) (F.content files.new) }
    ensures later { F.faults files.old ≤ F.faults files.new }
    ensures same { (bytes : List ℕ) (linted : Linted) → L.answers linter.new bytes linted → L.answers linter.old bytes linted }
{
    match files.read(alloc, name) {
        Ok(bytes) => {
            let file = answered(alloc, linter, name, bytes)?;
            Ok(file)
        }
        Err(error) => {
            let file = unread(alloc, name, error)?;
            Ok(file)
        }
    }
}

/// What comes of files, in their order. A fault of one costs no other its answer. The error comes when memory runs out.
pub fn check_files<F: FileStore, L: Lint, G: Progress>(
    alloc: Global,
    linter: &mut L,
    files: &mut F,
    names: &Words,
    progress: &mut G,
) -> Result<Vec<Checked>, NoMemory>
    ensures checked { IfOk result (λ all. AreChecked (L.answers linter.old) (F.content files.old) (F.faults files.old) (F.faults files.new) names.now all.items) }
    ensures sound { IfOk result (λ all. All IsSound all.items) }
{
    let mut all = Vec::new(alloc);
    for i in 0..names.len() {
        progress.show(i, names.len());
        let checked = check_file(alloc, linter, files, names.get(i))?;
        all.push(checked)?;
    }
    Ok(all)
}
