//! The status and the bytes of a run over files.
ghost use Rattle.std.specs.Prelude.{◌≡◌, ◌<◌, ◌≤◌, ◌^◌, All, IfErr, IfOk, IfSome, [], false, length, map, true, slice_index_or};
ghost use Rattle.gate_report.specs.law_clean.Clean.{HasDefaults};
ghost use Rattle.refused_word.specs.devices.Contents.{KeepsContents};
ghost use Rattle.gate_files.specs.Read.{IsReading};
ghost use Rattle.gate_report.specs.migration_gate.Verdict.{names_of, texts_of};
ghost use Rattle.gate_command.specs.Answers as spec;
ghost use Rattle.gate_command.specs.Outcomes.{IsOutcome, printed_outcome};

use crate::judge::judged;
use crate::outcome::{Outcome, Status, status_by, status_of};
use crate::request::Request;
use gate_files::{MigrationFile, Reading, Unread, named_files, read_files};
use gate_report::{Cause, GateFile, Linter, print_accepted, print_refused};
use refused_word::{FileStore, NoMemory};
use std::alloc::Global;

/// What a run answers: the status, and what is written.
#[derive(Drop)]
pub(crate) struct Answer {
    pub(crate) status: Status,
    pub(crate) bytes: Vec<u8>,
}

// Files as the gate takes them.
fn borrowed<'t>(alloc: Global, files: &'t [MigrationFile]) -> Result<Vec<GateFile<'t>>, NoMemory>
    ensures names { IfOk result (λ all. names_of all.items ≡ map (λ f. f.name) files.entry.now) }
    ensures texts { IfOk result (λ all. texts_of all.items ≡ map (λ f. f.text) files.entry.now) }
    ensures count { IfOk result (λ all. length all.items ≡ length files.entry.now) }
{
    let mut all = Vec::new(alloc);
    for file in files {
        all.push(GateFile {
            name: file.name.as_str(),
            text: file.text.as_str(),
        })?;
    }
    Ok(all)
}

// The name and the text of file `i`.
fn file_at<'t>(files: &[GateFile<'t>], i: u32) -> GateFile<'t>
    ensures name { result.name.now ≡ slice_index_or (names_of files.now) i [] }
    ensures text { result.text.now ≡ slice_index_or (texts_of files.now) i [] }
{
    match files.get(i as usize) {
        Some(file) => *file,
        None => GateFile { name: "", text: "" },
    }
}

// What is written of files.
fn printed(
    alloc: Global,
    lists: bool,
    files: &[GateFile<'_>],
    outcome: Outcome,
) -> Result<Vec<u8>, NoMemory>
    requires few { length files.now < 2 ^ 32 }
    requires short { All (λ t. length t < 2 ^ 32) (texts_of files.now) }
    ensures { IfOk result (λ bytes. bytes.items ≡ printed_outcome lists (names_of files.now) (texts_of files.now) outcome) }
{
    match outcome {
        Outcome::Accepted { works } => print_accepted(alloc, files, works, lists),
        Outcome::Refused { file, cause } => {
            let refused = file_at(files, file);
            print_refused(alloc, refused.name, refused.text, cause)
        }
    }
}

// The answer for files as the gate takes them.
fn answer_of(
    alloc: Global,
    request: &Request,
    linter: &mut Linter,
    files: &[GateFile<'_>],
) -> Result<Answer, NoMemory>
    requires rules { HasDefaults linter.old.rules }
    requires apart { request.now.one_session ≡ true → linter.old.settings.assume_in_transaction ≡ false }
    requires few { length files.now < 2 ^ 32 }
    requires short { All (λ t. length t < 2 ^ 32) (texts_of files.now) }
    ensures { IfOk result (λ a. spec.IsToldOf request.now linter.old (names_of files.now) (texts_of files.now) a.status a.bytes.items) }
{
    let outcome = judged(alloc, linter, files, request.one_session)?;
    let status = status_of(&outcome);
    let bytes = printed(alloc, request.works, files, outcome)?;
    Ok(Answer { status, bytes })
}

// The answer for files that were read.
fn answer_read(
    alloc: Global,
    request: &Request,
    linter: &mut Linter,
    files: &[MigrationFile],
) -> Result<Answer, NoMemory>
    requires rules { HasDefaults linter.old.rules }
    requires apart { request.now.one_session ≡ true → linter.old.settings.assume_in_transaction ≡ false }
    requires short { All (λ f. length f.text < 2 ^ 32) files.now }
    ensures { IfOk result (λ a. spec.IsToldOf request.now linter.old (map (λ f. f.name) files.now) (map (λ f. f.text) files.now) a.status a.bytes.items) }
{
    if files.len() >= 4294967296 {
        return Err(NoMemory);
    }
    let borrowed = borrowed(alloc, files)?;
    answer_of(alloc, request, linter, borrowed.as_slice())
}

// The answer for a file that was not read.
fn answer_unread(alloc: Global, file: &Unread) -> Result<Answer, NoMemory>
    requires { length file.now.front < 2 ^ 32 }
    ensures { IfOk result (λ a. spec.IsToldUnread file.now a.status a.bytes.items) }
{
    let cause = Cause::Unread(file.refusal);
    let bytes = print_refused(alloc, file.name.as_str(), file.front.as_str(), cause)?;
    Ok(Answer {
        status: status_by(file.refusal),
        bytes,
    })
}

/// The answer for the files that a request names. The error comes when memory runs out, and for 2^32 files and more.
pub(crate) fn answer_files<F: FileStore>(
    alloc: Global,
    request: &Request,
    linter: &mut Linter,
    files: &mut F,
) -> Result<Answer, NoMemory>
    requires rules { HasDefaults linter.old.rules }
    requires apart { request.now.one_session ≡ true → linter.old.settings.assume_in_transaction ≡ false }
    ensures { IfOk result (λ a. spec.IsAnswerOf request.now linter.old (F.content files.old) (F.faults files.old) (F.faults files.new) a.status a.bytes.items) }
{
    let names = named_files(alloc, files, request.order, &request.files)?;
    let reading = read_files(alloc, files, &names)?;
    match reading {
        Reading::Files(read) => answer_read(alloc, request, linter, read.as_slice()),
        Reading::Unread(file) => answer_unread(alloc, &file),
    }
}
