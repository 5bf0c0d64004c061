//! What comes of the bytes of a file.
ghost use Rattle.std.specs.Prelude.{◌≡◌, ◌<◌, ◌^◌, IfOk, length};
ghost use Rattle.check_run.specs.checked_file.Files.{readable_of};
ghost use Rattle.check_run.specs.checked_file.Sound.{IsSoundAnswer};
ghost use Rattle.law_reports.specs.text_reports.declared.find.TextLinter.{TextLinter};
ghost use Rattle.file_answer.specs.Answers.{IsAnswerOf, IsLintedAs, as_read};
ghost use Rattle.file_answer.specs.Found.{IsFound, IsFoundIn};

use crate::read::{Read, read_bytes};
use crate::text::{Found, lint_text};
use check_run::{Answer, Linted, Partial, Refusal};
use law_reports::{NoMemory, TextLinter, TextSize};
use simdutf8::compat::from_utf8;
use std::alloc::Global;

// Lints bytes as they were read.
#[tactic(auto, using(crate::proofs::Placing::end_in, crate::proofs::Placing::found_in))]
fn lint_read(alloc: Global, linter: &mut TextLinter, bytes: &[u8]) -> Result<Found, NoMemory>
    requires { length bytes.now < 2 ^ 32 }
    ensures found { IfOk result (IsFound linter.old bytes.now) }
    ensures placed { IfOk result (IsFoundIn (readable_of bytes.now)) }
    ensures same { linter.new ≡ linter.old }
{
    match from_utf8(bytes) {
        Ok(text) => lint_text(alloc, linter, text),
        Err(error) => {
            let at = TextSize::new(error.valid_up_to() as u32);
            Ok(Found::Refused(Refusal::NotUtf8 { at }))
        }
    }
}

// The answer for bytes as they were read, of which this was found.
#[tactic(auto, using(crate::proofs::Placing::front_short))]
fn answered(read: Read, found: Found) -> Linted
    requires short { length read.bytes.items < 2 ^ 32 }
    requires placed { IsFoundIn (readable_of read.bytes.items) found }
    ensures read { as_read result.bytes.items result.answer ≡ read.bytes.items }
    ensures passed { result.passed ≡ read.passed }
    ensures answer { (l : TextLinter) → IsFound l read.bytes.items found → IsAnswerOf l result.bytes.items result.answer }
    ensures sound { IsSoundAnswer result }
{
    match found {
        Found::Reports(reports) => Linted {
            bytes: read.bytes,
            passed: read.passed,
            answer: Answer::Reports(reports),
        },
        Found::Refused(refusal) => Linted {
            bytes: read.bytes,
            passed: read.passed,
            answer: Answer::Refused(refusal),
        },
        Found::Rest(rest) => Linted {
            bytes: rest.text.into_bytes(),
            passed: read.passed,
            answer: Answer::Partial(Partial {
                bytes: read.bytes,
                faults: rest.faults,
                reports: rest.reports,
            }),
        },
    }
}

/// Lints the bytes of a file, and leaves the linter as it was. What is for psql and no SQL is read as blanks, unless it is to be read as SQL
/// too. Where some statements can't be parsed, they are blank in the bytes that are linted, in which the reports are; their faults are in the
/// bytes as they were read. All findings are in the front of these bytes that is UTF-8. The error comes when memory runs out.
pub fn lint_bytes(
    alloc: Global,
    linter: &mut TextLinter,
    is_strict: bool,
    bytes: Vec<u8>,
) -> Result<Linted, NoMemory>
    requires { length bytes.items < 2 ^ 32 }
    ensures linted { IfOk result (IsLintedAs is_strict linter.old bytes.items) }
    ensures sound { IfOk result IsSoundAnswer }
    ensures same { linter.new ≡ linter.old }
{
    let read = read_bytes(alloc, is_strict, bytes)?;
    let found = lint_read(alloc, linter, read.bytes.as_slice())?;
    Ok(answered(read, found))
}
