//! What comes of a text.
ghost use Rattle.std.specs.Prelude.{◌≡◌, ◌<◌, ◌^◌, IfOk, length};
ghost use Rattle.std.specs.Str.{IsCharBoundary};
ghost use Rattle.check_run.specs.source_file.Refusals.{place_of};
ghost use Rattle.law_reports.specs.sql_read.Cause.{IsTreeOf};
ghost use Rattle.file_answer.specs.Faults.{IsFault};
ghost use Rattle.file_answer.specs.Found.{IsFound, IsFoundIn, IsOutcomeIn, IsOutcomeOf};

use crate::backslash::first_backslash;
use crate::fault::refusal_of;
use crate::statements::without_faults;
use check_run::{Refusal, Report};
use law_reports::{NoMemory, Parse, TextLinter, TextSize, find_reports, parse};
use std::alloc::Global;

// What comes of a text as a whole.
#[derive(Drop)]
enum Outcome {
    // All that is reported of it.
    Reports(Vec<Report>),
    // Why it can't be read.
    Refused(Refusal),
}

/// A text of which some statements could not be read, and what is reported of the others.
#[derive(Drop)]
pub(crate) struct Rest {
    /// The text, in which these statements are blank.
    pub(crate) text: String,
    /// Why they could not be read.
    pub(crate) faults: Vec<Refusal>,
    /// What is reported of the others.
    pub(crate) reports: Vec<Report>,
}

/// What comes of a text.
#[derive(Drop)]
pub(crate) enum Found {
    /// All that is reported of it.
    Reports(Vec<Report>),
    /// Why nothing can be.
    Refused(Refusal),
    /// Some of its statements could not be read.
    Rest(Rest),
}

// Lints the tree of a text.
#[tactic(auto, using(crate::proofs::Placing::reports_in))]
fn lint_tree(
    alloc: Global,
    linter: &mut TextLinter,
    text: &str,
    file: &Parse<'_>,
) -> Result<Outcome, NoMemory>
    requires { IsTreeOf text.now file.now }
    ensures outcome { IfOk result (IsOutcomeOf linter.old text.now) }
    ensures placed { IfOk result (IsOutcomeIn text.now) }
    ensures same { linter.new ≡ linter.old }
{
    match first_backslash(file) {
        Some(at) => Ok(Outcome::Refused(Refusal::Syntax { at })),
        None => {
            let reports = find_reports(alloc, linter, file)?;
            Ok(Outcome::Reports(reports))
        }
    }
}

// Lints a text as a whole.
fn lint_whole(alloc: Global, linter: &mut TextLinter, text: &str) -> Result<Outcome, NoMemory>
    requires { length text.now < 2 ^ 32 }
    ensures outcome { IfOk result (IsOutcomeOf linter.old text.now) }
    ensures placed { IfOk result (IsOutcomeIn text.now) }
    ensures same { linter.new ≡ linter.old }
{
    match parse(alloc, text) {
        Ok(file) => {
            let outcome = lint_tree(alloc, linter, text, &file)?;
            Ok(outcome)
        }
        Err(error) => {
            let refusal = refusal_of(text, error)?;
            Ok(Outcome::Refused(refusal))
        }
    }
}

// Lints a text that can't be read as a whole, without the statements that have a fault.
#[tactic(auto, using(crate::proofs::Placing::is_lexed))]
fn lint_rest(
    alloc: Global,
    linter: &mut TextLinter,
    text: &str,
    at: TextSize,
) -> Result<Found, NoMemory>
    requires short { length text.now < 2 ^ 32 }
    requires fault { IsFault text.now (Refusal.Syntax at) }
    requires placed { IsCharBoundary text.now at }
    ensures found { IfOk result (IsFound linter.old text.now) }
    ensures placed { IfOk result (IsFoundIn text.now) }
    ensures same { linter.new ≡ linter.old }
{
    let rest = without_faults(alloc, text)?;
    match lint_whole(alloc, linter, rest.text.as_str())? {
        Outcome::Reports(reports) => Ok(Found::Rest(Rest {
            text: rest.text,
            faults: rest.faults,
            reports,
        })),
        Outcome::Refused(_) => Ok(Found::Refused(Refusal::Syntax { at })),
    }
}

// Lints a text that can't be read as a whole, where a statement of it is the cause.
fn lint_refused(
    alloc: Global,
    linter: &mut TextLinter,
    text: &str,
    refusal: Refusal,
) -> Result<Found, NoMemory>
    requires short { length text.now < 2 ^ 32 }
    requires fault { IsFault text.now refusal }
    requires placed { IsCharBoundary text.now (place_of refusal) }
    ensures found { IfOk result (IsFound linter.old text.now) }
    ensures placed { IfOk result (IsFoundIn text.now) }
    ensures same { linter.new ≡ linter.old }
{
    match refusal {
        Refusal::Syntax { at } => {
            let found = lint_rest(alloc, linter, text, at)?;
            Ok(found)
        }
        Refusal::Unterminated { at } => Ok(Found::Refused(Refusal::Unterminated { at })),
        Refusal::Missing | Refusal::Unreadable | Refusal::NotUtf8 { .. } | Refusal::TooLong => {
            unreachable!()
        }
    }
}

/// Lints a text, or what of it can be read. The error comes when memory runs out.
pub(crate) fn lint_text(
    alloc: Global,
    linter: &mut TextLinter,
    text: &str,
) -> Result<Found, NoMemory>
    requires { length text.now < 2 ^ 32 }
    ensures found { IfOk result (IsFound linter.old text.now) }
    ensures placed { IfOk result (IsFoundIn text.now) }
    ensures same { linter.new ≡ linter.old }
{
    match lint_whole(alloc, linter, text)? {
        Outcome::Reports(reports) => Ok(Found::Reports(reports)),
        Outcome::Refused(refusal) => {
            let found = lint_refused(alloc, linter, text, refusal)?;
            Ok(found)
        }
    }
}
