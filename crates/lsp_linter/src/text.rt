//! The reports of a text.
ghost use Rattle.std.specs.Prelude.{◌≡◌, ◌<◌, ◌^◌, ◌∷◌, [], All, IfErr, IfOk, Some, length};
ghost use Rattle.lsp_linter.specs.Shown as spec;
ghost use Rattle.lsp_linter.specs.Shown.{Lints, Refuses, Shows};
ghost use Rattle.lsp_shown.specs.Notes.{notes_in};
ghost use Rattle.lsp_shown.specs.Places.{ReportIn};
ghost use Rattle.lsp_shown.specs.Shown.{shown};
ghost use Rattle.lsp_shown.specs.Tokens.{long_tokens};
ghost use Rattle.text_reports.specs.sql_read.Cause.{IsCause};
ghost use Rattle.text_reports.specs.sql_token.Token.{Lexed};
ghost use Rattle.std.specs.Str.{IsCharBoundary};
ghost use Rattle.lsp_shown.specs.text_utf16.Position.{position_of};

use lsp_shown::{Pos, PosIndex, Report, long_tokens, notes_in, refused_at, shown};
use std::alloc::Global;
use text_reports::sql_read::parse;
use text_reports::{LintError, NoMemory, Parse, TextLinter, TextSize, Tok, find_reports};

// Reports of a text with these tokens, at positions.
fn shown_of(
    alloc: Global,
    text: &str,
    tokens: &[Tok],
    reports: Vec<text_reports::Report>,
) -> Result<Vec<Report>, NoMemory>
    requires short { length text.now < 2 ^ 32 }
    requires tokens { Lexed text.now tokens.now }
    requires reports { All (ReportIn text.now) reports.items }
    ensures { IfOk result (λ found. found.items ≡ shown text.now (long_tokens text.now tokens.now) (notes_in text.now tokens.now) reports.items) }
{
    let index = PosIndex::new(alloc, text)?;
    let long = long_tokens(alloc, &index, tokens)?;
    let notes = notes_in(alloc, &index, text, tokens)?;
    shown(alloc, &index, long.as_slice(), notes.as_slice(), reports)
}

// The reports of a text that has a tree.
fn lint_tree(
    alloc: Global,
    linter: &mut TextLinter,
    file: &Parse<'_>,
) -> Result<Vec<Report>, NoMemory>
    ensures lints { IfOk result (λ found. Lints linter.old.linter.rules linter.old.hazards linter.old.linter.settings file.now.text found.items) }
    ensures same { linter.new ≡ linter.old }
{
    let text = file.text();
    let tokens = file.tokens();
    let reports = find_reports(alloc, linter, file)?;
    shown_of(alloc, text, tokens, reports)
}

// The position of a place of a text.
fn position_of(alloc: Global, text: &str, at: u32) -> Result<Pos, NoMemory>
    requires short { length text.now < 2 ^ 32 }
    requires place { IsCharBoundary text.now at }
    ensures { IfOk result (λ pos. pos ≡ position_of text.now at) }
{
    let index = PosIndex::new(alloc, text)?;
    Ok(index.pos(TextSize::new(at)))
}

// One report alone.
fn alone(alloc: Global, report: Report) -> Result<Vec<Report>, NoMemory>
    ensures { IfOk result (λ found. found.items ≡ report ∷ []) }
{
    let mut found = Vec::new(alloc);
    found.push(report)?;
    Ok(found)
}

// The report of a text that is refused.
#[tactic(auto, using(crate::proofs::Placing::open_in, crate::proofs::Placing::syntax_in))]
fn refusal_of(alloc: Global, text: &str, error: LintError) -> Result<Report, NoMemory>
    requires { IsCause text.now error }
    ensures { IfOk result (λ report. spec.refusal_of text.now error ≡ Some report) }
{
    match error {
        LintError::TooLong => Ok(refused_at(
            "the text has 2^32 bytes or more",
            Pos { line: 0, col: 0 },
        )),
        LintError::Unterminated { at } => {
            let at = position_of(alloc, text, at)?;
            Ok(refused_at("what begins here does not end", at))
        }
        LintError::Syntax { at } => {
            let at = position_of(alloc, text, at)?;
            Ok(refused_at("the statement that begins here can't be read", at))
        }
        LintError::NoMemory => Err(NoMemory),
    }
}

// The reports of a text that is refused.
fn refusals_of(alloc: Global, text: &str, error: LintError) -> Result<Vec<Report>, NoMemory>
    requires { IsCause text.now error }
    ensures { IfOk result (λ found. Refuses text.now found.items) }
{
    let report = refusal_of(alloc, text, error)?;
    alone(alloc, report)
}

/// The reports of a text: those of rules and hazards, or one where the text is refused. The linter stays as it was. The error comes when
/// memory runs out.
pub fn check_text(
    alloc: Global,
    linter: &mut TextLinter,
    text: &str,
) -> Result<Vec<Report>, NoMemory>
    ensures shows { IfOk result (λ found. Shows linter.old.linter.rules linter.old.hazards linter.old.linter.settings text.now found.items) }
    ensures same { linter.new ≡ linter.old }
{
    match parse(alloc, text) {
        Ok(file) => lint_tree(alloc, linter, &file),
        Err(error) => refusals_of(alloc, text, error),
    }
}
