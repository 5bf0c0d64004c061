//! Comments that tell the linter to leave a report.
ghost use Rattle.std.specs.Prelude.{◌≡◌, ◌++◌, IfOk, codes, string_bytes};
ghost use Rattle.std.specs.List.{find, list_any};
ghost use Rattle.lsp_session.specs.lint_report.Codes.{name_of};
ghost use Rattle.lsp_shown.specs.Ignore as spec;

use lsp_session::{Change, Code, NoMemory, Pos, Remedy, Rule, Text};
use std::alloc::{AllocError, Global};

/// The first line and the last one of a token that goes over several.
#[derive(Clone, Copy, Debug, PartialEq, Eq)]
pub struct Lines {
    /// The line on which it begins, counted from 0.
    pub first: u32,
    /// The line on which it ends.
    pub last: u32,
}

// Whether a line begins inside of the token.
fn goes_over(lines: &Lines, line: u32) -> bool
    ensures { result ≡ spec.goes_over line lines.now }
{
    lines.first < line && line <= lines.last
}

// Whether a line begins inside of one of the tokens.
fn is_inside(tokens: &[Lines], line: u32) -> bool
    ensures { result ≡ list_any (spec.goes_over line) tokens.now }
{
    tokens.iter().any(|lines| goes_over(lines, line))
}

// Whether a comment can name the rule or the hazard.
fn is_named(code: Code) -> bool
    ensures { result ≡ spec.is_named code }
{
    !matches!(code, Code::Rule(Rule::UnusedIgnore))
}

// The comment, on a line of its own.
fn comment(alloc: Global, code: Code) -> Result<String, AllocError>
    ensures { IfOk result (λ s. string_bytes s ≡ spec.comment code) }
{
    let mut text = String::from_str(alloc, "-- squawk-ignore ")?;
    text.push_str(code.name())?;
    text.push_str("\n")?;
    Ok(text)
}

// What is said of it.
fn title(alloc: Global, code: Code) -> Result<String, AllocError>
    ensures { IfOk result (λ s. string_bytes s ≡ spec.title code) }
{
    let mut text = String::from_str(alloc, "Ignore `")?;
    text.push_str(code.name())?;
    text.push_str("` here")?;
    Ok(text)
}

// The name of a rule or a hazard, before other names.
fn name_before(alloc: Global, code: Code) -> Result<String, AllocError>
    ensures { IfOk result (λ s. string_bytes s ≡ name_of code ++ codes ", ") }
{
    let mut text = String::from_str(alloc, code.name())?;
    text.push_str(", ")?;
    Ok(text)
}

// The name put before the names of a comment, which begin at a place.
fn new_name(alloc: Global, code: Code, at: Pos) -> Result<Remedy, NoMemory>
    ensures { IfOk result (λ made. made ≡ spec.new_name code at) }
{
    let mut changes = Vec::new(alloc);
    changes.push(Change {
        start: at,
        end: at,
        text: Some(Text::made(name_before(alloc, code)?)),
    })?;
    Ok(Remedy {
        title: Text::made(title(alloc, code)?),
        is_preferred: false,
        changes,
    })
}

// The comment put before a line.
fn new_comment(alloc: Global, code: Code, line: u32) -> Result<Remedy, NoMemory>
    ensures { IfOk result (λ made. made ≡ spec.new_comment code line) }
{
    let at = Pos { line, col: 0 };
    let mut changes = Vec::new(alloc);
    changes.push(Change {
        start: at,
        end: at,
        text: Some(Text::made(comment(alloc, code)?)),
    })?;
    Ok(Remedy {
        title: Text::made(title(alloc, code)?),
        is_preferred: false,
        changes,
    })
}

// The first of some places that is on the line before.
fn note_above(notes: &[Pos], line: u32) -> Option<Pos>
    ensures { result ≡ find (spec.is_above line) notes.now }
{
    for at in notes {
        if line.saturating_sub(at.line) == 1 {
            return Some(*at);
        }
    }
    None
}

// The name in the comment on the line before, where there is one, or else in a comment of its own.
fn remedy(alloc: Global, notes: &[Pos], code: Code, line: u32) -> Result<Remedy, NoMemory>
    ensures { IfOk result (λ made. made ≡ spec.remedy_in (find (spec.is_above line) notes.now) code line) }
{
    match note_above(notes, line) {
        Some(at) => new_name(alloc, code, at),
        None => new_comment(alloc, code, line),
    }
}

/// The comment that tells the linter to leave the reports of a rule or a hazard that begin on a line, on a line of its own above it, or its
/// name in the comment that is there already (`notes`); none where that line begins inside of one of these tokens, or no comment names the
/// rule. The error comes when memory runs out.
pub(crate) fn ignore_if(
    alloc: Global,
    tokens: &[Lines],
    notes: &[Pos],
    code: Code,
    line: u32,
) -> Result<Option<Remedy>, NoMemory>
    ensures { IfOk result (λ made. made ≡ spec.ignore_if tokens.now notes.now code line) }
{
    if is_named(code) && !is_inside(tokens, line) {
        Ok(Some(remedy(alloc, notes, code, line)?))
    } else {
        Ok(None)
    }
}
