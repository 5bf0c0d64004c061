//! The faults of a text, and the text in which the statements that have one are blank.

ghost use Rattle.std.specs.Prelude.{◌≡◌, ◌+◌, ◌<◌, ◌^◌, All, IfOk, IfSome, List, MatchOption, length, slice_range, string_bytes};
ghost use Rattle.std.specs.Str.{IsCharBoundary, IsUtf8};
ghost use Rattle.psql_text.specs.Psql.{blanked};
ghost use Rattle.check_run.specs.source_file.File.{IsRangeIn};
ghost use Rattle.check_run.specs.source_file.Refusals.{place_of};
ghost use Rattle.law_reports.specs.sql_read.sql_token.Token.{Lexed};
ghost use Rattle.law_reports.specs.sql_read.sql_token.declared.token.Tok.{Tok};
ghost use Rattle.file_answer.specs.Faults as spec;
ghost use Rattle.file_answer.specs.Faults.{AreFaultsOf, HaveFaults, IsFaultIn, IsReadable, whole_part};

use crate::fault::fault_of;
use crate::joined::spans_of;
use crate::range::range_of;
use check_run::Refusal;
use law_reports::sql_read::{LexError, NoMemory, Span, TextRange, TextSize, Tok, lex};
use psql_text::{Part, PartKind, blank_out};
use std::alloc::Global;

/// The faults of a text, and the text without the statements that have them.
#[derive(Drop)]
pub(crate) struct Faults {
    /// Where the statements can't be read: one fault for each of these, in their order.
    pub(crate) faults: Vec<Refusal>,
    /// The text, in which these statements are blank.
    pub(crate) text: String,
}

// The place at a distance from another one.
fn place_from(from: TextSize, at: TextSize) -> TextSize
    requires { from + at < 2 ^ 32 }
    ensures { result ≡ from + at }
{
    TextSize::new(from.raw() + at.raw())
}

// A fault of a part that begins here, at its place in the text.
fn moved(from: TextSize, fault: Refusal) -> Refusal
    requires { from + place_of fault < 2 ^ 32 }
    ensures { result ≡ spec.moved from fault }
{
    match fault {
        Refusal::Missing | Refusal::Unreadable | Refusal::TooLong => fault,
        Refusal::NotUtf8 { at } => Refusal::NotUtf8 {
            at: place_from(from, at),
        },
        Refusal::Unterminated { at } => Refusal::Unterminated {
            at: place_from(from, at),
        },
        Refusal::Syntax { at } => Refusal::Syntax {
            at: place_from(from, at),
        },
    }
}

// A part of a text.
fn part_of(text: &str, range: TextRange) -> &str
    requires { IsRangeIn text.now range }
    ensures { result.now ≡ slice_range text.now range.start range.end }
{
    &text[range.start().raw() as usize..range.end().raw() as usize]
}

// The fault of a statement, at its place in the text; nothing where it can be read.
#[tactic(auto, using(crate::proofs::Ranges::moved_within, crate::proofs::Ranges::moved_between))]
fn fault_in(alloc: Global, text: &str, range: TextRange) -> Result<Option<Refusal>, NoMemory>
    requires short { length text.now < 2 ^ 32 }
    requires range { IsRangeIn text.now range }
    ensures fault { IfOk result (λ found. MatchOption found (IsReadable (slice_range text.now range.start range.end)) (IsFaultIn text.now range)) }
    ensures placed { IfOk result (λ found. IfSome found (λ fault. IsCharBoundary text.now (place_of fault))) }
{
    match fault_of(alloc, part_of(text, range))? {
        None => Ok(None),
        Some(fault) => Ok(Some(moved(range.start(), fault))),
    }
}

// Makes a range blank.
fn blank(bytes: &mut Vec<u8>, range: TextRange)
    requires { IsRangeIn bytes.old.items range }
    ensures { bytes.new.items ≡ blanked (whole_part range) bytes.old.items }
{
    let part = Part {
        kind: PartKind::Command,
        from: range.start().raw() as usize,
        to: range.end().raw() as usize,
    };
    blank_out(bytes, part);
}

// Makes the statements that can't be read blank, and gives their faults.
fn blank_faults(
    alloc: Global,
    text: &str,
    toks: &[Tok],
    spans: &[Span],
    bytes: &mut Vec<u8>,
) -> Result<Vec<Refusal>, NoMemory>
    requires short { length text.now < 2 ^ 32 }
    requires lexed { Lexed text.now toks.now }
    requires same { bytes.old.items ≡ text.now }
    ensures have { IfOk result (λ faults. HaveFaults text.now toks.now spans.now faults.items text.now bytes.new.items) }
    ensures utf8 { IfOk result (λ _. IsUtf8 bytes.new.items) }
    ensures length { IfOk result (λ _. length bytes.new.items ≡ length text.now) }
    ensures placed { IfOk result (λ faults. All (λ fault. IsCharBoundary text.now (place_of fault)) faults.items) }
{
    let mut faults = Vec::new(alloc);
    for span in spans {
        let range = range_of(text, toks, *span);
        if let Some(fault) = fault_in(alloc, text, range)? {
            faults.push(fault)?;
            blank(bytes, range);
        }
    }
    Ok(faults)
}

// The tokens of a text that has some.
fn tokens(alloc: Global, text: &str) -> Result<Vec<Tok>, NoMemory>
    requires short { length text.now < 2 ^ 32 }
    requires lexed { (toks : List Tok) × Lexed text.now toks }
    ensures { IfOk result (λ toks. Lexed text.now toks.items) }
{
    match lex(alloc, text) {
        Ok(toks) => Ok(toks),
        Err(LexError::Unterminated { .. }) => unreachable!(),
        Err(LexError::NoMemory) => Err(NoMemory),
    }
}

/// The faults of the statements of a text, each of which is read by itself, and the text in which those that have one are blank. Each
/// token of the text closes. The error comes when memory runs out.
pub(crate) fn without_faults(alloc: Global, text: &str) -> Result<Faults, NoMemory>
    requires short { length text.now < 2 ^ 32 }
    requires lexed { (toks : List Tok) × Lexed text.now toks }
    ensures faults { IfOk result (λ found. AreFaultsOf text.now found.faults.items (string_bytes found.text)) }
    ensures length { IfOk result (λ found. length (string_bytes found.text) ≡ length text.now) }
    ensures placed { IfOk result (λ found. All (λ fault. IsCharBoundary text.now (place_of fault)) found.faults.items) }
{
    let toks = tokens(alloc, text)?;
    let spans = spans_of(alloc, text, toks.as_slice())?;
    let mut bytes = Vec::from_slice(alloc, text.as_bytes())?;
    let faults = blank_faults(alloc, text, toks.as_slice(), spans.as_slice(), &mut bytes)?;
    match String::from_utf8(bytes) {
        Ok(text) => Ok(Faults { faults, text }),
        Err(_) => unreachable!(),
    }
}
