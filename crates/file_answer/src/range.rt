//! The bytes of a statement.

ghost use Rattle.std.specs.Prelude.{◌≡◌, ◌≤◌, length, true};
ghost use Rattle.check_run.specs.source_file.File.{IsRangeIn};
ghost use Rattle.law_reports.specs.sql_read.sql_token.Token.{Lexed};
ghost use Rattle.law_reports.specs.sql_read.sql_tree.Range.{span_range_of, token_at};
ghost use Rattle.file_answer.specs.Faults as spec;

use law_reports::sql_read::{Span, TextRange, TextSize, Tok, TokKind};

// The token of this number; past the last one, an empty token at the start of the text.
fn token_at(toks: &[Tok], number: u32) -> Tok
    ensures { result ≡ token_at toks.now number }
{
    match toks.get(number as usize) {
        Some(tok) => *tok,
        None => Tok {
            kind: TokKind::Other,
            start: 0,
            end: 0,
        },
    }
}

// From the start of the first token of a statement to the end of its last one.
fn span_range(toks: &[Tok], span: Span) -> TextRange
    ensures { result ≡ span_range_of toks.now span.first span.last }
{
    let start = token_at(toks, span.first).start;
    let end = token_at(toks, span.last).end;
    TextRange::new(TextSize::new(start), TextSize::new(start.max(end)))
}

// Whether the last byte of a range is a semicolon.
fn ends_in_semicolon(text: &[u8], range: TextRange) -> bool
    requires { range.end ≤ length text.now }
    ensures { result ≡ spec.ends_in_semicolon text.now range }
{
    let end = range.end().raw() as usize;
    range.start().raw() < range.end().raw() && text[end - 1] == b';'
}

// The range without its last byte, which is a semicolon.
#[tactic(auto, using(crate::proofs::Ranges::cut_in))]
fn cut_short(text: &str, range: TextRange) -> TextRange
    requires range { IsRangeIn text.now range }
    requires ends { spec.ends_in_semicolon text.now range ≡ true }
    ensures value { result ≡ spec.cut_short range }
    ensures range { IsRangeIn text.now result }
{
    TextRange::new(range.start(), TextSize::new(range.end().raw() - 1))
}

/// The bytes of a statement without its semicolon.
pub(crate) fn range_of(text: &str, toks: &[Tok], span: Span) -> TextRange
    requires { Lexed text.now toks.now }
    ensures value { result ≡ spec.range_of text.now toks.now span }
    ensures range { IsRangeIn text.now result }
{
    let range = span_range(toks, span);
    if ends_in_semicolon(text.as_bytes(), range) {
        cut_short(text, range)
    } else {
        range
    }
}
