//! Parts of a text by its tokens.

ghost use Rattle.std.specs.Prelude.{◌≡◌};
ghost use Rattle.pass_session.specs.Tokens as spec;

use lint_pass::{Parse, Span, TextSize};

/// The number of the first significant token of the text.
fn first_significant(p: &Parse<'_>) -> usize
    ensures { result ≡ spec.first_significant p.now }
{
    match lint_pass::first_significant(p.tokens()) {
        Some(number) => number,
        None => 0,
    }
}

/// Where the first significant token of the text begins.
pub fn first_place(p: &Parse<'_>) -> TextSize
    ensures { result ≡ spec.first_place p.now }
{
    match p.tokens().get(first_significant(p)) {
        Some(tok) => TextSize::new(tok.start),
        None => TextSize::new(0),
    }
}

/// Whether the token of this number is significant and no semicolon. Past the last token there are empty ones, which are so.
fn is_word_at(p: &Parse<'_>, number: u32) -> bool
    ensures { result ≡ spec.is_word_at p.now number }
{
    let number = number as usize;
    if number < p.tokens().len() {
        p.tokens()[number].kind.is_significant() && p.token_text(number) != ";"
    } else {
        true
    }
}

/// The last such token from number `first` to number `last`, or `first`.
pub fn last_word(p: &Parse<'_>, first: u32, last: u32) -> u32
    ensures { result ≡ spec.last_word p.now first last }
{
    let mut number = last;
    while first < number && !is_word_at(p, number) {
        number -= 1;
    }
    number
}

/// The text from the first of some tokens to the last one.
pub fn source_of<'t>(p: &Parse<'t>, span: Span) -> &'t str
    ensures { result.now ≡ spec.source_of p.now span }
{
    let range = p.span_range(span.first, span.last);
    &p.text()[range.start().raw() as usize..range.end().raw() as usize]
}
