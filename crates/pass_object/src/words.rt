//! The words with which a piece of an ALTER SEQUENCE begins.

ghost use Rattle.std.specs.Prelude.{◌≡◌, drop};
ghost use Rattle.pass_object.specs.Words as spec;

use lint_pass::{Parse, Piece, PieceKind, Tok, first_significant, same_piece};

/// Whether the token of this number is the word, in any case.
fn is_word(p: &Parse<'_>, number: usize, word: &str) -> bool
    ensures { result ≡ spec.is_word p.now number word.now }
{
    number < p.tokens().len() && p.token_text(number).eq_ignore_ascii_case(word)
}

/// The tokens from this number on.
fn tokens_from<'p>(p: &'p Parse<'_>, number: usize) -> &'p [Tok]
    ensures { result.now ≡ drop number p.now.toks }
{
    let toks = p.tokens();
    if number < toks.len() {
        &toks[number..]
    } else {
        &[]
    }
}

/// Whether the first significant token after this one is LOGGED or UNLOGGED.
fn is_logging_after(p: &Parse<'_>, number: u32) -> bool
    ensures { result ≡ spec.is_logging_after p.now number }
{
    let number = number as usize + 1;
    match first_significant(tokens_from(p, number)) {
        Some(blanks) => {
            is_word(p, number + blanks, "logged") || is_word(p, number + blanks, "unlogged")
        }
        None => false,
    }
}

/// Whether the piece leaves the values that a sequence gives as they are.
fn keeps_values(p: &Parse<'_>, q: &Piece) -> bool
    ensures { result ≡ spec.keeps_values p.now q.now }
{
    let first = q.first as usize;
    is_word(p, first, "owned")
        || is_word(p, first, "sequence")
        || (is_word(p, first, "set") && is_logging_after(p, q.first))
}

/// Whether the piece is an option of a sequence that changes the values which it gives.
pub(crate) fn changes_values(p: &Parse<'_>, q: &Piece) -> bool
    ensures { result ≡ spec.changes_values p.now q.now }
{
    same_piece(q.kind, PieceKind::SequenceOption) && !keeps_values(p, q)
}
