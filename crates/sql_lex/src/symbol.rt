//! What a token is to the grammar.

ghost use Rattle.std.specs.Prelude.{◌≡◌, ◌≢◌, slice_index};
ghost use Rattle.sql_token.specs.sql_keyword.Find.{keyword_of};
ghost use Rattle.sql_token.specs.Terminal as spec;

use sql_token::{Symbol, TokKind, keyword_of};

/// What a word is to the grammar.
#[tactic(auto, unfolding(sql_token::specs::Terminal::symbol_of))]
pub fn word_symbol(bytes: &[u8]) -> Symbol
    ensures { result ≡ spec.symbol_of TokKind.Word bytes.now }
{
    match keyword_of(bytes) {
        Some(keyword) => Symbol::Keyword(keyword),
        None => Symbol::Word,
    }
}

fn punct_symbol(byte: u8) -> Symbol
    ensures { result ≡ spec.punct_symbol byte }
{
    match byte {
        b'(' => Symbol::OpenRound,
        b')' => Symbol::CloseRound,
        b'[' => Symbol::OpenSquare,
        b']' => Symbol::CloseSquare,
        b',' => Symbol::Comma,
        b';' => Symbol::Semicolon,
        b'.' => Symbol::Dot,
        _ => Symbol::Colon,
    }
}

fn operator_symbol(bytes: &[u8]) -> Symbol
    ensures { result ≡ spec.operator_symbol bytes.now }
{
    match bytes {
        [b'='] => Symbol::Equals,
        [b'=', ..] => Symbol::EqualsOperator,
        [b'*'] => Symbol::Star,
        _ => Symbol::Operator,
    }
}

fn number_symbol(bytes: &[u8]) -> Symbol
    ensures { result ≡ spec.number_symbol bytes.now }
{
    match bytes {
        [b'1'] => Symbol::One,
        _ => Symbol::Number,
    }
}

fn first_byte(bytes: &[u8]) -> u8
    ensures { result ≡ slice_index bytes.now 0 }
{
    if bytes.is_empty() { 0 } else { bytes[0] }
}

/// What a mark is to the grammar.
#[tactic(auto, unfolding(sql_token::specs::Terminal::symbol_of))]
pub fn symbol_of_punct(bytes: &[u8]) -> Symbol
    ensures { result ≡ spec.symbol_of TokKind.Punct bytes.now }
{
    punct_symbol(first_byte(bytes))
}

/// What a significant token that is neither a word nor a mark is to the grammar.
#[tactic(auto, unfolding(sql_token::specs::Terminal::symbol_of))]
pub fn other_symbol(kind: TokKind, bytes: &[u8]) -> Symbol
    requires word { kind ≢ TokKind.Word }
    requires mark { kind ≢ TokKind.Punct }
    ensures { result ≡ spec.symbol_of kind bytes.now }
{
    match kind {
        TokKind::Quoted => Symbol::Quoted,
        TokKind::Str => Symbol::Str,
        TokKind::UName => Symbol::UName,
        TokKind::Dollar => Symbol::Dollar,
        TokKind::Param => Symbol::Param,
        TokKind::Number => number_symbol(bytes),
        TokKind::Op => operator_symbol(bytes),
        TokKind::Word
        | TokKind::Punct
        | TokKind::Blank
        | TokKind::LineComment
        | TokKind::BlockComment
        | TokKind::Other => Symbol::Other,
    }
}
