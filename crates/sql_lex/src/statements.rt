//! The statements of a text, one after another.

ghost use Rattle.std.specs.Prelude.{◌≡◌, ◌≢◌, ◌<◌, ◌≤◌, ◌^◌, ◌==◌, ◌&&◌, ◌+◌, true, false, [], length, IfOk, OnErr, IfSome, IfNone};
ghost use Rattle.sql_token.specs.Depth.{one_if, statements};
ghost use Rattle.sql_token.specs.Terminal.{terminals, symbol_of, is_semicolon, is_opener, is_closer};
ghost use Rattle.sql_token.specs.Token.{Lexed, text_of};
ghost use Rattle.sql_token.specs.declared.token.TokKind.TheVariants.{Word, Punct};
ghost use Rattle.sql_lex.specs.Cursor.{GoesOver, IsWalk, Steps, IsFirst};

use crate::symbol::{other_symbol, symbol_of_punct, word_symbol};
use sql_token::{Span, Symbol, Terminal, Tok};
use std::alloc::Global;
use std::marker::Model;
use text_pos::NoMemory;

/// The statements of a text, sound or not, one after another.
#[derive(Drop)]
pub struct Statements<'a> {
    text: &'a [u8],
    toks: &'a [Tok],
    number: usize,
}

impl<'a> Model for Statements<'a> {
    ghost use Rattle.std.specs.Prelude.{List};
    ghost use Rattle.sql_token.specs.declared.terminal.Terminal.{Terminal};

    ghost Value = { List (List Terminal) };

    ghost use Rattle.sql_lex.specs.View.{to_come, IsValid};

    ghost view = { to_come };

    ghost invariant = { IsValid };
}

impl<'a> Statements<'a> {
    /// All statements of the text whose tokens these are.
    #[tactic(auto, using(crate::proofs::Walk::is_walk))]
    pub fn new(text: &'a str, toks: &'a [Tok]) -> Statements<'a>
        requires lexed { Lexed text.now toks.now }
        requires short { length text.now < 2 ^ 32 }
        ensures { result ≡ statements (terminals text.now toks.now) }
    {
        Statements {
            text: text.as_bytes(),
            toks,
            number: 0,
        }
    }

    /// Puts the terminals of the next statement into the buffer in place of what it held, and says
    /// whether there was one. Where memory runs out, the walk stays where it was.
    pub fn next_into(&mut self, statement: &mut Vec<Terminal>) -> Result<bool, NoMemory>
        ensures ok { IfOk result (λ more. Steps more self.old statement.new.items self.new) }
        ensures err { OnErr result (self.new ≡ self.old) }
    {
        statement.clear();
        self.number = take_first(self.text, self.toks, self.number, statement)?;
        Ok(!statement.is_empty())
    }
}

fn bytes_of(text: &[u8], tok: Tok) -> &[u8]
    requires { (tok.start ≤ tok.end) × (tok.end ≤ length text.now) }
    ensures { result.now ≡ text_of text.now tok }
{
    &text[tok.start as usize..tok.end as usize]
}

/// What the grammar sees of the word with this number.
fn word_terminal(text: &[u8], tok: Tok, number: u32) -> Terminal
    requires within { (tok.start ≤ tok.end) × (tok.end ≤ length text.now) }
    requires word { tok.kind ≡ Word }
    ensures { result ≡ record { symbol = symbol_of tok.kind (text_of text.now tok); number = number } }
{
    Terminal {
        symbol: word_symbol(bytes_of(text, tok)),
        number,
    }
}

/// What the grammar sees of the mark with this number.
fn punct_terminal(text: &[u8], tok: Tok, number: u32) -> Terminal
    requires within { (tok.start ≤ tok.end) × (tok.end ≤ length text.now) }
    requires mark { tok.kind ≡ Punct }
    ensures { result ≡ record { symbol = symbol_of tok.kind (text_of text.now tok); number = number } }
{
    Terminal {
        symbol: symbol_of_punct(bytes_of(text, tok)),
        number,
    }
}

/// What the grammar sees of the token with this number, which is neither a word nor a mark.
fn other_terminal(text: &[u8], tok: Tok, number: u32) -> Terminal
    requires within { (tok.start ≤ tok.end) × (tok.end ≤ length text.now) }
    requires word { tok.kind ≢ Word }
    requires mark { tok.kind ≢ Punct }
    ensures { result ≡ record { symbol = symbol_of tok.kind (text_of text.now tok); number = number } }
{
    Terminal {
        symbol: other_symbol(tok.kind, bytes_of(text, tok)),
        number,
    }
}

/// What the grammar sees of the token with this number.
pub(crate) fn terminal_of(text: &[u8], tok: Tok, number: u32) -> Terminal
    requires { (tok.start ≤ tok.end) × (tok.end ≤ length text.now) }
    ensures { result ≡ record { symbol = symbol_of tok.kind (text_of text.now tok); number = number } }
{
    if tok.kind.is_word() {
        word_terminal(text, tok, number)
    } else if tok.kind.is_punct() {
        punct_terminal(text, tok, number)
    } else {
        other_terminal(text, tok, number)
    }
}

/// How many brackets opened and closed with this mark, or none where it ends the statement.
#[tactic(auto, unfolding(sql_token::specs::Terminal::is_semicolon, sql_token::specs::Terminal::is_opener, sql_token::specs::Terminal::is_closer))]
fn count_brackets(opened: usize, closed: usize, mark: Terminal) -> Option<(usize, usize)>
    requires few { (opened < 2 ^ 32) × (closed < 2 ^ 32) }
    ensures on { IfSome result (λ n. (opened == closed && is_semicolon mark) ≡ false) }
    ensures counts { IfSome result (λ n. (n.0 ≡ opened + one_if (is_opener mark)) × (n.1 ≡ closed + one_if (is_closer mark))) }
    ensures small { IfSome result (λ n. (n.0 ≤ opened + 1) × (n.1 ≤ closed + 1)) }
    ensures ends { IfNone result ((opened == closed && is_semicolon mark) ≡ true) }
{
    match mark.symbol {
        Symbol::Semicolon if opened == closed => None,
        Symbol::OpenRound | Symbol::OpenSquare => Some((opened + 1, closed)),
        Symbol::CloseRound | Symbol::CloseSquare => Some((opened, closed + 1)),
        _ => Some((opened, closed)),
    }
}

/// Puts the terminals of the words from the token with this number on after the others, over the white space between
/// them, and gives the number of the next token that is neither.
#[inline(always)]
fn push_words(
    text: &[u8],
    toks: &[Tok],
    first: usize,
    statement: &mut Vec<Terminal>,
) -> Result<usize, NoMemory>
    requires { IsWalk (length text.now) toks.now first }
    ensures { IfOk result (λ n. GoesOver text.now toks.now statement.old.items first statement.new.items n) }
{
    let mut number = first;
    while number < toks.len() {
        let tok = toks[number];
        if tok.kind.is_word() {
            statement.push(word_terminal(text, tok, number as u32))?;
            number += 1;
            continue;
        }
        if tok.kind.is_significant() {
            return Ok(number);
        }
        number += 1;
    }
    Ok(number)
}

/// Puts the terminals of the statement that begins at the token with this number into the empty
/// buffer, and gives the number of the token after it.
fn take_first(
    text: &[u8],
    toks: &[Tok],
    first: usize,
    statement: &mut Vec<Terminal>,
) -> Result<usize, NoMemory>
    requires walk { IsWalk (length text.now) toks.now first }
    requires empty { statement.old.items ≡ [] }
    ensures { IfOk result (λ n. IsFirst text.now toks.now first statement.new.items n) }
{
    let mut number = first;
    let mut opened = 0usize;
    let mut closed = 0usize;
    'marks: loop {
        number = push_words(text, toks, number, statement)?;
        if number >= toks.len() {
            return Ok(number);
        }
        let tok = toks[number];
        if !tok.kind.is_punct() {
            statement.push(other_terminal(text, tok, number as u32))?;
            number += 1;
            continue;
        }
        let terminal = punct_terminal(text, tok, number as u32);
        number += 1;
        let Some(counts) = count_brackets(opened, closed, terminal) else {
            statement.push(terminal)?;
            return Ok(number);
        };
        statement.push(terminal)?;
        (opened, closed) = counts;
    }
}
