//! The tree of a text.

ghost use Rattle.std.specs.Prelude.{◌≡◌, ◌<◌, ◌≤◌, ◌^◌, ◌↔◌, ℕ, length, slice_index_or, IfOk, IfErr};
ghost use Rattle.sql_token.specs.Token.{OpenAt, Lexed};
ghost use Rattle.sql_tree.specs.Statement.{Tree, IsTree, IsSyntaxAt, all_statements, read_tokens, no_token};
ghost use Rattle.sql_read.specs.Cause.{Reads, IsCause, IsTreeOf, OkOrNoMemory, ErrOrNoMemory};

use crate::error::LintError;
use crate::form::push_statement;
use sql_action::{LexError, Statements, lex, span_of};
use sql_token::{Terminal, Tok};
use sql_tree::{NoMemory, Parse, SourceFile, Stmt};
use sqlite_items::Items;
use std::alloc::{AllocError, Global};

/// Why reading stopped: at the statement that begins with this token, or because memory ran out.
#[derive(Clone, Copy, Debug, PartialEq, Eq)]
pub enum Stop {
    NoForm { first: u32 },
    NoMemory,
}

impl From<NoMemory> for Stop {
    ghost use Rattle.sql_read.specs.declared.reading.Stop.TheVariants as stop;

    ghost from_gives = { λ _ e. e ≡ stop.NoMemory };

    fn from(_error: NoMemory) -> Stop {
        Stop::NoMemory
    }
}

impl From<AllocError> for Stop {
    ghost use Rattle.sql_read.specs.declared.reading.Stop.TheVariants as stop;

    ghost from_gives = { λ _ e. e ≡ stop.NoMemory };

    fn from(_error: AllocError) -> Stop {
        Stop::NoMemory
    }
}

/// All statements that are still to come.
#[inline(never)]
fn read_all(alloc: Global, left: Statements<'_>) -> Result<Items<Stmt>, Stop>
    ensures { Reads (all_statements left.entry) result }
{
    let mut stmts = Items::new(alloc);
    let mut left = left;
    let mut terminals: Vec<Terminal> = Vec::new(alloc);
    'reading: loop {
        let more = left.next_into(&mut terminals)?;
        if !more {
            return Ok(stmts);
        }
        if !push_statement(alloc, &mut stmts, terminals.as_slice())? {
            return Err(Stop::NoForm {
                first: span_of(terminals.as_slice()).first,
            });
        }
    }
}

/// The start of a token, by its number.
fn start_of(toks: &[Tok], number: u32) -> u32
    ensures { result ≡ (slice_index_or toks.now number no_token).start }
{
    match toks.get(number as usize) {
        Some(tok) => tok.start,
        None => 0,
    }
}

/// The tree of a text whose tokens these are.
#[tactic(auto, unfolding(sql_tree::specs::Statement::read_tokens))]
fn read_tree<'t>(alloc: Global, text: &'t str, toks: Vec<Tok>) -> Result<Parse<'t>, LintError>
    requires short { length text.now < 2 ^ 32 }
    requires lexed { Lexed text.now toks.items }
    ensures ok { IfOk result (IsTreeOf text.entry.now) }
    ensures err { IfErr result (IsCause text.entry.now) }
{
    match read_all(alloc, Statements::new(text, toks.as_slice())) {
        Ok(stmts) => Ok(Parse::new(text, toks, SourceFile { stmts })),
        Err(Stop::NoForm { first }) => Err(LintError::Syntax {
            at: start_of(toks.as_slice(), first),
        }),
        Err(Stop::NoMemory) => Err(LintError::NoMemory),
    }
}

/// The tree of a text, each refusal with its cause.
fn read_text<'t>(alloc: Global, text: &'t str) -> Result<Parse<'t>, LintError>
    ensures ok { IfOk result (IsTreeOf text.entry.now) }
    ensures err { IfErr result (IsCause text.entry.now) }
    ensures too_long { (result ≡ Err LintError.TooLong) ↔ (2 ^ 32 ≤ length text.entry.now) }
{
    if text.len() >= 4294967296 {
        return Err(LintError::TooLong);
    }
    match lex(alloc, text) {
        Ok(toks) => read_tree(alloc, text, toks),
        Err(LexError::Unterminated { at }) => Err(LintError::Unterminated { at }),
        Err(LexError::NoMemory) => Err(LintError::NoMemory),
    }
}

/// The tree of a text.
///
/// The text is cut into tokens whole before any statement is read, so `Unterminated` comes before `Syntax`. `at` is
/// the byte at which the token or the statement begins.
pub fn parse<'t>(alloc: Global, text: &'t str) -> Result<Parse<'t>, LintError>
    ensures ok { IfOk result (IsTreeOf text.entry.now) }
    ensures err { IfErr result (IsCause text.entry.now) }

    // No clause says when memory runs out.
    ensures too_long { (result ≡ Err LintError.TooLong) ↔ (2 ^ 32 ≤ length text.entry.now) }
    ensures valid { (tree : Tree) → IsTreeOf text.entry.now tree → OkOrNoMemory result (λ p. p ≡ tree) }
    ensures unterminated { (at : ℕ) → length text.entry.now < 2 ^ 32 → OpenAt text.entry.now at
        → ErrOrNoMemory result (LintError.Unterminated at) }
    ensures syntax { (at : ℕ) → IsSyntaxAt text.entry.now at → ErrOrNoMemory result (LintError.Syntax at) }
{
    read_text(alloc, text)
}
