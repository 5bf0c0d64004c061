//! A text with its tokens and its tree.

ghost use Rattle.std.specs.Prelude.{◌≡◌, ◌<◌, ◌≤◌, ◌-◌, length, slice_get, Some, take, drop};
ghost use Rattle.sql_name.specs.text_pos.Range.{Range};
ghost use Rattle.sql_token.specs.Token.{text_of};
ghost use Rattle.sql_tree.specs.Statement.{Tree, IsTree};
ghost use Rattle.sql_tree.specs.Range.{token_at, span_range_of, stmt_range_of};

use crate::nodes::{SourceFile, Stmt};
use sql_name::{TextRange, TextSize};
use sql_token::{Tok, TokKind};
use std::marker::Model;

/// A text, its tokens and its tree: the one tree that the text has.
#[derive(Drop)]
pub struct Parse<'t> {
    text: &'t str,
    toks: Vec<Tok>,
    file: SourceFile,
}

impl<'t> Model for Parse<'t> {
    ghost use Rattle.sql_tree.specs.Statement.{Tree, IsTree};

    ghost Value = { Tree };

    ghost use Rattle.sql_tree.specs.contracts.nodes.Expr as expr;
    ghost use Rattle.std.specs.Coded.{codes};

    ghost coded = { Prim.hlevel (codes, expr.the_row.coded) };

    ghost view = { λ p. record { text = p.text.now; toks = p.toks.items; stmts = p.file.stmts } };

    ghost invariant = { λ p. IsTree (record { text = p.text.now; toks = p.toks.items; stmts = p.file.stmts }) };
}

impl<'t> Parse<'t> {
    /// The text with its tokens and its tree, which the caller has.
    pub fn new(text: &'t str, toks: Vec<Tok>, file: SourceFile) -> Parse<'t>
        requires { IsTree (record { text = text.now; toks = toks.items; stmts = file.stmts }) }
        ensures { result ≡ record { text = text.entry.now; toks = toks.items; stmts = file.stmts } }
    {
        Parse { text, toks, file }
    }

    /// The text.
    pub fn text(&self) -> &'t str
        ensures value { result.now ≡ self.now.text }
        ensures tree { IsTree self.now }
    {
        self.text
    }

    /// The statements of the text, in order.
    pub fn tree(&self) -> &SourceFile
        ensures value { result.now.stmts ≡ self.now.stmts }
        ensures tree { IsTree self.now }
    {
        &self.file
    }

    /// The tokens of the text, in order, blanks and comments among them.
    pub fn tokens(&self) -> &[Tok]
        ensures value { result.now ≡ self.now.toks }
        ensures tree { IsTree self.now }
    {
        self.toks.as_slice()
    }

    /// The token of this number; past the last one, an empty token at the start of the text.
    fn token(&self, number: u32) -> Tok
        ensures { result ≡ token_at self.now.toks number }
    {
        match self.toks.get(number as usize) {
            Some(tok) => *tok,
            None => Tok {
                kind: TokKind::Other,
                start: 0,
                end: 0,
            },
        }
    }

    /// The text of token `i`.
    pub fn token_text(&self, i: usize) -> &'t str
        requires { i < length self.now.toks }
        ensures { result.now ≡ text_of self.now.text (token_at self.now.toks i) }
    {
        let text = self.text();
        let tok = self.toks[i];
        &text[tok.start as usize..tok.end as usize]
    }

    /// The bytes from the start of token `first` to the end of token `last`.
    pub fn span_range(&self, first: u32, last: u32) -> TextRange
        ensures { result ≡ span_range_of self.now.toks first last }
    {
        let start = self.token(first).start;
        let end = self.token(last).end;
        TextRange::new(TextSize::new(start), TextSize::new(start.max(end)))
    }

    /// The bytes of a statement, its semicolon included.
    pub fn stmt_range(&self, s: &Stmt) -> TextRange
        ensures { result ≡ stmt_range_of self.now.toks s.now }
    {
        self.span_range(s.first, s.last)
    }
}
