//! Later statements that look whether an index is valid.

ghost use Rattle.std.specs.Prelude.{◌≡◌, ◌<◌, ◌+◌, ◌++◌, length, IfOk, OnOk};
ghost use Rattle.std.specs.List.{list_any};
ghost use Rattle.lint_ignore.specs.sql_tree.Range.{token_at};
ghost use Rattle.hazard_find.specs.Guards as spec;
ghost use Rattle.hazard_find.specs.Look.{text_at};

use crate::shown::{bare, shows};
use hazard_base::NoMemory;
use lint_ignore::{Body, Parse, Span, Stmt, StmtKind};
use lint_node::same_kind;
use std::alloc::Global;

/// The column of pg_index that says whether an index is valid.
const COLUMN: &str = "indisvalid";

/// A statement that looks whether indexes are valid.
#[derive(Clone, Copy, Drop)]
pub(crate) struct Look {
    /// The number of the statement.
    pub number: usize,
    /// The number of its first token.
    pub first: u32,
    /// The number of its last token.
    pub last: u32,
}

/// Whether a statement is CREATE INDEX CONCURRENTLY IF NOT EXISTS.
#[tactic(auto, unfolding(crate::specs::Guards::keeps))]
pub(crate) fn keeps(s: &Stmt) -> bool
    ensures { result ≡ spec.keeps s.now }
{
    match s.body {
        Body::Index {
            concurrently,
            guarded,
            ..
        } => concurrently.is_some() && guarded,
        _ => false,
    }
}

fn any_keeps(stmts: &[Stmt]) -> bool
    ensures { result ≡ list_any spec.keeps stmts.now }
{
    stmts.iter().any(|s| keeps(s))
}

/// Whether a token is no comment, and has a word in it.
fn token_shows(p: &Parse<'_>, word: &[u8], i: usize) -> bool
    requires { i < length p.now.toks }
    ensures { result ≡ spec.token_shows word.now p.now.text (token_at p.now.toks i) }
{
    p.tokens()[i].kind.is_significant() && shows(word, p.token_text(i).as_bytes())
}

/// Whether a token from the first number to the last one has a word in it.
fn tokens_show(p: &Parse<'_>, word: &[u8], first: u32, last: u32) -> bool
    ensures { result ≡ spec.tokens_show p.now word.now (last + 1) first }
{
    let next = first as usize;
    let end = last as usize + 1;
    let limit = p.tokens().len().min(end);
    for i in next..limit {
        if token_shows(p, word, i) {
            return true;
        }
    }
    false
}

fn is_look_kind(kind: StmtKind) -> bool
    ensures { result ≡ spec.is_look_kind kind }
{
    same_kind(kind, StmtKind::Do) || same_kind(kind, StmtKind::Select)
}

/// Whether a statement looks at [`COLUMN`].
#[tactic(auto, unfolding(crate::specs::Guards::is_look))]
fn is_look(p: &Parse<'_>, s: &Stmt) -> bool
    ensures { result ≡ spec.is_look p.now s.now }
{
    is_look_kind(s.kind) && tokens_show(p, COLUMN.as_bytes(), s.first, s.last)
}

/// Adds statement `i`, if it looks.
fn push_look(list: &mut Vec<Look>, p: &Parse<'_>, i: usize, s: &Stmt) -> Result<(), NoMemory>
    ensures { OnOk result (list.new.items ≡ list.old.items ++ spec.look_of p.now i s.now) }
{
    if is_look(p, s) {
        list.push(Look {
            number: i,
            first: s.first,
            last: s.last,
        })?;
    }
    Ok(())
}

/// The statements that look, in a text that builds an index which they could be about. The only error is that memory runs out.
#[tactic(auto, unfolding(crate::specs::Guards::looks))]
pub(crate) fn find_looks(alloc: Global, p: &Parse<'_>) -> Result<Vec<Look>, NoMemory>
    ensures { IfOk result (λ list. list.items ≡ spec.looks p.now) }
{
    let stmts = p.tree().stmts.as_slice();
    let mut list = Vec::new(alloc);
    if !any_keeps(stmts) {
        return Ok(list);
    }
    for i in 0..stmts.len() {
        push_look(&mut list, p, i, &stmts[i])?;
    }
    Ok(list)
}

/// The text of a token, empty past the last one.
fn text_at<'t>(p: &Parse<'t>, number: u32) -> &'t str
    ensures { result.now ≡ text_at p.now number }
{
    let number = number as usize;
    if number < p.tokens().len() {
        p.token_text(number)
    } else {
        ""
    }
}

/// Whether a look comes after statement `i`, and has a word in it.
fn guards(p: &Parse<'_>, word: &[u8], i: usize, look: Look) -> bool
    ensures { result ≡ spec.guards p.now word.now i look }
{
    i < look.number && tokens_show(p, word, look.first, look.last)
}

/// Whether one of these looks does so.
fn any_guards(p: &Parse<'_>, word: &[u8], i: usize, looks: &[Look]) -> bool
    ensures { result ≡ list_any (spec.guards p.now word.now i) looks.now }
{
    looks.iter().any(|look| guards(p, word, i, *look))
}

/// Whether a statement after statement `i` looks at [`COLUMN`], and has the name of the index in it.
#[tactic(auto, unfolding(crate::specs::Guards::is_guarded))]
pub(crate) fn is_guarded(p: &Parse<'_>, looks: &[Look], i: usize, name: Option<Span>) -> bool
    requires { looks.now ≡ spec.looks p.now }
    ensures { result ≡ spec.is_guarded p.now i name }
{
    match name {
        Some(name) => any_guards(p, bare(text_at(p, name.first).as_bytes()), i, looks),
        None => false,
    }
}
