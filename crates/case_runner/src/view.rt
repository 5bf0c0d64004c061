//! The views of a tree.

use crate::facts::{show_comments, show_created, show_lock, show_names, show_transaction};
use crate::ranges::show_ranges;
use crate::row::{Show, add_parts};
use crate::shown_body::{actions_of, elements_of, show_checks};
use case_format::{Fault, TextBuilder};
use squawk_cli::sql_read::parse;
use squawk_cli::{Parse, Stmt};
use std::alloc::Global;

/// What is shown of each statement.
#[derive(Clone, Copy)]
pub(crate) enum Each {
    /// Its kind.
    Kind,
    /// All that is known of it.
    Statement,
    /// The ranges of it, of its actions and of their constraints.
    Ranges,
    /// The actions of an ALTER statement.
    Actions,
    /// The elements of a table.
    Elements,
    /// The expressions of the checks of a table.
    Checks,
    /// Whether it may take long, and its lock.
    Lock,
}

/// What is shown of a tree.
#[derive(Clone, Copy)]
pub(crate) enum View {
    /// Its statements, each by itself.
    Stmts(Each),
    /// For each CREATE INDEX whether its table was created in the open transaction, `y` or `n`.
    Created,
    /// For each statement and for the end whether a transaction is open before it, `y` or `n`.
    Transaction,
    /// The ignore comments, and whether one says that no transaction is to be assumed.
    Comments,
    /// What the ignore comments name, and which of the names are unknown or unused.
    Names,
}

impl Each {
    /// What is between two statements.
    fn separator(self) -> &'static str {
        match self {
            Each::Kind => " ",
            Each::Statement | Each::Ranges => " | ",
            _ => "",
        }
    }
}

impl View {
    /// The view of a name. Used by tests only; no contract.
    pub(crate) fn named(name: &str) -> Option<View> {
        match name {
            "kinds" => Some(View::Stmts(Each::Kind)),
            "statements" => Some(View::Stmts(Each::Statement)),
            "ranges" => Some(View::Stmts(Each::Ranges)),
            "actions" => Some(View::Stmts(Each::Actions)),
            "elements" => Some(View::Stmts(Each::Elements)),
            "checks" => Some(View::Stmts(Each::Checks)),
            "locks" => Some(View::Stmts(Each::Lock)),
            "created" => Some(View::Created),
            "transaction" => Some(View::Transaction),
            "comments" => Some(View::Comments),
            "names" => Some(View::Names),
            _ => None,
        }
    }
}

fn show_stmt(row: &mut TextBuilder, p: &Parse<'_>, each: Each, s: &Stmt) {
    match each {
        Each::Kind => row.debug("", &s.kind),
        Each::Statement => s.show(row, p),
        Each::Ranges => show_ranges(row, p, s),
        Each::Actions => add_parts(row, p, "", "; ", actions_of(&s.body)),
        Each::Elements => add_parts(row, p, "", "; ", elements_of(&s.body)),
        Each::Checks => show_checks(row, p, elements_of(&s.body)),
        Each::Lock => show_lock(row, p, s),
    }
}

fn show_stmts(row: &mut TextBuilder, p: &Parse<'_>, each: Each) {
    for s in p.tree().stmts.as_slice() {
        row.gap(each.separator());
        show_stmt(row, p, each, s);
    }
}

fn show_tree(alloc: Global, row: &mut TextBuilder, p: &Parse<'_>, view: View, assumed: bool) {
    match view {
        View::Stmts(each) => show_stmts(row, p, each),
        View::Created => show_created(alloc, row, p, assumed),
        View::Transaction => show_transaction(row, p, assumed),
        View::Comments => show_comments(row, p),
        View::Names => {
            if show_names(alloc, row, p).is_err() {
                row.fail();
            }
        }
    }
}

/// A view of the tree of a text, or why the text has none. Used by tests only; no contract.
pub(crate) fn viewed(
    alloc: Global,
    view: View,
    assumed: bool,
    text: &str,
) -> Result<String, Fault> {
    match parse(alloc, text) {
        Ok(p) => {
            let mut row = TextBuilder::new(alloc);
            show_tree(alloc, &mut row, &p, view, assumed);
            row.finish()
        }
        Err(e) => Ok(format!(in alloc; "{e}")?),
    }
}
