//! Whether a transaction is open.

ghost use Rattle.std.specs.Prelude.{◌≡◌, ◌+◌, ◌&&◌, ◌||◌, not, ℕ, Bool};
ghost use Rattle.sql_tree.specs.Statement.{Tree};
ghost use Rattle.lint_transaction.specs.Transaction as spec;
ghost use Rattle.lint_transaction.specs.Transaction.{is_open, stmt_at};

use crate::statement::{begins, chains, ends};
use sql_tree::Stmt;
use std::marker::Model;

/// Whether a transaction is open, as a walk over the statements of one tree knows it. It takes no memory.
#[derive(Clone, Copy, Debug, PartialEq, Eq)]
pub struct OpenTransaction {
    is_inside: bool,
}

impl Model for OpenTransaction {
    ghost use Rattle.std.specs.Prelude.{Bool};

    ghost Value = { Bool };

    ghost view = { λ t. t.is_inside };

    ghost inverse = { λ b. record { is_inside = b } };
}

impl OpenTransaction {
    /// Before the first statement: a transaction is open where it is assumed.
    pub fn new(assume: bool) -> OpenTransaction
        ensures value { result ≡ assume }
        ensures start { (tree : Tree) → result ≡ is_open assume tree 0 }
    {
        OpenTransaction { is_inside: assume }
    }

    /// Goes after a statement.
    pub fn update(&mut self, s: &Stmt)
        ensures value { self.new ≡ (spec.begins s.now || spec.chains s.now || (self.old && not (spec.ends s.now))) }
        ensures tracks { (tree : Tree) (assumed : Bool) (i : ℕ) → s.now ≡ stmt_at tree i
            → self.old ≡ is_open assumed tree i → self.new ≡ is_open assumed tree (i + 1) }
    {
        self.go_after(s);
    }

    /// Whether a transaction is open changes at few statements, and is written at these alone.
    fn go_after(&mut self, s: &Stmt)
        ensures { self.new ≡ (spec.begins s.now || spec.chains s.now || (self.old && not (spec.ends s.now))) }
    {
        if begins(s) {
            self.is_inside = true;
        } else if ends(s) {
            self.is_inside = chains(s);
        }
    }

    /// Whether a transaction is open here.
    pub fn inside(&self) -> bool
        ensures { result ≡ self.now }
    {
        self.is_inside
    }
}
