//! A place among the statements of a tree.

ghost use Rattle.std.specs.Prelude.{◌≡◌, ◌+◌, ◌<◌, ◌^◌, length, IfSome, IfNone, is_some, if◌then◌else◌};
ghost use Rattle.lint_ignore.specs.sql_tree.Statement.{IsTree};
ghost use Rattle.lint_transaction.specs.Transaction.{stmt_at};

use crate::steps::Steps;
use lint_ignore::{Parse, Stmt};
use std::marker::Model;
use std::sync::ledger::Ledger;

/// A place among the statements of a tree: it lends one statement after another. It takes no memory.
#[derive(Drop)]
pub struct Cursor<'a, 't> {
    file: &'a Parse<'t>,
    next: u32,
}

impl<'a, 't> Model for Cursor<'a, 't> {
    ghost use Rattle.std.specs.Prelude.{◌≤◌, length};
    ghost use Rattle.lint_pass.specs.Walk.{Walk};

    ghost Value = { Walk };

    ghost use Rattle.lint_ignore.specs.sql_tree.contracts.nodes.Expr as expr;
    ghost use Rattle.std.specs.Coded.{codes};

    ghost coded = { Prim.hlevel (codes, expr.the_row.coded) };

    ghost view = { λ c. record { tree = c.file.now; next = c.next } };

    ghost invariant = { λ c. c.next ≤ length c.file.now.stmts };
}

impl<'a, 't> Cursor<'a, 't> {
    /// Before the first statement.
    pub fn new(file: &'a Parse<'t>) -> Cursor<'a, 't>
        ensures tree { result.tree ≡ file.entry.now }
        ensures start { result.next ≡ 0 }
    {
        Cursor { file, next: 0 }
    }

    /// The text whose statements it lends.
    pub fn file(&self) -> &'a Parse<'t>
        ensures { result.now ≡ self.now.tree }
    {
        self.file
    }

    /// The next statement with its number, counted from 0, which is one step; `None` after the last one, which is
    /// none.
    pub fn next<L: Ledger>(&mut self, steps: &mut Steps<L>) -> Option<(u32, &'a Stmt)>
        ensures tree { self.new.tree ≡ self.old.tree }
        ensures end { IfNone result (self.old.next ≡ length self.old.tree.stmts) }
        ensures within { IfSome result (λ _. self.old.next < length self.old.tree.stmts) }
        ensures number { IfSome result (λ x. x.0 ≡ self.old.next) }
        ensures stmt { IfSome result (λ x. x.1.now ≡ stmt_at self.old.tree self.old.next) }
        ensures next { self.new.next ≡ (if is_some result then self.old.next + 1 else self.old.next) }
        ensures steps { steps.new ≡ (if is_some result then steps.old + 1 else steps.old) }
    {
        let stmts = statements(self.file);
        let i = self.next;
        if (i as usize) < stmts.len() {
            steps.tick();
            self.next = i + 1;
            Some((i, &stmts[i as usize]))
        } else {
            None
        }
    }

    /// Before the first statement again.
    pub fn rewind(&mut self)
        ensures tree { self.new.tree ≡ self.old.tree }
        ensures start { self.new.next ≡ 0 }
    {
        self.next = 0;
    }
}

// The statements of a tree, of which there are fewer than 2^32.
fn statements<'a>(p: &'a Parse<'_>) -> &'a [Stmt]
    ensures value { result.now ≡ p.now.stmts }
    ensures few { length result.now < 2 ^ 32 }
{
    p.tree().stmts.as_slice()
}
