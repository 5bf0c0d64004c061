//! The state of the lock machine, as a walk over the statements of one tree keeps it.

ghost use Rattle.std.specs.Prelude.{◌≡◌, ◌+◌, ◌-◌, ◌<◌, ◌≤◌, ◌^◌, ◌&&◌, ◌||◌, not, ℕ, List, Some, OnOk, OnErr, if◌then◌else◌};
ghost use Rattle.sql_tree.specs.Path.{path_cuts};
ghost use Rattle.sql_tree.specs.Statement.{Tree};
ghost use Rattle.lint_pass.specs.lint_transaction.SpanMap.{get_span};
ghost use Rattle.lint_pass.specs.lint_transaction.Transaction as one;
ghost use Rattle.lint_pass.specs.lint_transaction.Transaction.{is_path};
ghost use Rattle.lock_machine.specs.Machine as spec;
ghost use Rattle.lock_machine.specs.Machine.{after, is_young, start};
ghost use Rattle.lock_machine.specs.MachineWalk.{IsMachine};
ghost use Rattle.lock_machine.specs.Works as works;

use lint_pass::{NoMemory, Span, SpanKey, SpanMap, begins, chains, created, ends};
use sql_tree::{Parse, Stmt};
use std::alloc::Global;
use std::marker::Model;

/// The number of the last transaction that was begun, whether it is open as a block, and for each table that the text created
/// the number of the transaction that created it. It holds no text, and finds a table by a hash of its names.
#[derive(Drop)]
pub(crate) struct Machine {
    number: u32,
    in_block: bool,
    births: SpanMap<u32>,
}

impl Model for Machine {
    ghost use Rattle.std.specs.Prelude.{◌≡◌};
    ghost use Rattle.lock_machine.specs.MachineWalk.{Kept};
    ghost use Rattle.lint_pass.specs.lint_transaction.declared.span_key.SpanKey.TheVariants as by;

    ghost Value = { Kept };

    ghost view = { λ m. record { number = m.number; in_block = m.in_block; births = m.births } };

    ghost invariant = { λ m. m.births.key ≡ by.Path };
}

impl Machine {
    /// Before the first statement: a block is open where it is assumed.
    pub fn new(alloc: Global, assumed: bool) -> Machine
        ensures number { result.number ≡ 0 }
        ensures start { (tree : Tree) → IsMachine tree (start assumed) result }
    {
        Machine {
            number: 0,
            in_block: assumed,
            births: SpanMap::new(alloc, SpanKey::Path),
        }
    }

    /// The number of the transaction that the next statement runs in.
    fn running(&self) -> u32
        requires { self.now.number < 2 ^ 32 - 1 }
        ensures { result ≡ (if self.now.in_block then self.now.number else self.now.number + 1) }
    {
        if self.in_block {
            self.number
        } else {
            self.number + 1
        }
    }

    /// Whether the running transaction created the table of this path.
    fn is_young(&self, p: &Parse<'_>, path: Span) -> bool
        requires { self.now.number < 2 ^ 32 - 1 }
        ensures { (m : spec.Machine) → IsMachine p.now m self.now → result ≡ is_young m (path_cuts p.now.text p.now.toks path) }
    {
        match self.births.get(p, path) {
            Some(born) => born == self.running(),
            None => false,
        }
    }

    /// Whether work on the table of this path is old: it has no path, or the running transaction did not create it.
    pub fn is_old(&self, p: &Parse<'_>, path: Option<Span>) -> bool
        requires { self.now.number < 2 ^ 32 - 1 }
        ensures { (m : spec.Machine) → IsMachine p.now m self.now → result ≡ works.is_old p.now m path }
    {
        match path {
            Some(path) => !self.is_young(p, path),
            None => true,
        }
    }

    /// A table that a statement creates is born in the running transaction.
    fn create(&mut self, p: &Parse<'_>, s: &Stmt) -> Result<(), NoMemory>
        requires { self.old.number < 2 ^ 32 - 1 }
        ensures number { self.new.number ≡ self.old.number }
        ensures block { self.new.in_block ≡ self.old.in_block }
        ensures ok { OnOk result ((path : List (List ℕ)) → get_span p.now self.new.births path
            ≡ (if is_path p.now (one.created s.now) path then Some (if self.old.in_block then self.old.number else self.old.number + 1) else get_span p.now self.old.births path)) }
        ensures err { OnErr result (self.new ≡ self.old) }
    {
        let running = self.running();
        match created(s) {
            Some(path) => self.births.put(p, path, running),
            None => Ok(()),
        }
    }

    /// Takes the next number, unless the block goes on.
    fn count(&mut self, s: &Stmt)
        requires { self.old.number < 2 ^ 32 - 1 }
        ensures number { self.new.number ≡ (if self.old.in_block && not (one.ends s.now) then self.old.number else self.old.number + 1) }
        ensures block { self.new.in_block ≡ self.old.in_block }
        ensures births { self.new.births ≡ self.old.births }
    {
        if !self.in_block || ends(s) {
            self.number += 1;
        }
    }

    /// Opens or closes a block.
    fn set_block(&mut self, s: &Stmt)
        ensures number { self.new.number ≡ self.old.number }
        ensures block { self.new.in_block ≡ (if one.ends s.now then one.chains s.now else one.begins s.now || self.old.in_block) }
        ensures births { self.new.births ≡ self.old.births }
    {
        self.in_block = if ends(s) {
            chains(s)
        } else {
            begins(s) || self.in_block
        };
    }

    /// Goes after a statement. The error comes when memory runs out.
    pub fn update(&mut self, p: &Parse<'_>, s: &Stmt) -> Result<(), NoMemory>
        requires { self.old.number < 2 ^ 32 - 1 }
        ensures few { self.new.number ≤ self.old.number + 1 }
        ensures ok { OnOk result ((m : spec.Machine) → IsMachine p.now m self.old → IsMachine p.now (after p.now s.now m) self.new) }
        ensures err { OnErr result (self.new ≡ self.old) }
    {
        self.create(p, s)?;
        self.count(s);
        self.set_block(s);
        Ok(())
    }
}
