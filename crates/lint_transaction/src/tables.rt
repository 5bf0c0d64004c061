//! The tables that the open transaction created.

ghost use Rattle.std.specs.Prelude.{◌≡◌, ◌+◌, ◌&&◌, ◌||◌, not, ℕ, Bool, List, [], IfOk, OnOk, OnErr};
ghost use Rattle.sql_tree.specs.Path.{path_cuts};
ghost use Rattle.sql_tree.specs.Statement.{Tree};
ghost use Rattle.sql_tree.specs.PathNames.{names_of};
ghost use Rattle.lint_transaction.specs.Transaction as spec;
ghost use Rattle.lint_transaction.specs.Transaction.{is_new, is_new_table, is_open, same_path, creates, stmt_at};
ghost use Rattle.lint_transaction.specs.Tracking.{IsTracking, IsAfter, holds};

use crate::open::OpenTransaction;
use crate::span_set::KEPT_CAPACITY;
use crate::statement::{created, ends};
use sql_tree::{NamePath, NoMemory, Parse, Span, Stmt};
use std::alloc::Global;
use std::collections::HashSet;
use std::marker::Model;

/// The tables that the open transaction created, as a walk over the statements of one tree knows them. The walk keeps it, and its
/// passes ask it.
#[derive(Drop)]
pub struct TablesCreatedInTransaction<'t> {
    alloc: Global,
    open: OpenTransaction,
    tables: HashSet<NamePath<'t>>,
}

impl<'t> Model for TablesCreatedInTransaction<'t> {
    ghost use Rattle.lint_transaction.specs.Tracking.{Known};
    ghost use Rattle.std.specs.Prelude.{map};
    ghost use Rattle.sql_tree.specs.PathNames.{names_of};

    ghost Value = { Known };

    ghost view = { λ t. record { is_open = t.open; tables = map names_of t.tables.keys } };
}

impl<'t> TablesCreatedInTransaction<'t> {
    /// Nothing is created yet; a transaction is open where it is assumed.
    pub fn new(alloc: Global, assume: bool) -> TablesCreatedInTransaction<'t>
        ensures { (tree : Tree) → IsTracking tree assume 0 result }
    {
        TablesCreatedInTransaction {
            alloc,
            open: OpenTransaction::new(assume),
            tables: HashSet::new(alloc),
        }
    }

    /// Whether a transaction is open here.
    pub fn is_inside(&self) -> bool
        ensures { (tree : Tree) (assumed : Bool) (i : ℕ) → IsTracking tree assumed i self.now → result ≡ is_open assumed tree i }
    {
        self.open.inside()
    }

    /// Whether the open transaction created the table of this path.
    pub fn contains(&self, path: &NamePath<'t>) -> bool
        ensures held { result ≡ holds self.now (names_of path.now) }
        ensures new { (tree : Tree) (assumed : Bool) (i : ℕ) → IsTracking tree assumed i self.now
            → result ≡ is_new assumed tree (names_of path.now) i }
    {
        self.tables.contains(path)
    }

    /// Whether the open transaction created the table of this path of the text. Where it created none, no path is built. The error
    /// comes when memory runs out.
    pub fn contains_at(&self, p: &Parse<'t>, path: Span) -> Result<bool, NoMemory>
        ensures { IfOk result (λ b. (assumed : Bool) (i : ℕ) → IsTracking p.now assumed i self.now
            → b ≡ is_new assumed p.now (path_cuts p.now.text p.now.toks path) i) }
    {
        if self.tables.is_empty() {
            Ok(false)
        } else {
            self.has_path(p, path)
        }
    }

    /// The same, where it created some. It is not inlined, since most transactions create none.
    #[inline(never)]
    fn has_path(&self, p: &Parse<'t>, path: Span) -> Result<bool, NoMemory>
        ensures { IfOk result (λ b. b ≡ holds self.now (path_cuts p.now.text p.now.toks path)) }
    {
        let path = NamePath::of(self.alloc, p, path)?;
        Ok(self.contains(&path))
    }

    /// Whether the open transaction created the table that a statement names, if it names one. The error comes when memory runs out.
    pub fn has_table(&self, p: &Parse<'t>, path: Option<Span>) -> Result<bool, NoMemory>
        ensures { IfOk result (λ b. (assumed : Bool) (i : ℕ) → IsTracking p.now assumed i self.now → b ≡ is_new_table assumed p.now i path) }
    {
        match path {
            Some(path) => self.contains_at(p, path),
            None => Ok(false),
        }
    }

    fn add(&mut self, path: NamePath<'t>) -> Result<(), NoMemory>
        ensures open { self.new.is_open ≡ self.old.is_open }
        ensures ok { OnOk result ((q : List (List ℕ)) → holds self.new q ≡ (same_path q (names_of path.entry) || holds self.old q)) }
        ensures err { OnErr result (self.new ≡ self.old) }
    {
        self.tables.insert(path)?;
        Ok(())
    }

    /// Puts the table of a path in. It is not inlined, since most statements create none.
    #[inline(never)]
    fn add_at(&mut self, p: &Parse<'t>, path: Span) -> Result<(), NoMemory>
        ensures open { self.new.is_open ≡ self.old.is_open }
        ensures ok { OnOk result ((q : List (List ℕ)) → holds self.new q
            ≡ (same_path q (path_cuts p.now.text p.now.toks path) || holds self.old q)) }
        ensures err { OnErr result (self.new ≡ self.old) }
    {
        self.add(NamePath::of(self.alloc, p, path)?)
    }

    fn forget(&mut self)
        ensures open { self.new.is_open ≡ self.old.is_open }
        ensures tables { self.new.tables ≡ [] }
    {
        if !self.tables.is_empty() {
            self.forget_some();
        }
    }

    /// The same, where there are some. It is not inlined, since most transactions create none.
    #[inline(never)]
    fn forget_some(&mut self)
        ensures open { self.new.is_open ≡ self.old.is_open }
        ensures tables { self.new.tables ≡ [] }
    {
        if self.tables.capacity() <= KEPT_CAPACITY {
            self.tables.clear();
        } else {
            self.tables = HashSet::new(self.alloc);
        }
    }

    /// Goes after a statement of the tree. After a refusal, which comes when memory runs out, nothing has changed. It is inlined,
    /// since most statements only ask for two comparisons.
    #[inline(always)]
    pub fn update(&mut self, p: &Parse<'t>, s: &Stmt) -> Result<(), NoMemory>
        ensures ok { OnOk result (IsAfter p.now s.now self.old self.new) }
        ensures tracks { OnOk result ((assumed : Bool) (i : ℕ) → s.now ≡ stmt_at p.now i
            → IsTracking p.now assumed i self.old → IsTracking p.now assumed (i + 1) self.new) }
        ensures err { OnErr result (self.new ≡ self.old) }
    {
        self.go_after(p, s)
    }

    #[inline(always)]
    fn go_after(&mut self, p: &Parse<'t>, s: &Stmt) -> Result<(), NoMemory>
        ensures ok { OnOk result (IsAfter p.now s.now self.old self.new) }
        ensures err { OnErr result (self.new ≡ self.old) }
    {
        self.create_or_forget(p, s)?;
        self.open.update(s);
        Ok(())
    }

    #[inline(always)]
    fn create_or_forget(&mut self, p: &Parse<'t>, s: &Stmt) -> Result<(), NoMemory>
        ensures open { self.new.is_open ≡ self.old.is_open }
        ensures ok { OnOk result ((q : List (List ℕ)) → holds self.new q
            ≡ ((creates p.now q s.now && self.old.is_open) || (holds self.old q && not (spec.ends s.now)))) }
        ensures err { OnErr result (self.new ≡ self.old) }
    {
        if ends(s) {
            self.forget();
            Ok(())
        } else if self.open.inside() {
            self.create(p, s)
        } else {
            Ok(())
        }
    }

    #[inline(always)]
    fn create(&mut self, p: &Parse<'t>, s: &Stmt) -> Result<(), NoMemory>
        ensures open { self.new.is_open ≡ self.old.is_open }
        ensures ok { OnOk result ((q : List (List ℕ)) → holds self.new q ≡ (creates p.now q s.now || holds self.old q)) }
        ensures err { OnErr result (self.new ≡ self.old) }
    {
        match created(s) {
            None => Ok(()),
            Some(path) => self.add_at(p, path),
        }
    }
}
