//! What earlier statements say, as a walk over the statements of one tree keeps it.

ghost use Rattle.std.specs.Prelude.{◌≡◌, ◌+◌, ◌||◌, ℕ, Bool, List, true, IfOk, OnOk, OnErr};
ghost use Rattle.std.specs.List.{list_any};
ghost use Rattle.lint_ignore.specs.sql_tree.Path.{path_cuts};
ghost use Rattle.lint_ignore.specs.sql_tree.Statement.{Tree};
ghost use Rattle.lint_transaction.specs.SpanSet.{has_span};
ghost use Rattle.lint_transaction.specs.Transaction.{is_open, is_path, same_path, stmt_at};
ghost use Rattle.lint_transaction.specs.declared.span_key.SpanKey.TheVariants as by;
ghost use Rattle.hazard_find.specs.Earlier as spec;
ghost use Rattle.hazard_find.specs.Earlier.{drops, is_dropped, is_dropped_index, is_made_view, is_old, is_under_timeout, last_cut};
ghost use Rattle.hazard_find.specs.Walk.{IsKept};

use crate::look::path_after;
use crate::timeouts::is_set_after;
use hazard_base::NoMemory;
use lint_ignore::{Body, Keyword, Parse, Span, Stmt, StmtKind};
use lint_node::same_kind;
use lint_transaction::{SpanKey, SpanSet, TablesCreatedInTransaction};
use std::alloc::Global;
use std::marker::Model;

const LOCK_TIMEOUT: &str = "lock_timeout";

const STATEMENT_TIMEOUT: &str = "statement_timeout";

fn temporary_table(s: &Stmt) -> Option<Span>
    ensures { result ≡ spec.temporary_by s.now.body }
{
    match s.body {
        Body::Table {
            temp: true,
            path,
            ..
        } => Some(path),
        _ => None,
    }
}

/// The paths of a DROP INDEX IF EXISTS.
fn dropped_indexes(s: &Stmt) -> &[Span]
    ensures { result.now ≡ spec.dropped_by s.now.kind s.now.body }
{
    match &s.body {
        Body::Drop { guarded, paths, .. } => {
            if same_kind(s.kind, StmtKind::DropIndex) && *guarded {
                paths.as_slice()
            } else {
                &[]
            }
        }
        _ => &[],
    }
}

#[tactic(auto, unfolding(crate::specs::Earlier::made_view))]
fn made_view(p: &Parse<'_>, s: &Stmt) -> Option<Span>
    ensures { result ≡ spec.made_view p.now s.now }
{
    if same_kind(s.kind, StmtKind::CreateMaterializedView) {
        path_after(
            p,
            &[Keyword::CREATE, Keyword::MATERIALIZED, Keyword::VIEW],
            &[Keyword::IF, Keyword::NOT, Keyword::EXISTS],
            s,
        )
    } else {
        None
    }
}

/// The view that a REFRESH without CONCURRENTLY fills anew.
#[tactic(auto, unfolding(crate::specs::Earlier::refreshed_view))]
pub(crate) fn refreshed_view(p: &Parse<'_>, s: &Stmt) -> Option<Span>
    ensures { result ≡ spec.refreshed_view p.now s.now }
{
    if same_kind(s.kind, StmtKind::Refresh) {
        path_after(
            p,
            &[Keyword::REFRESH, Keyword::MATERIALIZED, Keyword::VIEW],
            &[],
            s,
        )
    } else {
        None
    }
}

/// The name that a token gives, as a path of its own.
fn one_name(number: u32) -> Span
    ensures { result ≡ record { first = number; last = number } }
{
    Span {
        first: number,
        last: number,
    }
}

/// Puts a path in, where there is one.
fn insert_path(set: &mut SpanSet, p: &Parse<'_>, path: Option<Span>) -> Result<(), NoMemory>
    requires { set.old.key ≡ by.Path }
    ensures key { set.new.key ≡ by.Path }
    ensures ok { OnOk result ((names : List (List ℕ)) → has_span p.now set.new names ≡ (is_path p.now path names || has_span p.now set.old names)) }
{
    match path {
        Some(path) => set.insert(p, path),
        None => Ok(()),
    }
}

/// Puts the last names of paths in.
fn insert_names(set: &mut SpanSet, p: &Parse<'_>, paths: &[Span]) -> Result<(), NoMemory>
    requires { set.old.key ≡ by.Path }
    ensures key { set.new.key ≡ by.Path }
    ensures ok { OnOk result ((names : List (List ℕ)) → has_span p.now set.new names
        ≡ (list_any (λ path. same_path names (last_cut p.now path.last)) paths.now || has_span p.now set.old names)) }
{
    for path in paths {
        set.insert(p, one_name(path.last))?;
    }
    Ok(())
}

fn insert_temporary(set: &mut SpanSet, p: &Parse<'_>, s: &Stmt) -> Result<(), NoMemory>
    requires { set.old.key ≡ by.Path }
    ensures key { set.new.key ≡ by.Path }
    ensures ok { OnOk result ((names : List (List ℕ)) → has_span p.now set.new names
        ≡ (is_path p.now (spec.temporary_by s.now.body) names || has_span p.now set.old names)) }
{
    insert_path(set, p, temporary_table(s))
}

fn insert_dropped(set: &mut SpanSet, p: &Parse<'_>, s: &Stmt) -> Result<(), NoMemory>
    requires { set.old.key ≡ by.Path }
    ensures key { set.new.key ≡ by.Path }
    ensures ok { OnOk result ((names : List (List ℕ)) → has_span p.now set.new names
        ≡ (drops p.now names s.now || has_span p.now set.old names)) }
{
    insert_names(set, p, dropped_indexes(s))
}

fn insert_made(set: &mut SpanSet, p: &Parse<'_>, s: &Stmt) -> Result<(), NoMemory>
    requires { set.old.key ≡ by.Path }
    ensures key { set.new.key ≡ by.Path }
    ensures ok { OnOk result ((names : List (List ℕ)) → has_span p.now set.new names
        ≡ (is_path p.now (spec.made_view p.now s.now) names || has_span p.now set.old names)) }
{
    insert_path(set, p, made_view(p, s))
}

/// What earlier statements say.
#[derive(Drop)]
pub(crate) struct Earlier<'t> {
    created: TablesCreatedInTransaction<'t>,
    temporary: SpanSet,
    dropped: SpanSet,
    made: SpanSet,
    lock_limited: bool,
    statement_limited: bool,
}

impl<'t> Model for Earlier<'t> {
    ghost use Rattle.std.specs.Prelude.{◌≡◌};
    ghost use Rattle.hazard_find.specs.Walk.{Kept};
    ghost use Rattle.lint_transaction.specs.declared.span_key.SpanKey.TheVariants as by;

    ghost Value = { Kept };

    ghost view = { λ e. record { created = e.created; temporary = e.temporary; dropped = e.dropped; made = e.made; lock_limited = e.lock_limited; statement_limited = e.statement_limited } };

    ghost invariant = { λ e. (e.temporary.key ≡ by.Path) × (e.dropped.key ≡ by.Path) × (e.made.key ≡ by.Path) };
}

impl<'t> Earlier<'t> {
    /// Before the first statement.
    pub fn new(alloc: Global, assumed: bool) -> Earlier<'t>
        ensures { (tree : Tree) → IsKept tree assumed 0 result }
    {
        Earlier {
            created: TablesCreatedInTransaction::new(alloc, assumed),
            temporary: SpanSet::new(alloc, SpanKey::Path),
            dropped: SpanSet::new(alloc, SpanKey::Path),
            made: SpanSet::new(alloc, SpanKey::Path),
            lock_limited: false,
            statement_limited: false,
        }
    }

    /// Whether a transaction is open here.
    pub fn is_inside(&self) -> bool
        ensures { (tree : Tree) (assumed : Bool) (i : ℕ) → IsKept tree assumed i self.now → result ≡ is_open assumed tree i }
    {
        self.created.is_inside()
    }

    /// Whether others may use a table. The only error is that memory runs out.
    #[tactic(auto, unfolding(crate::specs::Earlier::is_old))]
    pub fn is_old(&self, p: &Parse<'t>, path: Option<Span>) -> Result<bool, NoMemory>
        ensures { IfOk result (λ b. (assumed : Bool) (i : ℕ) → IsKept p.now assumed i self.now → b ≡ is_old assumed p.now i path) }
    {
        match path {
            Some(path) => {
                let is_new = self.created.contains_at(p, path)?;
                Ok(!(is_new || self.temporary.contains(p, path)))
            }
            None => Ok(true),
        }
    }

    /// Whether an index of this name was dropped, if it was there.
    #[tactic(auto, unfolding(crate::specs::Earlier::is_dropped_index))]
    pub fn is_dropped_index(&self, p: &Parse<'_>, name: Option<Span>) -> bool
        ensures { (assumed : Bool) (i : ℕ) → IsKept p.now assumed i self.now → result ≡ is_dropped_index p.now i name }
    {
        match name {
            Some(name) => self.dropped.contains(p, name),
            None => false,
        }
    }

    /// Whether the text made a view.
    #[tactic(auto, unfolding(crate::specs::Earlier::is_made_view))]
    pub fn is_made_view(&self, p: &Parse<'_>, path: Option<Span>) -> bool
        ensures { (assumed : Bool) (i : ℕ) → IsKept p.now assumed i self.now → result ≡ is_made_view p.now i path }
    {
        match path {
            Some(path) => self.made.contains(p, path),
            None => false,
        }
    }

    /// Whether a timeout that the text set is in force.
    #[tactic(auto, unfolding(crate::specs::Earlier::is_under_timeout))]
    pub fn is_under_timeout(&self) -> bool
        ensures { (tree : Tree) (assumed : Bool) (i : ℕ) → IsKept tree assumed i self.now → result ≡ is_under_timeout tree i }
    {
        self.lock_limited || self.statement_limited
    }

    /// Goes past a statement. The only error is that memory runs out.
    pub fn update(&mut self, p: &Parse<'t>, s: &Stmt) -> Result<(), NoMemory>
        ensures { OnOk result ((assumed : Bool) (i : ℕ) → s.now ≡ stmt_at p.now i
            → IsKept p.now assumed i self.old → IsKept p.now assumed (i + 1) self.new) }
    {
        self.created.update(p, s)?;
        insert_temporary(&mut self.temporary, p, s)?;
        insert_dropped(&mut self.dropped, p, s)?;
        insert_made(&mut self.made, p, s)?;
        self.lock_limited = is_set_after(p, LOCK_TIMEOUT, s, self.lock_limited);
        self.statement_limited = is_set_after(p, STATEMENT_TIMEOUT, s, self.statement_limited);
        Ok(())
    }
}
