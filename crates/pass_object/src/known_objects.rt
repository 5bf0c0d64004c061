//! Tables, types and sequences that earlier statements create.

ghost use Rattle.std.specs.Prelude.{◌≡◌, ◌+◌, ◌||◌, ◌&&◌, ℕ, List, OnOk};
ghost use Rattle.lint_pass.specs.sql_tree.Path.{path_cuts};
ghost use Rattle.lint_pass.specs.sql_tree.Statement.{Tree};
ghost use Rattle.lint_pass.specs.lint_transaction.Transaction.{same_path, stmt_at};
ghost use Rattle.pass_object.specs.KnownObjects as spec;
ghost use Rattle.pass_object.specs.KnownObjects.{IsKnowing, has_object, is_known, same_object};
ghost use Rattle.pass_object.specs.declared.known_objects.Object.{Object};

use lint_pass::{Body, NoMemory, Parse, Span, SpanKey, SpanSet, Stmt, StmtKind};
use std::alloc::Global;
use std::marker::Model;

/// The kinds of objects that are known by their paths.
#[derive(Clone, Copy)]
enum Object {
    Table,
    Type,
    Sequence,
}

/// An object by its path.
#[derive(Clone, Copy)]
struct NamedObject {
    object: Object,
    path: Span,
}

/// The tables, types and sequences that the statements so far create. It holds no text: a pass may keep it in its state.
#[derive(Drop)]
pub struct KnownObjects {
    tables: SpanSet,
    types: SpanSet,
    sequences: SpanSet,
}

impl Model for KnownObjects {
    ghost use Rattle.std.specs.Prelude.{◌≡◌};
    ghost use Rattle.pass_object.specs.KnownObjects.{Objects};
    ghost use Rattle.lint_pass.specs.lint_transaction.declared.span_key.SpanKey.TheVariants as by;

    ghost Value = { Objects };

    ghost view = { λ k. record { tables = k.tables; types = k.types; sequences = k.sequences } };

    ghost invariant = { λ k. (k.tables.key ≡ by.Path) × (k.types.key ≡ by.Path) × (k.sequences.key ≡ by.Path) };
}

/// What a CREATE of the kind creates.
fn object_created(kind: StmtKind) -> Option<Object>
    ensures { result ≡ spec.object_created kind }
{
    match kind {
        StmtKind::CreateTable => Some(Object::Table),
        StmtKind::CreateType => Some(Object::Type),
        StmtKind::CreateSequence => Some(Object::Sequence),
        _ => None,
    }
}

/// What a statement of the kind changes.
fn object_changed(kind: StmtKind) -> Option<Object>
    ensures { result ≡ spec.object_changed kind }
{
    match kind {
        StmtKind::AlterTable | StmtKind::CreateIndex => Some(Object::Table),
        StmtKind::AlterType => Some(Object::Type),
        StmtKind::AlterSequence => Some(Object::Sequence),
        _ => None,
    }
}

fn named(object: Option<Object>, path: Option<Span>) -> Option<NamedObject>
    ensures { result ≡ spec.named object path }
{
    Some(NamedObject {
        object: object?,
        path: path?,
    })
}

/// The path of the object that a statement creates without IF NOT EXISTS.
fn path_created(body: &Body) -> Option<Span>
    ensures { result ≡ spec.path_created body.now }
{
    match body {
        Body::Table { guarded, path, .. } if !*guarded => Some(*path),
        Body::Made { path, guarded } if !*guarded => Some(*path),
        _ => None,
    }
}

/// The path of the object that a statement changes.
fn path_changed(body: &Body) -> Option<Span>
    ensures { result ≡ spec.path_changed body.now }
{
    match body {
        Body::Alter { path, .. } => *path,
        Body::Index { path, .. } => Some(*path),
        _ => None,
    }
}

/// The object that a statement creates without IF NOT EXISTS.
fn created(s: &Stmt) -> Option<NamedObject>
    ensures { result ≡ spec.created s.now }
{
    named(object_created(s.kind), path_created(&s.body))
}

/// The object that a statement changes.
fn changed(s: &Stmt) -> Option<NamedObject>
    ensures { result ≡ spec.changed s.now }
{
    named(object_changed(s.kind), path_changed(&s.body))
}

impl KnownObjects {
    /// Before the first statement.
    pub fn new(alloc: Global) -> KnownObjects
        ensures { (tree : Tree) → IsKnowing tree 0 result }
    {
        KnownObjects {
            tables: SpanSet::new(alloc, SpanKey::Path),
            types: SpanSet::new(alloc, SpanKey::Path),
            sequences: SpanSet::new(alloc, SpanKey::Path),
        }
    }

    fn has(&self, p: &Parse<'_>, object: Object, path: Span) -> bool
        ensures { result ≡ has_object p.now self.now object (path_cuts p.now.text p.now.toks path) }
    {
        match object {
            Object::Table => self.tables.contains(p, path),
            Object::Type => self.types.contains(p, path),
            Object::Sequence => self.sequences.contains(p, path),
        }
    }

    fn has_named(&self, p: &Parse<'_>, named: Option<NamedObject>) -> bool
        ensures { result ≡ spec.has_named p.now self.now named }
    {
        match named {
            Some(named) => self.has(p, named.object, named.path),
            None => false,
        }
    }

    /// Whether an earlier statement creates the object that this statement, which is statement `i`, changes.
    pub fn has_changed(&self, p: &Parse<'_>, s: &Stmt) -> bool
        ensures { (i : ℕ) → IsKnowing p.now i self.now → result ≡ spec.is_of_known p.now i s.now }
    {
        self.has_named(p, changed(s))
    }

    /// Goes after a statement of the tree. The error comes when memory runs out.
    pub fn update(&mut self, p: &Parse<'_>, s: &Stmt) -> Result<(), NoMemory>
        ensures { OnOk result ((i : ℕ) → s.now ≡ stmt_at p.now i → IsKnowing p.now i self.old → IsKnowing p.now (i + 1) self.new) }
    {
        self.take(p, created(s))
    }

    fn take(&mut self, p: &Parse<'_>, created: Option<NamedObject>) -> Result<(), NoMemory>
        ensures { OnOk result ((object : Object) (path : List (List ℕ)) → has_object p.now self.new object path
            ≡ (spec.is_named p.now object path created || has_object p.now self.old object path)) }
    {
        match created {
            Some(created) => self.insert(p, created.object, created.path),
            None => Ok(()),
        }
    }

    fn insert(&mut self, p: &Parse<'_>, created: Object, path: Span) -> Result<(), NoMemory>
        ensures { OnOk result ((object : Object) (names : List (List ℕ)) → has_object p.now self.new object names
            ≡ ((same_object object created && same_path names (path_cuts p.now.text p.now.toks path)) || has_object p.now self.old object names)) }
    {
        match created {
            Object::Table => self.tables.insert(p, path),
            Object::Type => self.types.insert(p, path),
            Object::Sequence => self.sequences.insert(p, path),
        }
    }
}
