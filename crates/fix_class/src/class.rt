//! The classes.
ghost use Rattle.std.specs.Prelude.{◌≡◌, IfOk, option_map};
ghost use Rattle.std.specs.List.{list_all};
ghost use Rattle.lint_report.specs.lint_base.declared.settings.LinterSettings.{LinterSettings};
ghost use Rattle.fix_class.specs.Classes as spec;
ghost use Rattle.fix_class.specs.Known.{AreKnown};
ghost use Rattle.statement_place.specs.Statements.{number_behind};

use crate::known::{Known, each_known};
use crate::word::{says, text_at};
use lint_ignore::{Body, Parse, ReindexTarget, Span, Stmt};
use lint_report::{FixClass, LinterSettings, NoMemory, Rule, TextRange, TextSize, Violation};
use std::alloc::Global;
use std::marker::Model;

// The first versions that have REINDEX CONCURRENTLY, DETACH PARTITION CONCURRENTLY, and identity columns.
const REINDEX_VERSION: i32 = 12;

const DETACH_VERSION: i32 = 14;

const IDENTITY_VERSION: i32 = 10;

fn class_unless(refused: bool, class: FixClass) -> Option<FixClass>
    ensures { result ≡ spec.class_unless refused class }
{
    if refused { None } else { Some(class) }
}

// Whether nothing is to be done CONCURRENTLY at a statement.
fn is_out_of_place(known: Known) -> bool
    ensures { result ≡ spec.is_out_of_place known }
{
    known.is_inside || known.is_limited
}

// Whether the index is built unless it is there.
fn is_guarded(s: &Stmt) -> bool
    ensures { result ≡ spec.is_guarded_by s.now.body }
{
    match s.body {
        Body::Index { guarded, .. } => guarded,
        _ => false,
    }
}

// Whether the index is not to be built CONCURRENTLY.
fn is_no_build(known: Known, p: &Parse<'_>, s: &Stmt) -> bool
    ensures { result ≡ spec.is_no_build known p.now s.now }
{
    is_out_of_place(known) || is_guarded(s) || known.is_on_partitioned || says(p, "only", s)
}

// Whether more than one index is dropped.
fn drops_many(s: &Stmt) -> bool
    ensures { result ≡ spec.drops_many_by s.now.body }
{
    match &s.body {
        Body::Drop { paths, .. } => paths.as_slice().len() > 1,
        _ => false,
    }
}

// Whether an index is not to be dropped CONCURRENTLY.
fn is_no_drop(known: Known, p: &Parse<'_>, s: &Stmt) -> bool
    ensures { result ≡ spec.is_no_drop known p.now s.now }
{
    is_out_of_place(known) || drops_many(s) || says(p, "cascade", s)
}

// Whether a name is one of PostgreSQL itself.
#[tactic(auto, unfolding(crate::specs::Classes::is_own_name))]
fn is_own_name(text: &str) -> bool
    ensures { result ≡ spec.is_own_name text.now }
{
    text.starts_with("pg_") || text.starts_with("PG_") || text.starts_with("\"pg_")
}

fn is_own_path(p: &Parse<'_>, path: Option<Span>) -> bool
    ensures { result ≡ spec.is_own_path p.now path }
{
    match path {
        Some(path) => is_own_name(text_at(p, path.first)),
        None => false,
    }
}

// Whether system catalogs are rebuilt.
fn is_of_system(p: &Parse<'_>, s: &Stmt) -> bool
    ensures { result ≡ spec.is_of_system_by p.now s.now.body }
{
    match s.body {
        Body::Reindex { target, path, .. } => {
            matches!(target, ReindexTarget::System) || is_own_path(p, path)
        }
        _ => false,
    }
}

// Whether an index is not to be rebuilt CONCURRENTLY.
fn is_no_rebuild(known: Known, p: &Parse<'_>, s: &Stmt) -> bool
    ensures { result ≡ spec.is_no_rebuild known p.now s.now }
{
    is_out_of_place(known) || known.major < REINDEX_VERSION || is_of_system(p, s)
}

// Whether a partition is not to be detached CONCURRENTLY.
fn is_no_detach(known: Known) -> bool
    ensures { result ≡ spec.is_no_detach known }
{
    known.is_inside || known.major < DETACH_VERSION
}

// Whether an index is built CONCURRENTLY.
fn is_concurrent_build(s: &Stmt) -> bool
    ensures { result ≡ spec.is_concurrent_build_by s.now.body }
{
    match s.body {
        Body::Index { concurrently, .. } => concurrently.is_some(),
        _ => false,
    }
}

// The class of a fix of a rule in a statement.
#[tactic(auto, unfolding(crate::specs::Classes::class_by))]
fn class_by(rule: Rule, known: Known, p: &Parse<'_>, s: &Stmt) -> Option<FixClass>
    ensures { result ≡ spec.class_by rule known p.now s.now }
{
    match rule {
        Rule::IdentifierTooLong => Some(FixClass::Safe),
        Rule::RequireConcurrentIndexCreation => {
            class_unless(is_no_build(known, p, s), FixClass::Unsafe)
        }
        Rule::RequireConcurrentIndexDeletion => {
            class_unless(is_no_drop(known, p, s), FixClass::Unsafe)
        }
        Rule::RequireConcurrentReindex => {
            class_unless(is_no_rebuild(known, p, s), FixClass::Unsafe)
        }
        Rule::RequireConcurrentPartitionDetach => {
            class_unless(is_no_detach(known), FixClass::Unsafe)
        }
        Rule::PreferRepack => class_unless(known.is_inside, FixClass::Unsafe),
        Rule::RequireLockTimeout | Rule::RequireStatementTimeout => {
            class_unless(known.has_outside_work, FixClass::Unsafe)
        }
        Rule::PreferRobustStmts => class_unless(is_concurrent_build(s), FixClass::Unsafe),
        Rule::PreferIdentity => class_unless(known.major < IDENTITY_VERSION, FixClass::Unsafe),
        Rule::RequireEnumValueOrdering => Some(FixClass::Template),
        _ => Some(FixClass::Unsafe),
    }
}

/// The classes of the fixes of a text. They hold what is known of each statement, and no text.
#[derive(Drop)]
pub struct FixClasses {
    known: Vec<Known>,
}

impl Model for FixClasses {
    ghost use Rattle.std.specs.Prelude.{List};
    ghost use Rattle.fix_class.specs.declared.known.Known.{Known};

    ghost Value = { List Known };

    ghost view = { λ c. c.known.items };
}

fn is_byte(byte: u8, found: Option<&u8>) -> bool
    ensures { result ≡ spec.is_byte byte (option_map (λ b. b.now) found.entry) }
{
    match found {
        Some(b) => *b == byte,
        None => false,
    }
}

// Whether it is a colon, a question mark or a double quote.
fn is_mark(found: Option<&u8>) -> bool
    ensures { result ≡ spec.is_mark (option_map (λ b. b.now) found.entry) }
{
    is_byte(b':', found) || is_byte(b'?', found) || is_byte(b'"', found)
}

// Whether such a mark is right before a byte.
fn is_behind_mark(text: &str, start: TextSize) -> bool
    ensures { result ≡ spec.is_behind_mark text.now start }
{
    let start = start.raw() as usize;
    start > 0 && is_mark(text.as_bytes().get(start - 1))
}

// Whether such a mark is right before a range, or a double quote right behind it.
fn is_glued(text: &str, range: TextRange) -> bool
    ensures { result ≡ spec.is_glued text.now range }
{
    is_behind_mark(text, range.start())
        || is_byte(b'"', text.as_bytes().get(range.end().raw() as usize))
}

fn is_ascii(bytes: &[u8]) -> bool
    ensures { result ≡ list_all spec.is_ascii_byte bytes.now }
{
    bytes.iter().all(|byte| *byte < 128)
}

// Whether the bytes of a range are in a text, and all of them are ASCII.
fn is_ascii_in(text: &str, range: TextRange) -> bool
    ensures { result ≡ spec.is_ascii_in text.now range }
{
    let bytes = text.as_bytes();
    let start = range.start().raw() as usize;
    let end = range.end().raw() as usize;
    end <= bytes.len() && is_ascii(&bytes[start..end])
}

// A safe fix of bytes that are not all ASCII is unsafe.
fn class_by_bytes(is_ascii: bool, class: Option<FixClass>) -> Option<FixClass>
    ensures { result ≡ spec.class_by_bytes is_ascii class }
{
    match class {
        Some(FixClass::Safe) if !is_ascii => Some(FixClass::Unsafe),
        _ => class,
    }
}

impl FixClasses {
    /// What is known of each statement of a text. The error comes when memory runs out.
    pub fn new(
        alloc: Global,
        p: &Parse<'_>,
        settings: &LinterSettings,
    ) -> Result<FixClasses, NoMemory>
        ensures { IfOk result (λ classes. AreKnown settings.now p.now classes) }
    {
        Ok(FixClasses {
            known: each_known(alloc, p, settings)?,
        })
    }

    // The class of the fix of a report of a rule on the statement of this number, or `None` where there is no such statement, or the fix is
    // not offered.
    fn class_at(&self, p: &Parse<'_>, code: Rule, i: usize) -> Option<FixClass>
        ensures { (settings : LinterSettings) → AreKnown settings p.now self.now → result ≡ spec.class_at settings p.now code i }
    {
        let stmts = p.tree().stmts.as_slice();
        if i < stmts.len() && i < self.known.len() {
            return class_by(code, self.known[i], p, &stmts[i]);
        }
        None
    }

    /// The class of the fix of a report, whose statement has this number, from 0 on; `None` where the fix is not offered: it would fail where it is
    /// made, or leave what a hazard reports. It does not ask whether the report has a fix.
    #[tactic(auto, unfolding(crate::specs::Classes::class_of))]
    pub fn class_of(&self, p: &Parse<'_>, v: &Violation, number: usize) -> Option<FixClass>
        requires { number ≡ number_behind p.now v.now.text_range.start }
        ensures { (settings : LinterSettings) → AreKnown settings p.now self.now → result ≡ spec.class_of settings p.now v.now }
    {
        if is_glued(p.text(), v.text_range) {
            return None;
        }
        let class = self.class_at(p, v.code, number);
        class_by_bytes(is_ascii_in(p.text(), v.text_range), class)
    }
}
