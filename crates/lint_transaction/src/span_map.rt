//! Values by spans of a text, which are identified by the names in them.

ghost use Rattle.std.specs.Prelude.{◌≡◌, ℕ, List, nat_eq, OnOk, OnErr, Some, None, if◌then◌else◌};
ghost use Rattle.std.specs.Map.{lookup};
ghost use Rattle.sql_tree.specs.Statement.{Tree};
ghost use Rattle.lint_transaction.specs.Transaction.{same_path};
ghost use Rattle.lint_transaction.specs.SpanMap as spec;
ghost use Rattle.lint_transaction.specs.SpanKey.{key_of, hash_of};
ghost use Rattle.lint_transaction.specs.SpanMap.{get_span, Lists, Writes};

use crate::span_key::{FEW, SpanKey, hash, is_same};
use sql_tree::{NoMemory, Parse, Span};
use std::alloc::Global;
use std::collections::HashMap;
use std::marker::Model;

/// A span and its value.
#[derive(Clone, Copy)]
struct Kept<V> {
    span: Span,
    value: V,
}

/// Values by spans of one text, which are identified by the names in them: what a pass knows of each table, column or
/// constraint that a statement named. It holds no text, so a pass may keep it from statement to statement: the text is at hand
/// in each call. The first few spans are compared one by one; any other is found by a hash of its names, and confirmed by the
/// names.
#[derive(Drop)]
pub struct SpanMap<V> {
    key: SpanKey,
    /// A span for each hash, with the last value of its names.
    hashed: HashMap<u64, Kept<V>>,
    /// The first few spans, and those whose hash was taken, with other names. Of several with the same names the last one counts.
    others: Vec<Kept<V>>,
}

impl<V> Model for SpanMap<V> {
    ghost use Rattle.lint_transaction.specs.SpanMap.{Values};

    ghost Value = { Values V };

    ghost view = { λ s. record { key = s.key; hashed = s.hashed.entries; others = s.others.items } };
}

impl<V: Copy> SpanMap<V> {
    /// No spans.
    pub fn new(alloc: Global, key: SpanKey) -> SpanMap<V>
        ensures key { result.key ≡ key }
        ensures empty { (tree : Tree) (names : List (List ℕ)) → get_span tree result names ≡ None }
    {
        SpanMap {
            key,
            hashed: HashMap::new(alloc),
            others: Vec::new(alloc),
        }
    }

    /// The value that was put last at a span with the same names as this one. It takes no memory.
    #[tactic(auto, unfolding(crate::specs::SpanMap::get_span))]
    pub fn get(&self, p: &Parse<'_>, span: Span) -> Option<V>
        ensures { result ≡ get_span p.now self.now (key_of self.now.key p.now span) }
    {
        match self.hashed_value(p, span) {
            Some(value) => Some(value),
            None => self.other_value(p, span),
        }
    }

    /// The value among those that are hashed. Where nothing is hashed, it reads no names.
    fn hashed_value(&self, p: &Parse<'_>, span: Span) -> Option<V>
        ensures { result ≡ spec.hashed_value p.now self.now (key_of self.now.key p.now span) }
    {
        if self.hashed.is_empty() {
            return None;
        }
        let hash = hash(p, self.key, span);
        self.value_by(p, span, hash)
    }

    /// The value at the place of a hash, where it is one of these names.
    fn value_by(&self, p: &Parse<'_>, span: Span, hash: u64) -> Option<V>
        requires { hash ≡ hash_of (key_of self.now.key p.now span) }
        ensures { result ≡ spec.hashed_value p.now self.now (key_of self.now.key p.now span) }
    {
        match self.hashed.get(&hash) {
            Some(kept) if is_same(p, self.key, span, kept.span) => Some(kept.value),
            _ => None,
        }
    }

    /// The last value among those that are compared one by one.
    fn other_value(&self, p: &Parse<'_>, span: Span) -> Option<V>
        ensures { result ≡ spec.other_value p.now self.now (key_of self.now.key p.now span) }
    {
        let mut value = None;
        for kept in self.others.as_slice() {
            if is_same(p, self.key, span, kept.span) {
                value = Some(kept.value);
            }
        }
        value
    }

    /// Puts a value at a span, in place of one that was put at a span with the same names. After a refusal, which
    /// comes when memory runs out, nothing has changed.
    pub fn put(&mut self, p: &Parse<'_>, span: Span, value: V) -> Result<(), NoMemory>
        ensures key { self.new.key ≡ self.old.key }
        ensures ok { OnOk result ((names : List (List ℕ)) → get_span p.now self.new names
            ≡ (if same_path names (key_of self.old.key p.now span) then Some value else get_span p.now self.old names)) }
        ensures err { OnErr result (self.new ≡ self.old) }
    {
        if self.hashed.is_empty() && self.others.len() < FEW {
            self.list(span, value)
        } else {
            self.put_hashed(p, span, value)
        }
    }

    /// Puts a value where there are many. It is not inlined, so that those who put in a few need not make room for what it needs.
    #[inline(never)]
    fn put_hashed(&mut self, p: &Parse<'_>, span: Span, value: V) -> Result<(), NoMemory>
        ensures key { self.new.key ≡ self.old.key }
        ensures ok { OnOk result ((names : List (List ℕ)) → get_span p.now self.new names
            ≡ (if same_path names (key_of self.old.key p.now span) then Some value else get_span p.now self.old names)) }
        ensures err { OnErr result (self.new ≡ self.old) }
    {
        let hash = hash(p, self.key, span);
        if self.is_free(p, span, hash) {
            self.write(hash, span, value)
        } else {
            self.list(span, value)
        }
    }

    /// Whether the place of a hash is free for the names of a span.
    fn is_free(&self, p: &Parse<'_>, span: Span, hash: u64) -> bool
        ensures { result ≡ spec.is_free p.now self.now.key (key_of self.now.key p.now span) (lookup (nat_eq hash) self.now.hashed) }
    {
        match self.hashed.get(&hash) {
            Some(kept) => is_same(p, self.key, span, kept.span),
            None => true,
        }
    }

    /// Puts a value among those that are compared one by one.
    fn list(&mut self, span: Span, value: V) -> Result<(), NoMemory>
        ensures ok { OnOk result (Lists self.old self.new span value) }
        ensures key { self.new.key ≡ self.old.key }
        ensures err { OnErr result (self.new ≡ self.old) }
    {
        self.others.push(Kept { span, value })?;
        Ok(())
    }

    /// Puts a value at the place of its hash.
    fn write(&mut self, hash: u64, span: Span, value: V) -> Result<(), NoMemory>
        ensures ok { OnOk result (Writes self.old self.new hash span value) }
        ensures key { self.new.key ≡ self.old.key }
        ensures err { OnErr result (self.new ≡ self.old) }
    {
        self.hashed.insert(hash, Kept { span, value })?;
        Ok(())
    }
}
