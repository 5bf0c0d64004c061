//! Sets of spans of a text, which are identified by the names in them.

ghost use Rattle.std.specs.Prelude.{◌≡◌, ◌||◌, ℕ, List, [], false, OnOk, OnErr};
ghost use Rattle.sql_tree.specs.Statement.{Tree};
ghost use Rattle.lint_transaction.specs.Transaction.{same_path};
ghost use Rattle.lint_transaction.specs.SpanKey.{key_of, hash_of};
ghost use Rattle.lint_transaction.specs.SpanSet as spec;
ghost use Rattle.lint_transaction.specs.SpanSet.{has_span, PutsSpan, ListsSpan};

use crate::span_key::{FEW, SpanKey, hash, is_same};
use sql_tree::{NoMemory, Parse, Span};
use std::alloc::Global;
use std::collections::HashMap;
use std::marker::Model;

/// The greatest capacity of a table whose memory is kept when a set is cleared. Clearing takes time by the capacity, so
/// one set that grew large must not slow down the small ones after it.
pub(crate) const KEPT_CAPACITY: usize = 64;

/// A set of spans of one text, which are identified by the names in them. It holds no text, so a pass may keep it from
/// statement to statement: the text is at hand in each call. The first few spans are compared one by one; any other is found by a hash of its names, and confirmed by the names.
#[derive(Drop)]
pub struct SpanSet {
    alloc: Global,
    key: SpanKey,
    /// A span for each hash.
    hashed: HashMap<u64, Span>,
    /// The first few spans, and those whose hash was taken, with other names.
    others: Vec<Span>,
}

impl Model for SpanSet {
    ghost use Rattle.lint_transaction.specs.SpanSet.{Spans};

    ghost Value = { Spans };

    ghost view = { λ s. record { key = s.key; hashed = s.hashed.entries; others = s.others.items } };
}

impl SpanSet {
    /// No spans.
    pub fn new(alloc: Global, key: SpanKey) -> SpanSet
        ensures key { result.key ≡ key }
        ensures empty { (tree : Tree) (names : List (List ℕ)) → has_span tree result names ≡ false }
    {
        SpanSet {
            alloc,
            key,
            hashed: HashMap::new(alloc),
            others: Vec::new(alloc),
        }
    }

    /// Whether a span of the set has the same names as this one.
    #[tactic(auto, unfolding(crate::specs::SpanSet::has_span))]
    pub fn contains(&self, p: &Parse<'_>, span: Span) -> bool
        ensures { result ≡ has_span p.now self.now (key_of self.now.key p.now span) }
    {
        self.is_found(p, span) || self.is_other(p, span)
    }

    /// Whether a span of those that are hashed has these names. Where nothing is hashed, it reads no names.
    #[tactic(auto, using(crate::proofs::SpanLaws::none_hashed))]
    fn is_found(&self, p: &Parse<'_>, span: Span) -> bool
        ensures { result ≡ spec.is_hashed p.now self.now (key_of self.now.key p.now span) }
    {
        !self.hashed.is_empty() && self.is_hashed(p, span, hash(p, self.key, span))
    }

    fn is_hashed(&self, p: &Parse<'_>, span: Span, hash: u64) -> bool
        requires { hash ≡ hash_of (key_of self.now.key p.now span) }
        ensures { result ≡ spec.is_hashed p.now self.now (key_of self.now.key p.now span) }
    {
        match self.hashed.get(&hash) {
            Some(other) => is_same(p, self.key, span, *other),
            None => false,
        }
    }

    fn is_other(&self, p: &Parse<'_>, span: Span) -> bool
        ensures { result ≡ spec.is_other p.now self.now (key_of self.now.key p.now span) }
    {
        for other in self.others.as_slice() {
            if is_same(p, self.key, span, *other) {
                return true;
            }
        }
        false
    }

    /// Puts a span in. After a refusal, which comes when memory runs out, nothing has changed.
    pub fn insert(&mut self, p: &Parse<'_>, span: Span) -> Result<(), NoMemory>
        ensures key { self.new.key ≡ self.old.key }
        ensures ok { OnOk result ((names : List (List ℕ)) → has_span p.now self.new names
            ≡ (same_path names (key_of self.old.key p.now span) || has_span p.now self.old names)) }
        ensures err { OnErr result (self.new ≡ self.old) }
    {
        if self.others.len() < FEW {
            self.list(span)
        } else {
            self.insert_hashed(p, span)
        }
    }

    /// Puts a span in where there are many. It is not inlined, so that those who put in a few spans need not make room for what
    /// it needs.
    #[inline(never)]
    fn insert_hashed(&mut self, p: &Parse<'_>, span: Span) -> Result<(), NoMemory>
        ensures key { self.new.key ≡ self.old.key }
        ensures ok { OnOk result ((names : List (List ℕ)) → has_span p.now self.new names
            ≡ (same_path names (key_of self.old.key p.now span) || has_span p.now self.old names)) }
        ensures err { OnErr result (self.new ≡ self.old) }
    {
        let hash = hash(p, self.key, span);
        if self.is_hashed(p, span, hash) {
            Ok(())
        } else {
            self.add(hash, span)
        }
    }

    fn list(&mut self, span: Span) -> Result<(), NoMemory>
        ensures ok { OnOk result (ListsSpan self.old self.new span) }
        ensures err { OnErr result (self.new ≡ self.old) }
    {
        self.others.push(span)?;
        Ok(())
    }

    fn add(&mut self, hash: u64, span: Span) -> Result<(), NoMemory>
        ensures ok { OnOk result (PutsSpan self.old self.new hash span) }
        ensures err { OnErr result (self.new ≡ self.old) }
    {
        if self.hashed.contains_key(&hash) {
            self.others.push(span)?;
        } else {
            self.hashed.insert(hash, span)?;
        }
        Ok(())
    }

    /// Takes all spans out.
    pub fn clear(&mut self)
        ensures key { self.new.key ≡ self.old.key }
        ensures empty { (tree : Tree) (names : List (List ℕ)) → has_span tree self.new names ≡ false }
    {
        self.forget();
    }

    fn forget(&mut self)
        ensures key { self.new.key ≡ self.old.key }
        ensures hashed { self.new.hashed ≡ [] }
        ensures others { self.new.others ≡ [] }
    {
        if !self.hashed.is_empty() {
            self.forget_hashed();
        }
        self.others.clear();
    }

    /// It is not inlined, since most sets have nothing hashed.
    #[inline(never)]
    fn forget_hashed(&mut self)
        ensures key { self.new.key ≡ self.old.key }
        ensures hashed { self.new.hashed ≡ [] }
        ensures others { self.new.others ≡ self.old.others }
    {
        if self.hashed.capacity() <= KEPT_CAPACITY {
            self.hashed.clear();
        } else {
            self.hashed = HashMap::new(self.alloc);
        }
    }
}
