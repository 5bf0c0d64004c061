//! Constraints that were dropped, and whether they were added again.

ghost use Rattle.std.specs.Prelude.{◌≡◌, ◌++◌, ◌∷◌, [], ℕ, List, OnOk, Some, if◌then◌else◌};
ghost use Rattle.std.specs.Str.{bytes_eq};
ghost use Rattle.sql_tree.specs.Statement.{Tree};
ghost use Rattle.lint_pass.specs.lint_node.Altered.{Altered, altered};
ghost use Rattle.lint_pass.specs.lint_transaction.Names as given;
ghost use Rattle.pass_history.specs.Dropped as spec;
ghost use Rattle.pass_history.specs.Dropped.{IsDropping, known_drop, after_add, after_drop};

use crate::constraints::{added_name, dropped_name, one_token};
use lint_pass::{NoMemory, Span, SpanKey, SpanMap};
use sql_tree::{Action, Parse};
use std::alloc::Global;
use std::marker::Model;

/// The constraints that the actions so far dropped, by the full texts of their names, and whether each is still gone. It holds no
/// text: a look at a constraint takes the same time after many actions as after few.
#[derive(Drop)]
pub struct DroppedConstraints {
    names: SpanMap<bool>,
}

impl Model for DroppedConstraints {
    ghost use Rattle.std.specs.Prelude.{◌≡◌, Bool};
    ghost use Rattle.lint_pass.specs.lint_transaction.SpanMap.{Values};
    ghost use Rattle.lint_pass.specs.lint_transaction.declared.span_key.SpanKey.TheVariants as by;

    ghost Value = { Values Bool };

    ghost view = { λ d. d.names };

    ghost invariant = { λ d. d.names.key ≡ by.LastName };
}

impl DroppedConstraints {
    /// Before the first action.
    pub fn new(alloc: Global) -> DroppedConstraints
        ensures { (tree : Tree) → IsDropping tree [] result }
    {
        DroppedConstraints {
            names: SpanMap::new(alloc, SpanKey::LastName),
        }
    }

    /// Whether a constraint of this name was dropped, and then whether it is still gone.
    fn get(&self, p: &Parse<'_>, number: u32) -> Option<bool>
        ensures { result ≡ known_drop p.now self.now (given.name_at p.now number) }
    {
        self.names.get(p, one_token(number))
    }

    fn set(&mut self, p: &Parse<'_>, number: u32, is_gone: bool) -> Result<(), NoMemory>
        ensures key { self.new.key ≡ self.old.key }
        ensures ok { OnOk result ((name : List ℕ) → known_drop p.now self.new name
            ≡ (if bytes_eq name (given.name_at p.now number) then Some is_gone else known_drop p.now self.old name)) }
    {
        self.names.put(p, one_token(number), is_gone)
    }

    fn add(&mut self, p: &Parse<'_>, number: Option<u32>) -> Result<(), NoMemory>
        ensures key { self.new.key ≡ self.old.key }
        ensures ok { OnOk result ((name : List ℕ) → known_drop p.now self.new name ≡ after_add p.now name number (known_drop p.now self.old name)) }
    {
        match number {
            Some(number) if self.get(p, number).is_some() => self.set(p, number, false),
            _ => Ok(()),
        }
    }

    fn take(&mut self, p: &Parse<'_>, number: Option<u32>) -> Result<(), NoMemory>
        ensures key { self.new.key ≡ self.old.key }
        ensures ok { OnOk result ((name : List ℕ) → known_drop p.now self.new name ≡ after_drop p.now name number (known_drop p.now self.old name)) }
    {
        match number {
            Some(number) => self.set(p, number, true),
            None => Ok(()),
        }
    }

    /// Goes after an action of an ALTER TABLE. The error comes when memory runs out.
    pub fn update(&mut self, p: &Parse<'_>, table: Span, a: &Action) -> Result<(), NoMemory>
        ensures { OnOk result ((es : List Altered) → IsDropping p.now es self.old → IsDropping p.now (es ++ altered table a.now ∷ []) self.new) }
    {
        self.add(p, added_name(a))?;
        self.take(p, dropped_name(a))
    }

    /// Whether a constraint of this name was dropped.
    pub fn was_dropped(&self, p: &Parse<'_>, number: u32) -> bool
        ensures { (es : List Altered) → IsDropping p.now es self.now → result ≡ spec.was_dropped p.now es (given.name_at p.now number) }
    {
        self.get(p, number).is_some()
    }

    /// Whether a constraint of this name was dropped and not added again.
    pub fn is_gone(&self, p: &Parse<'_>, number: u32) -> bool
        ensures { (es : List Altered) → IsDropping p.now es self.now → result ≡ spec.is_gone p.now es (given.name_at p.now number) }
    {
        self.get(p, number).unwrap_or(false)
    }
}
