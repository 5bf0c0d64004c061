//! Paths: names with dots between them.

ghost use Rattle.std.specs.Prelude.{◌≡◌, ◌<◌, ◌≤◌, ◌++◌, length, IfOk, OnOk, OnErr, IsOk, map};
ghost use Rattle.sql_name.specs.Compared.{name_cut};
ghost use Rattle.sql_tree.specs.Path.{path_cuts, name_cuts};
ghost use Rattle.sql_tree.specs.Range.{token_at};
ghost use Rattle.sql_tree.specs.PathNames.{names_of};

use crate::parse::Parse;
use smallvec::SmallVec;
use sql_name::{Name, NoMemory};
use sql_token::Span;
use std::alloc::Global;
use std::cmp::Ordering;
use std::hash::{Hash, Hasher};

/// The names of a path, which borrow from the text. Two paths are equal where their names are, one by one; paths are ordered
/// by the first names that differ. Only what PostgreSQL tells names apart by counts.
#[derive(Debug, Drop)]
pub struct NamePath<'t> {
    names: SmallVec<Name<'t>, 2>,
}

/// Puts the name after the others, where token `i` is one.
fn push_token<'t>(
    names: &mut SmallVec<Name<'t>, 2>,
    p: &Parse<'t>,
    i: usize,
) -> Result<(), NoMemory>
    requires { i < length p.now.toks }
    ensures ok { OnOk result (map name_cut names.new.items ≡ map name_cut names.old.items ++ name_cuts p.now.text (token_at p.now.toks i)) }
    ensures capacity { names.old.capacity ≤ names.new.capacity }
    ensures err { OnErr result ((0 < length (name_cuts p.now.text (token_at p.now.toks i))) × (names.old.capacity ≤ length names.old.items)) }
{
    if p.tokens()[i].kind.is_name() {
        names.push(Name::of(p.token_text(i)))?;
        Ok(())
    } else {
        Ok(())
    }
}

impl<'t> NamePath<'t> {
    /// The names among the tokens of a span. Two names are in place: a longer path takes memory.
    pub fn of(alloc: Global, p: &Parse<'t>, span: Span) -> Result<NamePath<'t>, NoMemory>
        ensures names { IfOk result (λ path. names_of path ≡ path_cuts p.now.text p.now.toks span) }
        ensures short { length (path_cuts p.now.text p.now.toks span) ≤ 2 → IsOk result }
    {
        let mut names = SmallVec::new(alloc);
        let end = p.tokens().len().min(span.last as usize + 1);
        for i in span.first as usize..end {
            push_token(&mut names, p, i)?;
        }
        Ok(NamePath { names })
    }
}

impl<'t> PartialEq for NamePath<'t> {
    ghost use Rattle.std.proofs.Common.{rules};
    ghost use Rattle.std.specs.Cmp.Rules.{comparing};
    ghost use Rattle.sql_tree.specs.PathNames.{names_eq};

    ghost eq = { names_eq };

    ghost laws = { Prim.search (comparing, rules) };

    fn eq(&self, other: &NamePath<'t>) -> bool {
        self.names == other.names
    }
}

impl<'t> Eq for NamePath<'t> {
    ghost use Rattle.std.proofs.Common.{rules};
    ghost use Rattle.std.specs.Cmp.Rules.{comparing};

    ghost laws = { Prim.search (comparing, rules) };
}

impl<'t> PartialOrd for NamePath<'t> {
    ghost use Rattle.std.proofs.Common.{rules};
    ghost use Rattle.std.specs.Cmp.{partial_order_from_own_ties};
    ghost use Rattle.std.specs.Cmp.Lexicographic.{lists_ties, slice_cmp, texts_ties};
    ghost use Rattle.std.specs.Cmp.Rules.{comparing};
    ghost use Rattle.std.specs.Ordering.{as_partial_cmp, nat_cmp};
    ghost use Rattle.sql_tree.specs.PathNames.{names_cmp, names_of};

    ghost partial_cmp = { as_partial_cmp names_cmp };

    ghost laws = { partial_order_from_own_ties (Prim.search (comparing, rules)) (λ a b. lists_ties (slice_cmp nat_cmp) texts_ties (names_of a) (names_of b)) };

    fn partial_cmp(&self, other: &NamePath<'t>) -> Option<Ordering> {
        Some(self.cmp(other))
    }
}

impl<'t> Ord for NamePath<'t> {
    ghost use Rattle.std.proofs.Common.{rules};
    ghost use Rattle.std.specs.Cmp.Lexicographic.{lists_ties, slice_cmp, texts_ties};
    ghost use Rattle.std.specs.Cmp.Rules.{comparing};
    ghost use Rattle.std.specs.Ordering.{nat_cmp};
    ghost use Rattle.sql_tree.specs.PathNames.{names_cmp, names_of};

    ghost cmp = { names_cmp };

    ghost total = { Prim.search (comparing, rules) };

    ghost matches_partial_cmp = { Prim.search (comparing, rules) };

    ghost matches_eq = { λ a b. lists_ties (slice_cmp nat_cmp) texts_ties (names_of a) (names_of b) };

    fn cmp(&self, other: &NamePath<'t>) -> Ordering {
        self.names.cmp(&other.names)
    }
}

impl<'t> Hash for NamePath<'t> {
    ghost use Rattle.std.proofs.Common.{rules};
    ghost use Rattle.std.specs.Cmp.Rules.{hashing};
    ghost use Rattle.std.specs.Hash.{on_Alike, items_Alike};
    ghost use Rattle.sql_tree.specs.PathNames.{names_of, names_writes};

    ghost hash_input = { names_writes };

    ghost respects_eq = { (on_Alike names_of (items_Alike (record { fed = Prim.search (hashing, rules) }))).fed };

    fn hash<H: Hasher>(&self, state: &mut H) {
        self.names.hash(state);
    }
}
