//! The columns that may be set NOT NULL without a scan.

ghost use Rattle.std.specs.Prelude.{◌≡◌, ◌++◌, ◌∷◌, [], ◌&&◌, ◌||◌, ℕ, List, OnOk};
ghost use Rattle.std.specs.Str.{bytes_eq};
ghost use Rattle.sql_tree.specs.Statement.{Tree};
ghost use Rattle.lint_pass.specs.lint_node.Altered.{Altered, altered};
ghost use Rattle.lint_pass.specs.lint_transaction.Names as given;
ghost use Rattle.pass_history.specs.AddingNotNullField.{excuses_by};
ghost use Rattle.pass_history.specs.AddingNotNullFieldWalk.{IsKeyed, IsKnowing, known_check, has_excuse, check_on, with_check};

use crate::constraints::{one_token, validated_name};
use crate::not_null_checks::{NotNullCheck, check_of};
use lint_pass::{NoMemory, Span, SpanKey, SpanMap, SpanSet, is_same_name};
use sql_tree::{Action, Parse};
use std::alloc::Global;

/// The columns that the constraints validated so far excuse from a scan, and what is needed to tell which these are. It holds no
/// text: a look at a column takes the same time after many actions as after few.
#[derive(Drop)]
pub struct ExcusedColumns {
    /// By the name of the constraint, the check that was added last.
    checks: SpanMap<NotNullCheck>,
    /// The tables of which any column is excused.
    tables: SpanSet,
    /// A table and a column of it.
    columns: SpanSet,
}

/// A table's last name and a column's name, to be looked up by both.
fn both_ends(table: Span, column: u32) -> Span
    ensures first { result.first ≡ table.last }
    ensures last { result.last ≡ column }
{
    Span {
        first: table.last,
        last: column,
    }
}

impl ExcusedColumns {
    /// Before the first action.
    pub fn new(alloc: Global) -> ExcusedColumns
        ensures keyed { IsKeyed result }
        ensures knows { (tree : Tree) → IsKnowing tree [] result }
    {
        ExcusedColumns {
            checks: SpanMap::new(alloc, SpanKey::LastName),
            tables: SpanSet::new(alloc, SpanKey::LastName),
            columns: SpanSet::new(alloc, SpanKey::BothEnds),
        }
    }

    /// Whether the column of the table is excused.
    pub fn contains(&self, p: &Parse<'_>, table: Span, column: u32) -> bool
        requires { IsKeyed self.now }
        ensures { result ≡ has_excuse p.now self.now (given.name_at p.now table.last) (given.name_at p.now column) }
    {
        self.tables.contains(p, table) || self.columns.contains(p, both_ends(table, column))
    }

    /// Takes a check, in place of one of the same name.
    fn note(&mut self, p: &Parse<'_>, found: Option<NotNullCheck>) -> Result<(), NoMemory>
        requires { IsKeyed self.old }
        ensures keyed { IsKeyed self.new }
        ensures tables { self.new.tables ≡ self.old.tables }
        ensures columns { self.new.columns ≡ self.old.columns }
        ensures ok { OnOk result ((name : List ℕ) → known_check p.now self.new name ≡ with_check p.now name found (known_check p.now self.old name)) }
    {
        match found {
            Some(check) => self.checks.put(p, one_token(check.name), check),
            None => Ok(()),
        }
    }

    /// The last check of a name, where it is on this table.
    fn check_on(&self, p: &Parse<'_>, table: Span, name: u32) -> Option<NotNullCheck>
        requires { IsKeyed self.now }
        ensures { result ≡ check_on p.now table.last (known_check p.now self.now (given.name_at p.now name)) }
    {
        match self.checks.get(p, one_token(name)) {
            Some(check) if is_same_name(p, check.table, table.last) => Some(check),
            _ => None,
        }
    }

    fn excuse_table(&mut self, p: &Parse<'_>, table: Span) -> Result<(), NoMemory>
        requires { IsKeyed self.old }
        ensures keyed { IsKeyed self.new }
        ensures checks { self.new.checks ≡ self.old.checks }
        ensures ok { OnOk result ((t c : List ℕ) → has_excuse p.now self.new t c ≡ (bytes_eq t (given.name_at p.now table.last) || has_excuse p.now self.old t c)) }
    {
        self.tables.insert(p, table)
    }

    fn excuse_column(&mut self, p: &Parse<'_>, table: Span, column: u32) -> Result<(), NoMemory>
        requires { IsKeyed self.old }
        ensures keyed { IsKeyed self.new }
        ensures checks { self.new.checks ≡ self.old.checks }
        ensures ok { OnOk result ((t c : List ℕ) → has_excuse p.now self.new t c
            ≡ ((bytes_eq t (given.name_at p.now table.last) && bytes_eq c (given.name_at p.now column)) || has_excuse p.now self.old t c)) }
    {
        self.columns.insert(p, both_ends(table, column))
    }

    /// Excuses what the validation of a constraint of the table excuses.
    fn excuse(&mut self, p: &Parse<'_>, table: Span, name: Option<u32>) -> Result<(), NoMemory>
        requires { IsKeyed self.old }
        ensures keyed { IsKeyed self.new }
        ensures checks { self.new.checks ≡ self.old.checks }
        ensures ok { OnOk result ((t c : List ℕ) → has_excuse p.now self.new t c
            ≡ (has_excuse p.now self.old t c || excuses_by p.now (known_check p.now self.old) t c table.last name)) }
    {
        match name {
            Some(name) => match self.check_on(p, table, name) {
                Some(check) => self.excuse_column(p, table, check.column),
                None => self.excuse_table(p, table),
            },
            None => Ok(()),
        }
    }

    /// Goes after an action of an ALTER TABLE. The error comes when memory runs out.
    pub fn update(&mut self, p: &Parse<'_>, table: Span, a: &Action) -> Result<(), NoMemory>
        requires { IsKeyed self.old }
        ensures keyed { IsKeyed self.new }
        ensures knows { OnOk result ((es : List Altered) → IsKnowing p.now es self.old → IsKnowing p.now (es ++ altered table a.now ∷ []) self.new) }
    {
        self.excuse(p, table, validated_name(a))?;
        self.note(p, check_of(table.last, a))
    }
}
