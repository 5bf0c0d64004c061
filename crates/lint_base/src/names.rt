//! Lists of names.
ghost use Rattle.std.specs.Prelude.{◌≡◌, ◌<◌, ◌↔◌, [], ◌∷◌, ◌++◌, length, slice_get, Some, IsTrue, IfOk, OnOk, OnErr, Contains, bytes_eq};
ghost use Rattle.std.specs.List.{list_any};
ghost use Rattle.std.specs.String.{string_bytes};

use std::alloc::Global;
use std::marker::Model;
use text_pos::NoMemory;

/// Names, in the order in which they were pushed.
#[derive(Debug, Drop)]
pub struct Names {
    names: Vec<String>,
}

impl Model for Names {
    ghost use Rattle.std.specs.Prelude.{List, ℕ, map};
    ghost use Rattle.std.specs.String.{string_bytes};

    ghost Value = { List (List ℕ) };

    ghost view = { λ names. map string_bytes names.names.items };
}

impl Names {
    ghost use Rattle.lint_base.specs.Settings.{standard_names};

    /// No names.
    pub fn new(alloc: Global) -> Names
        ensures { result ≡ [] }
    {
        Names {
            names: Vec::new(alloc),
        }
    }

    /// The functions of PostgreSQL that are not volatile and that a default may well call: `now`,
    /// `transaction_timestamp`, `statement_timestamp`, `current_database`, `current_schema`,
    /// `version` and `pi`. The error comes when memory runs out.
    pub fn standard(alloc: Global) -> Result<Names, NoMemory>
        ensures { IfOk result (λ names. names ≡ standard_names) }
    {
        let mut names = Names::new(alloc);
        names.push("now")?;
        names.push("transaction_timestamp")?;
        names.push("statement_timestamp")?;
        names.push("current_database")?;
        names.push("current_schema")?;
        names.push("version")?;
        names.push("pi")?;
        Ok(names)
    }

    /// Adds a name. The error comes when memory runs out.
    pub fn push(&mut self, s: &str) -> Result<(), NoMemory>
        ensures ok { OnOk result (self.new ≡ self.old ++ s.now ∷ []) }
        ensures err { OnErr result (self.new ≡ self.old) }
    {
        let name = String::from_str(*self.names.allocator(), s)?;
        self.names.push(name)?;
        Ok(())
    }

    /// Whether a name is among them, letter for letter.
    pub fn contains(&self, s: &str) -> bool
        ensures { IsTrue result ↔ Contains self.now s.now }
    {
        is_among(self.names.as_slice(), s)
    }

    /// How many names there are.
    pub fn len(&self) -> usize
        ensures { result ≡ length self.now }
    {
        self.names.len()
    }

    /// Whether there is no name.
    pub fn is_empty(&self) -> bool
        ensures { IsTrue result ↔ (self.now ≡ []) }
    {
        self.names.is_empty()
    }

    /// The name at an index, from 0.
    pub fn get(&self, i: usize) -> &str
        requires { i < length self.now }
        ensures { slice_get self.now i ≡ Some result.now }
    {
        self.names[i].as_str()
    }
}

// Whether a text is one of some.
fn is_among(names: &[String], s: &str) -> bool
    ensures { result ≡ list_any (λ name. bytes_eq (string_bytes name) s.now) names.now }
{
    names.iter().any(|name| name.as_str() == s)
}
