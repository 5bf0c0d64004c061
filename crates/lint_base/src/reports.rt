//! Lists of reports.
ghost use Rattle.std.specs.Prelude.{◌≡◌, [], ◌∷◌, ◌++◌, OnOk, OnErr};
ghost use Rattle.lint_base.specs.Grown.{GrownBy};

use crate::violation::Violation;
use std::alloc::Global;
use std::marker::Model;
use text_pos::NoMemory;

/// Reports, in the order in which they were pushed.
#[derive(Debug, Drop)]
pub struct Reports {
    items: Vec<Violation>,
}

impl Model for Reports {
    ghost use Rattle.std.specs.Prelude.{List};
    ghost use Rattle.lint_base.specs.declared.violation.Violation.{Violation};

    ghost Value = { List Violation };

    ghost view = { λ reports. reports.items.items };
}

impl Reports {
    /// No reports.
    pub fn new(alloc: Global) -> Reports
        ensures { result ≡ [] }
    {
        Reports {
            items: Vec::new(alloc),
        }
    }

    /// Adds a report. The error comes when memory runs out.
    pub fn push(&mut self, v: Violation) -> Result<(), NoMemory>
        ensures ok { OnOk result (self.new ≡ self.old ++ v ∷ []) }
        ensures err { OnErr result (self.new ≡ self.old) }
    {
        self.items.push(v)?;
        Ok(())
    }

    /// Adds the reports of another list, in their order. The error comes when memory runs out; then a first
    /// part of them has been added. To an empty list it takes no memory.
    pub fn append(&mut self, other: Reports) -> Result<(), NoMemory>
        ensures ok { OnOk result (self.new ≡ self.old ++ other) }
        ensures err { OnErr result (GrownBy self.old self.new other) }
    {
        if self.items.is_empty() {
            *self = other;
            return Ok(());
        }
        for v in other.into_items() {
            self.push(v)?;
        }
        Ok(())
    }

    /// The reports, in their order.
    pub fn items(&self) -> &[Violation]
        ensures { result.now ≡ self.now }
    {
        self.items.as_slice()
    }

    /// The reports, in their order. It takes no memory.
    pub fn into_items(self) -> Vec<Violation>
        ensures { result.items ≡ self }
    {
        self.items
    }
}
