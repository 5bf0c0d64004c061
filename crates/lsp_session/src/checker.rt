//! What finds the reports of a text.
ghost use Rattle.std.specs.Prelude.{◌≡◌, ℕ, List, IfOk};
ghost use Rattle.lsp_session.specs.declared.report.Report.{Report};

use crate::report::Report;
use lint_report::NoMemory;
use std::alloc::Global;

/// What finds the reports of a text. Each text has its reports, whatever was checked before.
pub trait Checker {
    /// These are the reports of a text.
    ghost shows: { Self → List ℕ → List Report → Type 0 };

    /// Finds the reports of a text, in the order in which an editor lists them. The error comes when memory runs out.
    fn check(&mut self, alloc: Global, text: &str) -> Result<Vec<Report>, NoMemory>
        ensures found { IfOk result (λ found. shows self.old text.now found.items) }
        ensures same { self.new ≡ self.old };
}
