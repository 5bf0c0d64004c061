//! The linter as what finds the reports of a text.
ghost use Rattle.std.specs.Prelude.{◌≡◌};
ghost use Rattle.lsp_linter.specs.Shown.{Shows};

use crate::text::check_text;
use lsp_shown::{Checker, Report};
use std::alloc::Global;
use text_reports::{NoMemory, TextLinter};

/// A linter that finds the reports of a text. No text changes it.
#[derive(Drop)]
pub struct Linting {
    /// The linter, with the hazards that it looks for.
    pub linter: TextLinter,
}

impl Checker for Linting {
    ghost shows = { λ linting t found. Shows linting.linter.linter.rules linting.linter.hazards linting.linter.linter.settings t found };

    fn check(&mut self, alloc: Global, text: &str) -> Result<Vec<Report>, NoMemory> {
        check_text(alloc, &mut self.linter, text)
    }
}
