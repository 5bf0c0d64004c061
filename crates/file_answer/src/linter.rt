//! The linter, for files.
ghost use Rattle.std.specs.Prelude.{◌≡◌};
ghost use Rattle.file_answer.specs.Answers.{IsLintedAs};

use crate::answer::lint_bytes;
use check_run::{Lint, Linted};
use law_reports::{NoMemory, TextLinter};
use std::alloc::Global;

/// A linter that lints files.
#[derive(Drop)]
pub struct FileLinter {
    /// The linter, and the hazards that are looked for. No file changes them.
    pub linter: TextLinter,
    /// Whether each line is read as SQL, also in files that were made for psql.
    pub is_strict: bool,
}

impl Lint for FileLinter {
    ghost answers = { λ linter bytes linted. IsLintedAs linter.is_strict linter.linter bytes linted };

    fn lint(&mut self, alloc: Global, bytes: Vec<u8>) -> Result<Linted, NoMemory> {
        lint_bytes(alloc, &mut self.linter, self.is_strict, bytes)
    }
}
