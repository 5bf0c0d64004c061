//! A file, and what is made of it.
ghost use Rattle.std.specs.Prelude.{◌≡◌};
ghost use Rattle.fix_output.specs.Differences.{is_changed};

use other_fix::{OtherFix, Text};

/// A file, and what is made of it.
#[derive(Debug, Drop)]
pub struct FixedFile {
    /// Its name.
    pub name: Text,
    /// Its text.
    pub old: Text,
    /// The text in which the fixes were made.
    pub new: Text,
    /// The fixes that were not made, since another one changes the same bytes and comes first.
    pub others: Vec<OtherFix>,
}

/// Whether the text is another one now.
pub(crate) fn is_changed(file: &FixedFile) -> bool
    ensures { result ≡ is_changed file.now }
{
    file.old.as_str() != file.new.as_str()
}
