//! What the edits of fixes are.

ghost use Rattle.law_listed_edits.specs.OneEdit.{MendedByOne};

/// The fix of each report of the ten rules whose fixes are known to mend a text has one edit. Where that replaces bytes, there are bytes
/// before them: a column type never begins a text.
pub fn listed_edits()
    ensures { MendedByOne }
{}
