//! Laws of the definitions.

ghost use Rattle.pass_history.specs.HistoryLaws.{NotNullByHistory};

/// What is reported of all columns that a text sets NOT NULL is what is reported of each action, by the actions before it, whichever
/// statements they are in.
pub fn not_null_by_history()
    ensures { NotNullByHistory }
{}
