//! Why words are refused.

use crate::names::{Choice, Flag};
use code_choice::Text;

/// Why words are refused: what is wrong with the first one that is.
#[derive(Debug, Drop)]
pub enum WordFault {
    /// There is no word.
    NoCommand,
    /// The first word is that of no command.
    UnknownCommand(Text),
    /// This word begins as an option, and is none.
    UnknownWord(Text),
    /// The option is not followed by a value.
    MissingValue(Choice),
    /// The option takes no value, and one is given.
    TakesNoValue(Flag),
    /// The option has no such value.
    UnknownValue(Choice, Text),
    /// The list has this item, which names neither a rule nor a hazard.
    UnknownRule(Choice, Text),
    /// The list has an empty item.
    EmptyName(Choice),
    /// The value is not a number from 0 to 2147483647.
    NotNumber(Choice, Text),
    /// The option is given twice.
    Twice(Choice),
    /// `--only` is given, and `--include` or `--exclude`.
    OnlyBesideLists,
}
