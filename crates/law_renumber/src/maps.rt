//! The maps of terminals for which the laws hold.

ghost use Rattle.sql_token.specs.declared.terminal.Terminal.{Terminal};
ghost use Rattle.law_renumber.specs.Names.{NumbersKeep, NumbersKeepOptions, WordsKeep, OthersStay, StatementsReadAlike, TextsReadAlike};
ghost use Rattle.law_renumber.specs.Options.{StatementKeptByAll, StatementsKeptByAll, OptionsKeptByWords};

/// Other numbers alone keep what reading sees, also of options.
pub fn numbers_keep()
    ensures keep { NumbersKeep }
    ensures options { NumbersKeepOptions }
{}

/// So do words that are no key words in the place of quoted names. All other terminals stay words, or none.
pub fn words_keep()
    ensures keep { WordsKeep }
    ensures others { OthersStay }
{}

/// Options are kept in a statement where they are in all of its terminals, in the statements of a text where they are in all
/// of the text's, and everywhere where each word stays one.
pub fn options_keep()
    ensures statement { (g : Terminal → Terminal) → StatementKeptByAll g }
    ensures text { (g : Terminal → Terminal) → StatementsKeptByAll g }
    ensures words { (g : Terminal → Terminal) → OptionsKeptByWords g }
{}

/// A statement, or a text, in which quoted names became words that are no key words is read alike: its tree is the same, and
/// so is its first fault.
pub fn names_read_alike()
    ensures statement { StatementsReadAlike }
    ensures text { TextsReadAlike }
{}
