//! Laws of the definitions.

ghost use Rattle.sql_token.specs.Boundary.{KeepsCharacters};
ghost use Rattle.sql_token.specs.Token.{Joins, OneLexed, OneOpen, NeverLexedAndOpen};

/// A text has at most one list of tokens or one place where a token never closes.
pub fn one_answer()
    ensures lexed { OneLexed }
    ensures open { OneOpen }
    ensures not_both { NeverLexedAndOpen }
{}

/// The texts of its tokens join to the text.
pub fn texts_join()
    ensures { Joins }
{}

/// Each token of a UTF-8 text begins and ends between two of its characters.
pub fn characters_stay_whole()
    ensures { KeepsCharacters }
{}
