//! Laws of whole texts: of the places of their tokens, and of their reading under a map that keeps what reading sees.

ghost use Rattle.law_renumber.specs.Order.{PlacesAscend};
ghost use Rattle.law_renumber.specs.Renumber.{ForKept};
ghost use Rattle.law_renumber.specs.Texts.{StatementsRenumber, ReadingRenumbers, TextRenumbers};

/// Tokens of a text begin at bytes that ascend, so a token's place identifies it. Ranges are compared by bytes.
pub fn places_ascend()
    ensures places { PlacesAscend }
{}

/// Under a map of terminals that keeps what reading sees, statements are cut at the same places, and reading them gives the
/// same statements, or the same fault, with its numbers changed alike.
pub fn texts_renumber()
    ensures statements { ForKept StatementsRenumber }
    ensures reading { ForKept ReadingRenumbers }
    ensures text { ForKept TextRenumbers }
{}
