//! Laws of the places where a text can't be read: each is between two characters.
#![tactic(auto)]

ghost use Rattle.law_fault_places.specs.Between.{OpenBetween, SyntaxBetween};

/// The place of a token that never closes is between two characters.
pub fn open_between()
    ensures { OpenBetween }
{}

/// The place of a statement that can't be read is between two characters.
pub fn syntax_between()
    ensures { SyntaxBetween }
{}
