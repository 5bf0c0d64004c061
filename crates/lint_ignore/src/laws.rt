//! Laws of the definitions.

ghost use Rattle.lint_ignore.specs.Places.{NamesLieInTexts};

/// Each name in the ignore comments of a UTF-8 text is in the text, between its characters.
pub fn names_lie_in_text()
    ensures { NamesLieInTexts }
{}
