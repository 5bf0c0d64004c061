//! Made texts are valid.

ghost use Rattle.law_made_texts.specs.Valid.{MadeIsValid};

/// A made text is UTF-8 and has a tree, whatever the number of its groups is, as long as it takes less than 2^32 bytes.
pub fn made_is_valid()
    ensures { MadeIsValid }
{}
