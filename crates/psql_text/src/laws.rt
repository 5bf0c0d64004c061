//! Laws of the definitions.

ghost use Rattle.psql_text.specs.Laws.{OneReading, PlacesStay, PlainTextsStay};

/// Of a text, one list of parts alone is no SQL.
pub fn one_reading()
    ensures { OneReading }
{}

/// All bytes keep their places, and each is as it was, or a space where it was no white space, or a semicolon where it was a backslash.
pub fn places_stay()
    ensures { PlacesStay }
{}

/// Where no command of psql is passed over, no token is the word STDIN, and no function may have a body, nothing is passed over.
pub fn plain_texts_stay()
    ensures { PlainTextsStay }
{}
