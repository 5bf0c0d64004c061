//! A finished text with another text after it has the tree of both.

ghost use Rattle.law_joined_texts.specs.Joined.{FinishedStays, TreesJoin, ValidTextsJoin};

/// A text whose last statement has its semicolon, with a Blank after it, and then a text that begins with no Blank: its tokens and
/// its statements are those of the first and then those of the second one, moved. So it is valid where both are, and it is
/// finished where the second one is.
pub fn texts_join()
    ensures trees { TreesJoin }
    ensures finished { FinishedStays }
    ensures valid { ValidTextsJoin }
{}
