//! What is reported of a text in which tokens of a column type became a word.

ghost use Rattle.pass_data_type.specs.PreferTextField as varchar;
ghost use Rattle.pass_data_type.specs.PreferTimestamptz as timestamp;
ghost use Rattle.pass_data_type.specs.WiderIntegers as integer;
ghost use Rattle.law_type_fixes.specs.Apart.{TypesApart};
ghost use Rattle.law_type_fixes.specs.Mended.{TypeFixesMend};
ghost use Rattle.law_type_fixes.specs.Moves.{StatementsMove};
ghost use Rattle.law_type_fixes.specs.Rules as rule;
ghost use Rattle.law_type_fixes.specs.Rules.{IsOfPass};
ghost use Rattle.law_type_fixes.specs.Stays.{TypesSilent, TypesStay};
ghost use Rattle.law_type_fixes.specs.Words.{InnersBecomeWords, NamesBecomeWords};

/// The four rules as this crate has them are those of the passes.
pub fn rules_are_those_of_passes()
    ensures varchars { IsOfPass rule.varchars varchar.reports_of_prefer_text_field }
    ensures timestamps { IsOfPass rule.timestamps timestamp.reports_of_prefer_timestamp_tz }
    ensures ints { IsOfPass rule.ints integer.reports_of_prefer_bigint_over_int }
    ensures smallints { IsOfPass rule.smallints integer.reports_of_prefer_bigint_over_smallint }
{}

/// The numbers that a column type of a statement holds are those of its own tokens: no two types have one in common, and the
/// types come one after another.
pub fn types_are_apart()
    ensures { TypesApart }
{}

/// Where the inner tokens of a column type become a word, the text has a tree, in which the statement has all other types, under
/// other numbers, and in the place of that one a path of the word; and so its terminals are. Nothing is in its place where an
/// ALTER TABLE added a column named `constraint`, and adds a constraint of that word then.
pub fn types_become_words()
    ensures inner { InnersBecomeWords }
    ensures name { NamesBecomeWords }
{}

/// Where tokens of a type became a word, and the rule does not report the types that are there then, all other reports are the
/// old ones, moved: no more of them, and no fewer.
pub fn tables_stay()
    ensures varchars { TypesStay rule.varchars }
    ensures timestamps { TypesStay rule.timestamps }
    ensures ints { TypesStay rule.ints }
    ensures smallints { TypesStay rule.smallints }
{}

/// No report begins there where the old type began.
pub fn tables_are_silent()
    ensures varchars { TypesSilent rule.varchars }
    ensures timestamps { TypesSilent rule.timestamps }
    ensures ints { TypesSilent rule.ints }
    ensures smallints { TypesSilent rule.smallints }
{}

/// The fix of each report of these four rules on column types makes a text that has a tree, if no byte of a word is right before or right after what
/// it replaces. Its terminals are those of the old text, but that those of the type, or its last name, are the new word, and the
/// rule reports nothing where that report began.
pub fn fixes_mend()
    ensures varchars { TypeFixesMend (rule.type_table rule.varchars) }
    ensures timestamps { TypeFixesMend (rule.type_table rule.timestamps) }
    ensures ints { TypeFixesMend (rule.type_table rule.ints) }
    ensures smallints { TypeFixesMend (rule.type_table rule.smallints) }
{}

/// A statement under other numbers of its tokens begins, ends and chains a transaction where it did, creates the table of the same
/// path, and has the same column types, with their numbers changed alike.
pub fn statements_move()
    ensures { StatementsMove }
{}
