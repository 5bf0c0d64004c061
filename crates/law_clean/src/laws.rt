//! Laws of texts of which nothing is reported.

ghost use Rattle.law_clean.specs.Laws.{CleanAnswersHaveNoOldWork, CleanAnswersValidateApart, DefaultRulesSuffice};

use lock_machine::births_are_new;

/// The default set has the rules that the other two laws ask for.
pub fn default_rules_suffice()
    ensures { DefaultRulesSuffice }
{}

/// A plain text of which the rules of the default set report nothing does no listed work on an old table: it names the table of
/// each work, and creates it in the transaction that does the work. Where a comment of the text says that no transaction is to be
/// assumed, the settings assume none: passes take them as they are.
pub fn clean_answers_have_no_old_work()
    ensures { CleanAnswersHaveNoOldWork }
{
    births_are_new()
}

/// A text of which the rules of the default set report nothing validates no constraint in the open transaction that added it as
/// not valid.
pub fn clean_answers_validate_apart()
    ensures { CleanAnswersValidateApart }
{}
