//! Laws of what a linter answers.

ghost use Rattle.fix_edit.specs.lint_base.declared.settings.LinterSettings.{LinterSettings};
ghost use Rattle.fix_edit.specs.lint_base.RuleSets.{Rules};
ghost use Rattle.fix_edit.specs.lint_pass.Ranges.{AllLieIn};
ghost use Rattle.squawk_linter.specs.Mending.{AnsweredFixesMend, AnswersAreInTheirTables};
ghost use Rattle.squawk_linter.specs.Placed.{AnsweredFixesAreGood, AnswersPlaced, IsPlacedPass};
ghost use Rattle.squawk_linter.specs.Laws.{AllPlaced, BareFileLeavesNothing, BareLineCoversNothing, HeadlineHolds, NotInHeadline, RulesApart, RulesApartIn, SecondAnswer};

use fix_edit::{StepPass, starts_ascend};
use law_answers::laws::entries_are_in_their_tables;
use law_answers::{
    AFTER_CONSTRAINTS, BEFORE_BUILDS, BEFORE_CONSTRAINTS, Group1, Group4, Group5, Group6, Group7,
    Group8, OwnPasses,
};
use sql_read::sql_tree::Parse;

/// A linter gives the same answer for a tree again, since it is left with the rules and with the
/// settings that it was asked with, the flag cleared.
pub fn second_answer()
    ensures { SecondAnswer }
{}

/// A bare line ignore covers nothing, and with a bare file ignore no report is left.
pub fn bare_ignores()
    ensures line { BareLineCoversNothing }
    ensures file { BareFileLeavesNothing }
{}

/// One more rule changes no other rule's reports, of any pass.
fn apart<P: StepPass>(_pass: &P)
    ensures { RulesApartIn (P.table _pass.now) }
{}

/// One more rule changes no other rule's reports, those of unknown names in ignore comments among
/// them, before any is left out for an ignore comment.
pub fn rules_apart()
    ensures { RulesApart }
{
    apart(&OwnPasses)
}

/// Each report of a pass, and each edit of its fix, is at a place of the text. So the reports lie in the text, as
/// [`crate::Linter::lint_with`] asks.
pub fn placed<P: StepPass>(file: &Parse<'_>, _pass: &P)
    ensures placed { AllPlaced file.now (P.table _pass.now) }
    ensures lie { (rules : Rules) (settings : LinterSettings) → AllLieIn file.now (P.table _pass.now file.now rules settings) }
{
    let _text = file.text();
}

/// Each report of a pass, and each edit of its fix, is at a place of the text, of every tree.
fn placed_pass<P: StepPass>(_pass: &P)
    ensures { IsPlacedPass (P.table _pass.now) }
{}

/// The reports of an answer, and the edits of their fixes, are at places of the text, so [`crate::apply_fix`] gives neither
/// `BadRange` nor `Overlap` for a fix that is answered for the same text.
pub fn answers_placed()
    ensures placed { AnswersPlaced }
    ensures good { AnsweredFixesAreGood }
{
    placed_pass(&OwnPasses)
}

/// Each entry of an answer is in the table of its rule, if it is of one of the ten rules whose fixes are known to mend a
/// text. So what [`crate::apply_fix`] makes of a fix that is answered is mended.
pub fn answered_fixes_mend()
    ensures stand { AnswersAreInTheirTables }
    ensures mend { AnsweredFixesMend }
{
    entries_are_in_their_tables()
}

/// A pass of other rules reports nothing of the headline.
fn not_in_headline<P: StepPass>(_pass: &P)
    ensures { NotInHeadline (P.own _pass.now) (P.table _pass.now) }
{}

/// What the rules on index builds and on added constraints answer for a tree without ignore comments.
pub fn headline()
    ensures { HeadlineHolds }
{
    starts_ascend();
    not_in_headline(&Group1);
    not_in_headline(&BEFORE_CONSTRAINTS);
    not_in_headline(&AFTER_CONSTRAINTS);
    not_in_headline(&BEFORE_BUILDS);
    not_in_headline(&Group4);
    not_in_headline(&Group5);
    not_in_headline(&Group6);
    not_in_headline(&Group7);
    not_in_headline(&Group8)
}
