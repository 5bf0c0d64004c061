//! What the fixes of an answer do to the reports of all listed rules.

ghost use Rattle.law_answer_steps.specs.Answers.{AnswersStep};
ghost use Rattle.law_answer_steps.specs.Leaves.{AnswersAscend, AnswersLeave};
ghost use Rattle.squawk_linter.specs.Placed.{IsPlacedPass};

use law_fix_steps::StepPass;
use law_fix_steps::laws::{fixes_leave, fixes_step};
use squawk_linter::OwnPasses;
use squawk_linter::laws::answered_fixes_mend;

/// The fix of each report of a listed rule that a linter answers makes a text that has a tree, if it joins no word. No
/// report of a listed rule is new there, and there is at least one less, those that ignore comments cover counted too. So
/// a loop that makes such fixes one after another ends.
pub fn answers_step()
    ensures { AnswersStep }
{
    answered_fixes_mend();
    fixes_step()
}

/// Each report of a pass, and each edit of its fix, is at a place of the text, of every tree.
fn placed_pass<P: StepPass>(_pass: &P)
    ensures { IsPlacedPass (P.table _pass.now) }
{}

/// The reports of an answer are in the order of their starts.
pub fn answers_ascend()
    ensures { AnswersAscend }
{}

/// In a text without ignore comments the answer for the text that a followed fix makes is known from the old answer: which reports of
/// listed rules there are, where they begin, and where the followed fixes are. So many such fixes can be made of one answer.
pub fn answers_leave()
    ensures { AnswersLeave }
{
    answered_fixes_mend();
    fixes_leave();
    placed_pass(&OwnPasses)
}
