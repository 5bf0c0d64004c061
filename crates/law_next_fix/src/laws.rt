//! What is known of the fixes of an answer that are made one after another.

ghost use Rattle.law_next_fix.specs.Fitting.{AnswersCanBeTried, FittingFixesMayStep, FittingFixesStep};

use law_answer_steps::laws::answers_step;
use law_answer_steps::{answered_fixes_mend, answers_placed};
use law_listed_edits::laws::listed_edits;

/// The fix of each report of a listed rule that a linter answers can be tried in the text that was linted. If it fits there, it is as a
/// step asks, and so it is a step: a loop that makes one such fix after another ends, whichever it chooses.
pub fn fitting_fixes_step()
    ensures tried { AnswersCanBeTried }
    ensures may { FittingFixesMayStep }
    ensures steps { FittingFixesStep }
{
    answers_placed();
    answered_fixes_mend();
    listed_edits();
    answers_step()
}
