//! A law of what a run prints.
ghost use Rattle.squawk_cli.specs.PrintedAnswers.{AnswersFit, PrintedAnswersTellApart};

use squawk_linter::laws::answers_placed;
use squawk_print_locks::printed_form_is_exact;

/// The printed form of an answer determines it, whichever text, rules and settings it is of: all its numbers are below 2^32.
pub fn printed_answers_tell_apart()
    ensures fit { AnswersFit }
    ensures apart { PrintedAnswersTellApart }
{
    answers_placed();
    printed_form_is_exact()
}
