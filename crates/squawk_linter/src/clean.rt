//! What a clean answer means.

ghost use Rattle.squawk_linter.specs.CleanAnswers.{CleanAnswersWorkAlone, ReportsLie};

use fix_edit::StepPass;
use law_answers::OwnPasses;
use law_clean::{clean_answers_have_no_old_work, clean_answers_validate_apart};

/// The reports of a pass lie in the text.
fn reports_lie<P: StepPass>(_pass: &P)
    ensures { ReportsLie (P.table _pass.now) }
{}

/// What a clean answer for a tree means. Where the rules of the default set are enabled, no ignore comment is in the text, the
/// text is plain and nothing is reported, all listed work is on tables that were created in the same transaction, and no
/// constraint is validated in the open transaction that added it as not valid.
pub fn clean_answers()
    ensures { CleanAnswersWorkAlone }
{
    clean_answers_have_no_old_work();
    clean_answers_validate_apart();
    reports_lie(&OwnPasses)
}
