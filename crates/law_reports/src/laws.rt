//! Laws of all that is reported of a text.

ghost use Rattle.text_reports.specs.law_answers.Tables.{IsCoded};
ghost use Rattle.law_reports.specs.CleanTexts.{CleanTextsWorkAlone};
ghost use Rattle.law_reports.specs.NotReported.{NotReportedIsNotFound};
ghost use Rattle.law_reports.specs.Order.{ReportsAscend};

use text_reports::{OwnPasses, StepPass, answers_placed, clean_answers};

/// Each report of a pass is of one of its rules.
fn coded<P: StepPass>(_pass: &P)
    ensures { IsCoded (P.own _pass.now) (P.table _pass.now) }
{}

/// Reports come in the order of the places where they begin. A hazard that is enabled, of which no ignore comment of the text
/// speaks, and of which nothing is reported, is not found in the text: so what `law_hazards` says of such texts holds. And where
/// nothing at all is reported of a plain text without ignore comments, under the rules of the default set, all listed work is on
/// tables that were created in the same transaction, and no constraint is validated in the open transaction that added it as
/// not valid.
pub fn reports_tell()
    ensures order { ReportsAscend }
    ensures silence { NotReportedIsNotFound }
    ensures clean { CleanTextsWorkAlone }
{
    coded(&OwnPasses);
    answers_placed();
    clean_answers()
}
