//! What an accepted list of files means.

ghost use Rattle.migration_gate.specs.Laws.{AcceptedRunsClean, OneVerdict};

use squawk_linter::clean::clean_answers;

/// No work of accepted files is old in the machine that goes from file to file, and no file validates a constraint in the open transaction
/// that added it as not valid.
pub fn accepted_runs_clean()
    ensures { AcceptedRunsClean }
{
    clean_answers()
}

/// A list of texts has one verdict.
pub fn one_verdict()
    ensures { OneVerdict }
{}
