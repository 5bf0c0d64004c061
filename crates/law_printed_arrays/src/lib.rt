//! Laws of what is printed for programs: no two different lists of reports are printed alike in JSON, and none in SARIF; and GitLab's
//! report leads back to each finding, as far as its format keeps it.
#![tactic(auto)]

ghost use Rattle.law_printed_lines.specs.check_words.declared.request.Format.TheVariants as format;
ghost use Rattle.law_printed_arrays.specs.Unique.{IsUnique, UniqueIssues};

/// Two lists of sound files of which the same JSON is printed have the same reports, field by field, and the same refusals, in the same order;
/// and each of them begins and ends on the same line and in the same column.
pub fn unique_arrays()
    ensures { IsUnique format.Json }
{}

/// The same of SARIF.
pub fn unique_logs()
    ensures { IsUnique format.Sarif }
{}

/// Two lists of sound files of which the same is printed for GitLab have the same findings on the same lines, in the same order.
pub fn unique_issues()
    ensures { UniqueIssues }
{}
