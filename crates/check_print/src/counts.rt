//! What the last line counts.
ghost use Rattle.std.specs.Prelude.{◌≡◌};
ghost use Rattle.check_print.specs.Counted.{counts_of, one_if, with_file};

use checked_file::Checked;
use report_text::Counts;

// One where something is so.
fn one_if(is_so: bool) -> usize
    ensures { result ≡ one_if is_so }
{
    if is_so { 1 } else { 0 }
}

// The counts with one file more.
#[tactic(auto, unfolding(crate::specs::Counted::with_file))]
fn with_file(counts: Counts, file: &Checked) -> Counts
    ensures { result ≡ with_file counts file.now }
{
    Counts {
        issues: counts.issues.saturating_add(file.answer.report_count()),
        errors: counts.errors.saturating_add(file.answer.error_count()),
        marked: counts
            .marked
            .saturating_add(one_if(file.answer.has_findings())),
        files: counts.files,
    }
}

/// What the last line counts. A number past 2^64 - 1 is given as that.
pub(crate) fn counts_of(files: &[Checked]) -> Counts
    ensures { result ≡ counts_of files.now }
{
    let mut counts = Counts {
        issues: 0,
        errors: 0,
        marked: 0,
        files: files.len(),
    };
    for file in files {
        counts = with_file(counts, file);
    }
    counts
}
