//! How a run ends that nothing stops.
ghost use Rattle.std.specs.Prelude.{◌≡◌};
ghost use Rattle.std.specs.List.{list_any};
ghost use Rattle.gate_files.specs.checked_file.Answers.{refused_status};
ghost use Rattle.fix_output.specs.Differences.{is_changed};
ghost use Rattle.fix_run.specs.Giving as spec;

use fix_output::FixedFile;
use gate_files::{Answer, Refusal, Status, Unread};

// Whether a text is another one now.
fn is_changed(file: &FixedFile) -> bool
    ensures { result ≡ is_changed file.now }
{
    file.old.as_str() != file.new.as_str()
}

// Whether one of these is changed.
fn any_changed(files: &[FixedFile]) -> bool
    ensures { result ≡ list_any is_changed files.now }
{
    files.iter().any(|file| is_changed(file))
}

// The status of a file of which nothing is made.
fn refused_status(refusal: Refusal) -> Status
    ensures { result ≡ refused_status refusal }
{
    Answer::Refused(refusal).status()
}

// The greatest status of files of which nothing is made.
fn unread_status(all: &[Unread]) -> Status
    ensures { result ≡ spec.unread_status all.now }
{
    let mut status = Status::Clean;
    for unread in all {
        status = status.worse(refused_status(unread.refusal));
    }
    status
}

// The status of the files that were read.
fn fixed_status(is_written: bool, files: &[FixedFile]) -> Status
    ensures { result ≡ spec.fixed_status is_written files.now }
{
    if !is_written && any_changed(files) {
        Status::Found
    } else {
        Status::Clean
    }
}

/// The status of a run, by whether it writes what it makes.
pub(crate) fn status_of(is_written: bool, files: &[FixedFile], all: &[Unread]) -> Status
    ensures { result ≡ spec.status_of is_written files.now all.now }
{
    fixed_status(is_written, files).worse(unread_status(all))
}
