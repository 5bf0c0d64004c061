//! What is said beside the lines of a run.
ghost use Rattle.std.specs.Prelude.{◌≡◌};
ghost use Rattle.fix_asked.specs.Noted as spec;

use fix_run::{Asked, Request, reads_input};

/// What is said in the end where `--unsafe` is not there, with its line feed.
pub(crate) const SAFE_ALONE: &str =
    "note: without --unsafe only safe fixes are made, and none of these rules has one: look at the diff that --unsafe prints\n";

/// What is said before files are written, with its line feed.
pub(crate) const NEW_ALONE: &str =
    "note: a migration that was applied must not be changed: Flyway, Liquibase, Prisma and sqlx compare checksums; fix only new ones\n";

/// What a run says beside its lines.
#[derive(Clone, Copy)]
pub(crate) enum Note {
    /// After them: only safe fixes are made.
    SafeAlone,
    /// Before them: files are written, which is for new ones alone.
    NewAlone,
}

// Whether files are written.
fn writes_files(request: &Request) -> bool
    ensures { result ≡ spec.writes_files request.now }
{
    request.write && !reads_input(&request.files)
}

fn note_for(request: &Request) -> Option<Note>
    ensures { result ≡ spec.note_for request.now }
{
    if !request.with_unsafe {
        Some(Note::SafeAlone)
    } else if writes_files(request) {
        Some(Note::NewAlone)
    } else {
        None
    }
}

/// The note of a run, if it has one.
pub(crate) fn note_of(asked: &Asked) -> Option<Note>
    ensures { result ≡ spec.note_of asked.now }
{
    match asked {
        Asked::Fix(request) => note_for(request),
        Asked::Help | Asked::Refused(_) => None,
    }
}
