//! The files of a run.
ghost use Rattle.std.specs.Prelude.{◌≡◌, fold};
ghost use Rattle.checked_file.specs.Files.{readable_of, worst};

use crate::answer::Answer;
use crate::status::Status;
use lint_report::Text;
use simdutf8::compat::from_utf8;
use source_file::TextSize;

/// What of a file was read as blanks: what is for psql and no SQL, and the bodies of functions.
#[derive(Clone, Copy, Debug, PartialEq, Eq)]
pub struct Passed {
    /// Where the first of it begins, in bytes of the file.
    pub first: TextSize,
    /// How many commands of psql itself there are.
    pub commands: usize,
    /// How many lines are data of a COPY .. FROM STDIN, with the lines `\.` that end them.
    pub data_lines: usize,
    /// How many bodies of functions and procedures there are.
    pub bodies: usize,
}

/// What came of the bytes of a file.
#[derive(Drop)]
pub struct Linted {
    /// The bytes as they were read: those of the file, in which what was passed over is blank.
    pub bytes: Vec<u8>,
    /// What was passed over, if anything was.
    pub passed: Option<Passed>,
    /// What came of them.
    pub answer: Answer,
}

/// A file, and what came of it.
#[derive(Drop)]
pub struct Checked {
    /// The name of the file.
    pub name: Text,
    /// Its bytes as they were read: none where they could not be.
    pub bytes: Vec<u8>,
    /// What was passed over, if anything was.
    pub passed: Option<Passed>,
    /// What came of it.
    pub answer: Answer,
}

/// The front of a file that is UTF-8, which mostly is all of it.
pub fn readable(bytes: &[u8]) -> &str
    ensures { result.now ≡ readable_of bytes.now }
{
    match from_utf8(bytes) {
        Ok(text) => text,
        Err(error) => match from_utf8(&bytes[..error.valid_up_to()]) {
            Ok(front) => front,
            Err(_) => unreachable!(),
        },
    }
}

/// The status of a run over these files: that of the file with the greatest.
pub fn worst(files: &[Checked]) -> Status
    ensures { result ≡ worst files.now }
{
    let mut status = Status::Clean;
    for file in files {
        status = status.worse(file.answer.status());
    }
    status
}
