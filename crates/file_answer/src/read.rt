//! What is read of the bytes of a file.
ghost use Rattle.std.specs.Prelude.{◌≡◌, ◌<◌, ◌^◌, IfOk, IfSome, None, length};
ghost use Rattle.file_answer.specs.Reading as spec;
ghost use Rattle.file_answer.specs.Reading.{IsReadAs};

use check_run::Passed;
use law_reports::{NoMemory, TextSize};
use psql_text::{Blanked, without_psql};
use simdutf8::compat::from_utf8;
use std::alloc::Global;

/// The bytes of a file as they were read, and what was passed over.
#[derive(Drop)]
pub(crate) struct Read {
    pub(crate) bytes: Vec<u8>,
    pub(crate) passed: Option<Passed>,
}

// Bytes of which nothing was passed over.
fn plain(bytes: Vec<u8>) -> Read
    ensures { result ≡ record { bytes = bytes; passed = None } }
{
    Read {
        bytes,
        passed: None,
    }
}

// A text with blanks in the place of what was passed over.
fn blanked(text: Blanked) -> Read
    requires { text.first < 2 ^ 32 }
    ensures { spec.IsBlankedBy text result }
{
    let first = TextSize::new(text.first as u32);
    Read {
        bytes: text.text.into_bytes(),
        passed: Some(Passed {
            first,
            commands: text.commands,
            data_lines: text.data_lines,
            bodies: text.bodies,
        }),
    }
}

// The text in which what is passed over is blank; nothing where nothing is, or the bytes are not UTF-8.
#[tactic(auto, using(crate::proofs::Reading::text_found))]
fn text_in(alloc: Global, bytes: &[u8]) -> Result<Option<Blanked>, NoMemory>
    ensures found { IfOk result (spec.IsTextIn bytes.now) }
    ensures within { IfOk result (λ found. IfSome found (λ b. b.first < length bytes.now)) }
{
    match from_utf8(bytes) {
        Ok(text) => {
            let found = without_psql(alloc, text)?;
            Ok(found)
        }
        Err(_) => Ok(None),
    }
}

/// The bytes as they are read: with blanks in the place of what is for psql and no SQL and of the bodies of functions, unless all is read as
/// SQL. Bytes that are not UTF-8 stay as they are. The error comes when memory runs out.
#[tactic(auto, using(crate::proofs::Reading::read_none, crate::proofs::Reading::read_some, crate::proofs::Reading::read_short))]
pub(crate) fn read_bytes(alloc: Global, is_strict: bool, bytes: Vec<u8>) -> Result<Read, NoMemory>
    requires { length bytes.items < 2 ^ 32 }
    ensures read { IfOk result (IsReadAs is_strict bytes.items) }
    ensures short { IfOk result (λ read. length read.bytes.items < 2 ^ 32) }
{
    if is_strict {
        return Ok(plain(bytes));
    }
    match text_in(alloc, bytes.as_slice())? {
        None => Ok(plain(bytes)),
        Some(text) => Ok(blanked(text)),
    }
}
