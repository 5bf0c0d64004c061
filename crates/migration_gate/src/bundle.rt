//! Bundles.

ghost use Rattle.std.specs.Prelude.{◌≡◌, ◌≤◌, ◌<◌, ◌^◌, ℕ, List, All, length, IfOk, IfErr};
ghost use Rattle.migration_gate.specs.Bundle.{Entry, IsBadAt, BadOrNoMemory, IsBundle, IsRefused, OkOrNoMemory, entries_of};

use crate::entry::read_entry;
use crate::file::GateFile;
use std::alloc::Global;
use thiserror::Error;

/// Why a text gives no files.
#[derive(Clone, Copy, Debug, PartialEq, Eq, Drop, Error)]
pub enum BundleError {
    /// What begins at this byte is no entry, and only entries come before it.
    #[error("bundle at {at}")]
    Bad { at: u32 },
    /// Memory ran out.
    #[error("out of memory")]
    NoMemory,
}

/// The files of a bundle, in order. Their names and texts are borrowed from it.
///
/// An entry is `file `, the length of the text in decimal, a blank, the name, a line feed, the text and a line feed. The length is written as
/// it is printed, and a name has 1 to 255 bytes and no line feed. A bundle of no entries is the empty text.
pub fn read_bundle(alloc: Global, text: &str) -> Result<Vec<GateFile<'_>>, BundleError>
    requires { length text.now < 2 ^ 32 }
    ensures ok { IfOk result (λ files. IsBundle text.entry.now (entries_of files.items)) }
    ensures err { IfErr result (IsRefused text.entry.now) }

    // Running out of memory is the one answer whose coming is left open.
    ensures bundle { (entries : List Entry) → IsBundle text.entry.now entries → OkOrNoMemory result (λ files. entries_of files.items ≡ entries) }
    ensures bad { (at : ℕ) → IsBadAt text.entry.now at → BadOrNoMemory result at }

    ensures few { IfOk result (λ files. length files.items < 2 ^ 32) }
    ensures short { IfOk result (λ files. All (λ e. length e.text < 2 ^ 32) (entries_of files.items)) }
{
    let mut files = Vec::new(alloc);
    let mut rest = text;
    'reading: while !rest.is_empty() {
        let Some((file, more)) = read_entry(rest) else {
            let at = (text.len() - rest.len()) as u32;
            return Err(BundleError::Bad { at });
        };
        match files.push(file) {
            Ok(()) => rest = more,
            Err(_) => return Err(BundleError::NoMemory),
        }
    }
    Ok(files)
}
