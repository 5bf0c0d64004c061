//! What is written for a message.
ghost use Rattle.std.specs.Prelude.{◌≡◌, ◌≤◌, ◌++◌, ℕ, List, OnOk, length};
ghost use Rattle.lsp_serve.specs.Frame.{content_limit, frame};
ghost use Rattle.lsp_serve.specs.ReadsBack.{ReadsBack};

use crate::front::{BLANK_LINE, NAME};
use devices::NoMemory;
use std::alloc::Global;

/// Adds what is written for a message at the end. After an error the beginning of it may be there.
///
/// A reader takes a message of at most 64 MiB back as it was, whatever comes after it.
pub fn push_frame(alloc: Global, out: &mut Vec<u8>, content: &[u8]) -> Result<(), NoMemory>
    ensures written { OnOk result (out.new.items ≡ out.old.items ++ frame content.now) }
    ensures reads_back { OnOk result (length content.now ≤ content_limit → (rest : List ℕ) → ReadsBack content.now rest) }
{
    let count = content.len().to_string(alloc)?;
    out.extend_from_slice(NAME)?;
    out.extend_from_slice(count.as_bytes())?;
    out.extend_from_slice(BLANK_LINE)?;
    out.extend_from_slice(content)?;
    Ok(())
}
