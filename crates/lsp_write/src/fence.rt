//! Blocks of text in Markdown.
ghost use Rattle.std.specs.Prelude.{◌≡◌, ◌++◌, ◌≤◌, ◌<◌, IfOk, OnOk, length, string_bytes};
ghost use Rattle.lsp_write.specs.Fence.{block, fence, longest_run};

use std::alloc::{AllocError, Global};

// The length of the longest run of backticks.
#[tactic(auto, unfolding(crate::specs::Fence::longest_run))]
fn longest_run(text: &[u8]) -> usize
    ensures longest { result ≡ longest_run 0 text.now }
    ensures short { result ≤ length text.now }
{
    let mut longest = 0;
    let mut run = 0;
    for byte in text {
        if *byte == b'`' {
            run += 1;
        } else {
            longest = longest.max(run);
            run = 0;
        }
    }
    longest.max(run)
}

#[tactic(auto, unfolding(crate::specs::Fence::fence))]
fn fence(alloc: Global, text: &str) -> Result<String, AllocError>
    ensures { IfOk result (λ s. string_bytes s ≡ fence text.now) }
{
    let inside = longest_run(text.as_bytes());
    "`".repeat(alloc, 3.max(inside + 1))
}

/// Adds a text of whole lines as a block that shows it as it is.
#[tactic(auto, unfolding(crate::specs::Fence::block))]
pub(crate) fn push_block(out: &mut String, alloc: Global, text: &str) -> Result<(), AllocError>
    ensures { OnOk result (string_bytes out.new ≡ string_bytes out.old ++ block text.now) }
{
    let fence = fence(alloc, text)?;
    out.push_str(fence.as_str())?;
    out.push_str("text\n")?;
    out.push_str(text)?;
    out.push_str(fence.as_str())?;
    out.push_str("\n")
}
