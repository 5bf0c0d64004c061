//! The lines of a text.
ghost use Rattle.std.specs.Prelude.{◌≡◌, ◌<◌, [], ◌∷◌, IfNone, IfOk, IfSome, length, map};
ghost use Rattle.text_diff.specs.Lines.{lines_of};

use memchr::memchr;
use source_file::NoMemory;
use std::alloc::Global;

// The first line of a text, and what follows it; `None` for a text without bytes.
fn cut_line(text: &[u8]) -> Option<(&[u8], &[u8])>
    ensures empty { IfNone result (text.now ≡ []) }
    ensures first { IfSome result (λ cut. lines_of text.now ≡ cut.0.now ∷ lines_of cut.1.now) }
    ensures shorter { IfSome result (λ cut. length cut.1.now < length text.now) }
{
    if text.is_empty() {
        return None;
    }
    match memchr(b'\n', text) {
        None => Some((text, &text[text.len()..])),
        Some(feed) => Some((&text[..feed + 1], &text[feed + 1..])),
    }
}

/// The lines of a text, each with its line feed. The error comes when memory runs out.
pub fn lines<'t>(alloc: Global, text: &'t [u8]) -> Result<Vec<&'t [u8]>, NoMemory>
    ensures { IfOk result (λ all. map (λ line. line.now) all.items ≡ lines_of text.entry.now) }
{
    let mut all = Vec::new(alloc);
    let mut rest = text;
    'lines: while let Some((line, after)) = cut_line(rest) {
        all.push(line)?;
        rest = after;
    }
    Ok(all)
}
