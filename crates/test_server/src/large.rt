//! A large document.

use crate::talk::{SOUND, TALK, output, serves};
use lsp_serve::End;
use std::test::Fail;

const MEGABYTE: usize = 1048576;

/// The notification that a document is open, before its text and behind it. Its content has 128 bytes more than the text.
const OPENED: (&str, &str) = (
    "Content-Length: 1048704\r\n\r\n{\"jsonrpc\":\"2.0\",\"method\":\"textDocument/didOpen\",\"params\":{\"textDocument\":{\"uri\":\"u\",\"languageId\":\"sql\",\"version\":1,\"text\":\"",
    "\"}}}",
);

// It comes in pieces.
#[test]
fn a_megabyte(rt: HostRuntime) -> Result<(), Fail> {
    let text = "a".repeat(rt.alloc(), MEGABYTE)?;
    let mut talk = String::new(rt.alloc());
    for (i, (message, _)) in TALK.iter().enumerate() {
        if i == 1 {
            talk.push_str(OPENED.0)?;
            talk.push_str(text.as_str())?;
            talk.push_str(OPENED.1)?;
        } else {
            talk.push_str(message)?;
        }
    }
    let said = output(rt.alloc(), talk.len())?;
    serves(
        &rt,
        rt.alloc(),
        talk.as_bytes(),
        SOUND,
        End::Exited { in_order: true },
        said.as_bytes(),
    )
}
