//! What a sink holds, compared with the text that is wanted of it.

use squawk_cli::MemSink;

/// How many bytes a sink holds, and whether they are the first ones of the text that is wanted, and all of it.
#[derive(Clone, Copy)]
pub(crate) struct Held {
    pub(crate) length: usize,
    pub(crate) is_part: bool,
    pub(crate) is_whole: bool,
}

impl Held {
    pub(crate) fn by(sink: &MemSink, want: &str) -> Held {
        let bytes = sink.bytes();
        Held {
            length: bytes.len(),
            is_part: want.as_bytes().starts_with(bytes),
            is_whole: bytes == want.as_bytes(),
        }
    }
}
