//! How the lines of a text end.
ghost use Rattle.std.specs.Prelude.{◌≡◌, position};
ghost use Rattle.text_pos.specs.Line.{ending_bytes, is_line_feed, line_ending_of};

/// The bytes at the end of a line.
#[derive(Clone, Copy, Debug, PartialEq, Eq)]
pub enum LineEnding {
    /// A line feed.
    Lf,
    /// A carriage return and a line feed.
    CrLf,
}

impl LineEnding {
    /// The bytes of the line ending, as a text.
    pub fn as_str(&self) -> &'static str
        ensures { result.now ≡ ending_bytes self.now }
    {
        match self {
            LineEnding::Lf => "\n",
            LineEnding::CrLf => "\r\n",
        }
    }
}

/// The line ending of a text, known by its first line; `Lf` where it has no line feed.
pub fn line_ending(text: &str) -> LineEnding
    ensures { result ≡ line_ending_of text.now }
{
    let bytes = text.as_bytes();
    match first_line_feed(bytes) {
        Some(at) if at > 0 && bytes[at - 1] == b'\r' => LineEnding::CrLf,
        _ => LineEnding::Lf,
    }
}

// The place of the first line feed.
fn first_line_feed(bytes: &[u8]) -> Option<usize>
    ensures { result ≡ position is_line_feed bytes.now }
{
    bytes.iter().position(|byte| *byte == b'\n')
}
