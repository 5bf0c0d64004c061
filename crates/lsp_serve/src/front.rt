//! What some bytes begin with.
ghost use Rattle.std.specs.Prelude.{◌≡◌, ◌+◌, ◌*◌, ◌-◌, ◌≤◌, ℕ, length, IfSome, IfOk};
ghost use Rattle.lsp_serve.specs.Frame.{LiesIn, front_of, header_end, later_field, length_in, number_at, number_from};

use memchr::memmem;

/// What the header begins with.
pub(crate) const NAME: &[u8; 16] = b"Content-Length: ";

/// The name of the length where it is not the first field.
const LATER_NAME: &[u8; 18] = b"\r\nContent-Length: ";

/// What ends the header.
pub(crate) const BLANK_LINE: &[u8; 4] = b"\r\n\r\n";

/// How many bytes are looked at for the end of a header.
const HEADER_LIMIT: usize = 4096;

/// How many bytes a message has at most: 64 MiB.
const CONTENT_LIMIT: usize = 67108864;

/// Why bytes do not go on as a message.
#[derive(Clone, Copy, Debug, PartialEq, Eq)]
pub enum Fault {
    /// No header begins here: no field has the length, or the header does not end.
    Header,
    /// The message has more than 64 MiB.
    TooLong,
}

/// What some bytes begin with.
#[derive(Clone, Copy, Debug, PartialEq, Eq)]
pub enum Front {
    /// The beginning of a message, or nothing.
    Partial,
    /// A message, whose content lies between these places.
    Whole { start: usize, end: usize },
}

/// What some bytes begin with. A header has at most 4096 bytes, and a content at most 64 MiB.
///
/// The form of messages is that of the Language Server Protocol 3.17, "Base Protocol": fields as in HTTP, each with a line of its
/// own, a blank line, and the content. Fields other than `Content-Length` are passed over. The length has digits alone.
pub fn read_front(bytes: &[u8]) -> Result<Front, Fault>
    ensures value { result ≡ front_of bytes.now }
    ensures within { IfOk result (λ front. LiesIn front bytes.now) }
{
    match header_end(bytes) {
        Some(end) => {
            let start = end + BLANK_LINE.len();
            let count = length_in(&bytes[..end])?;
            if bytes.len() - start < count {
                Ok(Front::Partial)
            } else {
                Ok(Front::Whole {
                    start,
                    end: start + count,
                })
            }
        }
        None if bytes.len() < HEADER_LIMIT => Ok(Front::Partial),
        None => Err(Fault::Header),
    }
}

/// The place of the blank line that ends the header.
fn header_end(bytes: &[u8]) -> Option<usize>
    ensures value { result ≡ header_end bytes.now }
    ensures within { IfSome result (λ end. end + 4 ≤ length bytes.now) }
{
    let looked_at = bytes.len().min(HEADER_LIMIT);
    memmem::find(&bytes[..looked_at], BLANK_LINE)
}

/// The length that a header has, in its first field or in a later one.
fn length_in(header: &[u8]) -> Result<usize, Fault>
    ensures { result ≡ length_in header.now }
{
    match header.strip_prefix(NAME) {
        Some(rest) => number_begun(rest),
        None => match later_field(header) {
            Some(at) => number_begun(&header[at + LATER_NAME.len()..]),
            None => Err(Fault::Header),
        },
    }
}

/// Where a later field of a header has the length, with the end of the line before it.
fn later_field(header: &[u8]) -> Option<usize>
    ensures value { result ≡ later_field header.now }
    ensures within { IfSome result (λ at. at + 18 ≤ length header.now) }
{
    memmem::find(header, LATER_NAME)
}

/// The number that a line begins with.
fn number_begun(line: &[u8]) -> Result<usize, Fault>
    ensures { result ≡ number_at line.now }
{
    match line {
        [b'0'..=b'9', ..] => number_at(line),
        _ => Err(Fault::Header),
    }
}

/// The number that digits write, up to the end of the line.
fn number_at(line: &[u8]) -> Result<usize, Fault>
    ensures { result ≡ number_from 0 line.now }
{
    let mut number: usize = 0;
    for byte in line {
        match byte {
            b'\r' => return Ok(number),
            b'0'..=b'9' => number = number * 10 + (*byte - b'0') as usize,
            _ => return Err(Fault::Header),
        }
        if number > CONTENT_LIMIT {
            return Err(Fault::TooLong);
        }
    }
    Ok(number)
}
