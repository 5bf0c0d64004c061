//! What a byte of a pattern stands for.
ghost use Rattle.std.specs.Prelude.{◌≡◌};
ghost use Rattle.path_pattern.specs.Patterns as spec;

/// A part of a pattern.
#[derive(Clone, Copy, Debug, PartialEq, Eq)]
pub enum Part {
    /// This byte.
    Byte(u8),
    /// One byte but a slash.
    One,
    /// Any bytes but slashes.
    Name,
    /// Any bytes.
    Path,
}

// The part that a byte of a pattern is, by whether a star follows it.
pub(crate) fn part_of(byte: u8, is_before_star: bool) -> Part
    ensures { result ≡ spec.part_of byte is_before_star }
{
    if byte == b'*' {
        if is_before_star {
            Part::Path
        } else {
            Part::Name
        }
    } else if byte == b'?' {
        Part::One
    } else {
        Part::Byte(byte)
    }
}

// Whether a part takes a byte.
pub(crate) fn takes(part: Part, byte: u8) -> bool
    ensures { result ≡ spec.takes part byte }
{
    match part {
        Part::Byte(own) => byte == own,
        Part::One | Part::Name => byte != b'/',
        Part::Path => true,
    }
}

// Whether a part takes any number of bytes, and not one.
pub(crate) fn takes_many(part: Part) -> bool
    ensures { result ≡ spec.takes_many part }
{
    match part {
        Part::Byte(_) | Part::One => false,
        Part::Name | Part::Path => true,
    }
}
