//! The bytes of a name's full text, one after another, without building it.

ghost use Rattle.std.specs.Prelude.{◌≡◌, false, map, take, fold, string_bytes, IfOk};
ghost use Rattle.std.specs.Char.{to_ascii_lowercase};
ghost use Rattle.std.specs.Ordering.{nat_cmp};
ghost use Rattle.std.specs.Cmp.Lexicographic.{slice_cmp};
ghost use Rattle.std.specs.Str.{bytes_eq};
ghost use Rattle.std.specs.Iterator.{YieldsFirst, item_count};
ghost use Rattle.sql_name.specs.Name.{full_name, cut_name};
ghost use Rattle.sql_name.specs.FullBytes.{bytes_left};
ghost use Rattle.sql_name.specs.Hash.{text_writes};

use std::alloc::Global;
use std::cmp::Ordering;
use std::hash::Hasher;
use text_pos::NoMemory;

/// How many bytes of a full text names are told apart by: `NAMEDATALEN` less 1 (PostgreSQL manual 4.1.1).
const CUT_LEN: usize = 63;

/// The bytes that are still to come of a full text, at most `left` of them.
#[derive(Clone, Copy)]
pub(crate) struct FullBytes<'t> {
    is_quoted: bool,
    rest: &'t [u8],
    left: usize,
}

impl<'t> FullBytes<'t> {
    /// The first `limit` bytes of the full text of `text`.
    #[tactic(auto, unfolding(crate::specs::Name::full_name, crate::specs::FullBytes::full_from))]
    pub(crate) fn new(text: &'t str, limit: usize) -> FullBytes<'t>
        ensures { bytes_left result ≡ take limit (full_name text.now) }
    {
        let bytes = text.as_bytes();
        match bytes.split_first() {
            Some((b'"', rest)) => FullBytes {
                is_quoted: true,
                rest,
                left: limit,
            },
            _ => FullBytes {
                is_quoted: false,
                rest: bytes,
                left: limit,
            },
        }
    }

    /// The whole full text of `text`.
    #[tactic(auto, using(crate::proofs::Uses::whole_uses))]
    pub(crate) fn whole(text: &'t str) -> FullBytes<'t>
        ensures { bytes_left result ≡ full_name text.now }
    {
        FullBytes::new(text, text.len())
    }

    /// The bytes of a word that its full text has in lower case.
    #[tactic(auto, using(crate::proofs::Uses::word_uses), unfolding(crate::specs::FullBytes::full_from))]
    fn word(&self) -> &'t [u8]
        requires { self.now.is_quoted ≡ false }
        ensures { map to_ascii_lowercase result.now ≡ bytes_left self.now }
    {
        if self.left < self.rest.len() {
            &self.rest[..self.left]
        } else {
            self.rest
        }
    }
}

impl<'t> Iterator for FullBytes<'t> {
    type Item = u8;

    ghost next_gives = { YieldsFirst bytes_left };

    ghost remaining = { item_count bytes_left };

    #[tactic(auto, unfolding(crate::specs::Name::unquoted, crate::specs::Name::after_quote, crate::specs::FullBytes::full_from))]
    fn next(&mut self) -> Option<u8> {
        if self.left == 0 {
            return None;
        }
        let (byte, rest) = self.rest.split_first()?;
        if self.is_quoted && *byte == b'"' {
            let (second, rest) = rest.split_first()?;
            if *second != b'"' {
                return None;
            }
            self.rest = rest;
            self.left -= 1;
            return Some(b'"');
        }
        self.rest = rest;
        self.left -= 1;
        Some(if self.is_quoted {
            *byte
        } else {
            byte.to_ascii_lowercase()
        })
    }
}

/// Whether the two streams give the same bytes.
pub(crate) fn is_same(left: FullBytes<'_>, mut right: FullBytes<'_>) -> bool
    ensures { result ≡ bytes_eq (bytes_left left.entry) (bytes_left right.entry) }
{
    if !left.is_quoted && !right.is_quoted {
        return left.word().eq_ignore_ascii_case(right.word());
    }
    for byte in left {
        match right.next() {
            Some(other) if other == byte => {}
            _ => return false,
        }
    }
    right.next().is_none()
}

/// The lexicographic order of the two streams' bytes.
pub(crate) fn compare(left: FullBytes<'_>, mut right: FullBytes<'_>) -> Ordering
    ensures { result ≡ slice_cmp nat_cmp (bytes_left left.entry) (bytes_left right.entry) }
{
    for byte in left {
        let Some(other) = right.next() else {
            return Ordering::Greater;
        };
        if byte != other {
            return byte.cmp(&other);
        }
    }
    if right.next().is_none() {
        Ordering::Equal
    } else {
        Ordering::Less
    }
}

/// Writes each byte to the hasher, and then a byte that ends the text.
pub(crate) fn hash<H: Hasher>(bytes: FullBytes<'_>, state: &mut H)
    ensures { state.new ≡ fold H.write state.old (text_writes (bytes_left bytes.entry)) }
{
    for byte in bytes {
        state.write_u8(byte);
    }
    state.write_u8(0xFF);
}

/// Whether the stream gives these bytes.
pub(crate) fn is_text(bytes: FullBytes<'_>, text: &[u8]) -> bool
    ensures { result ≡ bytes_eq (bytes_left bytes.entry) text.now }
{
    let mut rest = text;
    for byte in bytes {
        match rest.split_first() {
            Some((first, others)) if *first == byte => rest = others,
            _ => return false,
        }
    }
    rest.is_empty()
}

/// How many bytes of the full text of `text` make the cut, or more where the cut is all of it.
pub(crate) fn cut_limit(text: &str) -> usize
    ensures { take result (full_name text.now) ≡ cut_name text.now }
{
    if text.len() <= CUT_LEN {
        return CUT_LEN;
    }
    let mut len = 0;
    let mut boundary = 0;
    for byte in FullBytes::new(text, CUT_LEN + 1) {
        if byte < 128 || byte >= 192 {
            boundary = len;
        }
        len += 1;
    }
    if len <= CUT_LEN { CUT_LEN } else { boundary }
}

/// The full text of `text`.
pub(crate) fn folded(alloc: Global, text: &str) -> Result<String, NoMemory>
    ensures { IfOk result (λ s. string_bytes s ≡ full_name text.now) }
{
    let mut bytes = Vec::with_capacity(alloc, text.len())?;
    for byte in FullBytes::whole(text) {
        bytes.push(byte)?;
    }
    Ok(String::from_utf8(bytes).unwrap())
}
