//! One entry of a bundle.

ghost use Rattle.std.specs.Prelude.{◌≡◌, ◌≢◌, ◌++◌, ◌∷◌, ◌<◌, ◌≤◌, ◌^◌, ◌↔◌, ℕ, All, List, IsTrue, length, decimal, MatchOption};
ghost use Rattle.migration_gate.specs.Bundle.{BeginsNoEntry, IsEntry, IsName, entry_bytes, entry_of, head_bytes};

use crate::file::GateFile;
use itoa::Buffer;

/// The most bytes that a name may have.
const LONGEST_NAME: usize = 255;

/// What follows a prefix, where a text begins with it.
fn after<'t>(text: &'t str, prefix: &str) -> Option<&'t str>
    ensures { MatchOption result ((rest : List ℕ) → text.entry.now ≢ prefix.now ++ rest) (λ rest. text.entry.now ≡ prefix.now ++ rest.now) }
{
    text.strip_prefix(prefix)
}

/// What comes before and after the first of these characters, where there is one.
fn around_first(text: &str, mark: char) -> Option<(&str, &str)>
    requires { mark < 128 }
    ensures { MatchOption result ((front rest : List ℕ) → text.entry.now ≢ front ++ mark ∷ rest)
        (λ r. All (λ b. b ≢ mark) r.0.now × (text.entry.now ≡ r.0.now ++ mark ∷ r.1.now)) }
{
    text.split_once(mark)
}

/// The number whose decimal form a text is.
fn number(text: &str) -> Option<u32>
    ensures { MatchOption result ((n : ℕ) → n < 2 ^ 32 → text.now ≢ decimal n) (λ n. (n < 2 ^ 32) × (text.now ≡ decimal n)) }
{
    let Ok(number) = text.parse::<u32>() else {
        return None;
    };
    let mut buffer = Buffer::new();
    if buffer.format(number) == text {
        Some(number)
    } else {
        None
    }
}

/// The length that an entry begins with, and what follows its head.
fn read_head(text: &str) -> Option<(u32, &str)>
    ensures { MatchOption result ((n : ℕ) (rest : List ℕ) → n < 2 ^ 32 → text.entry.now ≢ head_bytes n ++ rest)
        (λ r. (r.0 < 2 ^ 32) × (text.entry.now ≡ head_bytes r.0 ++ r.1.now)) }
{
    let (digits, rest) = around_first(after(text, "file ")?, ' ')?;
    Some((number(digits)?, rest))
}

/// Whether a name has 1 to 255 bytes.
fn is_name_long(name: &str) -> bool
    ensures { IsTrue result ↔ ((1 ≤ length name.now) × (length name.now ≤ 255)) }
{
    !name.is_empty() && name.len() <= LONGEST_NAME
}

/// The name that a line is, and what follows the line.
fn read_name(text: &str) -> Option<(&str, &str)>
    ensures { MatchOption result ((name rest : List ℕ) → IsName name → text.entry.now ≢ name ++ 10 ∷ rest)
        (λ r. IsName r.0.now × (text.entry.now ≡ r.0.now ++ 10 ∷ r.1.now)) }
{
    let (name, rest) = around_first(text, '\n')?;
    if is_name_long(name) {
        Some((name, rest))
    } else {
        None
    }
}

/// A text of this length that a line feed follows, and what follows that.
fn read_text(text: &str, len: usize) -> Option<(&str, &str)>
    ensures { MatchOption result ((front rest : List ℕ) → length front ≡ len → text.entry.now ≢ front ++ 10 ∷ rest)
        (λ r. (length r.0.now ≡ len) × (text.entry.now ≡ r.0.now ++ 10 ∷ r.1.now)) }
{
    let (front, rest) = text.split_at_checked(len)?;
    Some((front, after(rest, "\n")?))
}

/// The file whose entry a text begins with, and what follows the entry.
pub(crate) fn read_entry(text: &str) -> Option<(GateFile<'_>, &str)>
    requires { length text.now < 2 ^ 32 }
    ensures { MatchOption result (BeginsNoEntry text.entry.now)
        (λ r. IsEntry (entry_of r.0) × (text.entry.now ≡ entry_bytes (entry_of r.0) ++ r.1.now)) }
{
    let (len, rest) = read_head(text)?;
    let (name, rest) = read_name(rest)?;
    let (text, rest) = read_text(rest, len as usize)?;
    Some((GateFile { name, text }, rest))
}
