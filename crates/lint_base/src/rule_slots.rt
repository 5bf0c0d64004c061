//! A table in which each rule's printed name has a slot of its own.
ghost use Rattle.std.specs.Prelude.{◌≡◌, ◌<◌, ◌≤◌, length};
ghost use Rattle.lint_base.specs.RuleSlots.{number_in, slot};

/// How many slots there are.
const SLOT_COUNT: usize = 256;

/// The shortest printed name that names a rule has so many bytes.
pub(crate) const SHORTEST_NAME: usize = 10;

/// The number of the one rule whose printed name may fall into each slot; that of `unused-ignore`, which no text names,
/// where none does.
static NUMBERS: [u8; SLOT_COUNT] = [
    0, 26, 46, 26, 51, 26, 26, 38, 26, 26, 26, 26, 26, 41, 26, 26, 26, 26, 24, 26, 26, 26, 26, 68,
    20, 26, 13, 26, 26, 26, 26, 26, 39, 26, 50, 26, 26, 26, 26, 26, 26, 26, 26, 9, 26, 26, 26, 26,
    26, 17, 57, 14, 26, 26, 8, 26, 26, 26, 26, 26, 26, 40, 26, 26, 73, 26, 26, 16, 26, 26, 5, 33,
    36, 26, 26, 26, 26, 26, 26, 26, 55, 26, 26, 7, 26, 26, 26, 26, 58, 54, 26, 26, 26, 32, 26, 71,
    26, 26, 26, 26, 26, 26, 26, 26, 26, 26, 26, 42, 26, 59, 26, 63, 31, 6, 26, 26, 26, 70, 26, 34,
    26, 26, 26, 26, 26, 52, 53, 25, 26, 47, 3, 11, 26, 26, 26, 74, 26, 30, 26, 75, 26, 26, 26, 26,
    26, 62, 26, 67, 26, 26, 26, 26, 26, 37, 26, 26, 23, 26, 26, 26, 26, 26, 26, 26, 26, 26, 26, 66,
    45, 26, 18, 26, 26, 26, 26, 64, 61, 26, 12, 26, 26, 44, 26, 26, 26, 26, 26, 65, 26, 26, 26, 10,
    26, 69, 26, 4, 26, 43, 72, 27, 26, 26, 26, 26, 26, 26, 26, 26, 26, 22, 26, 21, 26, 26, 26, 26,
    26, 26, 26, 76, 49, 77, 26, 15, 26, 26, 1, 26, 29, 19, 26, 26, 26, 26, 26, 26, 26, 26, 60, 26,
    26, 26, 48, 26, 26, 26, 26, 26, 26, 26, 26, 56, 2, 26, 35, 28,
];

/// The slot of a text. The bytes and their weights are such that no two names share a slot.
#[tactic(auto, unfolding(crate::specs::RuleSlots::slot))]
fn slot_of(text: &[u8]) -> usize
    requires { SHORTEST_NAME ≤ length text.now }
    ensures slot { result ≡ slot text.now }
    ensures within { result < SLOT_COUNT }
{
    let len = text.len();
    (27 * text[8] as usize
        + 105 * text[9] as usize
        + 22 * text[len - 7] as usize
        + 82 * text[len / 2] as usize)
        % SLOT_COUNT
}

/// The number in a slot.
#[tactic(auto, unfolding(crate::specs::RuleSlots::number_in))]
fn number_in(slot: usize) -> usize
    requires { slot < SLOT_COUNT }
    ensures { result ≡ number_in slot }
{
    NUMBERS[slot] as usize
}

/// The number of the one rule that a text may name by its printed name.
pub(crate) fn number_named(text: &[u8]) -> usize
    requires { SHORTEST_NAME ≤ length text.now }
    ensures { result ≡ number_in (slot text.now) }
{
    number_in(slot_of(text))
}
