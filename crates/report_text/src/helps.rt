//! Helps that PostgreSQL refuses.
ghost use Rattle.std.specs.Prelude.{◌≡◌, ◌<◌, IfSome, length, position};
ghost use Rattle.report_text.specs.Helps.{added_kind, from_letter, from_space, has_no_not_valid, is_not_space, is_refused_help, is_space, second_word};

use lint_base::Rule;
use lint_report::Code;
use source_file::begins_with;

// The place of the first blank, tab or byte that ends a line.
fn first_space(text: &[u8]) -> Option<usize>
    ensures place { result ≡ position is_space text.now }
    ensures within { IfSome result (λ at. at < length text.now) }
{
    text.iter().position(|byte| {
        *byte == b' ' || *byte == b'\t' || *byte == b'\n' || *byte == b'\r'
    })
}

// The place of the first other byte.
fn first_letter(text: &[u8]) -> Option<usize>
    ensures place { result ≡ position is_not_space text.now }
    ensures within { IfSome result (λ at. at < length text.now) }
{
    text.iter().position(|byte| {
        !(*byte == b' ' || *byte == b'\t' || *byte == b'\n' || *byte == b'\r')
    })
}

// What begins with the first blank, tab or byte that ends a line.
fn from_space(text: &[u8]) -> &[u8]
    ensures { result.now ≡ from_space text.now }
{
    match first_space(text) {
        None => &[],
        Some(at) => &text[at..],
    }
}

// What begins with the first other byte.
fn from_letter(text: &[u8]) -> &[u8]
    ensures { result.now ≡ from_letter text.now }
{
    match first_letter(text) {
        None => &[],
        Some(at) => &text[at..],
    }
}

// What begins with the second word of a text.
#[tactic(auto, unfolding(crate::specs::Helps::second_word))]
fn second_word(text: &[u8]) -> &[u8]
    ensures { result.now ≡ second_word text.now }
{
    from_letter(from_space(text))
}

// The constraint that an addition adds, from its kind on.
#[tactic(auto, unfolding(crate::specs::Helps::added_kind))]
fn added_kind(text: &[u8]) -> &[u8]
    ensures { result.now ≡ added_kind text.now }
{
    let second = second_word(text);
    if begins_with(second, b"constraint") {
        second_word(second_word(second))
    } else {
        second
    }
}

// Whether a constraint of this kind can't be NOT VALID.
fn has_no_not_valid(kind: &[u8]) -> bool
    ensures { result ≡ has_no_not_valid kind.now }
{
    begins_with(kind, b"unique") || begins_with(kind, b"primary") || begins_with(kind, b"exclude")
}

/// Whether PostgreSQL refuses what the help of a report says, by the text that is reported. No hazard has such a help.
#[tactic(auto, unfolding(crate::specs::Helps::is_refused_help, lint_base::specs::RuleNames::same_rule))]
pub(crate) fn is_refused_help(code: Code, text: &[u8]) -> bool
    ensures { result ≡ is_refused_help code text.now }
{
    match code {
        Code::Rule(rule) => {
            rule == Rule::ConstraintMissingNotValid && has_no_not_valid(added_kind(text))
        }
        Code::Hazard(_) => false,
    }
}
