//! What words choose.
ghost use Rattle.std.specs.Prelude.{◌≡◌, ◌++◌, IfOk, OnOk, option_map};
ghost use Rattle.squawk_run.specs.squawk_words.Command.{said_by};
ghost use Rattle.code_choice.specs.Choices as spec;

use crate::choices::{CodeChoices, hazards_by, rules_by};
use crate::lists::{code_list, codes_or_none, hazards_among, rules_among};
use lint_report::{Code, NoMemory};
use squawk_run::{Choices, Given, Words, choices_by, has_foreign_word, read_given};
use std::alloc::Global;

// The choices with the rules and hazards of lists.
fn with_lists(
    alloc: Global,
    mut choices: Choices,
    only: Option<&[Code]>,
    include: &[Code],
    exclude: &[Code],
) -> Result<CodeChoices, NoMemory>
    ensures { IfOk result (λ r. r ≡ spec.with_lists (option_map (λ s. s.now) only.entry) include.now exclude.now choices) }
{
    let included = rules_among(alloc, include)?;
    let excluded = rules_among(alloc, exclude)?;
    let apart = hazards_among(alloc, exclude)?;
    match only {
        None => {
            choices.rules = rules_by(None, included.as_slice(), excluded.as_slice());
            let hazards = hazards_by(None, apart.as_slice());
            Ok(CodeChoices { choices, hazards })
        }
        Some(codes) => {
            let rules = rules_among(alloc, codes)?;
            let named = hazards_among(alloc, codes)?;
            choices.rules = rules_by(
                Some(rules.as_slice()),
                included.as_slice(),
                excluded.as_slice(),
            );
            let hazards = hazards_by(Some(named.as_slice()), apart.as_slice());
            Ok(CodeChoices { choices, hazards })
        }
    }
}

// What values choose without their lists of rules.
fn plain_choices(alloc: Global, given: Given<'_>) -> Result<Option<Choices>, NoMemory>
    ensures { IfOk result (λ choices. choices ≡ spec.plain_choices (said_by given.entry)) }
{
    let plain = Given {
        only: None,
        include: None,
        exclude: None,
        ..given
    };
    choices_by(alloc, plain)
}

// What values choose that have no list `only`.
fn chosen_beside(
    alloc: Global,
    given: Given<'_>,
    choices: Choices,
) -> Result<Option<CodeChoices>, NoMemory>
    ensures { IfOk result (λ r. r ≡ spec.chosen_beside (said_by given.entry) choices) }
{
    let Some(include) = codes_or_none(alloc, given.include)? else {
        return Ok(None);
    };
    let Some(exclude) = codes_or_none(alloc, given.exclude)? else {
        return Ok(None);
    };
    let chosen = with_lists(alloc, choices, None, include.as_slice(), exclude.as_slice())?;
    Ok(Some(chosen))
}

// What values choose that have a list `only`.
fn chosen_only(
    alloc: Global,
    list: &str,
    given: Given<'_>,
    choices: Choices,
) -> Result<Option<CodeChoices>, NoMemory>
    ensures { IfOk result (λ r. r ≡ spec.chosen_only list.now (said_by given.entry) choices) }
{
    if given.include.is_some() || given.exclude.is_some() {
        return Ok(None);
    }
    let Some(only) = code_list(alloc, list)? else {
        return Ok(None);
    };
    let chosen = with_lists(alloc, choices, Some(only.as_slice()), &[], &[])?;
    Ok(Some(chosen))
}

// What values choose.
fn chosen_by(alloc: Global, given: Given<'_>) -> Result<Option<CodeChoices>, NoMemory>
    ensures { IfOk result (λ r. r ≡ spec.chosen_by (said_by given.entry)) }
{
    let Some(choices) = plain_choices(alloc, given)? else {
        return Ok(None);
    };
    match given.only {
        None => chosen_beside(alloc, given, choices),
        Some(list) => chosen_only(alloc, list, given, choices),
    }
}

// Whether a word asks for no hazards.
fn is_no_hazards(word: &str) -> bool
    ensures { result ≡ spec.is_no_hazards word.now }
{
    word == "--no-hazards"
}

// Whether one of the words does.
fn has_no_hazards(words: &Words) -> bool
    ensures { result ≡ spec.has_no_hazards words.now }
{
    for i in 0..words.len() {
        if is_no_hazards(words.get(i)) {
            return true;
        }
    }
    false
}

// Adds another word.
fn push_other(rest: &mut Words, word: &str) -> Result<(), NoMemory>
    ensures { OnOk result (rest.new ≡ rest.old ++ spec.other_word word.now) }
{
    if is_no_hazards(word) {
        return Ok(());
    }
    rest.push(word)
}

// The other words.
fn other_words(alloc: Global, words: &Words) -> Result<Words, NoMemory>
    ensures { IfOk result (λ rest. rest ≡ spec.other_words words.now) }
{
    let mut rest = Words::new(alloc);
    for i in 0..words.len() {
        push_other(&mut rest, words.get(i))?;
    }
    Ok(rest)
}

// What words choose that have no `--no-hazards`.
fn choices_of(alloc: Global, words: &Words) -> Result<Option<CodeChoices>, NoMemory>
    ensures { IfOk result (λ r. r ≡ spec.choices_of words.now) }
{
    match read_given(alloc, words)? {
        None => Ok(None),
        Some(given) => chosen_by(alloc, given),
    }
}

// Choices, without hazards where none are wanted.
fn without_hazards(are_unwanted: bool, mut chosen: CodeChoices) -> CodeChoices
    ensures { result ≡ spec.without_hazards are_unwanted chosen }
{
    if are_unwanted {
        chosen.hazards = hazards_by(Some(&[]), &[]);
    }
    chosen
}

/// What words choose, or `None` exactly where they are refused.
///
/// The words are those of [`squawk_words::read_choices`] without `--locks` and `--generate`, where a list of rules may name hazards too, and
/// `--no-hazards`, which counts once and more often alike. The error comes when memory runs out.
pub fn read_code_choices(alloc: Global, words: &Words) -> Result<Option<CodeChoices>, NoMemory>
    ensures { IfOk result (λ r. r ≡ spec.code_choices_of words.now) }
{
    if has_foreign_word(words, &["locks", "generate"]) {
        return Ok(None);
    }
    let rest = other_words(alloc, words)?;
    match choices_of(alloc, &rest)? {
        None => Ok(None),
        Some(chosen) => Ok(Some(without_hazards(has_no_hazards(words), chosen))),
    }
}
