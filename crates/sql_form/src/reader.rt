//! What each part of a form takes.
//!
//! A reader is given what was kept so far and the terminals that are left. It writes what it keeps in place and gives
//! what is left after it. What was kept says nothing more once a part that must be there does not.

ghost use Rattle.std.specs.Prelude.{◌≡◌, ◌==◌, ◌&&◌, ◌||◌, not, length};
ghost use Rattle.std.specs.Option.{option_map, option_copied};
ghost use Rattle.sql_tree.specs.sql_keyword.declared.words.TheConstants.Keyword as keyword;
ghost use Rattle.sql_tree.specs.sql_token.Terminal.{is_keyword, is_name};
ghost use Rattle.sql_tree.specs.declared.forms.Captures.{Captures};
ghost use Rattle.sql_tree.specs.Forms.{at, one, nothing_kept, word_kept, name_kept, concurrently_kept, is_temp, is_other_mod, take_path, take_mods, record_fact, take_index_name, take_chain, take_concurrently, take_star, take_into, take_rest, take_list, some_left, is_str_symbol, words_of, after_word, after_words, or_here, take_phrase, take_part};
ghost use Rattle.sql_tree.specs.Action.{after_name};
ghost use Rattle.sql_tree.specs.Constraint.{after_two};
ghost use Rattle.sql_tree.specs.Split as spec;
ghost use Rattle.sql_tree.specs.Split.{privileges};
ghost use Rattle.sql_tree.specs.Words.{is_of_class};
ghost use Rattle.sql_form.specs.Missing.{begins_with_mod};
ghost use Rattle.sql_form.specs.Views.{after};

use sql_mark::{after_list, from_mark, is_of_class, path_first};
use sql_tree::forms::{Captures, Fact, Part, Phrase, WordClass};
use sql_tree::{Keyword, Span, Symbol, Terminal};

fn tell(mark: Fact, kept: &mut Captures)
    ensures { kept.new ≡ record_fact mark kept.old }
{
    match mark {
        Fact::Nothing => {}
        Fact::Unique => kept.unique = true,
        Fact::Guarded => kept.guarded = true,
        Fact::Chain => kept.chain = true,
        Fact::Replace => kept.replace = true,
        Fact::NotPlain => kept.not_plain = true,
        Fact::Placed => kept.placed = true,
    }
}

/// What follows this word, where it comes first.
pub fn after_word<'a>(word: Keyword, left: &'a [Terminal]) -> Option<&'a [Terminal]>
    ensures copied { option_copied result ≡ after_word word left.entry.now }
    ensures kept { (c : Captures) → option_map (after c) result ≡ one (is_keyword word) nothing_kept c left.entry.now }
{
    match left {
        [first, rest @ ..] if first.is_keyword(word) => Some(rest),
        _ => None,
    }
}

/// What follows these two words, where they come first.
#[tactic(auto, unfolding(sql_tree::specs::Constraint::after_two))]
pub fn after_two<'a>(
    first: Keyword,
    second: Keyword,
    left: &'a [Terminal],
) -> Option<&'a [Terminal]>
    ensures { option_copied result ≡ after_two first second left.entry.now }
{
    let rest = after_word(first, left)?;
    after_word(second, rest)
}

fn after_any_of<'a>(class: WordClass, left: &'a [Terminal]) -> Option<&'a [Terminal]>
    ensures { (c : Captures) → option_map (after c) result ≡ one (is_of_class class) nothing_kept c left.entry.now }
{
    match left {
        [first, rest @ ..] if is_of_class(class, *first) => Some(rest),
        _ => None,
    }
}

fn after_object<'a>(
    word: Keyword,
    kept: &mut Captures,
    left: &'a [Terminal],
) -> Option<&'a [Terminal]>
    ensures { option_map (after kept.new) result ≡ one (is_keyword word) word_kept kept.old left.entry.now }
{
    match left {
        [first, rest @ ..] if first.is_keyword(word) => {
            kept.word = Some(first.number);
            Some(rest)
        }
        _ => None,
    }
}

fn after_maybe_object<'a>(
    word: Keyword,
    kept: &mut Captures,
    left: &'a [Terminal],
) -> &'a [Terminal]
    ensures { at kept.new result.now ≡ or_here (one (is_keyword word) word_kept kept.old left.entry.now) kept.old left.entry.now }
{
    match left {
        [first, rest @ ..] if first.is_keyword(word) => {
            kept.word = Some(first.number);
            rest
        }
        _ => left,
    }
}

fn after_tell<'a>(mark: Fact, kept: &mut Captures, left: &'a [Terminal]) -> &'a [Terminal]
    ensures { at kept.new result.now ≡ at (record_fact mark kept.old) left.entry.now }
{
    tell(mark, kept);
    left
}

fn after_flag<'a>(
    word: Keyword,
    mark: Fact,
    kept: &mut Captures,
    left: &'a [Terminal],
) -> &'a [Terminal]
    ensures { at kept.new result.now ≡ or_here (one (is_keyword word) (λ t c. record_fact mark c) kept.old left.entry.now) kept.old left.entry.now }
{
    match left {
        [first, rest @ ..] if first.is_keyword(word) => {
            tell(mark, kept);
            rest
        }
        _ => left,
    }
}

fn after_either<'a>(
    word: Keyword,
    other: Keyword,
    kept: &mut Captures,
    left: &'a [Terminal],
) -> &'a [Terminal]
    ensures { at kept.new result.now ≡ or_here (one (λ t. is_keyword word t || is_keyword other t) word_kept kept.old left.entry.now) kept.old left.entry.now }
{
    match left {
        [first, rest @ ..] if first.is_keyword(word) || first.is_keyword(other) => {
            kept.word = Some(first.number);
            rest
        }
        _ => left,
    }
}

#[tactic(auto, unfolding(sql_tree::specs::Forms::words_of))]
fn words(phrase: Phrase) -> &'static [Keyword]
    ensures { result.now ≡ words_of phrase }
{
    match phrase {
        Phrase::IfExists => &[Keyword::IF, Keyword::EXISTS],
        Phrase::IfNotExists => &[Keyword::IF, Keyword::NOT, Keyword::EXISTS],
        Phrase::AndChain => &[Keyword::AND, Keyword::CHAIN],
        Phrase::AndNoChain => &[Keyword::AND, Keyword::NO, Keyword::CHAIN],
        Phrase::OrReplace => &[Keyword::OR, Keyword::REPLACE],
        Phrase::SetData => &[Keyword::SET, Keyword::DATA],
    }
}

/// What follows these words, where they come first.
pub fn after_words<'a>(words: &[Keyword], left: &'a [Terminal]) -> Option<&'a [Terminal]>
    ensures { option_copied result ≡ after_words words.now left.entry.now }
{
    let mut here = left;
    for word in words {
        here = after_word(*word, here)?;
    }
    Some(here)
}

fn after_phrase<'a>(phrase: Phrase, left: &'a [Terminal]) -> Option<&'a [Terminal]>
    ensures { option_copied result ≡ after_words (words_of phrase) left.entry.now }
{
    after_words(words(phrase), left)
}

fn after_maybe<'a>(
    phrase: Phrase,
    mark: Fact,
    kept: &mut Captures,
    left: &'a [Terminal],
) -> &'a [Terminal]
    ensures { at kept.new result.now ≡ or_here (take_phrase phrase mark kept.old left.entry.now) kept.old left.entry.now }
{
    match after_phrase(phrase, left) {
        Some(rest) => {
            tell(mark, kept);
            rest
        }
        None => left,
    }
}

fn after_chain<'a>(kept: &mut Captures, left: &'a [Terminal]) -> &'a [Terminal]
    ensures { at kept.new result.now ≡ take_chain kept.old left.entry.now }
{
    match after_phrase(Phrase::AndChain, left) {
        Some(rest) => {
            tell(Fact::Chain, kept);
            rest
        }
        None => after_maybe(Phrase::AndNoChain, Fact::Nothing, kept, left),
    }
}

fn after_concurrently<'a>(kept: &mut Captures, left: &'a [Terminal]) -> &'a [Terminal]
    ensures { at kept.new result.now ≡ take_concurrently kept.old left.entry.now }
{
    match left {
        [first, rest @ ..] if first.is_keyword(Keyword::CONCURRENTLY) => {
            kept.concurrently = Some(first.number);
            rest
        }
        _ => left,
    }
}

/// The name of an index comes first, and it is not the word ON.
fn is_index_name(t: Terminal) -> bool
    ensures { result ≡ (is_name t && not (is_keyword keyword.ON t)) }
{
    t.is_name() && !t.is_keyword(Keyword::ON)
}

fn after_index_name<'a>(kept: &mut Captures, left: &'a [Terminal]) -> &'a [Terminal]
    ensures { at kept.new result.now ≡ take_index_name kept.old left.entry.now }
{
    match after_phrase(Phrase::IfNotExists, left) {
        Some(rest) => match rest {
            [name, after @ ..] if is_index_name(*name) => {
                kept.guarded = true;
                kept.name = Some(name.number);
                after
            }
            _ => left,
        },
        None => match left {
            [name, after @ ..] if is_index_name(*name) => {
                kept.name = Some(name.number);
                after
            }
            _ => left,
        },
    }
}

fn is_temp_word(t: Terminal) -> bool
    ensures { result ≡ is_temp t }
{
    t.is_keyword(Keyword::TEMP) || t.is_keyword(Keyword::TEMPORARY)
}

fn is_other_mod_word(t: Terminal) -> bool
    ensures { result ≡ is_other_mod t }
{
    t.is_keyword(Keyword::GLOBAL) || t.is_keyword(Keyword::LOCAL) || t.is_keyword(Keyword::UNLOGGED)
}

/// Whether a word that `Part::Mods` takes comes first.
pub(crate) fn begins_with_mod(left: &[Terminal]) -> bool
    ensures { result ≡ begins_with_mod left.now }
{
    match left {
        [] => false,
        [first, ..] => is_temp_word(*first) || is_other_mod_word(*first),
    }
}

fn after_mods<'a>(kept: &mut Captures, left: &'a [Terminal]) -> &'a [Terminal]
    ensures { at kept.new result.now ≡ take_mods kept.old left.entry.now }
{
    let mut here = left;
    while let [first, rest @ ..] = here {
        if is_temp_word(*first) {
            kept.temp = true;
        } else if !is_other_mod_word(*first) {
            break;
        }
        here = rest;
    }
    here
}

#[tactic(auto, unfolding(sql_tree::specs::Groups::path_first))]
fn after_path<'a>(kept: &mut Captures, left: &'a [Terminal]) -> Option<&'a [Terminal]>
    ensures { option_map (after kept.new) result ≡ take_path kept.old left.entry.now }
{
    let (path, end) = path_first(left)?;
    kept.path = Some(path);
    Some(end)
}

fn after_name<'a>(kept: &mut Captures, left: &'a [Terminal]) -> Option<&'a [Terminal]>
    ensures { option_map (after kept.new) result ≡ one is_name name_kept kept.old left.entry.now }
{
    match left {
        [name, rest @ ..] if name.is_name() => {
            kept.name = Some(name.number);
            Some(rest)
        }
        _ => None,
    }
}

/// What follows a name, where one comes first.
#[tactic(auto, unfolding(sql_tree::specs::Action::after_name))]
pub fn after_any_name<'a>(left: &'a [Terminal]) -> Option<&'a [Terminal]>
    ensures copied { option_copied result ≡ after_name left.entry.now }
    ensures kept { (c : Captures) → option_map (after c) result ≡ one is_name nothing_kept c left.entry.now }
{
    match left {
        [name, rest @ ..] if name.is_name() => Some(rest),
        _ => None,
    }
}

fn after_str<'a>(kept: &mut Captures, left: &'a [Terminal]) -> Option<&'a [Terminal]>
    ensures { option_map (after kept.new) result ≡ one (λ t. is_str_symbol t.symbol) name_kept kept.old left.entry.now }
{
    match left {
        [first, rest @ ..] if matches!(first.symbol, Symbol::Str) => {
            kept.name = Some(first.number);
            Some(rest)
        }
        _ => None,
    }
}

fn after_brackets<'a>(left: &'a [Terminal]) -> Option<&'a [Terminal]>
    ensures { (c : Captures) → option_map (after c) result ≡ take_list c left.entry.now }
{
    after_list(left)
}

fn after_maybe_list<'a>(left: &'a [Terminal]) -> &'a [Terminal]
    ensures { (c : Captures) → at c result.now ≡ or_here (take_list c left.entry.now) c left.entry.now }
{
    match after_list(left) {
        Some(rest) => rest,
        None => left,
    }
}

fn after_star<'a>(kept: &Captures, left: &'a [Terminal]) -> &'a [Terminal]
    ensures { at kept.now result.now ≡ take_star kept.now left.entry.now }
{
    match left {
        [first, rest @ ..] if matches!(first.symbol, Symbol::Star) => rest,
        _ => left,
    }
}

fn after_into<'a>(left: &'a [Terminal]) -> Option<&'a [Terminal]>
    ensures { (c : Captures) → option_map (after c) result ≡ take_into c left.entry.now }
{
    after_word(Keyword::INTO, from_mark(sql_mark::Mark::Into, left))
}

/// What is left, where it is something.
fn some_left<'a>(left: &'a [Terminal]) -> Option<&'a [Terminal]>
    ensures { (c : Captures) → option_map (after c) result ≡ some_left c left.entry.now }
{
    match left {
        [] => None,
        _ => Some(left),
    }
}

fn from_privileges<'a>(left: &'a [Terminal]) -> Option<&'a [Terminal]>
    ensures { (c : Captures) → option_map (after c) result ≡ some_left c (spec.from_mark privileges left.entry.now) }
{
    some_left(from_mark(sql_mark::Mark::Privileges, left))
}

fn leave_open<'a>(kept: &mut Captures, left: &'a [Terminal]) -> &'a [Terminal]
    ensures { at kept.new result.now ≡ take_rest kept.old left.entry.now }
{
    kept.open_ended = true;
    left
}

/// What is left after a part, where it is present. What it keeps is written; where it is missing, what was kept says
/// nothing more.
#[inline(always)]
#[tactic(auto, unfolding(sql_tree::specs::Forms::take_part))]
pub(crate) fn take_part<'a>(
    part: Part,
    kept: &mut Captures,
    left: &'a [Terminal],
) -> Option<&'a [Terminal]>
    ensures { option_map (after kept.new) result ≡ take_part part kept.old left.entry.now }
{
    match part {
        Part::Word(word) => after_word(word, left),
        Part::AnyOf(class) => after_any_of(class, left),
        Part::Object(word) => after_object(word, kept, left),
        Part::MaybeObject(word) => Some(after_maybe_object(word, kept, left)),
        Part::Tell(mark) => Some(after_tell(mark, kept, left)),
        Part::Flag(word, mark) => Some(after_flag(word, mark, kept, left)),
        Part::Either(word, other) => Some(after_either(word, other, kept, left)),
        Part::Maybe(phrase, mark) => Some(after_maybe(phrase, mark, kept, left)),
        Part::Chain => Some(after_chain(kept, left)),
        Part::Concurrently => Some(after_concurrently(kept, left)),
        Part::IndexName => Some(after_index_name(kept, left)),
        Part::Mods => Some(after_mods(kept, left)),
        Part::Name => after_name(kept, left),
        Part::Path => after_path(kept, left),
        Part::AnyName => after_any_name(left),
        Part::Str => after_str(kept, left),
        Part::List => after_brackets(left),
        Part::MaybeList => Some(after_maybe_list(left)),
        Part::Star => Some(after_star(kept, left)),
        Part::Into => after_into(left),
        Part::Privileges => from_privileges(left),
        Part::Rest => Some(leave_open(kept, left)),
        Part::Tail => some_left(leave_open(kept, left)),
    }
}

/// Whether nothing is left but what the form leaves open.
pub(crate) fn is_all_taken(kept: &Captures, left: &[Terminal]) -> bool
    ensures { result ≡ (kept.now.open_ended || length left.now == 0) }
{
    kept.open_ended || left.is_empty()
}
