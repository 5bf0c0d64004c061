//! One word after another.
ghost use Rattle.std.specs.Prelude.{◌≡◌, IfOk, option_map};
ghost use Rattle.gate_command.specs.Steps as spec;

use crate::fault::Fault;
use crate::request::Request;
use gate_files::Order;
use refused_word::{NoMemory, Text, WordFault, after_dashes, begins_with_dash, name_in, value_in};
use std::alloc::Global;

/// What the next word is to be.
#[derive(Clone, Copy, Debug, PartialEq, Eq)]
pub(crate) enum Next {
    /// An option, or a file.
    Any,
    /// The value of `--order`.
    OrderValue,
    /// The value of an option that chooses the linter.
    LinterValue,
    /// A file, after `--`.
    File,
}

/// What the words so far ask for, and what the next one is to be.
#[derive(Drop)]
pub(crate) struct Reader {
    pub(crate) next: Next,
    pub(crate) request: Request,
}

// The order of a name.
fn order_named(name: &str) -> Option<Order>
    ensures { result ≡ spec.order_named name.now }
{
    if name == "given" {
        Some(Order::Given)
    } else if name == "name" {
        Some(Order::Name)
    } else {
        None
    }
}

// A copy of a text.
fn copied(alloc: Global, text: &str) -> Result<Text, NoMemory>
    ensures { IfOk result (λ copy. copy ≡ text.now) }
{
    Ok(Text::made(String::from_str(alloc, text)?))
}

// A request with an order, where there is one of this name.
fn put_order(
    alloc: Global,
    mut request: Request,
    value: &str,
) -> Result<Result<Reader, Fault>, NoMemory>
    ensures { IfOk result (λ r. r ≡ spec.put_order value.now request) }
{
    match order_named(value) {
        Some(order) => {
            request.order = order;
            Ok(Ok(Reader {
                next: Next::Any,
                request,
            }))
        }
        None => Ok(Err(Fault::UnknownOrder(copied(alloc, value)?))),
    }
}

// The value of `--order`, as a word of its own.
#[tactic(auto, unfolding(crate::specs::Steps::order_value))]
fn order_value(
    alloc: Global,
    word: &str,
    request: Request,
) -> Result<Result<Reader, Fault>, NoMemory>
    ensures { IfOk result (λ r. r ≡ spec.order_value word.now request) }
{
    if begins_with_dash(word) {
        return Ok(Err(Fault::NoOrder));
    }
    put_order(alloc, request, word)
}

// A request with one more file.
fn with_file(next: Next, mut request: Request, word: &str) -> Result<Reader, NoMemory>
    ensures { IfOk result (λ r. r ≡ spec.with_file next word.now request) }
{
    request.files.push(word)?;
    Ok(Reader { next, request })
}

// A request with one more word for the linter.
fn with_linter_word(next: Next, mut request: Request, word: &str) -> Result<Reader, NoMemory>
    ensures { IfOk result (λ r. r ≡ spec.with_linter_word next word.now request) }
{
    request.linter.push(word)?;
    Ok(Reader { next, request })
}

// What follows an option for the linter, which is given without its dashes.
#[tactic(auto, unfolding(crate::specs::Steps::after_linter_option))]
fn after_linter_option(rest: &str) -> Next
    ensures { result ≡ spec.after_linter_option rest.now }
{
    if value_in(rest).is_some() || rest == "assume-in-transaction" {
        Next::Any
    } else {
        Next::LinterValue
    }
}

// `--order`, and what follows its `=`, if there is one.
fn order_word(
    alloc: Global,
    value: Option<&str>,
    request: Request,
) -> Result<Result<Reader, Fault>, NoMemory>
    ensures { IfOk result (λ r. r ≡ spec.order_word (option_map (λ s. s.now) value.entry) request) }
{
    match value {
        Some(value) => put_order(alloc, request, value),
        None => Ok(Ok(Reader {
            next: Next::OrderValue,
            request,
        })),
    }
}

// An option with a value, or one for the linter, by what follows its dashes.
#[tactic(auto, unfolding(crate::specs::Steps::valued_word))]
fn valued_word(
    alloc: Global,
    word: &str,
    rest: &str,
    request: Request,
) -> Result<Result<Reader, Fault>, NoMemory>
    ensures { IfOk result (λ r. r ≡ spec.valued_word word.now rest.now request) }
{
    if name_in(rest) == "order" {
        return order_word(alloc, value_in(rest), request);
    }
    Ok(Ok(with_linter_word(after_linter_option(rest), request, word)?))
}

// An option, by what follows its dashes.
#[tactic(auto, unfolding(crate::specs::Steps::option_word))]
fn option_word(
    alloc: Global,
    word: &str,
    rest: &str,
    mut request: Request,
) -> Result<Result<Reader, Fault>, NoMemory>
    ensures { IfOk result (λ r. r ≡ spec.option_word word.now rest.now request) }
{
    match rest {
        "works" => request.works = true,
        "one-session" => request.one_session = true,
        _ => return valued_word(alloc, word, rest, request),
    }
    Ok(Ok(Reader {
        next: Next::Any,
        request,
    }))
}

// A word that begins with `--`.
fn dashed_word(
    alloc: Global,
    word: &str,
    rest: &str,
    request: Request,
) -> Result<Result<Reader, Fault>, NoMemory>
    ensures { IfOk result (λ r. r ≡ spec.dashed_word word.now rest.now request) }
{
    if rest.is_empty() {
        return Ok(Ok(Reader {
            next: Next::File,
            request,
        }));
    }
    option_word(alloc, word, rest, request)
}

// A word that does not.
fn plain_word(
    alloc: Global,
    word: &str,
    request: Request,
) -> Result<Result<Reader, Fault>, NoMemory>
    ensures { IfOk result (λ r. r ≡ spec.plain_word word.now request) }
{
    if begins_with_dash(word) {
        return Ok(Err(Fault::Word(WordFault::UnknownWord(copied(alloc, word)?))));
    }
    Ok(Ok(with_file(Next::Any, request, word)?))
}

// A word that may be anything.
#[tactic(auto, unfolding(crate::specs::Steps::any_word))]
fn any_word(alloc: Global, word: &str, request: Request) -> Result<Result<Reader, Fault>, NoMemory>
    ensures { IfOk result (λ r. r ≡ spec.any_word word.now request) }
{
    match after_dashes(word) {
        Some(rest) => dashed_word(alloc, word, rest, request),
        None => plain_word(alloc, word, request),
    }
}

/// One word more, or why it is refused. The error comes when memory runs out.
#[tactic(auto, unfolding(crate::specs::Steps::step))]
pub(crate) fn step(
    alloc: Global,
    reader: Reader,
    word: &str,
) -> Result<Result<Reader, Fault>, NoMemory>
    ensures { IfOk result (λ r. r ≡ spec.step word.now reader) }
{
    let Reader { next, request } = reader;
    match next {
        Next::Any => any_word(alloc, word, request),
        Next::OrderValue => order_value(alloc, word, request),
        Next::LinterValue => Ok(Ok(with_linter_word(Next::Any, request, word)?)),
        Next::File => Ok(Ok(with_file(Next::File, request, word)?)),
    }
}
