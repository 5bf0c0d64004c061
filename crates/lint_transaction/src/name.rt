//! The names that tokens give.

ghost use Rattle.std.specs.Prelude.{◌≡◌};
ghost use Rattle.std.specs.Str.{bytes_eq};
ghost use Rattle.sql_tree.specs.sql_name.Compared.{full_text};
ghost use Rattle.lint_transaction.specs.Names as spec;
ghost use Rattle.lint_transaction.specs.Names.{name_at};

use lint_base::Names;
use sql_tree::{FullName, Parse, Span};

/// The name that the token of this number gives, to be compared by its full text. Past the last token it is empty.
pub fn name_at<'t>(p: &Parse<'t>, number: u32) -> FullName<'t>
    ensures { full_text result ≡ name_at p.now number }
{
    let number = number as usize;
    if number < p.tokens().len() {
        FullName::of(p.token_text(number))
    } else {
        FullName::of("")
    }
}

/// Whether two tokens give the same name. It is not inlined, since most spans are compared as paths.
#[inline(never)]
pub fn is_same_name(p: &Parse<'_>, a: u32, b: u32) -> bool
    ensures { result ≡ bytes_eq (name_at p.now a) (name_at p.now b) }
{
    name_at(p, a) == name_at(p, b)
}

/// Whether the full text of the name that a token gives is this.
#[tactic(auto, using(crate::proofs::NameSearch::is_name))]
fn is_named(p: &Parse<'_>, number: u32, text: &str) -> bool
    ensures { result ≡ bytes_eq text.now (name_at p.now number) }
{
    name_at(p, number).is(text)
}

/// Whether a path is this one name.
pub fn is_one_name(p: &Parse<'_>, path: Span, name: &str) -> bool
    ensures { result ≡ spec.is_one_name p.now path name.now }
{
    path.first == path.last && is_named(p, path.first, name)
}

/// Whether the name that a token gives is one of these.
fn is_listed(p: &Parse<'_>, number: u32, names: &Names) -> bool
    ensures { result ≡ spec.is_listed names.now p.now number }
{
    for i in 0..names.len() {
        if is_named(p, number, names.get(i)) {
            return true;
        }
    }
    false
}

/// Whether a call is of a function that is listed, without arguments.
pub fn is_listed_call(p: &Parse<'_>, name: Option<u32>, no_args: bool, names: &Names) -> bool
    ensures { result ≡ spec.is_listed_call names.now p.now name no_args }
{
    match name {
        Some(number) => no_args && is_listed(p, number, names),
        None => false,
    }
}
