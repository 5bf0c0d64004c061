//! Names of types.

ghost use Rattle.std.specs.Prelude.{◌≡◌};
ghost use Rattle.std.specs.Str.{bytes_eq};
ghost use Rattle.lint_pass.specs.sql_name.Compared.{full_text};
ghost use Rattle.pass_data_type.specs.TypeNames as spec;

use lint_pass::{ColType, FullName, Parse, TyKind, is_of_kind, name_at};

/// Whether the full text of a name is this word.
pub(crate) fn is_word(name: &FullName<'_>, word: &str) -> bool
    ensures { result ≡ bytes_eq (full_text name.now) word.now }
{
    name.is(word)
}

/// Whether a type is given by a path with this last name.
pub(crate) fn is_named(p: &Parse<'_>, word: &str, t: &ColType) -> bool
    ensures { result ≡ spec.is_named p.now word.now t.now }
{
    is_of_kind(TyKind::Path, t) && is_word(&name_at(p, t.name), word)
}
