//! Classes of words.

ghost use Rattle.std.specs.Prelude.{◌≡◌};
ghost use Rattle.sql_tree.specs.Words as spec;

use sql_token::{Keyword, Symbol, Terminal};
use sql_tree::forms::WordClass;

fn is_sequence_word(word: Keyword) -> bool
    ensures { result ≡ spec.is_sequence_word word }
{
    match word {
        Keyword::RESTART | Keyword::INCREMENT | Keyword::MINVALUE | Keyword::MAXVALUE => true,
        Keyword::START | Keyword::CACHE | Keyword::CYCLE | Keyword::AS => true,
        Keyword::OWNED | Keyword::SET | Keyword::SEQUENCE | Keyword::NO => true,
        _ => false,
    }
}

fn is_function_word(word: Keyword) -> bool
    ensures { result ≡ spec.is_function_word word }
{
    match word {
        Keyword::CALLED | Keyword::RETURNS | Keyword::STRICT | Keyword::IMMUTABLE => true,
        Keyword::STABLE | Keyword::VOLATILE | Keyword::NOT | Keyword::LEAKPROOF => true,
        Keyword::EXTERNAL | Keyword::SECURITY | Keyword::PARALLEL | Keyword::COST => true,
        Keyword::ROWS | Keyword::SUPPORT | Keyword::SET | Keyword::RESET => true,
        _ => false,
    }
}

fn is_class_word(class: WordClass, word: Keyword) -> bool
    ensures { result ≡ spec.is_class_word class word }
{
    match class {
        WordClass::SequenceOption => is_sequence_word(word),
        WordClass::FunctionOption => is_function_word(word),
    }
}

/// Whether this is a word of the class.
#[tactic(auto, unfolding(sql_tree::specs::Words::is_of_class))]
pub fn is_of_class(class: WordClass, t: Terminal) -> bool
    ensures { result ≡ spec.is_of_class class t }
{
    match t.symbol {
        Symbol::Keyword(word) => is_class_word(class, word),
        _ => false,
    }
}
