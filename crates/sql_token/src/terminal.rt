//! Terminals: the significant tokens of a text, as the grammar of statements sees them.

ghost use Rattle.std.specs.Prelude.{◌≡◌};
ghost use Rattle.sql_token.specs.Terminal as spec;

use sql_keyword::{Keyword, same_keyword};

/// What a significant token is to the grammar.
#[derive(Clone, Copy, Debug, PartialEq, Eq)]
pub enum Symbol {
    /// A word that is a key word, in any case.
    Keyword(Keyword),
    /// Any other word.
    Word,
    /// An identifier in double quotes.
    Quoted,
    /// A string constant.
    Str,
    /// An identifier with Unicode escapes.
    UName,
    /// A dollar-quoted string constant.
    Dollar,
    /// A positional parameter.
    Param,
    /// The number `1`.
    One,
    /// Any other number.
    Number,
    /// `(`
    OpenRound,
    /// `)`
    CloseRound,
    /// `[`
    OpenSquare,
    /// `]`
    CloseSquare,
    /// `,`
    Comma,
    /// `;`
    Semicolon,
    /// `.`
    Dot,
    /// `:`
    Colon,
    /// The operator `*`.
    Star,
    /// The operator `=`.
    Equals,
    /// A longer operator that begins with `=`.
    EqualsOperator,
    /// Any other operator.
    Operator,
    /// Any other byte.
    Other,
}

/// A significant token: what it is, and its number among all tokens of the text.
#[derive(Clone, Copy, Debug, PartialEq, Eq)]
pub struct Terminal {
    pub symbol: Symbol,
    pub number: u32,
}

impl Terminal {
    /// Whether this is the key word, in any case.
    #[tactic(auto, unfolding(crate::specs::Terminal::is_keyword))]
    pub fn is_keyword(self, word: Keyword) -> bool
        ensures { result ≡ spec.is_keyword word self }
    {
        match self.symbol {
            Symbol::Keyword(found) => same_keyword(found, word),
            _ => false,
        }
    }

    /// Whether this is a name: a word, key words among them, or an identifier in double quotes.
    #[tactic(auto, unfolding(crate::specs::Terminal::is_name))]
    pub fn is_name(self) -> bool
        ensures { result ≡ spec.is_name self }
    {
        match self.symbol {
            Symbol::Keyword(_) | Symbol::Word | Symbol::Quoted => true,
            _ => false,
        }
    }

    /// Whether this opens a bracket: `(` or `[`.
    #[tactic(auto, unfolding(crate::specs::Terminal::is_opener))]
    pub fn is_opener(self) -> bool
        ensures { result ≡ spec.is_opener self }
    {
        match self.symbol {
            Symbol::OpenRound | Symbol::OpenSquare => true,
            _ => false,
        }
    }

    /// Whether this closes a bracket: `)` or `]`.
    #[tactic(auto, unfolding(crate::specs::Terminal::is_closer))]
    pub fn is_closer(self) -> bool
        ensures { result ≡ spec.is_closer self }
    {
        match self.symbol {
            Symbol::CloseRound | Symbol::CloseSquare => true,
            _ => false,
        }
    }

    /// Whether this is a round bracket, `(` or `)`.
    #[tactic(auto, unfolding(crate::specs::Terminal::is_round))]
    pub fn is_round(self) -> bool
        ensures { result ≡ spec.is_round self }
    {
        match self.symbol {
            Symbol::OpenRound | Symbol::CloseRound => true,
            _ => false,
        }
    }

    /// Whether this is `;`.
    #[tactic(auto, unfolding(crate::specs::Terminal::is_semicolon))]
    pub fn is_semicolon(self) -> bool
        ensures { result ≡ spec.is_semicolon self }
    {
        match self.symbol {
            Symbol::Semicolon => true,
            _ => false,
        }
    }

    /// Whether this is `.`.
    #[tactic(auto, unfolding(crate::specs::Terminal::is_dot))]
    pub fn is_dot(self) -> bool
        ensures { result ≡ spec.is_dot self }
    {
        match self.symbol {
            Symbol::Dot => true,
            _ => false,
        }
    }

    /// Whether this is an identifier with Unicode escapes.
    #[tactic(auto, unfolding(crate::specs::Terminal::is_unicode_name))]
    pub fn is_unicode_name(self) -> bool
        ensures { result ≡ spec.is_unicode_name self }
    {
        match self.symbol {
            Symbol::UName => true,
            _ => false,
        }
    }
}
