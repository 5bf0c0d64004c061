//! Tokens, and spans of them.

ghost use Rattle.std.specs.Prelude.{◌≡◌, ◌≢◌, ◌<◌, true, false, IfSome, length, position};
ghost use Rattle.sql_token.specs.Terminal as spec;

/// What a token is (PostgreSQL manual, section 4.1).
#[derive(Clone, Copy, Debug, PartialEq, Eq, Hash)]
pub enum TokKind {
    /// A run of white space, with a byte order mark at the start of the text.
    Blank,
    /// `--` and what follows it on its line.
    LineComment,
    /// `/*` to its `*/`; these comments nest.
    BlockComment,
    /// A key word or an identifier without quotes.
    Word,
    /// An identifier in double quotes.
    Quoted,
    /// A string constant, with its prefix letter.
    Str,
    /// An identifier with Unicode escapes, `U&"..."`.
    UName,
    /// A dollar-quoted string constant.
    Dollar,
    /// A positional parameter, as `$1`.
    Param,
    /// A numeric constant.
    Number,
    /// An operator.
    Op,
    /// One of `( ) [ ] , ; . :`.
    Punct,
    /// Any other byte.
    Other,
}

impl TokKind {
    /// Whether this is the kind of what the grammar sees: neither blanks nor a comment.
    pub fn is_significant(self) -> bool
        ensures { result ≡ spec.is_significant self }
    {
        match self {
            TokKind::Blank | TokKind::LineComment | TokKind::BlockComment => false,
            _ => true,
        }
    }

    /// Whether this is the kind of a name: of a word, key words among them, or of an identifier in double quotes.
    pub fn is_name(self) -> bool
        ensures { result ≡ spec.is_name_kind self }
    {
        match self {
            TokKind::Word | TokKind::Quoted => true,
            _ => false,
        }
    }

    /// Whether this is the kind of a word.
    pub fn is_word(self) -> bool
        ensures word { result ≡ true → self ≡ TokKind.Word }
        ensures other { result ≡ false → self ≢ TokKind.Word }
    {
        matches!(self, TokKind::Word)
    }

    /// Whether this is the kind of a mark.
    pub fn is_punct(self) -> bool
        ensures mark { result ≡ true → self ≡ TokKind.Punct }
        ensures other { result ≡ false → self ≢ TokKind.Punct }
    {
        matches!(self, TokKind::Punct)
    }
}

/// A token: it goes from the byte `start` to before the byte `end` of its text.
#[derive(Clone, Copy, Debug, PartialEq, Eq, Hash)]
pub struct Tok {
    pub kind: TokKind,
    pub start: u32,
    pub end: u32,
}

/// The number of the first significant one of some tokens.
pub fn first_significant(toks: &[Tok]) -> Option<usize>
    ensures number { result ≡ position spec.is_significant_token toks.now }
    ensures within { IfSome result (λ n. n < length toks.now) }
{
    toks.iter().position(|tok| tok.kind.is_significant())
}

/// A slice of the tokens of a text, by the numbers of its first token and of its last one.
#[derive(Clone, Copy, Debug, PartialEq, Eq, Hash)]
pub struct Span {
    pub first: u32,
    pub last: u32,
}
