//! Bytes of a text, and their classes.

ghost use Rattle.std.specs.Prelude.{◌≡◌, ◌≢◌, ◌<◌, ◌||◌, length, slice_index, true};
ghost use Rattle.sql_token.specs.Token as spec;
ghost use Rattle.sql_lex.specs.First.{LeadsPunct, LeadsWord, Tells};

const WORD: u8 = 1;

const NUMBER: u8 = 2;

const OPERATOR: u8 = 4;

const BLANK: u8 = 8;

const LEADS_PUNCT: u8 = 16;

const LEADS_WORD: u8 = 32;

// For each byte a letter, whose low six bits are the flags above.
static RUNS: [u8; 256] = *b"\
    @@@@@@@@@HHHHH@@@@@@@@@@@@@@@@@@\
    HD@DADD@PPDDPDBDCCCCCCCCCCPPDDDD\
    DcCccCccccccccCccccccCccCccP@PDc\
    DcCccCccccccccCccccccCccCcc@D@D@\
    aaaaaaaaaaaaaaaaaaaaaaaaaaaaaaaa\
    aaaaaaaaaaaaaaaaaaaaaaaaaaaaaaaa\
    aaaaaaaaaaaaaaaaaaaaaaaaaaaaaaaa\
    aaaaaaaaaaaaaaaAaaaaaaaaaaaaaaaa";

/// White space.
pub const BLANK_FIRST: u8 = b'_';

/// A letter that is no prefix of a string constant, `_`, or a byte of 128 and above but the first
/// one of a byte order mark.
pub const WORD_FIRST: u8 = b'w';

/// A letter that may be the prefix of a string constant.
pub const LETTER_FIRST: u8 = b'l';

/// A digit.
pub const DIGIT_FIRST: u8 = b'd';

/// A byte of an operator that begins no comment.
pub const OPERATOR_FIRST: u8 = b'o';

/// A mark that begins no number.
pub const PUNCT_FIRST: u8 = b'p';

/// `'`
pub const QUOTE_FIRST: u8 = b'q';

/// `"`
pub const DOUBLE_FIRST: u8 = b'Q';

// For each byte one of the letters above, or `?` where more than this byte must be seen.
static FIRST: [u8; 256] = *b"\
    ?????????_____??????????????????\
    _oQo?ooqppoop???ddddddddddppoooo\
    owlwwlwwwwwwwwlwwwwwwlwwlwwp?pow\
    owlwwlwwwwwwwwlwwwwwwlwwlww?o?o?\
    wwwwwwwwwwwwwwwwwwwwwwwwwwwwwwww\
    wwwwwwwwwwwwwwwwwwwwwwwwwwwwwwww\
    wwwwwwwwwwwwwwwwwwwwwwwwwwwwwwww\
    wwwwwwwwwwwwwww?wwwwwwwwwwwwwwww";

/// The byte at a place, or 0 past the end.
pub fn byte(z: &[u8], at: usize) -> u8
    ensures value { result ≡ slice_index z.now at }
    ensures within { result ≢ 0 → at < length z.now }
{
    if at < z.len() { z[at] } else { 0 }
}

/// What a token that begins with this byte may be: one of the letters above, or `?`.
#[inline]
pub fn first_class(b: u8) -> u8
    ensures { Tells result b }
{
    FIRST[b as usize]
}

/// Whether this is white space.
#[inline]
pub fn is_blank(b: u8) -> bool
    ensures { result ≡ spec.is_blank b }
{
    RUNS[b as usize] & BLANK != 0
}

/// Whether a word goes on over this byte.
#[inline]
pub fn is_word(b: u8) -> bool
    ensures { result ≡ spec.is_word b }
{
    RUNS[b as usize] & WORD != 0
}

/// Whether a number goes on over this byte, whatever is beside it.
#[inline]
pub fn is_in_number(b: u8) -> bool
    ensures { result ≡ spec.is_in_number b }
{
    RUNS[b as usize] & NUMBER != 0
}

/// Whether a token that begins with this byte is a word whatever follows. Letters that may be the prefix of a string
/// constant are not among them.
#[inline]
pub fn leads_word(b: u8) -> bool
    ensures { result ≡ true → LeadsWord b }
{
    RUNS[b as usize] & LEADS_WORD != 0
}

/// Whether this is a mark that begins no number.
#[inline]
pub fn leads_punct(b: u8) -> bool
    ensures { result ≡ true → LeadsPunct b }
{
    RUNS[b as usize] & LEADS_PUNCT != 0
}

/// Whether this is a byte of an operator.
#[inline]
pub fn is_op(b: u8) -> bool
    ensures { result ≡ spec.is_op b }
{
    RUNS[b as usize] & OPERATOR != 0
}

/// Whether a word or white space goes on over this byte.
#[inline]
pub fn is_in_run(b: u8) -> bool
    ensures { result ≡ (spec.is_word b || spec.is_blank b) }
{
    RUNS[b as usize] & (WORD | BLANK) != 0
}
