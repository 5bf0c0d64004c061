//! Lexing of short texts (PostgreSQL manual, section 4.1).

use crate::rows::{Message, Reading, compare, compare_each};
use case_format::TextBuilder;
use sql_read::{LexError, Tok, TokKind, lex};
use std::test::Fail;

/// A text and its tokens: a letter for each kind, and the place after the token in bytes; or `!` and the place of the
/// token that never closes.
const ROWS: &[(&str, &str)] = &[
    ("", ""),
    ("BEGIN; foo;", "w5.6_7w10.11"),
    ("/* a /* b */", "!0"),
    ("/* a /* b */ */x", "c15w16"),
    ("/*/*/**/*/*/", "c12"),
    ("-- a\r\nb", "l5_6w7"),
    ("'a''b'c", "s6w7"),
    ("e'a\\''b'", "!6"),
    ("E'\\\\'x", "s5w6"),
    ("'a\\'b", "s4w5"),
    ("U&'a' u&\"b\"", "s5_6u11"),
    ("x'00'b'1'n'q'", "s5s9s13"),
    ("\"a\"\"b\".c", "q6.7w8"),
    ("$$a$$$", "d5?6"),
    ("$t$ a $$ $t$ $1 $t", "d12_13p15_16?17w18"),
    (
        "1.5e-3 .5 1..10 0xE+1 1e+ 1-1",
        "n6_7n9_10n15_16n21_22n24o25_26n27o28n29",
    ),
    ("a<-1 @- +- * -- x", "w1o2o3n4_5o7_8o9o10_11o12_13l17"),
    ("=-/* x */-", "o1o2c9o10"),
    ("\u{feff} a\u{feff}", "_4w8"),
    ("\u{feff}a", "_3w4"),
    ("\u{feff}\u{feff}", "_3w6"),
    ("a\u{feff}", "w4"),
    (" \u{feff}", "_1w4"),
    ("\u{feff}'", "!3"),
    ("a:=b::c{}", "w1.2o3w4.5.6w7?8?9"),
    (" '", "!1"),
    ("u&\"", "!0"),
    ("a $x$ $x", "!2"),
    ("\t\x0b\x0c\r\n ", "_6"),
    ("\u{a0}x", "w3"),
    ("\u{e9}", "w2"),
    ("\u{65e5}\u{672c}", "w6"),
    ("\u{1f600}a", "w5"),
    ("n\u{e9}'x'", "w3s6"),
    ("bx'1'", "w2s5"),
    ("B'1'X'1'N'1'E'1'", "s4s8s12s16"),
    ("u&'\\'", "s5"),
    ("U&\"a\"\"b\"", "u8"),
    ("u& 'a'", "w1o2_3s6"),
    ("u&a", "w1o2w3"),
    ("e'a", "!0"),
    ("E'a\\'", "!0"),
    ("E'\\", "!0"),
    ("'\\'", "s3"),
    ("''", "s2"),
    ("''''", "s4"),
    ("'''", "!0"),
    ("\"\"", "q2"),
    ("\"", "!0"),
    ("\"a\n\"", "q4"),
    ("x\"a\"", "w1q4"),
    ("x'", "!0"),
    ("a.b", "w1.2w3"),
    ("a.1", "w1n3"),
    ("1.a", "n3"),
    ("1._2", "n4"),
    ("..", ".1.2"),
    ("1a", "n2"),
    ("0b1_0", "n5"),
    ("1E-", "n2o3"),
    ("1e-5e+6", "n7"),
    ("1+e-5", "n1o2w3o4n5"),
    ("$1", "p2"),
    ("$1a", "p2w3"),
    ("$12$", "p3?4"),
    ("$", "?1"),
    ("$a", "?1w2"),
    ("$a b", "?1w2_3w4"),
    ("$1$x$1$", "!2"),
    ("$1a$", "p2w4"),
    ("$a$b$a$", "d7"),
    ("$a$$b$ $a$", "d10"),
    ("$\u{e9}$x$\u{e9}$", "d9"),
    ("$a1$x$a1$", "d9"),
    ("a$b$c", "w5"),
    ("a$$b", "w4"),
    ("$_$;$_$", "d7"),
    ("$$;", "!0"),
    ("$$$$", "d4"),
    ("$$$", "!0"),
    ("$a$ $A$ $a$", "d11"),
    ("$a$x$a$a$", "d7w9"),
    ("<=", "o2"),
    ("->>", "o3"),
    ("a||b", "w1o3w4"),
    ("=-1", "o1o2n3"),
    ("!=-1", "o3n4"),
    ("*+-", "o1o2o3"),
    ("+-+", "o1o2o3"),
    ("+-+-+-*", "o7"),
    ("+/*x*/", "o1c6"),
    ("*--x", "o1l4"),
    ("---", "l3"),
    ("-/--", "o2l4"),
    ("?-", "o2"),
    ("`+", "o2"),
    ("a#-b", "w1o3w4"),
    ("<>+", "o2o3"),
    ("-*", "o2"),
    ("/**/", "c4"),
    ("/*", "!0"),
    ("/*/", "!0"),
    ("*/", "o2"),
    ("/* /* */", "!0"),
    ("a/*b*/c", "w1c6w7"),
    ("--", "l2"),
    ("--\n", "l2_3"),
    ("--a\r", "l4"),
    ("-- /*\n*/", "l5_6o8"),
    ("/* -- */", "c8"),
    ("/* ' */", "c7"),
    ("'/*'", "s4"),
    ("\"--\"", "q4"),
    ("{", "?1"),
    ("\\", "?1"),
    ("\x00\x7f", "?1?2"),
    ("()[],;.:", ".1.2.3.4.5.6.7.8"),
    ("a\r\nb", "w1_3w4"),
    ("_a$1", "w4"),
    ("e", "w1"),
    ("u&", "w1o2"),
    ("n", "w1"),
    ("b'\n'\r\nB''", "s4_6s9"),
    ("\r", "_1"),
    ("a\u{feff}b", "w5"),
    ("'\u{feff}'", "s5"),
    ("\u{1f600}\u{1f600}", "w8"),
    ("'\u{65e5}''\u{1f600}'", "s11"),
    ("\"\u{e9}\" ", "q4_5"),
    ("$\u{1f600}$'$\u{1f600}$", "d13"),
    ("-- \u{e9}\n", "l5_6"),
    ("/*\u{e9}*/", "c6"),
    ("N'a'b''", "s4s7"),
    ("U&'a\"'", "s6"),
    ("e''''", "s5"),
    ("e'\\\\'", "s5"),
    ("e'\\''", "s5"),
    ("a 'b", "!2"),
    ("a /* b", "!2"),
    ("a \"b", "!2"),
    ("u&'a", "!0"),
    ("x e'", "!2"),
    ("a u&\"", "!2"),
    ("; $a$ $b$", "!2"),
];

// A letter for each kind.
fn letter(kind: TokKind) -> &'static str {
    match kind {
        TokKind::Blank => "_",
        TokKind::LineComment => "l",
        TokKind::BlockComment => "c",
        TokKind::Word => "w",
        TokKind::Quoted => "q",
        TokKind::Str => "s",
        TokKind::UName => "u",
        TokKind::Dollar => "d",
        TokKind::Param => "p",
        TokKind::Number => "n",
        TokKind::Op => "o",
        TokKind::Punct => ".",
        TokKind::Other => "?",
    }
}

/// The tokens of a text, in the form of the rows; `gap` where a token does not begin where the one before it ends.
struct Lexing;

fn show_tokens(toks: &[Tok], out: &mut TextBuilder) {
    let mut end = 0;
    for tok in toks {
        out.push_if(tok.start != end, "gap");
        end = tok.end;
        out.add(letter(tok.kind));
        out.debug("", &tok.end);
    }
}

impl Reading for Lexing {
    fn read(&self, text: &str, out: &mut TextBuilder) {
        match lex(out.alloc(), text) {
            Ok(toks) => show_tokens(&toks, out),
            Err(LexError::Unterminated { at }) => {
                out.add("!");
                out.debug("", &at);
            }
            Err(LexError::NoMemory) => out.fail(),
        }
    }
}

#[test]
fn tokens(rt: HostRuntime) {
    compare(&rt, rt.alloc(), &Lexing, ROWS);
}

/// Errors, and their texts.
const MESSAGES: &[(Message<LexError>, &str, &str)] = &[
    (
        Message(LexError::Unterminated { at: 7 }),
        "",
        "unterminated at 7",
    ),
    (Message(LexError::NoMemory), "", "out of memory"),
];

#[test]
fn messages(rt: HostRuntime) {
    compare_each(&rt, rt.alloc(), MESSAGES);
}
