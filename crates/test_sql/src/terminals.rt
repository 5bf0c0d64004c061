//! What single tokens are to the grammar.

ghost use Rattle.std.specs.Prelude.{◌<◌, ◌^◌, length};

use crate::rows::{Reading, compare};
use case_format::TextBuilder;
use sql_read::{Keyword, Statements, Terminal, lex};

/// A text of one token, what it is, and what it counts as: the key word CREATE, a name, an opening, closing or round
/// bracket, a semicolon, a dot, an identifier with Unicode escapes.
const ROWS: &[(&str, &str)] = &[
    ("create", "Keyword(Create) create name"),
    ("CREATE", "Keyword(Create) create name"),
    ("index", "Keyword(Index) name"),
    ("a", "Word name"),
    ("\"create\"", "Quoted name"),
    ("u&\"a\"", "UName unicode"),
    ("'a'", "Str"),
    ("u&'a'", "Str"),
    ("$$$$", "Dollar"),
    ("$1", "Param"),
    ("1", "One"),
    ("01", "Number"),
    ("1.", "Number"),
    ("(", "OpenRound opener round"),
    (")", "CloseRound closer round"),
    ("[", "OpenSquare opener"),
    ("]", "CloseSquare closer"),
    (",", "Comma"),
    (";", "Semicolon semicolon"),
    (".", "Dot dot"),
    (":", "Colon"),
    ("*", "Star"),
    ("=", "Equals"),
    ("=>", "EqualsOperator"),
    ("+", "Operator"),
    ("{", "Other"),
];

/// What is said of each token of the first statement, in the form of the rows.
struct Telling;

fn tell(terminal: Terminal, out: &mut TextBuilder) {
    out.debug("", &terminal.symbol);
    out.push_if(terminal.is_keyword(Keyword::CREATE), " create");
    out.push_if(terminal.is_name(), " name");
    out.push_if(terminal.is_opener(), " opener");
    out.push_if(terminal.is_closer(), " closer");
    out.push_if(terminal.is_round(), " round");
    out.push_if(terminal.is_semicolon(), " semicolon");
    out.push_if(terminal.is_dot(), " dot");
    out.push_if(terminal.is_unicode_name(), " unicode");
}

/// The terminals of the first statement of a text.
pub(crate) fn terminals_of(text: &str, out: &mut TextBuilder) -> Vec<Terminal>
    requires { length text.now < 2 ^ 32 }
{
    let mut terminals: Vec<Terminal> = Vec::new(out.alloc());
    match lex(out.alloc(), text) {
        Ok(toks) => {
            let mut walk = Statements::new(text, &toks);
            if walk.next_into(&mut terminals).is_err() {
                out.fail();
            }
        }
        Err(_) => out.fail(),
    }
    terminals
}

impl Reading for Telling {
    fn read(&self, text: &str, out: &mut TextBuilder) {
        for terminal in &terminals_of(text, out) {
            tell(*terminal, out);
        }
    }
}

#[test]
fn terminals(rt: HostRuntime) {
    compare(&rt, rt.alloc(), &Telling, ROWS);
}
