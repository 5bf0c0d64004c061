//! Other SQL in a text.

ghost use Rattle.std.specs.Prelude.{◌≡◌, All, IfOk, IfSome, List, Some, option_map, string_bytes};
ghost use Rattle.psql_text.specs.Psql.{Passes, blank_all};
ghost use Rattle.psql_text.specs.declared.part.Part.{Part as AnyPart};
ghost use Rattle.psql_edit.specs.Exchange.{HasSql, IsPartOf};

use crate::lines::with_lines;
use crate::parts::{are_same, parts_in};
use psql_text::{NoMemory, Part};
use std::alloc::Global;

// These bytes as the new text, if they have this SQL and the parts of the old text.
fn taken(
    alloc: Global,
    old: &[u8],
    parts: &[Part],
    sql: &[u8],
    made: Vec<u8>,
) -> Result<Option<String>, NoMemory>
    requires { All (IsPartOf old.now) parts.now }
    ensures { IfOk result (λ new. IfSome new (λ new. HasSql old.now parts.now sql.now (string_bytes new))) }
{
    let now = parts_in(alloc, made.as_slice())?;
    if now.sql.as_slice() != sql || !are_same(old, parts, made.as_slice(), now.parts.as_slice()) {
        return Ok(None);
    }
    match String::from_utf8(made) {
        Ok(text) => Ok(Some(text)),
        Err(_) => Ok(None),
    }
}

/// The text with this SQL in the place of its own, and with its own commands of psql, data of COPY and bodies of functions, if all go together:
/// where they do not, as where a line of data would be in the midst of a name, the answer is `None`. Where the SQL is the one of the text, that is the
/// text itself. It takes time in proportion to both texts. The error comes when memory runs out.
pub fn with_sql(alloc: Global, old: &str, sql: &str) -> Result<Option<String>, NoMemory>
    ensures some { (ps : List AnyPart) → Passes old.now ps → IfOk result (λ new. IfSome new (λ new. HasSql old.now ps sql.now (string_bytes new))) }
    ensures same { (ps : List AnyPart) → Passes old.now ps → sql.now ≡ blank_all ps old.now → IfOk result (λ new. option_map string_bytes new ≡ Some old.now) }
{
    let before = parts_in(alloc, old.as_bytes())?;
    if before.sql.as_slice() == sql.as_bytes() {
        return Ok(Some(String::from_str(alloc, old)?));
    }
    let made = with_lines(alloc, old.as_bytes(), before.sql.as_slice(), sql.as_bytes())?;
    taken(
        alloc,
        old.as_bytes(),
        before.parts.as_slice(),
        sql.as_bytes(),
        made,
    )
}
