//! Lines of a text, changed as those of its SQL are.

use psql_text::NoMemory;
use std::alloc::Global;
use text_diff::{Mark, Step, lines_of, steps_of};

// What a step leaves of the line that it is about, where these are the lines of the old text from there on.
fn line_by<'t>(step: &Step<'t>, old: &[&'t [u8]]) -> &'t [u8] {
    match step.mark {
        Mark::Added => step.line,
        Mark::Removed => b"",
        Mark::Kept | Mark::Hidden => match old.first() {
            Some(line) => *line,
            None => b"",
        },
    }
}

// The lines of the old text after a step.
fn after<'l, 't>(step: &Step<'t>, old: &'l [&'t [u8]]) -> &'l [&'t [u8]] {
    if step.mark.is_old() && !old.is_empty() {
        &old[1..]
    } else {
        old
    }
}

/// The lines of a text, where the lines of its SQL become those of another one. Both have as many lines before that, since what is no SQL is
/// blank in the SQL. A line of the SQL that stays is the line of the text at its place, a new one is put beside it, and one that goes is left out.
///
/// No contract says what comes of it: whoever calls it looks at what was made. The error comes when memory runs out.
pub(crate) fn with_lines<'t>(
    alloc: Global,
    text: &'t [u8],
    sql: &'t [u8],
    new_sql: &'t [u8],
) -> Result<Vec<u8>, NoMemory> {
    let old = lines_of(alloc, text)?;
    let before = lines_of(alloc, sql)?;
    let now = lines_of(alloc, new_sql)?;
    let steps = steps_of(alloc, before.as_slice(), now.as_slice())?;
    let mut made = Vec::new(alloc);
    let mut rest = old.as_slice();
    for step in steps.as_slice() {
        made.extend_from_slice(line_by(step, rest))?;
        rest = after(step, rest);
    }
    Ok(made)
}
