//! The names in ignore comments that cover nothing.
ghost use Rattle.std.specs.Prelude.{◌≡◌, ◌<◌, ◌∷◌, [], ◌++◌, List, length, IfOk, OnErr, OnOk};
ghost use Rattle.std.specs.Str.{IsCharBoundary};
ghost use Rattle.sql_tree.specs.sql_token.Token.{Text};
ghost use Rattle.lint_base.specs.Grown.{GrownBy};
ghost use Rattle.lint_base.specs.declared.violation.Violation.{Violation};
ghost use Rattle.lint_ignore.specs.Found.{found_in};
ghost use Rattle.lint_ignore.specs.Reported.{IsReportIndex};
ghost use Rattle.lint_ignore.specs.Unused.{bytes_in, is_unused, unused_message, unused_name, unused_names};

use crate::ignore::{Ignore, IgnorePiece};
use crate::reported::ReportIndex;
use lint_base::{Reports, Rule, RuleSet, Text, Violation};
use sql_tree::{NoMemory, Parse, TextRange};
use std::alloc::Global;

// The bytes of a text on a range.
fn bytes_in(text: &str, range: TextRange) -> &str
    requires start { IsCharBoundary text.now range.start }
    requires end { IsCharBoundary text.now range.end }
    ensures { result.now ≡ bytes_in text.now range }
{
    &text[range.start().raw() as usize..range.end().raw() as usize]
}

// The message of a name that covers nothing.
fn unused_message(alloc: Global, name: &str) -> Result<Text, NoMemory>
    ensures { IfOk result (λ message. message ≡ unused_message name.now) }
{
    Ok(Text::made(format!(in alloc; "unused ignore `{name}`")?))
}

// Reports a name. After the error, which comes when memory runs out, nothing has been reported.
fn report_unused(
    alloc: Global,
    text: &str,
    piece: &IgnorePiece,
    out: &mut Reports,
) -> Result<(), NoMemory>
    requires start { IsCharBoundary text.now piece.now.range.start }
    requires end { IsCharBoundary text.now piece.now.range.end }
    ensures ok { OnOk result (out.new ≡ out.old ++ unused_name text.now piece.now ∷ []) }
    ensures err { OnErr result (out.new ≡ out.old) }
{
    let message = unused_message(alloc, bytes_in(text, piece.range))?;
    out.push(Violation::for_range(Rule::UnusedIgnore, message, piece.range))
}

// Whether a name is to be reported.
fn is_unused(index: &ReportIndex, ignores: &[Ignore], enabled: RuleSet, piece: &IgnorePiece) -> bool
    requires { piece.now.ignore < length ignores.now }
    ensures { (text : Text) (all : List Violation) → IsReportIndex index.now text all
        → result ≡ is_unused text ignores.now all enabled piece.now }
{
    piece.rules.intersects(enabled) && !index.is_used(&ignores[piece.ignore], piece.rules)
}

/// Reports the names that [`find_ignores`](crate::find_ignores) found in the ignore comments of a
/// text and that cover none of the reports in `all`, where at least one of the name's rules, the
/// alias aside, is in `rules`.
///
/// `ignores` and `pieces` are the lists that `find_ignores` gives for `p` when nothing was found
/// before; `all` are the reports before any is left out. For n names and reports it takes time
/// n log n.
///
/// The error comes when memory runs out; then a first part of the reports has been added.
pub fn unused_pieces(
    alloc: Global,
    p: &Parse<'_>,
    ignores: &[Ignore],
    pieces: &[IgnorePiece],
    all: &[Violation],
    rules: &RuleSet,
    out: &mut Reports,
) -> Result<(), NoMemory>
    requires ignores { ignores.now ≡ (found_in p.now).ignores }
    requires pieces { pieces.now ≡ (found_in p.now).pieces }
    ensures ok { OnOk result (out.new ≡ out.old ++ unused_names p.now all.now rules.now) }
    ensures err { OnErr result (GrownBy out.old out.new (unused_names p.now all.now rules.now)) }
{
    let text = p.text();
    let index = ReportIndex::new(alloc, text, all)?;
    let mut enabled = *rules;
    enabled.remove(Rule::RequireTimeoutSettings);
    for piece in pieces {
        if is_unused(&index, ignores, enabled, piece) {
            report_unused(alloc, text, piece, out)?;
        }
    }
    Ok(())
}
