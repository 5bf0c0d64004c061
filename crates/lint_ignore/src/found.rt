//! The ignore comments of a text, found.

use crate::comment::{IGNORE_LINE_TEXT, ignore_of, may_begin_body};
use crate::ignore::{Ignore, IgnoreKind, IgnorePiece};
use crate::part::Part;
use lint_base::{Reports, Rule, RuleSet, Text, UnknownName, Violation};
use sql_tree::{NoMemory, Parse};
use std::alloc::Global;

/// What is found in ignore comments.
#[derive(Debug, Drop)]
pub struct Found {
    /// Reports of the names that name no rule.
    pub reports: Reports,
    /// The ignore comments.
    pub ignores: Vec<Ignore>,
    /// The names that name a rule.
    pub pieces: Vec<IgnorePiece>,
}

ghost use Rattle.std.specs.Prelude.{◌≡◌, ◌∷◌, [], fold, IfOk, length, OnErr, OnOk};
ghost use Rattle.std.specs.List.{flat_map};
ghost use Rattle.lint_base.specs.RuleChoice.{with_expansion};
ghost use Rattle.lint_base.specs.RuleNames.{rule_named};
ghost use Rattle.lint_base.specs.RuleSets.{rules_in, with_rule};
ghost use Rattle.lint_ignore.specs.Names.{names_in, names_of, rules_of_name, unknown_message};
ghost use Rattle.lint_ignore.specs.Part.{part_of};
ghost use Rattle.lint_ignore.specs.Found.{HasGrown, followed_by, found_from, lists_of, named, nothing, rules_named, said};

impl Found {
    /// Nothing is found yet.
    pub fn new(alloc: Global) -> Found
        ensures { lists_of result ≡ nothing }
    {
        Found {
            reports: Reports::new(alloc),
            ignores: Vec::new(alloc),
            pieces: Vec::new(alloc),
        }
    }
}

// A rule and what it stands for.
fn rule_and_expansion(rule: Rule) -> RuleSet
    ensures { result ≡ rules_in (with_expansion rule) }
{
    let mut set = RuleSet::empty();
    set.insert_with_expansion(rule);
    set
}

// The message of a name that names no rule.
fn unknown_message(alloc: Global, name: &str) -> Result<Text, NoMemory>
    ensures { IfOk result (λ message. message ≡ unknown_message name.now) }
{
    Ok(Text::made(format!(in alloc; "unknown name `{name}`")?))
}

// Keeps a name of an ignore comment: what it names, or a report that it names nothing. After the
// error, which comes when memory runs out, nothing has changed.
fn read_name(
    alloc: Global,
    name: Part<'_>,
    ignore: usize,
    found: &mut Found,
) -> Result<Option<Rule>, NoMemory>
    ensures rule { IfOk result (λ rule. rule ≡ rule_named name.entry.text.now) }
    ensures ok { OnOk result (lists_of found.new ≡ followed_by (lists_of found.old) (named ignore (part_of name.entry ∷ []))) }
    ensures err { OnErr result (lists_of found.new ≡ lists_of found.old) }
{
    let range = name.range();
    match Rule::try_from(name.text) {
        Ok(rule) => {
            found.pieces.push(IgnorePiece {
                range,
                rules: rule_and_expansion(rule),
                ignore,
            })?;
            Ok(Some(rule))
        }
        Err(UnknownName) => {
            let message = unknown_message(alloc, name.text)?;
            found
                .reports
                .push(Violation::for_range(Rule::UnusedIgnore, message, range))?;
            Ok(None)
        }
    }
}

// Keeps a piece between commas, without white space at its ends, and puts the rules that it names
// into `names`; a piece without bytes is no name. After the error, which comes when memory runs out, nothing
// has been kept.
fn read_piece(
    alloc: Global,
    piece: Part<'_>,
    ignore: usize,
    names: &mut RuleSet,
    found: &mut Found,
) -> Result<(), NoMemory>
    ensures names { OnOk result (names.new ≡ fold with_rule names.old (flat_map rules_of_name (names_of (part_of piece.entry ∷ [])))) }
    ensures ok { OnOk result (lists_of found.new ≡ followed_by (lists_of found.old) (named ignore (names_of (part_of piece.entry ∷ [])))) }
    ensures err { OnErr result (lists_of found.new ≡ lists_of found.old) }
{
    if piece.text.is_empty() {
        return Ok(());
    }
    if let Some(rule) = read_name(alloc, piece.trimmed(), ignore, found)? {
        names.insert_with_expansion(rule);
    }
    Ok(())
}

// Keeps the names in what follows the prefix of an ignore comment, and answers the rules that they
// name. After the error, which comes when memory runs out, each list has been extended by a prefix of what it
// would receive.
fn read_names(
    alloc: Global,
    rest: Part<'_>,
    ignore: usize,
    found: &mut Found,
) -> Result<RuleSet, NoMemory>
    ensures names { IfOk result (λ rules. rules ≡ rules_named (names_in (part_of rest.entry))) }
    ensures ok { OnOk result (lists_of found.new ≡ followed_by (lists_of found.old) (named ignore (names_in (part_of rest.entry)))) }
    ensures err { OnErr result (HasGrown (lists_of found.old) (lists_of found.new) (named ignore (names_in (part_of rest.entry)))) }
{
    let mut names = RuleSet::empty();
    let mut left = Some(rest);
    while let Some(part) = left {
        let (piece, next) = part.split_comma();
        read_piece(alloc, piece, ignore, &mut names, found)?;
        left = next;
    }
    Ok(names)
}

// Keeps an ignore comment whose body goes on with `rest`. After the error, which comes when memory runs out,
// each list has been extended by a prefix of what it would receive.
fn add_ignore(
    alloc: Global,
    rest: Part<'_>,
    kind: IgnoreKind,
    found: &mut Found,
) -> Result<(), NoMemory>
    ensures ok { OnOk result (lists_of found.new ≡ followed_by (lists_of found.old) (said (length found.old.ignores.items) (part_of rest.entry, kind))) }
    ensures err { OnErr result (HasGrown (lists_of found.old) (lists_of found.new) (said (length found.old.ignores.items) (part_of rest.entry, kind))) }
{
    let number = found.ignores.len();
    let violation_names = read_names(alloc, rest, number, found)?;
    let ignore_all = rest.text.trim().is_empty();
    found.ignores.push(Ignore {
        range: rest.range(),
        violation_names,
        ignore_all,
        kind,
    })?;
    Ok(())
}

/// Finds the ignore comments of a text, in order, and adds them, the names in them that name a
/// rule, and reports of those that name none, to what is found already.
///
/// The error comes when memory runs out; then each list is the old one followed by a prefix of what it would
/// receive.
pub fn find_ignores(alloc: Global, p: &Parse, found: &mut Found) -> Result<(), NoMemory>
    ensures ok { OnOk result (lists_of found.new ≡ followed_by (lists_of found.old) (found_from (length found.old.ignores.items) p.now)) }
    ensures err { OnErr result (HasGrown (lists_of found.old) (lists_of found.new) (found_from (length found.old.ignores.items) p.now)) }
{
    if !may_begin_body(p, IGNORE_LINE_TEXT) {
        return Ok(());
    }
    for i in 0..p.tokens().len() {
        if let Some((rest, kind)) = ignore_of(p, i) {
            add_ignore(alloc, rest, kind, found)?;
        }
    }
    Ok(())
}
