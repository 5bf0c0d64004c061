//! Which findings ignore comments cover, and which names of hazards in them cover nothing.

ghost use Rattle.std.specs.Prelude.{◌≡◌, ◌++◌, ◌<◌, ◌^◌, List, ℕ, IfOk, OnOk, length};
ghost use Rattle.std.specs.List.{flat_map, list_any};
ghost use Rattle.lint_ignore.specs.sql_token.Token.{Text as Bytes};
ghost use Rattle.lint_ignore.specs.sql_tree.Statement.{Tree};
ghost use Rattle.hazard_base.specs.text_pos.Line.{line_feeds, line_of};
ghost use Rattle.lint_ignore.specs.Covered.{line_of_ignore};
ghost use Rattle.lint_ignore.specs.Index.{is_bare_file};
ghost use Rattle.lint_ignore.specs.Unused.{unused_message};
ghost use Rattle.hazard_base.specs.Hazards.{name_of};
ghost use Rattle.hazard_ignore.specs.Covered as spec;
ghost use Rattle.hazard_ignore.specs.Covered.{AreIgnoresOf, covers, is_covered, unused_names};

use crate::hazard_names::hazard_of;
use hazard_base::{Finding, Hazard, HazardSet, LineIndex, NoMemory, TextRange};
use lint_base::{Rule, Text, Violation};
use lint_ignore::{Found, Ignore, IgnoreKind, Parse, find_ignores};
use std::alloc::Global;

/// A name of a hazard in an ignore comment.
#[derive(Clone, Copy, Debug, PartialEq, Eq)]
pub struct Named {
    /// The hazard.
    pub hazard: Hazard,
    /// What the comment speaks of.
    pub kind: IgnoreKind,
    /// The line on which what it says begins, from 0.
    pub line: u32,
    /// The name, in bytes of the text.
    pub range: TextRange,
}

/// What the ignore comments of a text say of hazards.
///
/// Making it takes time by the ignore comments and the unknown names in them, and a look-up by the names of hazards.
#[derive(Drop)]
pub struct HazardIgnores {
    lines: LineIndex,
    is_bare: bool,
    names: Vec<Named>,
}

fn is_in(outer: TextRange, inner: TextRange) -> bool
    ensures { result ≡ spec.is_in outer inner }
{
    outer.start().raw() <= inner.start().raw() && inner.end().raw() <= outer.end().raw()
}

// Adds the name of a hazard that a report calls unknown, where it is in an ignore comment.
#[tactic(auto, unfolding(crate::specs::Covered::named_in))]
fn push_name(
    names: &mut Vec<Named>,
    lines: &LineIndex,
    g: &Ignore,
    v: &Violation,
) -> Result<(), NoMemory>
    ensures { OnOk result ((text : Bytes) → lines.now ≡ line_feeds text → names.new.items ≡ names.old.items ++ spec.named_in text g.now v.now) }
{
    if !is_in(g.range, v.text_range) {
        return Ok(());
    }
    if let Some(hazard) = hazard_of(v) {
        names.push(Named {
            hazard,
            kind: g.kind,
            line: lines.line(g.range.start()),
            range: v.text_range,
        })?;
    }
    Ok(())
}

// Adds the names of hazards in an ignore comment.
#[tactic(auto, unfolding(crate::specs::Covered::names_in))]
fn push_names(
    names: &mut Vec<Named>,
    lines: &LineIndex,
    g: &Ignore,
    unknown: &[Violation],
) -> Result<(), NoMemory>
    ensures { OnOk result ((text : Bytes) → lines.now ≡ line_feeds text → names.new.items ≡ names.old.items ++ spec.names_in text unknown.now g.now) }
{
    for v in unknown {
        push_name(names, lines, g, v)?;
    }
    Ok(())
}

// The names of hazards in ignore comments.
fn names_of(
    alloc: Global,
    lines: &LineIndex,
    ignores: &[Ignore],
    unknown: &[Violation],
) -> Result<Vec<Named>, NoMemory>
    ensures { IfOk result (λ names. (text : Bytes) → lines.now ≡ line_feeds text → names.items ≡ spec.names_of text unknown.now ignores.now) }
{
    let mut names = Vec::new(alloc);
    for g in ignores {
        push_names(&mut names, lines, g, unknown)?;
    }
    Ok(names)
}

fn is_bare_file(g: &Ignore) -> bool
    ensures { result ≡ is_bare_file g.now }
{
    match g.kind {
        IgnoreKind::File => g.ignore_all,
        IgnoreKind::Line => false,
    }
}

fn any_bare(ignores: &[Ignore]) -> bool
    ensures { result ≡ list_any is_bare_file ignores.now }
{
    ignores.iter().any(|g| is_bare_file(g))
}

fn reaches(kind: IgnoreKind, at: u32, line: u32) -> bool
    ensures { result ≡ spec.reaches kind at line }
{
    match kind {
        IgnoreKind::File => true,
        IgnoreKind::Line => line == at || line as u64 == at as u64 + 1,
    }
}

/// Whether a name covers the findings of a hazard that start on a line.
#[tactic(auto, unfolding(crate::specs::Covered::covers))]
fn covers(line: u32, hazard: Hazard, n: &Named) -> bool
    ensures { result ≡ covers line hazard n.now }
{
    n.hazard.is(hazard) && reaches(n.kind, n.line, line)
}

impl HazardIgnores {
    /// What the ignore comments of a text say of hazards. The error comes when memory runs out.
    pub fn new(alloc: Global, file: &Parse<'_>) -> Result<HazardIgnores, NoMemory>
        ensures { IfOk result (λ ignores. AreIgnoresOf ignores file.now) }
    {
        let mut found = Found::new(alloc);
        find_ignores(alloc, file, &mut found)?;
        let lines = LineIndex::new(alloc, file.text())?;
        let names = names_of(
            alloc,
            &lines,
            found.ignores.as_slice(),
            found.reports.items(),
        )?;
        Ok(HazardIgnores {
            is_bare: any_bare(found.ignores.as_slice()),
            lines,
            names,
        })
    }

    /// Whether a comment covers a finding.
    pub fn covers(&self, f: &Finding) -> bool
        ensures { (tree : Tree) → AreIgnoresOf self.now tree → result ≡ is_covered tree f.now }
    {
        self.is_bare || is_named(self.names.as_slice(), line(&self.lines, f), f.hazard)
    }

    /// The reports of the names of enabled hazards that cover none of the findings of a text, in their order, under the rule on ignore
    /// comments, which the caller asks for. The error comes when memory runs out.
    pub fn unused(
        &self,
        alloc: Global,
        found: &[Finding],
        enabled: &HazardSet,
    ) -> Result<Vec<Violation>, NoMemory>
        ensures { IfOk result (λ reports. (tree : Tree) → AreIgnoresOf self.now tree → reports.items ≡ unused_names tree found.now enabled.now) }
    {
        if self.is_bare {
            return Ok(Vec::new(alloc));
        }
        unused_among(alloc, &self.lines, self.names.as_slice(), found, enabled)
    }
}

// The line on which a finding starts.
fn line(lines: &LineIndex, f: &Finding) -> u32
    ensures { (text : Bytes) → lines.now ≡ line_feeds text → result ≡ line_of text f.now.range.start }
{
    lines.line(f.range.start())
}

// Whether some name covers the findings of a hazard that start on a line.
fn is_named(names: &[Named], line: u32, hazard: Hazard) -> bool
    ensures { result ≡ list_any (covers line hazard) names.now }
{
    names.iter().any(|n| covers(line, hazard, n))
}

// Whether a name covers some finding.
fn is_used(lines: &LineIndex, found: &[Finding], n: &Named) -> bool
    ensures { (text : Bytes) → lines.now ≡ line_feeds text → result ≡ spec.is_used text found.now n.now }
{
    for f in found {
        if covers(line(lines, f), f.hazard, n) {
            return true;
        }
    }
    false
}

// The message of a name that covers nothing.
fn unused_message(alloc: Global, hazard: Hazard) -> Result<Text, NoMemory>
    ensures { IfOk result (λ message. message ≡ unused_message (name_of hazard)) }
{
    let name = hazard.name();
    Ok(Text::made(format!(in alloc; "unused ignore `{name}`")?))
}

// Adds the report of a name, where it covers nothing.
#[tactic(auto, unfolding(crate::specs::Covered::unused_name))]
fn push_unused(
    reports: &mut Vec<Violation>,
    alloc: Global,
    lines: &LineIndex,
    n: &Named,
    found: &[Finding],
    enabled: &HazardSet,
) -> Result<(), NoMemory>
    ensures { OnOk result ((text : Bytes) → lines.now ≡ line_feeds text → reports.new.items ≡ reports.old.items ++ spec.unused_name text found.now enabled.now n.now) }
{
    if enabled.contains(n.hazard) && !is_used(lines, found, n) {
        let message = unused_message(alloc, n.hazard)?;
        reports.push(Violation::for_range(Rule::UnusedIgnore, message, n.range))?;
    }
    Ok(())
}

// The reports of those of some names that cover nothing.
fn unused_among(
    alloc: Global,
    lines: &LineIndex,
    names: &[Named],
    found: &[Finding],
    enabled: &HazardSet,
) -> Result<Vec<Violation>, NoMemory>
    ensures { IfOk result (λ reports. (text : Bytes) → lines.now ≡ line_feeds text → reports.items ≡ flat_map (spec.unused_name text found.now enabled.now) names.now) }
{
    let mut reports = Vec::new(alloc);
    for n in names {
        push_unused(&mut reports, alloc, lines, n, found, enabled)?;
    }
    Ok(reports)
}
