//! Looking up which reports the ignore comments cover.
ghost use Rattle.std.specs.Prelude.{◌≡◌, ◌||◌, true, false, ◌<◌, ◌^◌, [], List, length, IfOk, OnOk};
ghost use Rattle.sql_tree.specs.sql_token.Token.{Text};
ghost use Rattle.lint_base.specs.declared.rule.Rule.{Rule};
ghost use Rattle.lint_base.specs.RuleSets.{has};
ghost use Rattle.lint_ignore.specs.declared.ignore.Ignore.{Ignore};
ghost use Rattle.lint_ignore.specs.Index.{names};

use crate::ignore::{Ignore, IgnoreKind};
use crate::lines::LineRules;
use lint_base::{Rule, RuleSet};
use sql_tree::{LineIndex, NoMemory, TextRange};
use std::alloc::Global;
use std::fmt;
use std::fmt::Write;

/// Ignore comments, for looking up whether they cover a report.
///
/// Making it takes time in the length of the text and, for n ignore comments, n log n; a look-up
/// takes the logarithm of the lines.
#[derive(Drop)]
pub struct IgnoreIndex {
    lines: LineIndex,
    covers_all: bool,
    file: RuleSet,
    by_line: LineRules,
}

// The rules that an ignore comment names: none where it is bare.
fn named_rules(ignore: &Ignore) -> RuleSet
    ensures { (rule : Rule) → has result rule ≡ names ignore.now rule }
{
    if ignore.ignore_all {
        return RuleSet::empty();
    }
    ignore.violation_names
}

impl IgnoreIndex {
    ghost use Rattle.lint_ignore.specs.Covered.{is_covered};
    ghost use Rattle.lint_ignore.specs.Index.{AddsIgnore, IsIndexOf, is_file, knows};

    /// The index of the ignore comments of a text. The error comes when memory runs out.
    pub fn new(alloc: Global, text: &str, ignores: &[Ignore]) -> Result<IgnoreIndex, NoMemory>
        requires { length text.now < 2 ^ 32 }
        ensures { IfOk result (λ index. IsIndexOf index text.now ignores.now) }
    {
        let mut index = IgnoreIndex::empty(alloc, text)?;
        for ignore in ignores {
            index.add(ignore)?;
        }
        Ok(index)
    }

    // The index of no ignore comments.
    fn empty(alloc: Global, text: &str) -> Result<IgnoreIndex, NoMemory>
        requires { length text.now < 2 ^ 32 }
        ensures { IfOk result (λ index. IsIndexOf index text.now []) }
    {
        Ok(IgnoreIndex {
            lines: LineIndex::new(alloc, text)?,
            covers_all: false,
            file: RuleSet::empty(),
            by_line: LineRules::new(alloc),
        })
    }

    // Adds an ignore comment.
    fn add(&mut self, ignore: &Ignore) -> Result<(), NoMemory>
        ensures { OnOk result (AddsIgnore self.old self.new ignore.now) }
    {
        match ignore.kind {
            IgnoreKind::File => {
                self.add_file(ignore);
                Ok(())
            }
            IgnoreKind::Line => self.add_line(ignore),
        }
    }

    // Adds a file ignore.
    fn add_file(&mut self, ignore: &Ignore)
        requires { is_file ignore.now.kind ≡ true }
        ensures { AddsIgnore self.old self.new ignore.now }
    {
        self.covers_all = self.covers_all || ignore.ignore_all;
        self.file = self.file.union(ignore.violation_names);
    }

    // Adds a line ignore.
    fn add_line(&mut self, ignore: &Ignore) -> Result<(), NoMemory>
        requires { is_file ignore.now.kind ≡ false }
        ensures { OnOk result (AddsIgnore self.old self.new ignore.now) }
    {
        let line = self.lines.line(ignore.range.start());
        self.by_line.add(line as usize, named_rules(ignore))?;
        Ok(())
    }

    // Whether the ignore comments cover a report of a rule on a line.
    fn covers(&self, line: usize, rule: Rule) -> bool
        ensures { result ≡ knows self.now line rule }
    {
        self.covers_all
            || self.file.contains(rule)
            || self.by_line.on(line).contains(rule)
            || (line > 0 && self.by_line.on(line - 1).contains(rule))
    }

    /// Whether the ignore comments cover a report of a rule on a range of the text.
    pub fn contains(&self, range: TextRange, rule: Rule) -> bool
        ensures { (text : Text) (ignores : List Ignore) → IsIndexOf self.now text ignores → result ≡ is_covered text ignores range rule }
    {
        self.covers(self.lines.line(range.start()) as usize, rule)
    }
}

// Writes the names of the rules of a set.
fn write_rules<W: fmt::Write>(f: &mut fmt::Formatter<W>, rules: RuleSet) -> fmt::Result {
    let mut is_first = true;
    for rule in rules.iter() {
        if !is_first {
            f.write_str(", ")?;
        }
        is_first = false;
        write!(f, "{rule:?}")?;
    }
    Ok(())
}

impl fmt::Debug for IgnoreIndex {
    fn fmt<W: fmt::Write>(&self, f: &mut fmt::Formatter<W>) -> fmt::Result {
        f.write_str("IgnoreIndex:\n")?;
        for (line, set) in self.by_line.sets().iter().enumerate() {
            if let Some(rules) = set {
                write!(f, "  {line}: {{")?;
                write_rules(f, *rules)?;
                f.write_str("}\n")?;
            }
        }
        Ok(())
    }
}
