//! Looking up which rules some reports have, and on which lines.
ghost use Rattle.std.specs.Prelude.{◌≡◌, ◌<◌, ◌^◌, [], List, length, IfOk, OnOk};
ghost use Rattle.sql_tree.specs.sql_token.Token.{Text};
ghost use Rattle.lint_base.specs.declared.rule.Rule.{Rule};
ghost use Rattle.lint_base.specs.declared.violation.Violation.{Violation};
ghost use Rattle.lint_base.specs.RuleSets.{has};

use crate::ignore::{Ignore, IgnoreKind};
use crate::lines::LineRules;
use crate::sets::with_rule;
use lint_base::{RuleSet, Violation};
use sql_tree::{LineIndex, NoMemory, TextRange};
use std::alloc::Global;

/// The rules of some reports of a text, and those on each of its lines.
///
/// Making it takes time in the length of the text and, for n reports, n log n; a look-up takes the
/// logarithm of the lines.
#[derive(Drop)]
pub(crate) struct ReportIndex {
    lines: LineIndex,
    rules: RuleSet,
    by_line: LineRules,
}

impl ReportIndex {
    ghost use Rattle.lint_ignore.specs.Reported.{AddsReport, IsReportIndex};
    ghost use Rattle.lint_ignore.specs.Unused.{is_used};
    ghost use Rattle.std.specs.Prelude.{◌+◌};
    ghost use Rattle.sql_tree.specs.text_pos.Line.{line_feeds, line_of};

    /// The index of some reports of a text. The error comes when memory runs out.
    pub(crate) fn new(alloc: Global, text: &str, all: &[Violation]) -> Result<ReportIndex, NoMemory>
        requires { length text.now < 2 ^ 32 }
        ensures { IfOk result (λ index. IsReportIndex index text.now all.now) }
    {
        let mut index = ReportIndex::empty(alloc, text)?;
        for report in all {
            index.add(report)?;
        }
        Ok(index)
    }

    // The index of no reports.
    fn empty(alloc: Global, text: &str) -> Result<ReportIndex, NoMemory>
        requires { length text.now < 2 ^ 32 }
        ensures { IfOk result (λ index. IsReportIndex index text.now []) }
    {
        Ok(ReportIndex {
            lines: LineIndex::new(alloc, text)?,
            rules: RuleSet::empty(),
            by_line: LineRules::new(alloc),
        })
    }

    // Adds a report.
    fn add(&mut self, report: &Violation) -> Result<(), NoMemory>
        ensures { OnOk result (AddsReport self.old self.new report.now) }
    {
        let line = self.line(report.text_range);
        self.by_line
            .add(line, with_rule(RuleSet::empty(), report.code))?;
        self.rules = with_rule(self.rules, report.code);
        Ok(())
    }

    // The line on which a range starts.
    fn line(&self, range: TextRange) -> usize
        ensures line { (text : Text) → self.now.lines ≡ line_feeds text → result ≡ line_of text range.start }
        ensures small { result < 2 ^ 32 }
    {
        self.lines.line(range.start()) as usize
    }

    /// Whether a report has one of some rules and starts on a line that an ignore comment reaches.
    pub(crate) fn is_used(&self, ignore: &Ignore, rules: RuleSet) -> bool
        ensures { (text : Text) (all : List Violation) → IsReportIndex self.now text all → result ≡ is_used text ignore.now rules all }
    {
        match ignore.kind {
            IgnoreKind::File => rules.intersects(self.rules),
            IgnoreKind::Line => {
                let line = self.line(ignore.range);
                let here = rules.intersects(self.by_line.on(line));
                let next = rules.intersects(self.by_line.on(line + 1));
                here || next
            }
        }
    }
}
