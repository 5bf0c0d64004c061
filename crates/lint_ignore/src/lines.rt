//! Sets of rules by line.
ghost use Rattle.std.specs.Prelude.{◌≡◌, ◌<◌, ◌^◌, ◌==◌, ◌&&◌, ◌||◌, ℕ, [], length, OnOk};
ghost use Rattle.lint_base.specs.declared.rule.Rule.{Rule};
ghost use Rattle.lint_base.specs.RuleSets.{has};
ghost use Rattle.lint_ignore.specs.Lines.{at_line, is_among};

use lint_base::RuleSet;
use sql_tree::NoMemory;
use std::alloc::Global;
use std::marker::Model;

/// A set of rules for each line that was given one.
///
/// A lookup takes constant time. The memory is in proportion to the number of the last line that was given a set.
#[derive(Drop)]
pub(crate) struct LineRules {
    sets: Vec<Option<RuleSet>>,
}

impl Model for LineRules {
    ghost use Rattle.std.specs.Prelude.{List, Option};
    ghost use Rattle.lint_base.specs.RuleSets.{Rules};

    ghost Value = { List (Option Rules) };

    ghost view = { λ lines. lines.sets.items };
}

impl LineRules {
    /// No line has a set.
    pub(crate) fn new(alloc: Global) -> LineRules
        ensures { result ≡ [] }
    {
        LineRules {
            sets: Vec::new(alloc),
        }
    }

    /// The rules of a line: none where it was given no set.
    pub(crate) fn on(&self, line: usize) -> RuleSet
        ensures { (rule : Rule) → has result rule ≡ is_among (at_line self.now line) rule }
    {
        if line >= self.sets.len() {
            return RuleSet::empty();
        }
        match self.sets[line] {
            Some(rules) => rules,
            None => RuleSet::empty(),
        }
    }

    /// Adds rules to those of a line. After the error, which comes when memory runs out, nothing has been added.
    #[tactic(auto, using(crate::proofs::LineSets::rules_added))]
    pub(crate) fn add(&mut self, line: usize, rules: RuleSet) -> Result<(), NoMemory>
        requires { line < 2 ^ 32 }
        ensures { OnOk result ((other : ℕ) (rule : Rule)
            → is_among (at_line self.new other) rule ≡ (is_among (at_line self.old other) rule || (line == other && has rules rule))) }
    {
        let all = self.on(line).union(rules);
        self.reach(line)?;
        self.sets[line] = Some(all);
        Ok(())
    }

    // Makes a place for each line up to this one.
    #[tactic(auto, using(crate::proofs::LineSets::place_more))]
    fn reach(&mut self, line: usize) -> Result<(), NoMemory>
        requires { line < 2 ^ 32 }
        ensures same { (other : ℕ) → at_line self.new other ≡ at_line self.old other }
        ensures room { OnOk result (line < length self.new) }
    {
        while self.sets.len() <= line {
            self.sets.push(None)?;
        }
        Ok(())
    }

    /// The set of each line, where it was given one, in order.
    pub(crate) fn sets(&self) -> &[Option<RuleSet>] {
        self.sets.as_slice()
    }
}
