//! A pass of these tests that takes no statement after another: it reports the start of a text.

ghost use Rattle.std.specs.Prelude.{◌≡◌};
ghost use Rattle.test_linter.specs.Starts.{start_report};

use case_format::{NoMemory, TextRange, TextSize};
use squawk_cli::{LinterSettings, Parse, Pass, Reports, Rule, RuleSet, Text, Violation};
use std::alloc::Global;

const MESSAGE: &str = "start";

/// Reports the start of the text by the rule that bans DROP TABLE, where that is enabled, with the message `start`.
#[derive(Drop)]
pub struct AtStart;

fn report() -> Violation
    ensures { result ≡ start_report }
{
    let start = TextSize::new(0);
    Violation::for_range(
        Rule::BanDropTable,
        Text::fixed(MESSAGE),
        TextRange::new(start, start),
    )
}

impl Pass for AtStart {
    ghost use Rattle.squawk_cli.specs.lint_base.RuleSets.{no_rules, with_rule};
    ghost use Rattle.squawk_cli.specs.lint_base.declared.rule.Rule.TheVariants as rule;
    ghost use Rattle.test_linter.specs.Starts.{start_reports};

    ghost own = { λ _. with_rule no_rules rule.BanDropTable };

    ghost table = { λ _ _ rules _. start_reports rules };

    fn rules(&self) -> RuleSet {
        let mut rules = RuleSet::empty();
        rules.insert(Rule::BanDropTable);
        rules
    }

    fn run(
        &self,
        _alloc: Global,
        _p: &Parse<'_>,
        rules: &RuleSet,
        _set: &LinterSettings,
        out: &mut Reports,
    ) -> Result<(), NoMemory> {
        if rules.contains(Rule::BanDropTable) {
            out.push(report())?;
        }
        Ok(())
    }
}
