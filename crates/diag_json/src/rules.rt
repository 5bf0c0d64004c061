//! Rules by their printed names.
ghost use Rattle.std.specs.Prelude.{◌≡◌};
ghost use Rattle.diag_json.specs.Reading.{rule_with_name};

use lint_base::Rule;

/// The rule with this printed name. The rule on ignore comments has one too, though no comment and no option names it.
pub(crate) fn rule_with_name(text: &str) -> Option<Rule>
    ensures { result ≡ rule_with_name text.now }
{
    if text == Rule::UnusedIgnore.name() {
        return Some(Rule::UnusedIgnore);
    }
    let rule = Rule::try_from(text).ok()?;
    if rule.name() == text {
        Some(rule)
    } else {
        None
    }
}
