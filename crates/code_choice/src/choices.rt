//! What lists choose.
ghost use Rattle.std.specs.Prelude.{◌≡◌, ◌&&◌, not, option_map};
ghost use Rattle.std.specs.List.{list_any};
ghost use Rattle.lint_report.specs.hazard_base.Hazards.{same_hazard};
ghost use Rattle.code_choice.specs.Choices as spec;

use lint_report::{Hazard, HazardSet, Rule, RuleSet};
use squawk_run::Choices;

/// What words choose.
#[derive(Debug, Drop)]
pub struct CodeChoices {
    /// The rules that are enabled, and the linter's settings.
    pub choices: Choices,
    /// The hazards that are enabled.
    pub hazards: HazardSet,
}

/// The rules: those of `only` where there is such a list, and else those of the default set, with and without others.
pub(crate) fn rules_by(only: Option<&[Rule]>, include: &[Rule], exclude: &[Rule]) -> RuleSet
    ensures { result ≡ spec.rules_by (option_map (λ s. s.now) only.entry) include.now exclude.now }
{
    match only {
        Some(rules) => RuleSet::named(rules),
        None => RuleSet::chosen(include, exclude),
    }
}

// Whether a hazard is in a list.
fn is_among(hazards: &[Hazard], hazard: Hazard) -> bool
    ensures { result ≡ spec.is_among hazards.now hazard }
{
    hazards.iter().any(|h| hazard.is(*h))
}

// Whether a hazard is enabled.
fn is_enabled(only: Option<&[Hazard]>, exclude: &[Hazard], hazard: Hazard) -> bool
    ensures { result ≡ spec.is_enabled (option_map (λ s. s.now) only.entry) exclude.now hazard }
{
    match only {
        Some(hazards) => is_among(hazards, hazard),
        None => !is_among(exclude, hazard),
    }
}

/// The hazards: those of `only` where there is such a list, and else all but others.
pub(crate) fn hazards_by(only: Option<&[Hazard]>, exclude: &[Hazard]) -> HazardSet
    ensures { result ≡ spec.hazards_that (spec.is_enabled (option_map (λ s. s.now) only.entry) exclude.now) }
{
    HazardSet {
        statement_in_transaction: is_enabled(only, exclude, Hazard::StatementInTransaction),
        table_rewrite: is_enabled(only, exclude, Hazard::TableRewrite),
        column_with_check: is_enabled(only, exclude, Hazard::ColumnWithCheck),
        build_under_timeout: is_enabled(only, exclude, Hazard::BuildUnderTimeout),
        invalid_index_kept: is_enabled(only, exclude, Hazard::InvalidIndexKept),
        refresh_blocks_reads: is_enabled(only, exclude, Hazard::RefreshBlocksReads),
        json_column: is_enabled(only, exclude, Hazard::JsonColumn),
    }
}
