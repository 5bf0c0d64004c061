//! Names of hazards in ignore comments.

ghost use Rattle.std.specs.Prelude.{◌≡◌, IfOk, find};
ghost use Rattle.lint_ignore.specs.Names.{unknown_message};
ghost use Rattle.hazard_base.specs.Hazards.{name_of};
ghost use Rattle.hazard_ignore.specs.HazardNames as spec;
ghost use Rattle.hazard_ignore.specs.HazardNames.{is_unknown};

use hazard_base::{Hazard, NoMemory};
use lint_base::{Rule, Violation};
use std::alloc::Global;

/// The linter's message of a name that is this hazard's.
#[tactic(auto, unfolding(hazard_base::specs::Hazards::name_of))]
fn unknown_message(hazard: Hazard) -> &'static str
    ensures { result.now ≡ unknown_message (name_of hazard) }
{
    match hazard {
        Hazard::StatementInTransaction => "unknown name `statement-in-transaction`",
        Hazard::TableRewrite => "unknown name `table-rewrite`",
        Hazard::ColumnWithCheck => "unknown name `column-with-check`",
        Hazard::BuildUnderTimeout => "unknown name `build-under-timeout`",
        Hazard::InvalidIndexKept => "unknown name `invalid-index-kept`",
        Hazard::RefreshBlocksReads => "unknown name `refresh-blocks-reads`",
        Hazard::JsonColumn => "unknown name `json-column`",
    }
}

// Whether a message calls the name of a hazard unknown.
#[tactic(auto, unfolding(crate::specs::HazardNames::is_unknown))]
fn calls_unknown(message: &str, hazard: Hazard) -> bool
    ensures { result ≡ is_unknown message.now hazard }
{
    message == unknown_message(hazard)
}

// The first hazard of a list whose name a message calls unknown.
fn first_unknown(message: &str, hazards: &[Hazard]) -> Option<Hazard>
    ensures { result ≡ find (is_unknown message.now) hazards.now }
{
    for hazard in hazards {
        if calls_unknown(message, *hazard) {
            return Some(*hazard);
        }
    }
    None
}

/// The hazard whose name a report of the linter calls unknown; none of any other report. It takes no memory.
#[tactic(auto, unfolding(crate::specs::HazardNames::hazard_of, hazard_base::specs::Hazards::all_hazards, lint_base::specs::RuleNames::same_rule))]
pub fn hazard_of(v: &Violation) -> Option<Hazard>
    ensures { result ≡ spec.hazard_of v.now }
{
    if v.code == Rule::UnusedIgnore {
        first_unknown(v.message.as_str(), &Hazard::ALL)
    } else {
        None
    }
}

/// The reports of the linter but for those that call the name of a hazard unknown, in their order. The error comes when memory runs out.
pub fn without_hazard_names(
    alloc: Global,
    reports: Vec<Violation>,
) -> Result<Vec<Violation>, NoMemory>
    ensures { IfOk result (λ kept. kept.items ≡ spec.without_hazard_names reports.items) }
{
    let mut kept = Vec::new(alloc);
    for v in reports {
        if hazard_of(&v).is_none() {
            kept.push(v)?;
        }
    }
    Ok(kept)
}
