//! All rules and hazards.
ghost use Rattle.std.specs.Prelude.{◌≡◌, ◌++◌, IfOk, OnOk, map};
ghost use Rattle.lint_report.specs.declared.code.Code.{Code};
ghost use Rattle.nearest_code.specs.Nearest.{all_codes};

use hazard_base::Hazard;
use lint_base::Rule;
use lint_report::Code;
use std::alloc::{AllocError, Global};

// Adds rules.
fn push_rules(codes: &mut Vec<Code>, rules: &[Rule]) -> Result<(), AllocError>
    ensures { OnOk result (codes.new.items ≡ codes.old.items ++ map (λ rule. Code.Rule rule) rules.now) }
{
    for rule in rules {
        codes.push(Code::Rule(*rule))?;
    }
    Ok(())
}

// Adds hazards.
fn push_hazards(codes: &mut Vec<Code>, hazards: &[Hazard]) -> Result<(), AllocError>
    ensures { OnOk result (codes.new.items ≡ codes.old.items ++ map (λ hazard. Code.Hazard hazard) hazards.now) }
{
    for hazard in hazards {
        codes.push(Code::Hazard(*hazard))?;
    }
    Ok(())
}

/// All rules, and then all hazards, in declaration order. The error comes when memory runs out.
#[tactic(auto, unfolding(crate::specs::Nearest::all_codes, lint_base::specs::Rules::all_rules, hazard_base::specs::Hazards::all_hazards))]
pub(crate) fn all_codes(alloc: Global) -> Result<Vec<Code>, AllocError>
    ensures { IfOk result (λ codes. codes.items ≡ all_codes) }
{
    let mut codes = Vec::new(alloc);
    push_rules(&mut codes, &Rule::ALL)?;
    push_hazards(&mut codes, &Hazard::ALL)?;
    Ok(codes)
}
