//! The text with the next fix made.
ghost use Rattle.std.specs.Prelude.{◌≡◌, ◌<◌, ◌^◌, All, length, IfOk, option_map, string_bytes};
ghost use Rattle.fix_choice.specs.Fits as spec;
ghost use Rattle.fix_choice.specs.Fits.{CanBeTried};

use crate::fits::join_no_word;
use crate::listed::is_listed;
use fix_edit::{Fix, FixError, NoMemory, Violation, apply_fix};
use std::alloc::Global;

/// The text with a fix made, if it fits. The error comes when memory runs out.
pub fn made_by(alloc: Global, text: &str, fix: &Fix) -> Result<Option<String>, NoMemory>
    requires short { length text.now < 2 ^ 32 }
    requires tried { CanBeTried text.now fix.now }
    ensures { IfOk result (λ made. option_map string_bytes made ≡ spec.made_by text.now fix.now) }
{
    if !join_no_word(text, fix) {
        return Ok(None);
    }
    match apply_fix(alloc, text, fix) {
        Ok(made) => Ok(Some(made)),
        Err(FixError::TooLong) => Ok(None),
        Err(FixError::NoMemory) => Err(NoMemory),
        Err(FixError::BadRange { .. } | FixError::Overlap { .. }) => unreachable!(),
    }
}

// The text with the fix of a report made, if it is of a listed rule and has one that fits.
fn made_for(alloc: Global, text: &str, report: &Violation) -> Result<Option<String>, NoMemory>
    requires short { length text.now < 2 ^ 32 }
    requires tried { spec.ListedCanBeTried text.now report.now }
    ensures { IfOk result (λ made. option_map string_bytes made ≡ spec.made_for text.now report.now) }
{
    if !is_listed(report.code) {
        return Ok(None);
    }
    match &report.fix {
        Some(fix) => made_by(alloc, text, fix),
        None => Ok(None),
    }
}

/// The text with the fix made of the first of these reports that is of a listed rule and has a fix that fits, or `None` where there is no
/// such report. The error comes when memory runs out.
pub fn next_text(
    alloc: Global,
    text: &str,
    reports: &[Violation],
) -> Result<Option<String>, NoMemory>
    requires short { length text.now < 2 ^ 32 }
    requires tried { All (spec.ListedCanBeTried text.now) reports.now }
    ensures { IfOk result (λ next. option_map string_bytes next ≡ spec.next_text text.now reports.now) }
{
    for report in reports {
        let made = made_for(alloc, text, report)?;
        if made.is_some() {
            return Ok(made);
        }
    }
    Ok(None)
}
