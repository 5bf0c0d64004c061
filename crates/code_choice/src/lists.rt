//! Lists of names.
ghost use Rattle.std.specs.Prelude.{◌≡◌, ◌++◌, [], IfOk, OnOk, option_map};
ghost use Rattle.squawk_run.specs.squawk_words.Choices.{read_or};
ghost use Rattle.code_choice.specs.Choices as spec;

use lint_report::{Code, Hazard, NoMemory, Rule, code_named};
use squawk_run::items_of;
use std::alloc::{AllocError, Global};

/// What a list names, between its commas, or `None` where an item names neither a rule nor a hazard. The error comes when memory runs out.
pub fn code_list(alloc: Global, list: &str) -> Result<Option<Vec<Code>>, NoMemory>
    ensures { IfOk result (λ found. option_map (λ v. v.items) found ≡ spec.code_list list.now) }
{
    let items = items_of(alloc, list)?;
    let mut found = Vec::new(alloc);
    for item in &items {
        match code_named(item) {
            Some(code) => found.push(code)?,
            None => return Ok(None),
        }
    }
    Ok(Some(found))
}

/// The same, where no list names nothing.
pub(crate) fn codes_or_none(
    alloc: Global,
    list: Option<&str>,
) -> Result<Option<Vec<Code>>, NoMemory>
    ensures { IfOk result (λ found. option_map (λ v. v.items) found ≡ read_or [] spec.code_list (option_map (λ s. s.now) list.entry)) }
{
    match list {
        None => Ok(Some(Vec::new(alloc))),
        Some(list) => code_list(alloc, list),
    }
}

// Adds a rule.
fn push_rule(rules: &mut Vec<Rule>, code: &Code) -> Result<(), AllocError>
    ensures { OnOk result (rules.new.items ≡ rules.old.items ++ spec.rule_in code.now) }
{
    match *code {
        Code::Rule(rule) => rules.push(rule)?,
        Code::Hazard(_) => {}
    }
    Ok(())
}

// Adds a hazard.
fn push_hazard(hazards: &mut Vec<Hazard>, code: &Code) -> Result<(), AllocError>
    ensures { OnOk result (hazards.new.items ≡ hazards.old.items ++ spec.hazard_in code.now) }
{
    match *code {
        Code::Rule(_) => {}
        Code::Hazard(hazard) => hazards.push(hazard)?,
    }
    Ok(())
}

/// The rules among codes, in order.
pub(crate) fn rules_among(alloc: Global, codes: &[Code]) -> Result<Vec<Rule>, AllocError>
    ensures { IfOk result (λ v. v.items ≡ spec.rules_among codes.now) }
{
    let mut rules = Vec::new(alloc);
    for code in codes {
        push_rule(&mut rules, code)?;
    }
    Ok(rules)
}

/// The hazards among codes, in order.
pub(crate) fn hazards_among(alloc: Global, codes: &[Code]) -> Result<Vec<Hazard>, AllocError>
    ensures { IfOk result (λ v. v.items ≡ spec.hazards_among codes.now) }
{
    let mut hazards = Vec::new(alloc);
    for code in codes {
        push_hazard(&mut hazards, code)?;
    }
    Ok(hazards)
}
