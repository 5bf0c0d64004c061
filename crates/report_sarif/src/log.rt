//! What is round the results.
ghost use Rattle.std.specs.Prelude.{◌≡◌, ◌++◌, IfOk, OnOk, map};
ghost use Rattle.serde_json.specs.Data.{array};
ghost use Rattle.serde_json.specs.View.{items_of, view};
ghost use Rattle.report_sarif.specs.Log.{all_codes, closing, code_object, driver, hazard_object, opening, rule_object, tool};

use hazard_base::Hazard;
use json_value::push_value;
use lint_base::Rule;
use lint_report::{Code, NoMemory};
use serde_json::{Value, json};
use std::alloc::{AllocError, Global};

// What reports go by.
fn code_value(alloc: Global, code: Code) -> Result<Value, AllocError>
    ensures { IfOk result (λ value. view value ≡ code_object code) }
{
    json!(in alloc; {"id": (code.name())})
}

// Adds rules, in order.
fn push_rules(to: &mut Vec<Value>, alloc: Global, rules: &[Rule]) -> Result<(), AllocError>
    ensures { OnOk result (map view to.new.items ≡ map view to.old.items ++ map rule_object rules.now) }
{
    for rule in rules {
        to.push(code_value(alloc, Code::Rule(*rule))?)?;
    }
    Ok(())
}

// Adds hazards, in order.
fn push_hazards(to: &mut Vec<Value>, alloc: Global, hazards: &[Hazard]) -> Result<(), AllocError>
    ensures { OnOk result (map view to.new.items ≡ map view to.old.items ++ map hazard_object hazards.now) }
{
    for hazard in hazards {
        to.push(code_value(alloc, Code::Hazard(*hazard))?)?;
    }
    Ok(())
}

// All rules of the linter, and then all hazards.
#[tactic(auto, unfolding(lint_base::specs::Rules::all_rules, hazard_base::specs::Hazards::all_hazards))]
fn all_codes_value(alloc: Global) -> Result<Value, AllocError>
    ensures { IfOk result (λ value. view value ≡ array (items_of all_codes)) }
{
    let mut list = Vec::new(alloc);
    push_rules(&mut list, alloc, &Rule::ALL)?;
    push_hazards(&mut list, alloc, &Hazard::ALL)?;
    Ok(Value::Array(list))
}

// The linter's name, all its rules and all hazards.
fn driver_value(alloc: Global) -> Result<Value, AllocError>
    ensures { IfOk result (λ value. view value ≡ driver) }
{
    let rules = all_codes_value(alloc)?;
    json!(in alloc; {"name": "lavkheto", "rules": rules})
}

// The linter.
fn tool_value(alloc: Global) -> Result<Value, AllocError>
    ensures { IfOk result (λ value. view value ≡ tool) }
{
    let driver = driver_value(alloc)?;
    json!(in alloc; {"driver": driver})
}

/// Adds what comes before the results. The error comes when memory runs out.
pub fn push_opening(to: &mut Vec<u8>) -> Result<(), NoMemory>
    ensures { OnOk result (to.new.items ≡ to.old.items ++ opening) }
{
    to.extend_from_slice(
        b"{\"$schema\":\"https://json.schemastore.org/sarif-2.1.0.json\",\"runs\":[{\"columnKind\":\"unicodeCodePoints\",\"results\":[",
    )?;
    Ok(())
}

/// Adds what comes after the results. The error comes when memory runs out.
pub fn push_closing(to: &mut Vec<u8>, alloc: Global) -> Result<(), NoMemory>
    ensures { OnOk result (to.new.items ≡ to.old.items ++ closing) }
{
    let tool = tool_value(alloc)?;
    to.extend_from_slice(b"],\"tool\":")?;
    push_value(to, alloc, &tool)?;
    to.extend_from_slice(b"}],\"version\":\"2.1.0\"}")?;
    Ok(())
}
