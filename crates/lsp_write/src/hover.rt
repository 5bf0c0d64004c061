//! What is to be known of reports, as hovers of the protocol.
ghost use Rattle.std.specs.Prelude.{◌≡◌, ◌++◌, codes, IfOk, OnOk, if◌then◌else◌, [], string_bytes};
ghost use Rattle.serde_json.specs.View.{view};
ghost use Rattle.lsp_write.specs.Action.{meets};
ghost use Rattle.lsp_write.specs.Fence.{block};
ghost use Rattle.lsp_write.specs.Hover.{explanation, explanations, hover_json, hover_of, line, line_if, message_lines, page_lines, see_line};

use crate::diagnostic::{address_of, code_of};
use crate::fence::push_block;
use crate::place::meets;
use diag_json::{Pos, Text};
use lsp_session::{Code, Report};
use rule_pages::code_page;
use serde_json::{Value, json};
use std::alloc::{AllocError, Global};

fn push_line(out: &mut String, head: &str, part: &str) -> Result<(), AllocError>
    ensures { OnOk result (string_bytes out.new ≡ string_bytes out.old ++ line head.now part.now) }
{
    out.push_str(head)?;
    out.push_str(part)?;
    out.push_str("\n")
}

fn push_line_if(out: &mut String, head: &str, part: &Option<Text>) -> Result<(), AllocError>
    ensures { OnOk result (string_bytes out.new ≡ string_bytes out.old ++ line_if head.now part.now) }
{
    match part {
        Some(part) => push_line(out, head, part.as_str()),
        None => Ok(()),
    }
}

/// Adds where a rule has a page.
fn push_see(out: &mut String, alloc: Global, code: Option<Code>) -> Result<(), AllocError>
    ensures { OnOk result (string_bytes out.new ≡ string_bytes out.old ++ see_line code) }
{
    match code {
        Some(Code::Rule(rule)) => push_line(out, "see: ", address_of(alloc, rule)?.as_str()),
        Some(Code::Hazard(_)) => Ok(()),
        None => Ok(()),
    }
}

/// Adds what a report says.
fn push_message(out: &mut String, alloc: Global, report: &Report) -> Result<(), AllocError>
    ensures { OnOk result (string_bytes out.new ≡ string_bytes out.old ++ message_lines report.now) }
{
    push_line(out, "", code_of(report.code))?;
    push_line(out, "", report.message.as_str())?;
    push_line_if(out, "note: ", &report.note)?;
    push_line_if(out, "help: ", &report.help)?;
    push_see(out, alloc, report.code)
}

/// Adds what `lavkheto explain` prints of a rule or a hazard.
fn push_page(out: &mut String, code: Option<Code>) -> Result<(), AllocError>
    ensures { OnOk result (string_bytes out.new ≡ string_bytes out.old ++ page_lines code) }
{
    match code {
        Some(code) => {
            out.push_str("\n")?;
            out.push_str(code_page(code))
        }
        None => Ok(()),
    }
}

fn explanation(alloc: Global, report: &Report) -> Result<String, AllocError>
    ensures { IfOk result (λ s. string_bytes s ≡ explanation report.now) }
{
    let mut out = String::new(alloc);
    push_message(&mut out, alloc, report)?;
    push_page(&mut out, report.code)?;
    Ok(out)
}

/// Adds what is to be known of a report, where it lies at a place.
fn push_if_at(out: &mut String, alloc: Global, report: &Report, at: Pos) -> Result<(), AllocError>
    ensures { OnOk result (string_bytes out.new ≡ string_bytes out.old ++ (if meets report.now at at then block (explanation report.now) else [])) }
{
    if meets(report, at, at) {
        push_block(out, alloc, explanation(alloc, report)?.as_str())?;
    }
    Ok(())
}

fn explanations(alloc: Global, reports: &[Report], at: Pos) -> Result<String, AllocError>
    ensures { IfOk result (λ s. string_bytes s ≡ explanations reports.now at) }
{
    let mut out = String::new(alloc);
    for report in reports {
        push_if_at(&mut out, alloc, report, at)?;
    }
    Ok(out)
}

fn contents(alloc: Global, text: &str) -> Result<Value, AllocError>
    ensures { IfOk result (λ v. view v ≡ hover_of text.now) }
{
    if text.is_empty() {
        return Ok(Value::Null);
    }
    json!(in alloc; {"contents": {"kind": "markdown", "value": text}})
}

/// What is to be known of those reports that lie at a place.
#[tactic(auto, unfolding(crate::specs::Hover::hover_json))]
pub(crate) fn hover_value(alloc: Global, reports: &[Report], at: Pos) -> Result<Value, AllocError>
    ensures { IfOk result (λ v. view v ≡ hover_json reports.now at) }
{
    let text = explanations(alloc, reports, at)?;
    contents(alloc, text.as_str())
}
