//! How many reports each rule and each hazard has.
ghost use Rattle.std.specs.Prelude.{◌≡◌, ◌++◌, OnOk, flat_map};
ghost use Rattle.hazard_base.specs.Hazards.{all_hazards};
ghost use Rattle.lint_base.specs.Rules.{all_rules};
ghost use Rattle.check_print.specs.Statistics.{code_line, code_lines, count_among, count_in, count_of, hazard_line, rule_line, same_code};

use checked_file::{Answer, Checked, Code, NoMemory, Report};
use hazard_base::Hazard;
use lint_base::Rule;
use report_lines::{push, push_number};

// Whether two codes are one.
#[tactic(auto, unfolding(lint_base::specs::RuleNames::same_rule))]
fn same_code(code: Code, other: Code) -> bool
    ensures { result ≡ same_code code other }
{
    match code {
        Code::Rule(rule) => match other {
            Code::Rule(second) => rule == second,
            Code::Hazard(_) => false,
        },
        Code::Hazard(hazard) => match other {
            Code::Rule(_) => false,
            Code::Hazard(second) => hazard.is(second),
        },
    }
}

// Whether a report goes by a code.
fn is_of(report: &Report, code: Code) -> bool
    ensures { result ≡ same_code report.now.code code }
{
    same_code(report.code, code)
}

// How many of these reports go by a code.
fn count_among(code: Code, reports: &[Report]) -> usize
    ensures { result ≡ count_among code reports.now }
{
    reports.iter().filter(|report| is_of(report, code)).count()
}

// How many reports a code has for one file.
fn count_in(code: Code, answer: &Answer) -> usize
    ensures { result ≡ count_in code answer.now }
{
    match answer {
        Answer::Reports(reports) => count_among(code, reports.as_slice()),
        Answer::Partial(partial) => count_among(code, partial.reports.as_slice()),
        Answer::Refused(_) => 0,
    }
}

// How many reports a code has for all files. A number past 2^64 - 1 is given as that.
fn count_of(code: Code, files: &[Checked]) -> usize
    ensures { result ≡ count_of code files.now }
{
    let mut count: usize = 0;
    for file in files {
        count = count.saturating_add(count_in(code, &file.answer));
    }
    count
}

// Adds the line of a code, where it has reports.
#[tactic(auto, unfolding(crate::specs::Statistics::code_line))]
fn push_code_line(to: &mut Vec<u8>, code: Code, count: usize) -> Result<(), NoMemory>
    ensures { OnOk result (to.new.items ≡ to.old.items ++ code_line code count) }
{
    if count == 0 {
        return Ok(());
    }
    push(to, code.name().as_bytes())?;
    push(to, b": ")?;
    push_number(to, count)?;
    push(to, b"\n")
}

// Adds the lines of rules, in order.
fn push_rule_lines(to: &mut Vec<u8>, rules: &[Rule], files: &[Checked]) -> Result<(), NoMemory>
    ensures { OnOk result (to.new.items ≡ to.old.items ++ flat_map (rule_line files.now) rules.now) }
{
    for rule in rules {
        let code = Code::Rule(*rule);
        push_code_line(to, code, count_of(code, files))?;
    }
    Ok(())
}

// Adds the lines of hazards, in order.
fn push_hazard_lines(
    to: &mut Vec<u8>,
    hazards: &[Hazard],
    files: &[Checked],
) -> Result<(), NoMemory>
    ensures { OnOk result (to.new.items ≡ to.old.items ++ flat_map (hazard_line files.now) hazards.now) }
{
    for hazard in hazards {
        let code = Code::Hazard(*hazard);
        push_code_line(to, code, count_of(code, files))?;
    }
    Ok(())
}

// Adds the lines of all rules.
#[tactic(auto, unfolding(lint_base::specs::Rules::all_rules))]
fn push_all_rules(to: &mut Vec<u8>, files: &[Checked]) -> Result<(), NoMemory>
    ensures { OnOk result (to.new.items ≡ to.old.items ++ flat_map (rule_line files.now) all_rules) }
{
    push_rule_lines(to, &Rule::ALL, files)
}

// Adds the lines of all hazards.
#[tactic(auto, unfolding(hazard_base::specs::Hazards::all_hazards))]
fn push_all_hazards(to: &mut Vec<u8>, files: &[Checked]) -> Result<(), NoMemory>
    ensures { OnOk result (to.new.items ≡ to.old.items ++ flat_map (hazard_line files.now) all_hazards) }
{
    push_hazard_lines(to, &Hazard::ALL, files)
}

/// Adds a line for each rule that has reports, and then for each hazard that has some, both in the order in which they are declared. The
/// error comes when memory runs out.
#[tactic(auto, unfolding(crate::specs::Statistics::code_lines), using(std::proofs::lemmas::List::append_assoc))]
pub(crate) fn push_code_lines(to: &mut Vec<u8>, files: &[Checked]) -> Result<(), NoMemory>
    ensures { OnOk result (to.new.items ≡ to.old.items ++ code_lines files.now) }
{
    push_all_rules(to, files)?;
    push_all_hazards(to, files)
}
