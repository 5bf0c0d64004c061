//! The summary of reports.
ghost use Rattle.std.specs.Prelude.{◌≡◌, ◌≤◌, ◌++◌, flat_map, slice_index, IfOk, OnOk, Err};
ghost use Rattle.std.specs.Io.KnownBytes.{Appends};
ghost use Rattle.lint_base.specs.Rules.{number_of};
ghost use Rattle.squawk_print.specs.devices.Faults.{Rose};
ghost use Rattle.squawk_print.specs.devices.Parts.{AppendsPart};
ghost use Rattle.squawk_print.specs.declared.write.WriteError.TheVariants as WriteError;
ghost use Rattle.squawk_generate.specs.Summary as spec;

use crate::counts::{Counts, counts_of, number};
use itoa::Buffer;
use lint_base::{NoMemory, Rule, Violation};
use squawk_print::{Failed, Sink, WriteError, write_all};
use std::alloc::Global;

fn push_counted(text: &mut Vec<u8>, name: &[u8], count: usize) -> Result<(), NoMemory>
    ensures { OnOk result (text.new.items ≡ text.old.items ++ spec.counted name.now count) }
{
    let mut buffer = Buffer::new();
    text.extend_from_slice(name)?;
    text.extend_from_slice(b": ")?;
    text.extend_from_slice(buffer.format(count).as_bytes())?;
    text.extend_from_slice(b"\n")?;
    Ok(())
}

fn push_rule(text: &mut Vec<u8>, rule: Rule, count: usize) -> Result<(), NoMemory>
    ensures { OnOk result (text.new.items ≡ text.old.items ++ spec.rule_line rule count) }
{
    if count == 0 {
        Ok(())
    } else {
        push_counted(text, rule.name().as_bytes(), count)
    }
}

fn push_rules(text: &mut Vec<u8>, rules: &[Rule], counts: &Counts) -> Result<(), NoMemory>
    ensures { OnOk result (text.new.items ≡ text.old.items
        ++ flat_map (λ rule. spec.rule_line rule (slice_index counts.now (number_of rule))) rules.now) }
{
    for rule in rules {
        push_rule(text, *rule, counts[number(*rule)])?;
    }
    Ok(())
}

/// A line for each rule that has reports, and one with their count.
fn print_summary(alloc: Global, violations: &[Violation]) -> Result<Vec<u8>, NoMemory>
    ensures { IfOk result (λ text. text.items ≡ spec.summary violations.now) }
{
    let mut text = Vec::new(alloc);
    push_rules(&mut text, &Rule::ALL, &counts_of(violations))?;
    push_counted(&mut text, b"violations", violations.len())?;
    Ok(text)
}

/// Writes a line for each rule that has reports, in declaration order, and one with the count of all reports.
///
/// All memory is taken before the first write. It is little, whatever the number of the reports.
pub fn write_summary<K: Sink>(
    alloc: Global,
    out: &mut K,
    violations: &[Violation],
) -> Result<(), WriteError>
    ensures whole { OnOk result (Appends (K.held out.old) (K.held out.new)
        (spec.summary violations.now)) }
    ensures part { AppendsPart (K.held out.old) (K.held out.new) (spec.summary violations.now) }
    ensures later { K.faults out.old ≤ K.faults out.new }
    ensures fault { result ≡ Err WriteError.Fault → Rose (K.faults out.old) (K.faults out.new) }
    ensures no_memory { result ≡ Err WriteError.NoMemory → out.new ≡ out.old }
{
    match print_summary(alloc, violations) {
        Err(NoMemory) => Err(WriteError::NoMemory),
        Ok(text) => match write_all(out, &text) {
            Ok(()) => Ok(()),
            Err(Failed) => Err(WriteError::Fault),
        },
    }
}
