//! Which of the files that are named are checked.
ghost use Rattle.std.specs.Prelude.{◌≡◌, ◌||◌, ℕ, true, not, if◌then◌else◌, IfOk, List, OnOk, option_map};
ghost use Rattle.std.specs.BTreeSet.{contains_text};
ghost use Rattle.std.specs.Str.{bytes_eq};
ghost use Rattle.file_choice.specs.Choice as spec;

use path_pattern::is_match;
use squawk_words::{NoMemory, Words};
use std::alloc::Global;
use std::collections::BTreeSet;

// What follows `./` at the start of a name.
fn after_dot(name: &str) -> Option<&str>
    ensures { option_map (λ s. s.now) result ≡ spec.after_dot name.entry.now }
{
    name.strip_prefix("./")
}

// A name without `./` at its start.
fn bare(name: &str) -> &str
    ensures { result.now ≡ spec.bare name.entry.now }
{
    match after_dot(name) {
        Some(rest) => rest,
        None => name,
    }
}

// Whether a path matches one of the patterns.
fn is_excluded(alloc: Global, patterns: &Words, path: &str) -> Result<bool, NoMemory>
    ensures { IfOk result (λ is. is ≡ spec.is_excluded patterns.now path.now) }
{
    for i in 0..patterns.len() {
        if is_match(alloc, patterns.get(i).as_bytes(), path.as_bytes())? {
            return Ok(true);
        }
    }
    Ok(false)
}

// Adds a name, and says whether it is new.
fn is_first(alloc: Global, seen: &mut BTreeSet<String>, name: &str) -> Result<bool, NoMemory>
    ensures first { IfOk result (λ is. is ≡ not (contains_text seen.old name.now)) }
    ensures seen { OnOk result ((other : List ℕ) → contains_text seen.new other ≡ (if bytes_eq name.now other then true else contains_text seen.old other)) }
{
    let key = String::from_str(alloc, name)?;
    Ok(seen.insert(key)?)
}

// Whether a name is checked, by the names before it.
fn is_chosen(
    alloc: Global,
    patterns: &Words,
    seen: &mut BTreeSet<String>,
    name: &str,
) -> Result<bool, NoMemory>
    ensures chosen { IfOk result (λ is. is ≡ not (contains_text seen.old name.now || spec.is_excluded patterns.now (spec.bare name.now))) }
    ensures seen { OnOk result ((other : List ℕ) → contains_text seen.new other ≡ (if bytes_eq name.now other then true else contains_text seen.old other)) }
{
    if !is_first(alloc, seen, name)? {
        return Ok(false);
    }
    Ok(!is_excluded(alloc, patterns, bare(name))?)
}

/// Those of these names that match no pattern, each at its first place. A pattern is matched without `./` at the start of the name. The error comes when memory runs out.
pub fn chosen(alloc: Global, patterns: &Words, names: &Words) -> Result<Words, NoMemory>
    ensures { IfOk result (λ all. all ≡ spec.chosen_of patterns.now names.now) }
{
    let mut seen = BTreeSet::new(alloc);
    let mut all = Words::new(alloc);
    for i in 0..names.len() {
        let name = names.get(i);
        if is_chosen(alloc, patterns, &mut seen, name)? {
            all.push(name)?;
        }
    }
    Ok(all)
}
