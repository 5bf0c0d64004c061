//! The order in which files run.
ghost use Rattle.std.specs.Prelude.{◌≡◌, ◌++◌, IfOk, OnOk, map, string_bytes};
ghost use Rattle.gate_files.specs.Named.{AreSorted, IsOrdered};

use checked_file::NoMemory;
use sql_files::Words;
use std::alloc::Global;

/// The order in which files run.
#[derive(Clone, Copy, Debug, PartialEq, Eq)]
pub enum Order {
    /// The order in which they are given; those of a folder come in order of their names.
    Given,
    /// The order of their names, by bytes.
    Name,
}

// Adds names.
fn push_all(names: &mut Words, more: &[String]) -> Result<(), NoMemory>
    ensures { OnOk result (names.new ≡ names.old ++ map string_bytes more.now) }
{
    for name in more {
        names.push(name.as_str())?;
    }
    Ok(())
}

// Copies of names.
fn copied(alloc: Global, names: &Words) -> Result<Vec<String>, NoMemory>
    ensures { IfOk result (λ all. map string_bytes all.items ≡ names.now) }
{
    let mut all = Vec::new(alloc);
    for i in 0..names.len() {
        let name = String::from_str(alloc, names.get(i))?;
        all.push(name)?;
    }
    Ok(all)
}

// Names in order of their bytes.
fn sorted(alloc: Global, names: &Words) -> Result<Words, NoMemory>
    ensures { IfOk result (AreSorted names.now) }
{
    let mut all = copied(alloc, names)?;
    all.sort()?;
    let mut words = Words::new(alloc);
    push_all(&mut words, all.as_slice())?;
    Ok(words)
}

/// Names in an order.
pub(crate) fn ordered(alloc: Global, order: Order, names: Words) -> Result<Words, NoMemory>
    ensures { IfOk result (IsOrdered order names) }
{
    match order {
        Order::Given => Ok(names),
        Order::Name => sorted(alloc, &names),
    }
}
