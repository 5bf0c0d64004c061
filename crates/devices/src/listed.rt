//! The files of a folder that hold SQL.
ghost use Rattle.std.specs.Prelude.{◌≡◌, IfOk, filter, string_bytes};
ghost use Rattle.devices.specs.SqlNames.{AreSqlNames, is_sql_name};

use std::alloc::{AllocError, Global};

// Whether a name ends in `.sql`.
fn is_sql_name(name: &str) -> bool
    ensures { result ≡ is_sql_name name.now }
{
    name.as_bytes().ends_with(b".sql")
}

// The names that end in `.sql`, in the order that they had.
fn ending_in_sql(alloc: Global, names: Vec<String>) -> Result<Vec<String>, AllocError>
    ensures { IfOk result (λ kept. kept.items ≡ filter (λ name. is_sql_name (string_bytes name)) names.items) }
{
    names
        .into_iter()
        .filter(|name| is_sql_name(name.as_str()))
        .collect(alloc)
}

/// Those of these names that end in `.sql`, in order of their bytes. The error comes when memory runs out.
pub fn sql_names(alloc: Global, names: Vec<String>) -> Result<Vec<String>, AllocError>
    ensures { IfOk result (λ kept. AreSqlNames names.items kept.items) }
{
    let mut kept = ending_in_sql(alloc, names)?;
    kept.sort()?;
    Ok(kept)
}
