//! Which file is the configuration.
ghost use Rattle.std.specs.Prelude.{◌≡◌, IfOk, option_map, string_bytes};
ghost use Rattle.config_file.specs.Found as spec;
ghost use Rattle.check_config.specs.devices.Contents.{IsThere};

use check_config::FileStore;
use report_lines::Text;
use std::alloc::{AllocError, Global};

// In how many folders a configuration is looked for.
const MOST_FOLDERS: u32 = 64;

// The name of a configuration in a folder.
fn config_in(alloc: Global, folder: &String) -> Result<String, AllocError>
    ensures { IfOk result (λ name. string_bytes name ≡ spec.config_in (string_bytes folder.now)) }
{
    let mut name = String::from_str(alloc, folder.as_str())?;
    name.push_str(".squawk.toml")?;
    Ok(name)
}

// The name of what the topmost folder of a repository has.
fn top_in(alloc: Global, folder: &String) -> Result<String, AllocError>
    ensures { IfOk result (λ name. string_bytes name ≡ spec.top_in (string_bytes folder.now)) }
{
    let mut name = String::from_str(alloc, folder.as_str())?;
    name.push_str(".git")?;
    Ok(name)
}

// Whether there is something of a name.
fn has<F: FileStore>(files: &F, name: &String) -> bool
    ensures { IsThere (F.content files.now (string_bytes name.now)) result }
{
    files.is_there(name.as_str())
}

/// The configuration in a folder or in the first one above it that has one, up to that of the repository.
pub(crate) fn found<F: FileStore>(
    alloc: Global,
    files: &F,
    start: &str,
) -> Result<Option<String>, AllocError>
    ensures { IfOk result (λ name. spec.IsFound (F.content files.now) spec.most_folders start.now (option_map string_bytes name)) }
{
    let mut folder = String::from_str(alloc, start)?;
    for _turn in 0..MOST_FOLDERS {
        let name = config_in(alloc, &folder)?;
        let has_config = has(files, &name);
        if has_config {
            return Ok(Some(name));
        }
        let top = top_in(alloc, &folder)?;
        let has_top = has(files, &top);
        if has_top {
            return Ok(None);
        }
        folder.push_str("../")?;
    }
    Ok(None)
}

/// The name of the configuration: the one that is given, or else the one that is found.
pub(crate) fn config_name<F: FileStore>(
    alloc: Global,
    files: &F,
    given: &Option<Text>,
) -> Result<Option<String>, AllocError>
    ensures { IfOk result (λ name. spec.IsNamed (F.content files.now) given.now (option_map string_bytes name)) }
{
    match given {
        Some(name) => Ok(Some(String::from_str(alloc, name.as_str())?)),
        None => found(alloc, files, ""),
    }
}
