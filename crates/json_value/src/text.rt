//! The text of a value.
ghost use Rattle.std.specs.Prelude.{◌≡◌, ◌++◌, OnOk, false};
ghost use Rattle.serde_json.specs.View.{view};
ghost use Rattle.serde_json.specs.Written.{compact_text, has_float};

use lint_base::NoMemory;
use serde_json::Value;
use std::alloc::Global;

/// Adds the text of a value that has no float. The error comes when memory runs out.
pub fn push_value(to: &mut Vec<u8>, alloc: Global, value: &Value) -> Result<(), NoMemory>
    requires { has_float (view value.now) ≡ false }
    ensures { OnOk result (to.new.items ≡ to.old.items ++ compact_text (view value.now)) }
{
    let text = value.to_string(alloc)?;
    to.extend_from_slice(text.as_bytes())?;
    Ok(())
}
