//! The values of texts.
ghost use Rattle.std.specs.Prelude.{◌≡◌, IfOk};
ghost use Rattle.serde_json.specs.View.{view};
ghost use Rattle.json_value.specs.Values.{hint_data, text_data};

use lint_base::Text;
use serde_json::Value;
use source_file::Hint;
use std::alloc::{AllocError, Global};

/// A text, or null. The error comes when memory runs out.
pub fn text_value(alloc: Global, text: &Option<Text>) -> Result<Value, AllocError>
    ensures { IfOk result (λ value. view value ≡ text_data text.now) }
{
    match text {
        None => Ok(Value::Null),
        Some(text) => Value::try_from_str(alloc, text.as_str()),
    }
}

/// What may help, or null. The error comes when memory runs out.
pub fn hint_value(alloc: Global, hint: Option<Hint>) -> Result<Value, AllocError>
    ensures { IfOk result (λ value. view value ≡ hint_data hint) }
{
    match hint {
        None => Ok(Value::Null),
        Some(hint) => Value::try_from_str(alloc, hint.text()),
    }
}
