//! Positions in JSON.
ghost use Rattle.std.specs.Prelude.{◌≡◌};
ghost use Rattle.serde_json.specs.View.{view};
ghost use Rattle.lsp_read.specs.Place.{coordinate, coordinate_at, position, position_at};

use lsp_session::Pos;
use serde_json::Value;

fn coordinate(value: &Value) -> Option<u32>
    ensures { result ≡ coordinate (view value.now) }
{
    match value.as_u64() {
        Some(n) if n <= u32::MAX as u64 => Some(n as u32),
        _ => None,
    }
}

#[tactic(auto, unfolding(crate::specs::Place::coordinate_at))]
fn coordinate_at(value: &Value, key: &str) -> Option<u32>
    ensures { result ≡ coordinate_at key.now (view value.now) }
{
    coordinate(value.get(key)?)
}

#[tactic(auto, unfolding(crate::specs::Place::position))]
fn position(value: &Value) -> Option<Pos>
    ensures { result ≡ position (view value.now) }
{
    let line = coordinate_at(value, "line")?;
    let col = coordinate_at(value, "character")?;
    Some(Pos { line, col })
}

/// The position that a member of a value is.
#[tactic(auto, unfolding(crate::specs::Place::position_at))]
pub(crate) fn position_at(value: &Value, key: &str) -> Option<Pos>
    ensures { result ≡ position_at key.now (view value.now) }
{
    position(value.get(key)?)
}
