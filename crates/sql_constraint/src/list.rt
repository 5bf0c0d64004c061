//! Room for the lists of the tree. Most have one item, and an empty one takes no memory.

ghost use Rattle.std.specs.Prelude.{◌≡◌, [], ◌∷◌, ◌++◌, OnOk};

use sql_tree::{NoMemory, Terminal};

/// Makes room for the first item of a list, and for as many more as are between commas if each is as long as its
/// `part`. Room for more than eight is left to the pushes, since one short part may come before a very long one.
pub fn make_room<T>(
    items: &mut Vec<T>,
    part: &[Terminal],
    list: &[Terminal],
) -> Result<(), NoMemory>
    ensures { OnOk result (items.new.items ≡ items.old.items) }
{
    if items.is_empty() {
        let expected = 1 + list.len() / (part.len() + 1);
        items.reserve_exact(expected.min(8))?;
    }
    Ok(())
}

/// Puts an item after the others, where nothing tells how many there will be. The first two make room for just
/// themselves.
pub fn put<T: Drop>(items: &mut Vec<T>, item: T) -> Result<(), NoMemory>
    ensures { OnOk result (items.new.items ≡ items.old.items ++ item ∷ []) }
{
    if items.len() < 2 {
        items.reserve_exact(1)?;
    }
    items.push(item)?;
    Ok(())
}
