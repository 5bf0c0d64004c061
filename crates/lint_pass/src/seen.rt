//! What a walk lends to its passes.

use crate::blocks::Block;
use lint_transaction::TablesCreatedInTransaction;

/// What the walk knows before a statement: the blocks of the text, where a pass looks at them, and the tables that the open
/// transaction created.
#[derive(Drop)]
pub struct Seen<'t> {
    pub blocks: Vec<Block>,
    pub created: TablesCreatedInTransaction<'t>,
}
