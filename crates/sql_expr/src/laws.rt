//! Laws of the definitions.

ghost use Rattle.std.specs.Prelude.{◌≡◌, List};
ghost use Rattle.sql_tree.specs.sql_token.declared.terminal.Terminal.{Terminal};
ghost use Rattle.sql_tree.specs.Expression as spec;

/// The equation of an expression, which no number bounds: it is that of its shape, over the expressions in it.
#[tactic(auto, using(crate::proofs::Fuel::no_fuel))]
pub fn one_tree()
    ensures { (ts : List Terminal) → spec.expression_of ts ≡ spec.tree_by spec.expression_of ts (spec.shape_of ts) }
{}
