//! Levels of an expression's tree that hold one expression each.

ghost use Rattle.std.specs.Prelude.{◌≡◌, IfOk};
ghost use Rattle.sql_expr.specs.Levels as spec;

use sql_tree::{Expr, NoMemory};
use sqlite_items::{Boxed, Items};
use std::alloc::Global;

/// A kind of expression that holds one other expression.
#[derive(Clone, Copy)]
pub(crate) enum Level {
    Cast,
    Collate,
    IsNotNull,
}

/// The expression of this level that holds that one.
fn around(alloc: Global, level: Level, inner: Expr) -> Result<Expr, NoMemory>
    ensures { IfOk result (λ e. e ≡ spec.around level inner) }
{
    let held = Boxed::new(alloc, inner)?;
    match level {
        Level::Cast => Ok(Expr::Cast(held)),
        Level::Collate => Ok(Expr::Collate(held)),
        Level::IsNotNull => Ok(Expr::IsNotNull(held)),
    }
}

/// The expression of these levels, the outermost first, that hold that one.
#[tactic(auto, using(crate::proofs::Levels::one_more))]
pub(crate) fn all_around(alloc: Global, levels: Items<Level>, inner: Expr) -> Result<Expr, NoMemory>
    ensures { IfOk result (λ e. e ≡ spec.all_around levels inner) }
{
    let mut outer = levels;
    let mut expr = inner;
    while let Some(level) = outer.pop() {
        expr = around(alloc, level, expr)?;
    }
    Ok(expr)
}
