//! The tree of an expression.

ghost use Rattle.std.specs.Prelude.{◌≡◌, IfOk};
ghost use Rattle.sql_expr.specs.Levels as held;
ghost use Rattle.sql_tree.specs.Expression as spec;

use crate::level::{Level, all_around};
use crate::shape::shape_of;
use sql_mark::{Mark, Parts};
use sql_tree::{Expr, NoMemory, Shape, Terminal};
use sqlite_items::Items;
use std::alloc::Global;

/// The expression that these terminals are, all of them.
#[tactic(auto, unfolding(sql_tree::specs::Expression::expression_of))]
pub fn read_expression(alloc: Global, terminals: &[Terminal]) -> Result<Expr, NoMemory>
    ensures { IfOk result (λ e. e ≡ spec.expression_of terminals.now) }
{
    tree(alloc, terminals.len() + 1, terminals)
}

/// The expression that these terminals are, where expressions nest less deep in it than `depth`.
#[cycle(tree)]
fn tree(alloc: Global, depth: usize, terminals: &[Terminal]) -> Result<Expr, NoMemory>
    ensures { IfOk result (λ e. e ≡ spec.tree depth terminals.now) }
{
    let mut levels = Items::new(alloc);
    let inner = innermost(alloc, depth, terminals, &mut levels)?;
    all_around(alloc, levels, inner)
}

/// The expression inside all levels that hold one expression. These levels are put after the others.
#[cycle(tree)]
#[tactic(auto, using(crate::proofs::Levels::one_more), unfolding(sql_tree::specs::Expression::tree))]
fn innermost(
    alloc: Global,
    depth: usize,
    terminals: &[Terminal],
    levels: &mut Items<Level>,
) -> Result<Expr, NoMemory>
    ensures { IfOk result (λ e. held.all_around levels.new e ≡ held.all_around levels.old (spec.tree depth terminals.now)) }
{
    let mut left = depth;
    let mut rest = terminals;
    while left > 0 {
        left -= 1;
        match shape_of(rest) {
            Shape::Literal => return Ok(Expr::Literal),
            Shape::Array => return Ok(Expr::Array),
            Shape::Bin => {
                let parts = parts_of(alloc, left, rest)?;
                return Ok(Expr::Bin(parts));
            }
            Shape::Call { name, no_args } => return Ok(Expr::Call { name, no_args }),
            Shape::Cast { from, len } => {
                levels.push(Level::Cast)?;
                rest = part(from, len, rest);
            }
            Shape::Collate(len) => {
                levels.push(Level::Collate)?;
                rest = part(0, len, rest);
            }
            Shape::Name(path) => return Ok(Expr::Name(path)),
            Shape::IsNotNull(len) => {
                levels.push(Level::IsNotNull)?;
                rest = part(0, len, rest);
            }
            Shape::Other => return Ok(Expr::Other),
        }
    }
    Ok(Expr::Other)
}

/// The parts between operators.
#[cycle(tree)]
fn parts_of(alloc: Global, depth: usize, terminals: &[Terminal]) -> Result<Items<Expr>, NoMemory>
    ensures { IfOk result (λ es. es ≡ spec.parts_of depth terminals.now) }
{
    let mut read = Items::new(alloc);
    let mut parts = Parts::new(Mark::Operator, terminals);
    while let Some(part) = parts.next_part() {
        let expr = tree(alloc, depth, part)?;
        read.push(expr)?;
    }
    Ok(read)
}

/// The terminals of a part that is shorter than the whole.
fn part(from: usize, len: usize, terminals: &[Terminal]) -> &[Terminal]
    ensures { result.now ≡ spec.part from len terminals.now }
{
    if from >= terminals.len() || len >= terminals.len() - from {
        return &[];
    }
    &terminals[from..from + len]
}
