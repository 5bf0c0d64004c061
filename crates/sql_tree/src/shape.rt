//! How an expression is read, before the expressions in it are.

use sql_token::Span;

/// A reading of an expression (PostgreSQL manual, section 4.2), known by its own terminals alone. Places and lengths count
/// terminals: `from` is where an inner expression begins, and `len` how long it is.
#[derive(Clone, Copy, PartialEq, Eq)]
pub enum Shape {
    /// One constant.
    Literal,
    /// ARRAY and one bracket group.
    Array,
    /// Parts between operators, AND or OR.
    Bin,
    /// A path and a bracket list.
    Call { name: Option<u32>, no_args: bool },
    /// `inner :: type`, or CAST ( inner AS type ).
    Cast { from: usize, len: usize },
    /// `inner COLLATE name`, the inner expression being this long.
    Collate(usize),
    /// A path.
    Name(Span),
    /// `inner IS NOT NULL`, the inner expression being this long.
    IsNotNull(usize),
    /// Anything else.
    Other,
}
