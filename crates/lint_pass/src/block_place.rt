//! Which statements lie in a block that Alembic writes.

ghost use Rattle.std.specs.Prelude.{◌≡◌, ◌+◌, ◌<◌, length};
ghost use Rattle.lint_pass.specs.Blocks.{blocks_of};
ghost use Rattle.lint_pass.specs.BlockPlace.{ended_before, in_block};

use crate::blocks::Block;
use lint_ignore::Parse;

/// Whether statement `i` lies in a block of the text, its BEGIN and its end included; `next` says how many blocks end
/// before the statement, so that no other block is looked at.
#[inline]
pub fn is_in_block(_p: &Parse<'_>, blocks: &[Block], next: usize, i: u32) -> bool
    requires blocks { blocks.now ≡ blocks_of _p.now }
    requires within { i < length _p.now.stmts }
    requires next { next ≡ length (ended_before _p.now i) }
    ensures { result ≡ in_block _p.now i }
{
    next < blocks.len() && blocks[next].first <= i
}

/// How many blocks of the text end before the statement after `i`; `next` says how many end before statement `i`. A
/// walk begins with none.
#[inline]
pub fn blocks_ended_before(_p: &Parse<'_>, blocks: &[Block], next: usize, i: u32) -> usize
    requires blocks { blocks.now ≡ blocks_of _p.now }
    requires within { i < length _p.now.stmts }
    requires next { next ≡ length (ended_before _p.now i) }
    ensures { result ≡ length (ended_before _p.now (i + 1)) }
{
    if next < blocks.len() && blocks[next].last == i {
        next + 1
    } else {
        next
    }
}
