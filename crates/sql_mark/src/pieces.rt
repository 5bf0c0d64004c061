//! Pieces: each begins at a mark of depth 0 and runs to before the next one.

ghost use Rattle.std.specs.Prelude.{◌≡◌, ◌≤◌, length};
ghost use Rattle.std.specs.Option.{option_copied};
ghost use Rattle.sql_tree.specs.Pieces as spec;
ghost use Rattle.sql_tree.specs.Split.{uncons};
ghost use Rattle.sql_mark.specs.Marks.{test_of, head_of};

use crate::column_marks::constraint_head;
use crate::parts::{Mark, before_after_head};
use sql_token::Terminal;
use std::marker::Model;

/// How many terminals of a piece's head follow its first one. No mark is looked for in a head.
fn head_of(mark: Mark, first: Terminal, after: &[Terminal]) -> usize
    ensures { result ≡ head_of mark first after.now }
{
    match mark {
        Mark::Constraint => constraint_head(first, after),
        _ => 0,
    }
}

fn piece_len(mark: Mark, terminals: &[Terminal]) -> usize
    ensures value { result ≡ spec.piece_len (test_of mark) (head_of mark) terminals.now }
    ensures within { result ≤ length terminals.now }
{
    match terminals {
        [] => 0,
        [first, rest @ ..] => {
            let head = head_of(mark, *first, rest);
            1 + before_after_head(mark, head, Some(*first), rest)
        }
    }
}

/// The pieces of a list, one after another. Contracts see the list of the pieces that are still to come.
#[derive(Drop)]
pub struct Pieces<'a> {
    mark: Mark,
    left: &'a [Terminal],
}

impl<'a> Model for Pieces<'a> {
    ghost use Rattle.std.specs.Prelude.{List};
    ghost use Rattle.sql_token.specs.declared.terminal.Terminal.{Terminal};

    ghost Value = { List (List Terminal) };

    ghost use Rattle.sql_mark.specs.PartsLeft.{pieces_left};

    ghost view = { pieces_left };
}

impl<'a> Pieces<'a> {
    /// The pieces of a list after `earlier`. What comes before the first piece is left out.
    #[tactic(auto, unfolding(sql_tree::specs::Pieces::pieces))]
    pub fn new(mark: Mark, earlier: Option<Terminal>, terminals: &'a [Terminal]) -> Pieces<'a>
        ensures { result ≡ spec.pieces (test_of mark) (head_of mark) earlier terminals.now }
    {
        let count = before_after_head(mark, 0, earlier, terminals);
        Pieces {
            mark,
            left: &terminals[count..],
        }
    }

    /// The next piece; `None` where none is left.
    #[tactic(auto, using(crate::proofs::Runs::first_piece))]
    pub fn next_piece(&mut self) -> Option<&'a [Terminal]>
        ensures { uncons self.old ≡ (option_copied result, self.new) }
    {
        if self.left.is_empty() {
            return None;
        }
        let count = piece_len(self.mark, self.left);
        let piece = &self.left[..count];
        self.left = &self.left[count..];
        Some(piece)
    }
}
