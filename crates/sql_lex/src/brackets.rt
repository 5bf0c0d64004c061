//! The open brackets of a statement.

ghost use Rattle.std.specs.Prelude.{◌≡◌, ◌<◌, [], ◌∷◌, length, MatchOption};

use std::marker::Model;

/// The open brackets, the innermost first: of each, whether it is round. At most 128.
#[derive(Drop)]
pub struct Brackets {
    bits: u128,
    depth: u32,
}

impl Model for Brackets {
    ghost use Rattle.std.specs.Prelude.{List, Bool};

    ghost Value = { List Bool };

    ghost use Rattle.sql_lex.specs.Brackets.{open_brackets, IsValid};

    ghost view = { open_brackets };

    ghost invariant = { IsValid };
}

impl Brackets {
    pub fn new() -> Brackets
        ensures { result ≡ [] }
    {
        Brackets { bits: 0, depth: 0 }
    }

    /// How many are open.
    #[tactic(auto, using(crate::proofs::Bits::lengths))]
    pub fn len(&self) -> u32
        ensures { result ≡ length self.now }
    {
        self.depth
    }

    #[tactic(auto, using(crate::proofs::Bits::bits_fit))]
    pub fn push(&mut self, round: bool)
        requires { length self.old < 128 }
        ensures { self.new ≡ round ∷ self.old }
    {
        self.bits = 2 * self.bits + u128::from(round);
        self.depth += 1;
    }

    pub fn pop(&mut self) -> Option<bool>
        ensures { MatchOption result ((self.old ≡ []) × (self.new ≡ [])) (λ round. self.old ≡ round ∷ self.new) }
    {
        if self.depth == 0 {
            return None;
        }
        let round = self.bits % 2 == 1;
        self.bits /= 2;
        self.depth -= 1;
        Some(round)
    }
}
