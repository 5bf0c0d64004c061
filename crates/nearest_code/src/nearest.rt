//! The rule or the hazard whose name takes the fewest edits.
ghost use Rattle.std.specs.Prelude.{◌≡◌, ◌<◌, IfOk, length};
ghost use Rattle.nearest_code.specs.Nearest.{IsNearest, IsNearestOf, edits, near_code};

use crate::all::all_codes;
use lint_report::Code;
use std::alloc::{AllocError, Global};
use strsim::levenshtein;

// How many edits lead from a text to a name.
#[tactic(auto, unfolding(crate::specs::Nearest::edits))]
fn edits(alloc: Global, text: &str, code: Code) -> Result<usize, AllocError>
    ensures { IfOk result (λ count. count ≡ edits text.now code) }
{
    levenshtein(alloc, text, code.name())
}

// The rule or hazard of a list whose name takes the fewest edits.
fn nearest_in(alloc: Global, text: &str, codes: &[Code]) -> Result<Code, AllocError>
    requires { 0 < length codes.now }
    ensures { IfOk result (IsNearestOf codes.now text.now) }
{
    let mut nearest = codes[0];
    let mut least = edits(alloc, text, nearest)?;
    for i in 1..codes.len() {
        let count = edits(alloc, text, codes[i])?;
        if count < least {
            least = count;
            nearest = codes[i];
        }
    }
    Ok(nearest)
}

/// The rule or the hazard whose printed name is nearest to a text: the fewest characters must be put in, taken out or changed; of several
/// the first in declaration order, and a rule before a hazard. The time goes with the length of the text. The error comes when memory
/// runs out.
pub fn nearest_code(alloc: Global, text: &str) -> Result<Code, AllocError>
    ensures { IfOk result (IsNearest text.now) }
{
    let codes = all_codes(alloc)?;
    nearest_in(alloc, text, codes.as_slice())
}

/// The rule or hazard of [`nearest_code`], where no more than `most` characters must be put in, taken out or changed. The error comes
/// when memory runs out.
#[tactic(auto, using(crate::proofs::Near::near_found, crate::proofs::Near::near_none))]
pub fn near_code(alloc: Global, text: &str, most: usize) -> Result<Option<Code>, AllocError>
    ensures { IfOk result (λ code. code ≡ near_code most text.now) }
{
    let nearest = nearest_code(alloc, text)?;
    let count = edits(alloc, text, nearest)?;
    if count > most {
        return Ok(None);
    }
    Ok(Some(nearest))
}
