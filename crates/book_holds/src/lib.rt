// Whether a second book holds every entry of a first one with the same coefficients (02, R-12). Both books are in
// order, so one walk through the two decides it.

#![tactic(auto)]

mod entry;

ghost use Rattle.std.specs.Prelude.{true, ◌≡◌};
ghost use Rattle.book.specs.Passes.{passes};
ghost use Rattle.book_holds.specs.Answer.{first_missing, holds_answer};

use crate::entry::{held_at, reach};
use base::Refusal;
use base_bytes::inner::u32_at;
use book::book_passes;

// For two books that pass: the first entry of the first book that the second does not hold, counted from 0.
fn walk(first: &[u8], second: &[u8]) -> Option<usize>
    requires { (passes first.now ≡ true) × (passes second.now ≡ true) }
    ensures { result ≡ first_missing first.now second.now }
{
    let count = u32_at(first, 4) as usize;
    let mut j = 0;
    for i in 0..count {
        j = reach(first, i, second, j);
        if !held_at(first, i, second, j) {
            return Some(i);
        }
    }
    None
}

// The first entry of the first book that the second does not hold, if there is one.
#[tactic(auto, unfolding(crate::specs::Answer::holds_answer))]
pub fn book_holds(first: &[u8], second: &[u8]) -> Result<Option<usize>, Refusal>
    ensures { result ≡ holds_answer first.now second.now }
{
    if book_passes(first) && book_passes(second) {
        Ok(walk(first, second))
    } else {
        Err(Refusal::Book)
    }
}
