// The ephemeris book: its check, the lookup of a body's entry, and the position and velocity of a body.

#![tactic(auto)]

mod calm;
pub mod inner;

ghost use Rattle.std.specs.Prelude.{◌≡◌};
ghost use Rattle.book_check.specs.Passes.{passes};
ghost use Rattle.book.specs.Position.{position_answer};

use base::{END_OF_TIME, Refusal};
use base_bytes::inner::u32_at;
use book_check::inner::entries_pass;
pub use book_series::{Place, Velocity};

pub const LONGEST_BOOK: usize = 61_440;

// The position of a body, in km from the Earth, and (02, R-5) its velocity, in km/s.
#[derive(Clone, Copy)]
pub struct Motion {
    pub place: Place,
    pub velocity: Velocity,
}

pub fn book_passes(book: &[u8]) -> bool
    ensures { result ≡ passes book.now }
{
    let length = book.len();
    if !(8..=LONGEST_BOOK).contains(&length) {
        return false;
    }
    let total = u32_at(book, 0) as usize;
    let count = u32_at(book, 4) as usize;
    total == length && count <= (length - 8) / 24 && entries_pass(book, count)
}

pub fn position(book: &[u8], body: u64, moment: u64) -> Result<Motion, Refusal>
    ensures { result ≡ position_answer book.now body moment }
{
    if !book_passes(book) {
        return Err(Refusal::Book);
    }
    if END_OF_TIME <= moment {
        return Err(Refusal::Moment);
    }
    inner::body_at(book, body, moment, 0)
}
