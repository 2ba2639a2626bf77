// The lookup in a book that is known to pass.

ghost use Rattle.std.specs.Prelude.{true, ◌≡◌};
ghost use Rattle.book_check.specs.Passes.{passes};
ghost use Rattle.book_search.specs.Lookup.{lookup};

use crate::search::{Stand, search, stand_at};
use base_bytes::inner::u32_at;

// The guess only says where to look first. It may be an entry of another body, or beyond the contents.
pub fn lookup_guessed(book: &[u8], body: u64, moment: u64, guess: usize) -> Option<usize>
    requires { passes book.now ≡ true }
    ensures { result ≡ lookup book.now body moment }
{
    let count = u32_at(book, 4) as usize;
    if count <= guess {
        return search(book, body, moment, 0, count, count / 2);
    }
    let stand = stand_at(book, guess, body, moment);
    match stand {
        Stand::Covered => Some(guess),
        Stand::Past => search(book, body, moment, guess + 1, count, guess + 1),
        Stand::Before => {
            if guess == 0 {
                None
            } else {
                search(book, body, moment, 0, guess, guess - 1)
            }
        }
    }
}
