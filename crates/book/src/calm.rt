// Whether the coefficients of a book are so small that no velocity can overflow (02, R-5).

ghost use Rattle.std.specs.Prelude.{true, ◌≡◌};
ghost use Rattle.book_check.specs.Passes.{passes};
ghost use Rattle.book.specs.Calm.{calm};

use base_bytes::inner::u32_at;
use book_check::inner::{floats_below, offset_of, size_of};

// The bits of 2^512.
const CALM_LIMIT: u64 = 0x5ff0_0000_0000_0000;

pub fn book_calm(book: &[u8]) -> bool
    requires { passes book.now ≡ true }
    ensures { result ≡ calm book.now }
{
    let count = u32_at(book, 4) as usize;
    for i in 0..count {
        if !floats_below(book, offset_of(book, i), 3 * size_of(book, i), CALM_LIMIT) {
            return false;
        }
    }
    true
}
