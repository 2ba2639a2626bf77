// The search for the entry that covers a moment, in a book that passes. Its entries are in order, so each turn rules
// out half of them.

ghost use Rattle.std.specs.Prelude.{true, ◌≡◌, ◌+◌, ◌≤◌, ◌<◌, length};
ghost use Rattle.book_check.specs.Contents.{entry_at};
ghost use Rattle.book_check.specs.Passes.{passes};
ghost use Rattle.book_search.specs.Lookup.{lookup};
ghost use Rattle.book_search.specs.Stands.{Stands, Narrowed};

use base_bytes::inner::{u16_at, u64_at};

// Where a body and a moment are relative to an entry, in the order of the contents.
#[derive(Clone, Copy)]
pub enum Stand {
    Past,
    Covered,
    Before,
}

pub fn stand_at(book: &[u8], i: usize, body: u64, moment: u64) -> Stand
    requires { entry_at i + 24 ≤ length book.now }
    ensures { Stands book.now i body moment result }
{
    let entry = 8 + 24 * i;
    let own = u16_at(book, entry) as u64;
    if own < body {
        return Stand::Past;
    }
    if body < own {
        return Stand::Before;
    }
    let start = u64_at(book, entry + 8);
    if moment < start {
        return Stand::Before;
    }
    if moment - start < u64_at(book, entry + 16) {
        Stand::Covered
    } else {
        Stand::Past
    }
}

// No entry below low and none from high on serves. The search looks at `first` first.
// A library's binary search begins in the middle of a slice of values. The entries are bytes, and a guess is nearly right.
pub fn search(
    book: &[u8],
    body: u64,
    moment: u64,
    low: usize,
    high: usize,
    first: usize,
) -> Option<usize>
    requires book_value { passes book.now ≡ true }
    requires narrowed { Narrowed book.now body moment low high first }
    ensures { result ≡ lookup book.now body moment }
{
    let mut low = low;
    let mut high = high;
    let mut probe = first;
    while low < high {
        let stand = stand_at(book, probe, body, moment);
        match stand {
            Stand::Covered => return Some(probe),
            Stand::Past => low = probe + 1,
            Stand::Before => high = probe,
        }
        probe = low + (high - low) / 2;
    }
    None
}
