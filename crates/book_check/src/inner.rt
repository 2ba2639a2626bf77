// Whether a book passes, in one pass over its bytes.

ghost use Rattle.std.specs.Prelude.{true, ◌&&◌, ◌≡◌, ◌+◌, ◌*◌, ◌<◌, ◌≤◌, length};
ghost use Rattle.base.specs.Choice.{◌≤?◌};
ghost use Rattle.base.specs.Limits.{end_of_time};
ghost use Rattle.book_check.specs.Contents.{stated_total, entry_count, entry_at, size_of, offset_of};
ghost use Rattle.book_check.specs.Passes.{passes, fields_allowed, longest_book};
ghost use Rattle.book_check.specs.Check.{bits_below, floats_below, floats_finite, entry_holds, in_order, next_in_order};

use base::END_OF_TIME;
use base_bytes::inner::{u16_at, u32_at, u64_at};

fn within(x: u16, low: u16, high: u16) -> bool
    ensures { result ≡ ((low ≤? x) && (x ≤? high)) }
{
    (low..=high).contains(&x)
}

fn times_allowed(start: u64, span: u64) -> bool
    ensures { result ≡ ((1 ≤? span) && (start + span ≤? end_of_time)) }
{
    1 <= span && start <= END_OF_TIME && span <= END_OF_TIME - start
}

pub fn fields_allowed(book: &[u8], i: usize) -> bool
    requires { entry_at i + 24 ≤ length book.now }
    ensures { result ≡ fields_allowed book.now i }
{
    let entry = 8 + 24 * i;
    within(u16_at(book, entry), 2, 6)
        && within(u16_at(book, entry + 2), 2, 16)
        && times_allowed(u64_at(book, entry + 8), u64_at(book, entry + 16))
}

// Without the sign, the bits of floats are in the order of their sizes.
fn bits_below(bits: u64, limit: u64) -> bool
    ensures { result ≡ bits_below limit bits }
{
    bits % 0x8000_0000_0000_0000 < limit
}

// An entry's count n.
pub fn size_of(book: &[u8], i: usize) -> usize
    requires { entry_at i + 24 ≤ length book.now }
    ensures { (result ≡ size_of book.now i) × (result < 65_536) }
{
    u16_at(book, 8 + 24 * i + 2) as usize
}

// The offset of an entry's block.
pub fn offset_of(book: &[u8], i: usize) -> usize
    requires { entry_at i + 24 ≤ length book.now }
    ensures { (result ≡ offset_of book.now i) × (result < 4_294_967_296) }
{
    u32_at(book, 8 + 24 * i + 4) as usize
}

// By `all` over the numbers, the check of a book took up to twice the time.
pub fn floats_below(book: &[u8], at: usize, n: usize, limit: u64) -> bool
    requires { at + 8 * n ≤ length book.now }
    ensures { result ≡ floats_below limit book.now at n }
{
    for k in 0..n {
        if !bits_below(u64_at(book, at + 8 * k), limit) {
            return false;
        }
    }
    true
}

// The bits of an infinity or a NaN are the greatest.
#[tactic(auto, using(crate::proofs::Below::finite_below))]
pub fn floats_finite(book: &[u8], at: usize, n: usize) -> bool
    requires { at + 8 * n ≤ length book.now }
    ensures { result ≡ floats_finite book.now at n }
{
    floats_below(book, at, n, 0x7ff0_0000_0000_0000)
}

fn entry_holds(book: &[u8], i: usize, place: usize) -> bool
    requires { (entry_at i + 24 ≤ length book.now) × (place ≤ length book.now) }
    ensures { result ≡ entry_holds book.now i place }
{
    if !fields_allowed(book, i) {
        return false;
    }
    let n = size_of(book, i);
    offset_of(book, i) == place && place + 24 * n <= book.len() && floats_finite(book, place, 3 * n)
}

fn in_order(book: &[u8], i: usize, j: usize) -> bool
    requires i_in_bounds { (entry_at i + 24 ≤ length book.now) × (entry_at j + 24 ≤ length book.now) }
    requires i_value { fields_allowed book.now i ≡ true }
    ensures { result ≡ in_order book.now i j }
{
    let entry = 8 + 24 * i;
    let next = 8 + 24 * j;
    let end = u64_at(book, entry + 8) + u64_at(book, entry + 16);
    (u16_at(book, entry), end) <= (u16_at(book, next), u64_at(book, next + 8))
}

// If all neighbours are in order, all entries are.
fn next_in_order(book: &[u8], i: usize, count: usize) -> bool
    requires i_lt_count { (i < count) × (entry_at count ≤ length book.now) }
    requires i_value { fields_allowed book.now i ≡ true }
    ensures { result ≡ next_in_order book.now i count }
{
    let next = i + 1;
    next == count || in_order(book, i, next)
}

// For a book of the stated length whose contents lie inside it.
pub fn entries_pass(book: &[u8], count: usize) -> bool
    requires book_len { (length book.now ≡ stated_total book.now) × (length book.now ≤ longest_book) }
    requires count_value { (count ≡ entry_count book.now) × (entry_at count ≤ length book.now) }
    ensures { result ≡ passes book.now }
{
    let mut place = 8 + 24 * count;
    for i in 0..count {
        if !entry_holds(book, i, place) {
            return false;
        }
        if !next_in_order(book, i, count) {
            return false;
        }
        place += 24 * size_of(book, i);
    }
    place == book.len()
}
