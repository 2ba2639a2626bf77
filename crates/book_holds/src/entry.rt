// An entry of the first book compared with the entries of the second. Both books pass.

ghost use Rattle.std.specs.Prelude.{true, ◌≡◌, ◌+◌, ◌*◌, ◌<◌, ◌≤◌, length};
ghost use Rattle.book.specs.Contents.{entry_count, entry_at};
ghost use Rattle.book.specs.Passes.{passes};
ghost use Rattle.book_holds.specs.Holds.{Copied, HasCopy};
ghost use Rattle.book_holds.specs.Walk.{Tells, Before, AllBefore, Reached, SameFields, SameBits};

use base_bytes::inner::{u16_at, u32_at, u64_at};
use book::inner::{offset_of, size_of};

// Compares entry j of the second book with entry i of the first, by body, then by start.
fn comes_before(second: &[u8], j: usize, first: &[u8], i: usize) -> bool
    requires { (entry_at j + 24 ≤ length second.now) × (entry_at i + 24 ≤ length first.now) }
    ensures { Tells result (Before second.now j first.now i) }
{
    let entry = 8 + 24 * j;
    let other = 8 + 24 * i;
    let place = (u16_at(second, entry), u64_at(second, entry + 8));
    place < (u16_at(first, other), u64_at(first, other + 8))
}

// The first entry of the second book, from j on, that does not come before entry i of the first.
pub fn reach(first: &[u8], i: usize, second: &[u8], j: usize) -> usize
    requires first_value { (passes first.now ≡ true) × (passes second.now ≡ true) }
    requires i_bound { (i < entry_count first.now) × (j ≤ entry_count second.now) }
    requires all_before { AllBefore second.now j first.now i }
    ensures { Reached second.now result first.now i }
{
    let count = u32_at(second, 4) as usize;
    for next in j..count {
        if !comes_before(second, next, first, i) {
            return next;
        }
    }
    count
}

fn same_fields(first: &[u8], i: usize, second: &[u8], j: usize) -> bool
    requires { (entry_at i + 24 ≤ length first.now) × (entry_at j + 24 ≤ length second.now) }
    ensures { Tells result (SameFields first.now second.now i j) }
{
    let entry = 8 + 24 * i;
    let other = 8 + 24 * j;
    u16_at(second, other) == u16_at(first, entry)
        && u16_at(second, other + 2) == u16_at(first, entry + 2)
        && u64_at(second, other + 8) == u64_at(first, entry + 8)
        && u64_at(second, other + 16) == u64_at(first, entry + 16)
}

// Compares the bits of n coefficients, so that 0.0 and -0.0 differ.
fn same_bits(first: &[u8], at: usize, second: &[u8], place: usize, n: usize) -> bool
    requires { (at + 8 * n ≤ length first.now) × (place + 8 * n ≤ length second.now) }
    ensures { Tells result (SameBits first.now at second.now place n) }
{
    second[place..place + 8 * n] == first[at..at + 8 * n]
}

fn same_entry(first: &[u8], i: usize, second: &[u8], j: usize) -> bool
    requires first_value { (passes first.now ≡ true) × (passes second.now ≡ true) }
    requires i_bound { (i < entry_count first.now) × (j < entry_count second.now) }
    ensures { Tells result (Copied first.now second.now i j) }
{
    if !same_fields(first, i, second, j) {
        return false;
    }
    let n = size_of(first, i);
    let at = offset_of(first, i);
    let place = offset_of(second, j);
    same_bits(first, at, second, place, 3 * n)
}

// Whether the second book holds entry i of the first. It can only be at the place that the walk has reached.
pub fn held_at(first: &[u8], i: usize, second: &[u8], j: usize) -> bool
    requires first_value { (passes first.now ≡ true) × (passes second.now ≡ true) }
    requires i_bound { (i < entry_count first.now) × Reached second.now j first.now i }
    ensures { Tells result (HasCopy first.now second.now i) }
{
    j < u32_at(second, 4) as usize && same_entry(first, i, second, j)
}
