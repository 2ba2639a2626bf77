// The readers. Each requires that its bytes lie inside the slice.

ghost use Rattle.std.specs.Prelude.{true, ◌≡◌, ◌+◌, ◌≤◌, length};
ghost use Rattle.std.specs.Float.Ieee.Scale.{finite};
ghost use Rattle.base_bytes.specs.Bytes.{u16_at, u32_at, u64_at, float_at};

pub fn u16_at(book: &[u8], at: usize) -> u16
    requires { at + 2 ≤ length book.now }
    ensures { result ≡ u16_at book.now at }
{
    (book[at] as u16) + 256 * (book[at + 1] as u16)
}

pub fn u32_at(book: &[u8], at: usize) -> u32
    requires { at + 4 ≤ length book.now }
    ensures { result ≡ u32_at book.now at }
{
    (u16_at(book, at) as u32) + 65_536 * (u16_at(book, at + 2) as u32)
}

pub fn u64_at(book: &[u8], at: usize) -> u64
    requires { at + 8 ≤ length book.now }
    ensures { result ≡ u64_at book.now at }
{
    (u32_at(book, at) as u64) + 4_294_967_296 * (u32_at(book, at + 4) as u64)
}

// Requires bits that are not a NaN's. Every coefficient of a book that passes meets this.
pub fn float_at(book: &[u8], at: usize) -> f64
    requires at_in_bounds { at + 8 ≤ length book.now }
    requires at_value { finite (float_at book.now at) ≡ true }
    ensures { result ≡ float_at book.now at }
{
    f64::from_bits(u64_at(book, at))
}
