// Numbers as text, written into a caller's buffer.
//
// The writers put a text at a place of the buffer and return the place after it. They are inner functions: the caller
// knows that there is room.

ghost use Rattle.std.specs.Prelude.{◌≡◌, ◌+◌, ◌≤◌, ◌<◌, length};
ghost use Rattle.text_write.specs.Numerals.{glyph, digits, hex16, decimal_of, float_text};
ghost use Rattle.text_write.specs.Written.{Wrote};

use text_read::{Bits, bits_of};

pub fn put_bytes(out: &mut [u8], at: usize, word: &[u8]) -> usize
    requires { at + length word.now ≤ length out.old }
    ensures { Wrote out.old at word.now out.new result }
{
    for i in 0..word.len() {
        out[at + i] = word[i];
    }
    at + word.len()
}

// A letter is 39 higher than a digit would be. There is no branch, so that many digits are computed side by side.
fn digit_byte(d: u64) -> u8
    requires { d < 16 }
    ensures { result ≡ glyph d }
{
    (48 + d + (d + 6) / 16 * 39) as u8
}

// The last two digits of n in a base. Functions for four and eight call it twice, the higher half first.
fn put_two(out: &mut [u8], at: usize, base: u64, n: u64) -> usize
    requires { (1 ≤ base) × (base ≤ 16) × (at + 2 ≤ length out.old) }
    ensures { Wrote out.old at (digits base 2 n) out.new result }
{
    out[at] = digit_byte(n / base % base);
    out[at + 1] = digit_byte(n % base);
    at + 2
}

fn put_four(out: &mut [u8], at: usize, base: u64, n: u64) -> usize
    requires { (1 ≤ base) × (base ≤ 16) × (at + 4 ≤ length out.old) }
    ensures { Wrote out.old at (digits base 4 n) out.new result }
{
    let next = put_two(out, at, base, n / (base * base));
    put_two(out, next, base, n)
}

fn put_eight(out: &mut [u8], at: usize, base: u64, n: u64) -> usize
    requires { (1 ≤ base) × (base ≤ 16) × (at + 8 ≤ length out.old) }
    ensures { Wrote out.old at (digits base 8 n) out.new result }
{
    let square = base * base;
    let next = put_four(out, at, base, n / (square * square));
    put_four(out, next, base, n)
}

pub fn put_hex16(out: &mut [u8], at: usize, bits: u64) -> usize
    requires { at + 16 ≤ length out.old }
    ensures { Wrote out.old at (hex16 bits) out.new result }
{
    let next = put_eight(out, at, 16, bits / 0x1_0000_0000);
    put_eight(out, next, 16, bits)
}

// The first digits of a number: one to four.
fn put_first(out: &mut [u8], at: usize, n: u64) -> usize
    requires { (n < 10_000) × (at + length (decimal_of n) ≤ length out.old) }
    ensures { Wrote out.old at (decimal_of n) out.new result }
{
    if n < 10 {
        out[at] = digit_byte(n);
        return at + 1;
    }
    if n < 100 {
        return put_two(out, at, 10, n);
    }
    if n < 1000 {
        out[at] = digit_byte(n / 100);
        return put_two(out, at + 1, 10, n);
    }
    put_four(out, at, 10, n)
}

// Writes four digits at a time after those of n / 10,000.
pub fn put_decimal(out: &mut [u8], at: usize, n: u64) -> usize
    requires { at + length (decimal_of n) ≤ length out.old }
    ensures { Wrote out.old at (decimal_of n) out.new result }
{
    if n < 10_000 {
        return put_first(out, at, n);
    }
    let next = put_decimal(out, at, n / 10_000);
    put_four(out, next, 10, n)
}

pub fn put_float(out: &mut [u8], at: usize, x: f64) -> usize
    requires { at + 16 ≤ length out.old }
    ensures { Wrote out.old at (float_text x) out.new result }
{
    let b = bits_of(x);
    match b {
        Bits::Pattern(bits) => put_hex16(out, at, bits),
        Bits::NaN => put_bytes(out, at, b"nan"),
    }
}
