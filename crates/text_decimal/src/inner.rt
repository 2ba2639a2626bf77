// Numerals of floats below 10^12 in size, for a buffer with room for them. The writers put a text at a place of the
// buffer and return the place after it.

ghost use Rattle.std.specs.Prelude.{◌≡◌, false, ◌+◌, ◌*◌, ◌^◌, ◌≤◌, ◌<◌, leb, length};
ghost use Rattle.std.specs.Float.{binary64};
ghost use Rattle.std.specs.Float.Ieee.{of_bits};
ghost use Rattle.text_write.specs.Numerals.{digits};
ghost use Rattle.text_write.specs.Written.{Wrote};
ghost use Rattle.text_decimal.specs.Nearest.{Nearest};
ghost use Rattle.text_decimal.specs.Numeral.{count, unit_of, units_in, sign_of, is_large, numeral};

use crate::Places;
use text_write::inner::{put_bytes, put_decimal};

// 2^52, the leading digit of a float's 53.
const LEADING: u64 = 0x10_0000_0000_0000;

// m·unit / 2^(13 + shift) rounded to nearest. m·unit is high·2^12 plus the last 12 binary digits of low. h is that
// divided by 2^(12 + shift), so its last digit is the half.
fn scaled(m: u64, shift: u64, unit: u64) -> u64
    requires { (m < 2 ^ 53) × (shift < 64) × (unit ≤ 1_000_000) }
    ensures { Nearest (m * unit) (2 ^ 13 * 2 ^ shift) result }
{
    let low = m % 4096 * unit;
    let high = m / 4096 * unit + low / 4096;
    let h = high >> shift;
    let q = h / 2;
    if h % 2 == 0 {
        return q;
    }
    if 0 < low % 4096 {
        return q + 1;
    }
    if h << shift < high {
        return q + 1;
    }
    q + q % 2
}

// The size of a float, given by its bits, rounded to nearest, in units; `unit` of them make 1. If its exponent field
// is below 999, a float is less than 2^-76, so less than half a unit.
pub fn units(bits: u64, unit: u64) -> u64
    requires { (is_large (of_bits binary64 bits) ≡ false) × (unit ≤ 1_000_000) }
    ensures { result ≡ units_in unit (of_bits binary64 bits) }
{
    let magnitude = bits % 0x8000_0000_0000_0000;
    let field = magnitude / LEADING;
    if field < 999 {
        return 0;
    }
    scaled(magnitude % LEADING + LEADING, 1062 - field, unit)
}

pub fn unit_of(places: Places) -> u64
    ensures { (result ≡ unit_of places) × (result ≤ 1_000_000) × (1 ≤ result) }
{
    match places {
        Places::Three => 1_000,
        Places::Six => 1_000_000,
    }
}

// The last two digits of a number, and the last three.
pub fn put_two(out: &mut [u8], at: usize, n: u64) -> usize
    requires { at + 2 ≤ length out.old }
    ensures { Wrote out.old at (digits 10 2 n) out.new result }
{
    out[at] = (48 + n / 10 % 10) as u8;
    out[at + 1] = (48 + n % 10) as u8;
    at + 2
}

pub fn put_three(out: &mut [u8], at: usize, n: u64) -> usize
    requires { at + 3 ≤ length out.old }
    ensures { Wrote out.old at (digits 10 3 n) out.new result }
{
    out[at] = (48 + n / 100 % 10) as u8;
    put_two(out, at + 1, n)
}

fn put_places(out: &mut [u8], at: usize, places: Places, n: u64) -> usize
    requires { at + 6 ≤ length out.old }
    ensures { Wrote out.old at (digits 10 (count places) n) out.new result }
{
    match places {
        Places::Three => put_three(out, at, n),
        Places::Six => {
            let next = put_three(out, at, n / 1_000);
            put_three(out, next, n)
        }
    }
}

// "zero after rounding has no sign".
fn put_sign(out: &mut [u8], at: usize, bits: u64, q: u64) -> usize
    requires { at < length out.old }
    ensures { Wrote out.old at (sign_of (leb (2 ^ 63) bits) q) out.new result }
{
    if bits < 0x8000_0000_0000_0000 {
        return at;
    }
    if q == 0 {
        return at;
    }
    out[at] = 45;
    at + 1
}

// The numeral of a float, given by its bits: 21 bytes at most.
pub fn put_numeral(out: &mut [u8], at: usize, bits: u64, places: Places) -> usize
    requires bits_value { is_large (of_bits binary64 bits) ≡ false }
    requires at_in_bounds { at + 21 ≤ length out.old }
    ensures { Wrote out.old at (numeral places (of_bits binary64 bits)) out.new result }
{
    let unit = unit_of(places);
    let q = units(bits, unit);
    let whole = put_sign(out, at, bits, q);
    let point = put_decimal(out, whole, q / unit);
    let next = put_bytes(out, point, b".");
    put_places(out, next, places, q)
}
