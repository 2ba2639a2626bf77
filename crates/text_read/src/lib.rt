// Numbers read from bytes, and the bits of floats.

#![tactic(auto)]

ghost use Rattle.std.specs.Prelude.{◌≡◌, ◌≤◌};
ghost use Rattle.std.specs.Float.{binary64};
ghost use Rattle.std.specs.Float.Ieee.{of_bits};
ghost use Rattle.text_read.specs.Fields.{between, digit_value, sized, read_number, read_decimal, read_hex16};
ghost use Rattle.text_read.specs.Patterns.{bits_of};

// A number that was read, with the place after it.
#[derive(Clone, Copy)]
pub struct Field {
    pub value: u64,
    pub next: usize,
}

// The bits of a float. For a NaN the contract does not say which bits.
// No `Option`: a NaN is a kind of float, and no value is absent.
#[derive(Clone, Copy)]
pub enum Bits {
    Pattern(u64),
    NaN,
}

pub fn bits_of(x: f64) -> Bits
    ensures { result ≡ bits_of x }
{
    if x == x {
        return Bits::Pattern(f64::to_bits(x));
    }
    Bits::NaN
}

// The bits of every NaN give a NaN.
pub fn float_of_bits(bits: u64) -> f64
    ensures { result ≡ of_bits binary64 bits }
{
    if bits % 0x8000_0000_0000_0000 <= 0x7ff0_0000_0000_0000 {
        return f64::from_bits(bits);
    }
    let infinity = f64::from_bits(0x7ff0_0000_0000_0000);
    infinity - infinity
}

fn is_between(low: u8, b: u8, high: u8) -> bool
    ensures { result ≡ between low b high }
{
    if b < low {
        return false;
    }
    b <= high
}

fn digit_value(b: u8) -> u64
    ensures { result ≡ digit_value b }
{
    if is_between(48, b, 57) {
        return (b - 48) as u64;
    }
    if is_between(97, b, 102) {
        return (b - 87) as u64;
    }
    if is_between(65, b, 70) {
        return (b - 55) as u64;
    }
    16
}

fn sized_field(least: usize, most: usize, count: usize, n: u64, next: usize) -> Option<Field>
    ensures { result ≡ sized least most count n next }
{
    if count < least {
        return None;
    }
    if most < count {
        return None;
    }
    Some(Field { value: n, next })
}

fn read_number(bytes: &[u8], at: usize, base: u64, least: usize, most: usize) -> Option<Field>
    requires { (1 ≤ base) × (base ≤ 16) }
    ensures { result ≡ read_number base least most bytes.now at }
{
    let mut n: u64 = 0;
    let end = at.max(bytes.len());
    for i in at..end {
        let b = bytes[i];
        if b == 32 {
            return sized_field(least, most, i - at, n, i);
        }
        let d = digit_value(b);
        if base <= d {
            return None;
        }
        if (u64::MAX - d) / base < n {
            return None;
        }
        n = base * n + d;
    }
    sized_field(least, most, end - at, n, end)
}

pub fn read_decimal(bytes: &[u8], at: usize) -> Option<Field>
    ensures { result ≡ read_decimal bytes.now at }
{
    read_number(bytes, at, 10, 1, 20)
}

pub fn read_hex16(bytes: &[u8], at: usize) -> Option<Field>
    ensures { result ≡ read_hex16 bytes.now at }
{
    read_number(bytes, at, 16, 16, 16)
}
