// A float as a decimal numeral of three or six places, rounded to nearest.

#![tactic(auto)]

pub mod inner;

ghost use Rattle.std.specs.Prelude.{◌≡◌};
ghost use Rattle.std.specs.Float.{binary64};
ghost use Rattle.std.specs.Float.Ieee.{of_bits};
ghost use Rattle.text_decimal.specs.Numeral.{is_large};

// How many places follow the point.
#[derive(Clone, Copy)]
pub enum Places {
    Three,
    Six,
}

// The bits of 10^12. Without the sign, the bits of floats are in the order of their sizes.
const LIMIT: u64 = 0x426d_1a94_a200_0000;

// Whether the float with these bits has "a magnitude of 10^12 or more". An infinity and a NaN have no numeral either.
pub fn is_large(bits: u64) -> bool
    ensures { result ≡ is_large (of_bits binary64 bits) }
{
    if bits % 0x8000_0000_0000_0000 < LIMIT {
        return false;
    }
    true
}
