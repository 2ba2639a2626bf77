// A float taken apart for its root: its digits, and half its exponent.

#![tactic(auto)]

ghost use Rattle.std.specs.Prelude.{◌≡◌, ◌+◌, ◌*◌, ◌^◌, ◌≤◌, ◌<◌};
ghost use Rattle.root_split.specs.Parts.{Split, Room, Raised, Opened};

use root_digits::LEADING;

#[derive(Clone, Copy)]
pub struct Parts {
    pub m: u64,
    pub half: u64,
}

// digits·2^exponent.
#[derive(Clone, Copy)]
struct Scaled {
    digits: u64,
    exponent: u64,
}

// 2^53: a number of 53 digits is below it.
const TOP: u64 = 0x20_0000_0000_0000;

// digits·2^exponent with an even exponent.
fn split(digits: u64, exponent: u64) -> Parts
    requires { (2 ^ 52 ≤ digits) × (digits < 2 ^ 53) × (exponent ≤ 3067) }
    ensures { Split digits exponent result.m result.half }
{
    let half = exponent >> 1;
    if half + half < exponent {
        return Parts {
            m: digits + digits,
            half: half,
        };
    }
    Parts {
        m: digits,
        half: half,
    }
}

// The same number with its digits s places higher, if they have room for it.
fn raised(p: Scaled, s: u64) -> Scaled
    requires { (s ≤ 32) × Room (s + s) p.digits p.exponent }
    ensures { Raised s p.digits p.exponent result.digits result.exponent }
{
    if p.digits < TOP >> s {
        return Scaled {
            digits: p.digits << s,
            exponent: p.exponent - s,
        };
    }
    p
}

// Shifts the digits of a subnormal up until there are 53: by 32 places or not, then by 16, 8, 4, 2 and 1.
fn subnormal(bits: u64) -> Parts
    requires { (0 < bits) × (bits < 2 ^ 52) }
    ensures { Split bits 1022 result.m result.half }
{
    let given = Scaled {
        digits: bits,
        exponent: 1022,
    };
    let by_32 = raised(given, 32);
    let by_16 = raised(by_32, 16);
    let by_8 = raised(by_16, 8);
    let by_4 = raised(by_8, 4);
    let by_2 = raised(by_4, 2);
    let by_1 = raised(by_2, 1);
    split(by_1.digits, by_1.exponent)
}

// x as its digits and half its exponent. The result has no meaning unless x is finite and above zero.
pub fn opened(x: f64) -> Parts
    ensures { Opened x result.m result.half }
{
    if 0.0 < x {
        let bits = f64::to_bits(x);
        let field = bits >> 52;
        if field == 0 {
            return subnormal(bits);
        }
        if field < 2047 {
            return split(bits - (field << 52) + LEADING, field + 1021);
        }
    }
    Parts {
        m: LEADING,
        half: 0,
    }
}
