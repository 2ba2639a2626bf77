// Document 01's sum within 64 bits. No division is by a variable: the fourth term's divisor is 10^15 and a small excess.

ghost use Rattle.std.specs.Prelude.{◌≡◌, ◌+◌, ◌*◌, ◌/◌, ◌<◌, ◌≤◌, ◌^◌};
ghost use Rattle.base.specs.Limits.{day_length, last_day};
ghost use Rattle.hour_rounding.specs.Fraction.{into_circle};
ghost use Rattle.hour_old.specs.Division.{EstimateOf};
ghost use Rattle.hour_old.specs.DocumentOne.{document_one};

use crate::Estimate;
use base::CIRCLE;

// The fourth term. The code divides by 10^15, so `quotient * excess` is still to be subtracted. It is less than `over` times 10^15.
// It may exceed 64 bits: it is `owed` times 2^20, less `rounded_up * excess`. 953_674_316 times 2^20 is 10^15 less 425_984.
fn fourth_term(t: u64, excess: u64) -> Estimate
    requires { (t < day_length) × (excess ≤ 521 * last_day) }
    ensures { EstimateOf (417_807_417 * 10 ^ 11 * t) (10 ^ 15 + excess) result }
{
    let turned = 417_807_417 * t;
    let quotient = turned / 10_000;
    let owed = (quotient / 1_048_576 + 1) * excess;
    let rounded_up = 1_048_576 - quotient % 1_048_576;
    let paid = owed / 953_674_316;
    let over = paid + 1;
    let more = turned % 10_000 * 100_000_000_000 + 425_984 * paid + (over + rounded_up) * excess;
    Estimate {
        quotient: quotient,
        over: over,
        rest: more + 1_000_000_000_000_000 - owed % 953_674_316 * 1_048_576,
    }
}

// A rest of the fourth term, in units of 10^-7 part. Division by 10^15 gives the units, or one too many.
fn fraction(rest: u64, excess: u64) -> u64
    requires { (rest < 3 * (10 ^ 15 + excess)) × (excess ≤ 521 * last_day) }
    ensures { result ≡ rest * 10 ^ 7 / (10 ^ 15 + excess) }
{
    let units = rest / 100_000_000;
    if units * excess <= rest % 100_000_000 * 10_000_000 {
        return units;
    }
    units - 1
}

// Adds the fractions of the third and the fourth term before the one rounding, which also carries the whole parts of the rest.
pub fn angle(d: u64, t: u64) -> u64
    requires { (d ≤ last_day) × (t < day_length) }
    ensures { result ≡ into_circle (document_one d t) }
{
    let excess = 521 * d;
    let turned = fourth_term(t, excess);
    let whole = 1_000_755_426_000 + 9_856_473_460 * d + turned.quotient - turned.over;
    let fractions = 29_015 * (d * d) + fraction(turned.rest, excess);
    (whole + fractions / 10_000_000) % CIRCLE
}
