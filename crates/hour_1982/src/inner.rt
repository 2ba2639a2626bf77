// The IAU 1982 expression for Greenwich mean sidereal time, within 64 bits. T is s/SPAN - 1, and seconds start from
// 100 circles. Fractions are kept as digits of base SPAN until the one rounding.

ghost use Rattle.std.specs.Prelude.{◌≡◌, ◌+◌, ◌*◌, ◌<◌, ◌≤◌};
ghost use Rattle.base.specs.Limits.{day_length, last_day};
ghost use Rattle.hour_1982.specs.Century.{Spelled, RateSpelled, DaySpelled};
ghost use Rattle.hour_rounding.specs.Fraction.{into_circle};
ghost use Rattle.hour_1982.specs.Sidereal.{sidereal1982};

use crate::{DaySpans, Spans};
use base::CIRCLE;

const SPAN: u64 = 73_050;

fn in_spans(n: u64) -> Spans
    ensures { Spelled n result }
{
    let high = n / SPAN;
    Spans {
        whole: high / SPAN,
        first: high % SPAN,
        second: n % SPAN,
    }
}

// The rate, in units of 10^-16.
fn rate_in_spans(s: u64) -> Spans
    requires { s ≤ 109_573 }
    ensures { RateSpelled s result }
{
    let bend = in_spans(s * (590_178 * SPAN - 59 * s));
    Spans {
        whole: 10_027_379_092_917_831 + bend.whole,
        first: bend.first,
        second: bend.second,
    }
}

// The seconds at 0h UT, in units of 10^-7.
fn day_in_spans(s: u64) -> DaySpans
    requires { s ≤ 109_573 }
    ensures { DaySpelled s result }
{
    let bend = in_spans(s * (931_226 * SPAN - 62 * s));
    let slope = 86_401_846_266_394 + bend.whole;
    let third = s * bend.second;
    let second = s * bend.first + third / SPAN;
    let first = s * (slope % SPAN) + second / SPAN;
    DaySpans {
        whole: 239_258_286_542 + s * (slope / SPAN) + first / SPAN,
        first: first % SPAN,
        second: second % SPAN,
        third: third % SPAN,
    }
}

// Carries the fractions of the digits upward, so that only the last division rounds.
pub fn angle_1982(d: u64, t: u64) -> u64
    requires { (d ≤ last_day) × (t < day_length) }
    ensures { result ≡ into_circle (sidereal1982 d t) }
{
    let s = 2 * d + 36_525;
    let rate = rate_in_spans(s);
    let day = day_in_spans(s);
    let third = 1_000_000_000_000 * day.third / SPAN;
    let second = (1_000_000_000_000 * day.second + t * rate.second + third) / SPAN;
    let first = (1_000_000_000_000 * day.first + t * rate.first + second) / SPAN;
    let low = t * (rate.whole % 100_000_000) + first;
    let high = 10_000 * day.whole + t * (rate.whole / 100_000_000);
    (high + low / 100_000_000) / 2_400 % CIRCLE
}
