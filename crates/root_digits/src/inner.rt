// Roots of 53 binary digits, found from the highest digit down, for any number of floats side by side.

ghost use Rattle.std.specs.Prelude.{◌≡◌, ◌*◌, ◌^◌, ◌<◌, ◌≤◌, map};
ghost use Rattle.std.specs.List.{All};
ghost use Rattle.root_digits.specs.Digits.{LaneOf, Turning, TurnsTo, Turned, EndsAt, HasDigits, nearest_of};

use crate::{LEADING, Lane};

// Two digits a turn, after the first of 53.
const TURNS: u64 = 26;

// The lane with the digit of weight g / 2 found. The digit is 1 if the difference does not wrap. The test is on the
// sign, because the compiler makes no branch of it.
fn turn(s: Lane, g: u64) -> Lane
    requires { Turning 2 g s.v s.t }
    ensures { TurnsTo 2 g s.v s.t result.v result.t }
{
    let h = g >> 1;
    let v = s.v + s.v;
    let d = std::num::wrapping_sub_u64(v, s.t);
    if 0x8000_0000_0000_0000 <= d {
        return Lane { v: v, t: s.t - h };
    }
    Lane {
        v: d,
        t: s.t + g + h,
    }
}

// The lane with two more digits found.
fn two_turns(s: Lane, g: u64) -> Lane
    requires { Turning 4 g s.v s.t }
    ensures { TurnsTo 4 g s.v s.t result.v result.t }
{
    turn(turn(s, g), g >> 1)
}

// The lane of m·2^52, whose root has its first digit at 2^52.
fn first(m: u64) -> Lane
    requires { (2 ^ 52 ≤ m) × (m < 2 ^ 54) }
    ensures { LaneOf (m * 2 ^ 52) (2 ^ 52) result.v result.t }
{
    let w = m - LEADING;
    Lane {
        v: w + w,
        t: 0x50_0000_0000_0000,
    }
}

// The whole root that the digits make, or the next number if that is nearer.
fn last(s: Lane) -> u64
    requires { Turned s.v s.t }
    ensures { EndsAt s.v s.t result }
{
    let q = s.t >> 2;
    let w = s.v >> 1;
    if q < w { q + 1 } else { q }
}

// The whole numbers nearest the roots of m·2^52, for each m. The lanes do not wait for each other.
pub fn nearest_roots<const N: usize>(digits: [u64; N]) -> [u64; N]
    requires { All HasDigits digits }
    ensures { result ≡ map nearest_of digits.entry }
{
    let mut lanes = [Lane { v: 0, t: 0 }; N];
    for (k, s) in lanes.iter_mut().enumerate() {
        *s = first(digits[k]);
    }
    let mut g: u64 = LEADING;
    for _ in 0..TURNS {
        for s in lanes.iter_mut() {
            *s = two_turns(*s, g);
        }
        g = g >> 2;
    }
    let mut roots = digits;
    for (k, root) in roots.iter_mut().enumerate() {
        *root = last(lanes[k]);
    }
    roots
}
