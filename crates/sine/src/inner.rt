// Sine and cosine of an angle that is known to lie within one circle. For the crates above; not a public call.

ghost use Rattle.std.specs.Prelude.{◌≡◌, ◌≤◌, ◌<◌};
ghost use Rattle.base.specs.Limits.{circle};
ghost use Rattle.sine.specs.Sine.{within, angle, S, C, column, sine_cosine};

use crate::SineCosine;

const OCTANT: u64 = 450_000_000_000;

// The distance of the angle from the nearer axis: odd octants are read backwards.
fn from_axis(q: u64, r: u64) -> u64
    requires { r < 450_000_000_000 }
    ensures { result ≡ within q r }
{
    if q % 2 == 0 {
        return r;
    }
    OCTANT - r
}

fn radians(x: u64) -> f64
    requires { x ≤ 450_000_000_000 }
    ensures { result ≡ angle x }
{
    x as f64 / 10_000_000_000.0 * 0.017453292519943295
}

fn sine_of(a: f64) -> f64
    ensures { result ≡ S a }
{
    let z = a * a;
    let mut h = 1.0 / 6_227_020_800.0;
    h = h * z + -1.0 / 39_916_800.0;
    h = h * z + 1.0 / 362_880.0;
    h = h * z + -1.0 / 5_040.0;
    h = h * z + 1.0 / 120.0;
    h = h * z + -1.0 / 6.0;
    h = h * z + 1.0 / 1.0;
    a * h
}

fn cosine_of(a: f64) -> f64
    ensures { result ≡ C a }
{
    let z = a * a;
    let mut h = -1.0 / 87_178_291_200.0;
    h = h * z + 1.0 / 479_001_600.0;
    h = h * z + -1.0 / 3_628_800.0;
    h = h * z + 1.0 / 40_320.0;
    h = h * z + -1.0 / 720.0;
    h = h * z + 1.0 / 24.0;
    h = h * z + -1.0 / 2.0;
    h * z + 1.0 / 1.0
}

fn both(sine: f64, cosine: f64) -> SineCosine
    ensures { result ≡ record { sine = sine; cosine = cosine } }
{
    SineCosine { sine, cosine }
}

// The table of signs: which of the two polynomials is the sine, and which the cosine.
fn of_octant(q: u64, s: f64, c: f64) -> SineCosine
    requires { q < 8 }
    ensures { result ≡ column q s c }
{
    match q {
        0 => both(s, c),
        1 => both(c, s),
        2 => both(c, -s),
        3 => both(s, -c),
        4 => both(-s, -c),
        5 => both(-c, -s),
        6 => both(-c, s),
        _ => both(-s, c),
    }
}

pub fn of_parts(parts: u64) -> SineCosine
    requires { parts < circle }
    ensures { result ≡ sine_cosine parts }
{
    let q = parts / OCTANT;
    let a = radians(from_axis(q, parts % OCTANT));
    of_octant(q, sine_of(a), cosine_of(a))
}
