// The numbers of a call's fields as the values that the crates below take. Each function requires enough numbers
// after its place.

ghost use Rattle.std.specs.Prelude.{◌≡◌, ◌+◌, ◌≤◌};
ghost use Rattle.line_values.specs.Values.{narrow, nth_float, vector_from, injection_from, state_from, unkept_from, old_setting, setting_from, guesses_from, sphere_from};

use gravity::Guesses;
use launch::{Sphere, signed_of};
use line_form::form::Numbers;
use state::{Injection, Setting, State, Vector};

// The reader has checked that the number fits 32 bits.
pub fn narrowed(number: u64) -> u32
    ensures { result ≡ narrow number }
{
    (number % 4_294_967_296) as u32
}

pub fn nth_float(v: &Numbers, i: usize) -> f64
    requires { i + 1 ≤ 30 }
    ensures { result ≡ nth_float v.now i }
{
    text_read::float_of_bits(v[i])
}

pub fn vector_from(v: &Numbers, i: usize) -> Vector
    requires { i + 3 ≤ 30 }
    ensures { result ≡ vector_from v.now i }
{
    Vector {
        x: nth_float(v, i),
        y: nth_float(v, i + 1),
        z: nth_float(v, i + 2),
    }
}

// Position and velocity from a field on.
pub fn injection_from(v: &Numbers, moment: u64, centre: u64, i: usize) -> Injection
    requires { i + 6 ≤ 30 }
    ensures { result ≡ injection_from v.now moment centre i }
{
    let p = vector_from(v, i);
    let w = vector_from(v, i + 3);
    Injection {
        moment,
        centre,
        x: p.x,
        y: p.y,
        z: p.z,
        vx: w.x,
        vy: w.y,
        vz: w.z,
    }
}

// A whole state from a field on: moment, centre, position, velocity and acceleration.
pub fn state_from(v: &Numbers, i: usize) -> State
    requires { i + 11 ≤ 30 }
    ensures { result ≡ state_from v.now i }
{
    let injection = injection_from(v, v[i], v[i + 1], i + 2);
    state::carrying(injection, vector_from(v, i + 8))
}

// For a call that does not read the acceleration: an old line has none, so it is zero.
pub fn unkept_from(v: &Numbers, moment: u64, i: usize) -> State
    requires { i + 6 ≤ 30 }
    ensures { result ≡ unkept_from v.now moment i }
{
    let none = Vector {
        x: 0.0,
        y: 0.0,
        z: 0.0,
    };
    state::carrying(injection_from(v, moment, 1, i), none)
}

// The first seven numbers are six coefficients and DUT. An old line has no other part of a setting: J, A and K are
// zero, and the rule is 0.
pub fn old_setting(v: &Numbers) -> Setting
    ensures { result ≡ old_setting v.now }
{
    Setting {
        earth: nth_float(v, 0),
        moon: nth_float(v, 1),
        sun: nth_float(v, 2),
        venus: nth_float(v, 3),
        mars: nth_float(v, 4),
        jupiter: nth_float(v, 5),
        dut: narrowed(v[6]),
        j: 0.0,
        a: 0.0,
        k: 0.0,
        rule: 0,
    }
}

// The first eleven numbers: after DUT come J, A, K and the rule.
pub fn setting_of(v: &Numbers) -> Setting
    ensures { result ≡ setting_from v.now }
{
    let mut setting = old_setting(v);
    setting.j = nth_float(v, 7);
    setting.a = nth_float(v, 8);
    setting.k = nth_float(v, 9);
    setting.rule = v[10];
    setting
}

pub fn guesses_from(v: &Numbers, i: usize) -> Guesses
    requires { i + 5 ≤ 30 }
    ensures { result ≡ guesses_from v.now i }
{
    Guesses {
        moon: v[i],
        sun: v[i + 1],
        venus: v[i + 2],
        mars: v[i + 3],
        jupiter: v[i + 4],
    }
}

// After the rule, DUT and the moment come radius, latitude, longitude, speed, path angle and azimuth.
pub fn sphere_of(v: &Numbers) -> Sphere
    ensures { result ≡ sphere_from v.now }
{
    let latitude = signed_of(v[4]);
    let path = signed_of(v[7]);
    Sphere {
        radius: nth_float(v, 3),
        latitude,
        longitude: v[5],
        speed: nth_float(v, 6),
        path,
        azimuth: v[8],
    }
}
