// The state of a spacecraft, the setting under which it moves, and the tests of both.

#![tactic(auto)]

ghost use Rattle.std.specs.Prelude.{◌≡◌};
ghost use Rattle.state.specs.State.{position, velocity, acceleration, starting_position, carrying, same_vector, n, finite_vector, finite_state, finite_injection, coefficients_allowed, terms_allowed, setting_allowed, coefficient_of, centre_allowed, used};

use state_tests::{bits_agree, coefficient_is_allowed, earth_is_allowed};
pub use state_tests::{is_body, is_looked_up};

#[derive(Clone, Copy)]
pub struct Vector {
    pub x: f64,
    pub y: f64,
    pub z: f64,
}

// A moment, with the position in km and the velocity in km/s. Both are seen from a centre: (02, R-6) the number of a
// body. (02, R-8) The acceleration about it, in km/s².
#[derive(Clone, Copy)]
pub struct State {
    pub moment: u64,
    pub centre: u64,
    pub x: f64,
    pub y: f64,
    pub z: f64,
    pub vx: f64,
    pub vy: f64,
    pub vz: f64,
    pub ax: f64,
    pub ay: f64,
    pub az: f64,
}

// (02, R-8) A state that has no acceleration yet.
#[derive(Clone, Copy)]
pub struct Injection {
    pub moment: u64,
    pub centre: u64,
    pub x: f64,
    pub y: f64,
    pub z: f64,
    pub vx: f64,
    pub vy: f64,
    pub vz: f64,
}

// The gravitational coefficients of the bodies 1 to 6 in km³/s², and DUT in milliseconds. (02, R-7) J and A in km for
// the oblate Earth, and K in km³/s² for sunlight. (02, R-9) The rule of the hour angle.
#[derive(Clone, Copy)]
pub struct Setting {
    pub earth: f64,
    pub moon: f64,
    pub sun: f64,
    pub venus: f64,
    pub mars: f64,
    pub jupiter: f64,
    pub dut: u32,
    pub j: f64,
    pub a: f64,
    pub k: f64,
    pub rule: u64,
}

pub fn position_of(s: State) -> Vector
    ensures { result ≡ position s }
{
    Vector {
        x: s.x,
        y: s.y,
        z: s.z,
    }
}

pub fn velocity_of(s: State) -> Vector
    ensures { result ≡ velocity s }
{
    Vector {
        x: s.vx,
        y: s.vy,
        z: s.vz,
    }
}

pub fn acceleration_of(s: State) -> Vector
    ensures { result ≡ acceleration s }
{
    Vector {
        x: s.ax,
        y: s.ay,
        z: s.az,
    }
}

pub fn starting_position(i: Injection) -> Vector
    ensures { result ≡ starting_position i }
{
    Vector {
        x: i.x,
        y: i.y,
        z: i.z,
    }
}

// An injection and its acceleration make a state.
pub fn carrying(i: Injection, a: Vector) -> State
    ensures { result ≡ carrying i a }
{
    State {
        moment: i.moment,
        centre: i.centre,
        x: i.x,
        y: i.y,
        z: i.z,
        vx: i.vx,
        vy: i.vy,
        vz: i.vz,
        ax: a.x,
        ay: a.y,
        az: a.z,
    }
}

// Whether two vectors are finite and have the same bits.
pub fn vectors_agree(u: Vector, v: Vector) -> bool
    ensures { result ≡ same_vector u v }
{
    if bits_agree(u.x, v.x) {
        if bits_agree(u.y, v.y) {
            return bits_agree(u.z, v.z);
        }
    }
    false
}

// The square of a vector's length.
pub fn square(v: Vector) -> f64
    ensures { result ≡ n v }
{
    (v.x * v.x + v.y * v.y) + v.z * v.z
}

pub fn vector_is_finite(v: Vector) -> bool
    ensures { result ≡ finite_vector v }
{
    if base::is_finite(v.x) {
        if base::is_finite(v.y) {
            return base::is_finite(v.z);
        }
    }
    false
}

pub fn state_is_finite(s: State) -> bool
    ensures { result ≡ finite_state s }
{
    if vector_is_finite(position_of(s)) {
        return vector_is_finite(velocity_of(s));
    }
    false
}

pub fn injection_is_finite(i: Injection) -> bool
    ensures { result ≡ finite_injection i }
{
    let v = Vector {
        x: i.vx,
        y: i.vy,
        z: i.vz,
    };
    if vector_is_finite(starting_position(i)) {
        return vector_is_finite(v);
    }
    false
}

fn coefficients_are_allowed(s: Setting) -> bool
    ensures { result ≡ coefficients_allowed s }
{
    if !earth_is_allowed(s.earth) {
        return false;
    }
    if !coefficient_is_allowed(s.moon) {
        return false;
    }
    if !coefficient_is_allowed(s.sun) {
        return false;
    }
    if !coefficient_is_allowed(s.venus) {
        return false;
    }
    if !coefficient_is_allowed(s.mars) {
        return false;
    }
    coefficient_is_allowed(s.jupiter)
}

fn terms_are_allowed(s: Setting) -> bool
    ensures { result ≡ terms_allowed s }
{
    if !coefficient_is_allowed(s.j) {
        return false;
    }
    if !coefficient_is_allowed(s.a) {
        return false;
    }
    coefficient_is_allowed(s.k)
}

pub fn setting_is_allowed(s: Setting) -> bool
    ensures { result ≡ setting_allowed s }
{
    if coefficients_are_allowed(s) {
        if terms_are_allowed(s) {
            if s.dut <= base::LONGEST_DUT {
                return s.rule <= hour::LAST_RULE;
            }
        }
    }
    false
}

// The coefficient of the body with that number; 0 if there is no such body.
pub fn coefficient_of(s: Setting, number: u64) -> f64
    ensures { result ≡ coefficient_of s number }
{
    match number {
        1 => s.earth,
        2 => s.moon,
        3 => s.sun,
        4 => s.venus,
        5 => s.mars,
        6 => s.jupiter,
        _ => 0.0,
    }
}

pub fn centre_is_allowed(s: Setting, centre: u64) -> bool
    ensures { result ≡ centre_allowed s centre }
{
    0.0 < coefficient_of(s, centre)
}

pub fn sun_shines(s: Setting) -> bool
    ensures { result ≡ used s.k }
{
    0.0 < s.k
}
