// An injection as launch crews speak it, taken to 1950.0 axes (02, R-4).

#![tactic(auto)]

ghost use Rattle.std.specs.Prelude.{true, ◌&&◌, ◌≡◌, ◌≤◌};
ghost use Rattle.hour.specs.Hour.{sidereal_answer};
ghost use Rattle.launch.specs.Signed.{signed_of};
ghost use Rattle.launch.specs.Sphere.{quarter, angles_allowed, parts_of, place_of, velocity_of, injected, sizes_allowed, injection_answer, sphere_answer};

use base::{CIRCLE, Refusal, require};
use launch_turns::{horizontal_velocity, place_on, relative_velocity, returned_state};
use state::{Injection, Vector};

// 90 degrees in parts.
const QUARTER: u64 = 900_000_000_000;

// An angle in parts; the flag says whether it is below zero.
#[derive(Clone, Copy)]
pub struct Signed {
    pub below: bool,
    pub parts: u64,
}

// Earth-fixed: radius in km and speed in km/s, angles in parts; longitude is counted eastward, azimuth from the north.
#[derive(Clone, Copy)]
pub struct Sphere {
    pub radius: f64,
    pub latitude: Signed,
    pub longitude: u64,
    pub speed: f64,
    pub path: Signed,
    pub azimuth: u64,
}

// A signed number of 64 bits, as in C.
pub fn signed_of(bits: u64) -> Signed
    ensures { result ≡ signed_of bits }
{
    if bits < 0x8000_0000_0000_0000 {
        return Signed {
            below: false,
            parts: bits,
        };
    }
    Signed {
        below: true,
        parts: 0xffff_ffff_ffff_ffff - bits + 1,
    }
}

fn parts_of(a: Signed) -> u64
    requires { a.parts ≤ quarter }
    ensures { result ≡ parts_of a }
{
    if a.below {
        if a.parts == 0 {
            return 0;
        }
        return CIRCLE - a.parts;
    }
    a.parts
}

fn angles_allowed(s: Sphere) -> bool
    ensures { result ≡ angles_allowed s }
{
    let latitude = s.latitude;
    let path = s.path;
    if latitude.parts <= QUARTER {
        if s.longitude < CIRCLE {
            if path.parts <= QUARTER {
                return s.azimuth < CIRCLE;
            }
        }
    }
    false
}

fn sizes_allowed(s: Sphere) -> bool
    ensures { result ≡ sizes_allowed s }
{
    if base::is_finite(s.radius) {
        if base::is_finite(s.speed) {
            return 0.0 < s.radius;
        }
    }
    false
}

fn fixed_place(s: Sphere) -> Vector
    requires { angles_allowed s ≡ true }
    ensures { result ≡ place_of s }
{
    let latitude = s.latitude;
    let f = sine::inner::of_parts(parts_of(latitude));
    let t = sine::inner::of_parts(s.longitude);
    place_on(s.radius, f, t)
}

fn fixed_velocity(s: Sphere) -> Vector
    requires { angles_allowed s ≡ true }
    ensures { result ≡ velocity_of s }
{
    let latitude = s.latitude;
    let path = s.path;
    let f = sine::inner::of_parts(parts_of(latitude));
    let t = sine::inner::of_parts(s.longitude);
    let g = sine::inner::of_parts(parts_of(path));
    let z = sine::inner::of_parts(s.azimuth);
    relative_velocity(f, t, horizontal_velocity(s.speed, g, z))
}

#[tactic(auto, unfolding(crate::specs::Sphere::injected))]
fn injected_state(s: Sphere, rule: u64, moment: u64, dut: u32, parts: u64) -> Injection
    requires { (sidereal_answer rule moment dut ≡ Ok parts) × (angles_allowed s ≡ true) }
    ensures { result ≡ injected s rule moment dut }
{
    let table = earth_rotation::inner::table_on(rule, moment, dut, parts);
    let w = earth_rotation::inner::rate_on(rule, moment, dut, parts);
    let place = fixed_place(s);
    let velocity = fixed_velocity(s);
    returned_state(moment, table, w, place, velocity)
}

#[tactic(auto, unfolding(crate::specs::Sphere::injection_answer))]
fn injection(s: Sphere, rule: u64, moment: u64, dut: u32, parts: u64) -> Result<Injection, Refusal>
    requires { sidereal_answer rule moment dut ≡ Ok parts }
    ensures { result ≡ injection_answer s rule moment dut }
{
    require(angles_allowed(s), Refusal::Angle)?;
    require(sizes_allowed(s), Refusal::NotFinite)?;
    let state = injected_state(s, rule, moment, dut, parts);
    require(state::injection_is_finite(state), Refusal::NotFinite)?;
    Ok(state)
}

#[tactic(auto, unfolding(crate::specs::Sphere::sphere_answer))]
pub fn from_sphere(s: Sphere, rule: u64, moment: u64, dut: u32) -> Result<Injection, Refusal>
    ensures { result ≡ sphere_answer s rule moment dut }
{
    let parts = hour::sidereal(rule, moment, dut)?;
    injection(s, rule, moment, dut, parts)
}
